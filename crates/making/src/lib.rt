// The list of records by "from" as an operation over bytes: the tables are judged as by the check, then the list is made.
// Promises: for all byte strings of all lengths the refusal or every byte of the list; a refusal leaves the target as it was; the lent scratch is zero afterwards.
// Rests on: the check (`audit`), the making (`listing`), refusals by reason and place (`words`).
#![tactic(auto)]

ghost use Rattle.std.specs.Prelude.{◌≡◌, ◌≤◌, length, replicate};
ghost use Rattle.journeys.specs.Tables.{tables_of};
ghost use Rattle.journeys.specs.Refusals.{table_lengths};
ghost use Rattle.journeys.specs.CourierList.{list_length};
ghost use Rattle.words.specs.Told.{told};
ghost use Rattle.audit.specs.Judging.{Sizes};
ghost use Rattle.journeys.specs.CourierMaking.{making_refusal, made};

use audit::{contents, lengths};
use departing::clear;
use listing::make;
use records::WALK_SIZE;
use words::{Reason, Refusal, refused};

// Refusal 1, place 6: one number of four bytes for each record. The tables are whole.
pub fn list_length(
    vertices: &[u8],
    walks: &[u8],
    hops: &[u8],
    hop_size: usize,
    list: &[u8],
) -> Result<(), Refusal>
    requires { Sizes hop_size vertices.now walks.now hops.now }
    ensures { told result ≡ list_length (tables_of hop_size vertices.now walks.now hops.now) list.now }
{
    if list.len() != 4 * (walks.len() / WALK_SIZE + hops.len() / hop_size) {
        return refused(Reason::Length, 6);
    }
    Ok(())
}

// What is refused is refused before anything is written.
fn checked_list(
    vertices: &[u8],
    walks: &[u8],
    hops: &[u8],
    hop_size: usize,
    list: &mut [u8],
    scratch: &mut [u16; 2048],
) -> Result<(), Refusal>
    ensures result_value { told result ≡ making_refusal hop_size vertices.now walks.now hops.now list.old }
    ensures list_after { list.new ≡ (made hop_size vertices.now walks.now hops.now list.old).list }
{
    lengths(vertices, walks, hops, hop_size)?;
    list_length(vertices, walks, hops, hop_size, list)?;
    contents(vertices, walks, hops, hop_size, scratch)?;
    make(vertices, walks, hops, hop_size, list, scratch);
    Ok(())
}

// The same, and the scratch is cleared behind it. It may hold anything at the call.
pub fn courier_list(
    vertices: &[u8],
    walks: &[u8],
    hops: &[u8],
    hop_size: usize,
    list: &mut [u8],
    scratch: &mut [u16; 2048],
) -> Result<(), Refusal>
    ensures result_value { told result ≡ making_refusal hop_size vertices.now walks.now hops.now list.old }
    ensures list_after { list.new ≡ (made hop_size vertices.now walks.now hops.now list.old).list }
    ensures scratch_after { scratch.new ≡ replicate 2048 0 }
{
    let refusal = checked_list(vertices, walks, hops, hop_size, list, scratch);
    clear(scratch);
    refusal
}
