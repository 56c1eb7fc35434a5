// The refusals of a run with a boarding time before its steps (RULES 29): 1, of the tables and of the list's buffer, 2 to 6, 7 with the boarding time as its last place, and 18.
// Promises: for any bytes, query and boarding time the first reason, or none. Nothing lent is written.
// Rests on: the chain's tests in `audit` and `intake`; its own are the list's buffer, the boarding time and the scratch.
#![tactic(auto)]

ghost use Rattle.std.specs.Prelude.{◌≡◌, [], ◌∷◌, ◌*◌, leb, length};
ghost use Rattle.journeys.specs.Tables.{tables_of, hop_count};
ghost use Rattle.journeys.specs.Refusals.{chain, unless, whole_of, table_lengths, contents, query_refusal};
ghost use Rattle.words.specs.Told.{told};
ghost use Rattle.records.specs.Asked.{query_of};
ghost use Rattle.boarding.specs.RideAnswers.{ride_early};
ghost use Rattle.ride_intake.specs.Lending.{ride_lent};

use records::Query;
use words::{Reason, Refusal, refused};

// Refusal 1, place 4: the list's buffer is a whole number of records.
fn list_fault(settled: &[u8]) -> Result<(), Refusal>
    ensures { told result ≡ unless (whole_of 8 settled.now) 1 4 }
{
    if settled.len() % 8 != 0 {
        return refused(Reason::Length, 4);
    }
    Ok(())
}

// Refusal 7, place 5, and 18: the boarding time is at most 600 s, and the scratch has 4 bytes for each hop.
fn mode_fault(
    vertices: &[u8],
    walks: &[u8],
    hops: &[u8],
    hop_size: usize,
    scratch: &[u8],
    boarding: u32,
) -> Result<(), Refusal>
    requires { (table_lengths hop_size vertices.now walks.now hops.now).number ≡ 0 }
    ensures { told result ≡ chain (unless (leb boarding 600) 7 5 ∷ unless (leb (4 * hop_count (tables_of hop_size vertices.now walks.now hops.now)) (length scratch.now)) 18 0 ∷ []) }
{
    let enough = 4 * (hops.len() / hop_size) <= scratch.len();
    if 600 < boarding {
        return refused(Reason::Query, 5);
    }
    if !enough {
        return refused(Reason::Scratch, 0);
    }
    Ok(())
}

// The whole chain.
pub fn ride_fault(
    vertices: &[u8],
    walks: &[u8],
    hops: &[u8],
    hop_size: usize,
    settled: &[u8],
    scratch: &[u8],
    q: Query,
    boarding: u32,
) -> Result<(), Refusal>
    ensures { told result ≡ ride_early (ride_lent vertices.now walks.now hops.now hop_size settled.now scratch.now) (query_of q) boarding }
{
    audit::lengths(vertices, walks, hops, hop_size)?;
    list_fault(settled)?;
    let mut counts = [0u16; 2048];
    audit::contents(vertices, walks, hops, hop_size, &mut counts)?;
    intake::query_fault(walks, q)?;
    mode_fault(vertices, walks, hops, hop_size, scratch, boarding)
}
