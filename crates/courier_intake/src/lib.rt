// The refusals of the courier's run before its steps (RULES 27): 1, with the list's length at place 6, 2 to 6, 22 and 7.
// Promises: for any bytes and any query the first reason, or none; nothing but the scratch is written, and that is zero afterwards.
// Rests on: the chain's tests in `audit`, `making`, `listed` and `intake`, the scratch of `departing`.
#![tactic(auto)]

ghost use Rattle.std.specs.Prelude.{◌≡◌, [], ◌∷◌, ◌*◌, length, replicate};
ghost use Rattle.journeys.specs.Tables.{tables_of};
ghost use Rattle.journeys.specs.Records.{record_count};
ghost use Rattle.journeys.specs.Refusals.{chain, table_lengths, contents, query_refusal};
ghost use Rattle.journeys.specs.CourierList.{list_refusal};
ghost use Rattle.journeys.specs.CourierAnswers.{courier_early};
ghost use Rattle.words.specs.Told.{told};
ghost use Rattle.records.specs.Asked.{query_of};
ghost use Rattle.courier_intake.specs.Lending.{courier_lent};

use records::Query;
use words::Refusal;

// Refusals 2 to 6, 22 and 7, of tables and a list that have their lengths: what the courier's two operations have in common.
// Where the list and the departing counts are right, one pass over the list shows both; only else the counts are counted and the list is judged place by place. The scratch may hold anything at the call.
pub fn contents_fault(
    vertices: &[u8],
    walks: &[u8],
    hops: &[u8],
    hop_size: usize,
    list: &[u8],
    q: Query,
    scratch: &mut [u16; 2048],
) -> Result<(), Refusal>
    requires hops_value { (table_lengths hop_size vertices.now walks.now hops.now).number ≡ 0 }
    requires list_len { length list.now ≡ 4 * record_count (tables_of hop_size vertices.now walks.now hops.now) }
    ensures result_value { told result ≡ chain (contents (tables_of hop_size vertices.now walks.now hops.now) ∷ list_refusal (tables_of hop_size vertices.now walks.now hops.now) list.now ∷ query_refusal (tables_of hop_size vertices.now walks.now hops.now) (query_of q) ∷ []) }
    ensures scratch_after { scratch.new ≡ replicate 2048 0 }
{
    if listed::sure(vertices, walks, hops, hop_size, list, &mut scratch[..]) {
        audit::contents_counted(vertices, walks, hops, hop_size, scratch)?;
        return intake::query_fault(walks, q);
    }
    audit::contents(vertices, walks, hops, hop_size, scratch)?;
    listed::fault(vertices, walks, hops, hop_size, list)?;
    intake::query_fault(walks, q)
}

// The whole chain of the run.
fn first_fault(
    vertices: &[u8],
    walks: &[u8],
    hops: &[u8],
    hop_size: usize,
    list: &[u8],
    held: &[u8],
    settled: &[u8],
    q: Query,
    scratch: &mut [u16; 2048],
) -> Result<(), Refusal>
    ensures { told result ≡ courier_early (courier_lent vertices.now walks.now hops.now hop_size list.now held.now settled.now) (query_of q) }
{
    audit::lengths(vertices, walks, hops, hop_size)?;
    intake::buffer_fault(held, settled)?;
    making::list_length(vertices, walks, hops, hop_size, list)?;
    contents_fault(vertices, walks, hops, hop_size, list, q, scratch)
}

// The same, and the scratch is cleared behind it. It may hold anything at the call.
pub fn courier_fault(
    vertices: &[u8],
    walks: &[u8],
    hops: &[u8],
    hop_size: usize,
    list: &[u8],
    held: &[u8],
    settled: &[u8],
    q: Query,
    scratch: &mut [u16; 2048],
) -> Result<(), Refusal>
    ensures result_value { told result ≡ courier_early (courier_lent vertices.now walks.now hops.now hop_size list.now held.now settled.now) (query_of q) }
    ensures scratch_after { scratch.new ≡ replicate 2048 0 }
{
    let fault = first_fault(
        vertices, walks, hops, hop_size, list, held, settled, q, scratch,
    );
    departing::clear(scratch);
    fault
}
