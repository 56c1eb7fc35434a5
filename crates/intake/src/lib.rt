// Refusals 1 to 7 (RULES 12): a chain of tests in the fixed order, each of which can stand in another chain.
// Promises: for any bytes and any query the first reason, or none; the scratch is zero afterwards.
// Rests on: the lengths and the contents of the tables (`audit`), the scratch of `departing`, the readers of `records`.
#![tactic(auto)]

ghost use Rattle.std.specs.Prelude.{◌≡◌, List, ℕ, ◌≤◌, replicate};
ghost use Rattle.journeys.specs.Tables.{tables_of};
ghost use Rattle.journeys.specs.Query as query;
ghost use Rattle.journeys.specs.Refusals.{buffer_lengths, query_refusal};
ghost use Rattle.journeys.specs.Answers.{early};
ghost use Rattle.words.specs.Told.{told};
ghost use Rattle.records.specs.Asked.{query_of};
ghost use Rattle.intake.specs.Lending.{lent};

use records::Query;
use words::{Reason, Refusal, Seconds, Ticks, refused};

// Refusal 1, places 3 and 4: a lent buffer is a whole number of records.
pub fn buffer_fault(held: &[u8], settled: &[u8]) -> Result<(), Refusal>
    ensures { told result ≡ buffer_lengths held.now settled.now }
{
    if held.len() % 16 != 0 {
        return refused(Reason::Length, 3);
    }
    if settled.len() % 8 != 0 {
        return refused(Reason::Length, 4);
    }
    Ok(())
}

// Refusal 7: the fields of the query, in their order. Of the tables it asks the walks alone.
pub fn query_fault(walks: &[u8], q: Query) -> Result<(), Refusal>
    ensures { (size : ℕ) (v h : List ℕ) → told result ≡ query_refusal (tables_of size v walks.now h) (query_of q) }
{
    let e = q.walk as usize;
    if walks.len() / 16 <= e {
        return refused(Reason::Query, 0);
    }
    let road = records::walk_at(walks, e);
    // The numbers are compared: with the order that is derived the proof did not close.
    if road.len.0 < q.offset.0 {
        return refused(Reason::Query, 1);
    }
    let arrival = q.arrival;
    if !(words::not_after(Seconds(0), arrival) & words::not_after(arrival, Seconds(172800))) {
        return refused(Reason::Query, 2);
    }
    if !((1 <= q.duration) & (q.duration <= 86400)) {
        return refused(Reason::Query, 3);
    }
    if !((1 <= q.speed) & (q.speed <= 100)) {
        return refused(Reason::Query, 4);
    }
    Ok(())
}

// D: the duration of a good query in ticks.
pub fn allowed(q: Query) -> Ticks
    requires { (q.duration ≤ 86400) × (q.speed ≤ 100) }
    ensures { result.0 ≡ query.allowed (query_of q) }
{
    words::ticks_of(Seconds(q.duration as i32), q.speed)
}

// Refusals 1 to 7: lengths first, of tables and of buffers, then the contents of the tables, then the query.
fn first_fault(
    vertices: &[u8],
    walks: &[u8],
    hops: &[u8],
    hop_size: usize,
    held: &[u8],
    settled: &[u8],
    q: Query,
    scratch: &mut [u16; 2048],
) -> Result<(), Refusal>
    ensures { told result ≡ early (lent vertices.now walks.now hops.now hop_size held.now settled.now) (query_of q) }
{
    audit::lengths(vertices, walks, hops, hop_size)?;
    buffer_fault(held, settled)?;
    audit::contents(vertices, walks, hops, hop_size, scratch)?;
    query_fault(walks, q)
}

// The same, and the scratch is cleared behind it. It may hold anything at the call.
pub fn input_fault(
    vertices: &[u8],
    walks: &[u8],
    hops: &[u8],
    hop_size: usize,
    held: &[u8],
    settled: &[u8],
    q: Query,
    scratch: &mut [u16; 2048],
) -> Result<(), Refusal>
    ensures result_value { told result ≡ early (lent vertices.now walks.now hops.now hop_size held.now settled.now) (query_of q) }
    ensures scratch_after { scratch.new ≡ replicate 2048 0 }
{
    let fault = first_fault(vertices, walks, hops, hop_size, held, settled, q, scratch);
    departing::clear(scratch);
    fault
}
