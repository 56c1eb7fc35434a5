// Before a step where room is scarce: every held vertex is touched, block by block, and how the number of entries is going to change.
// Promises: all are touched, and the block answered is the one to begin with: from it on, round to it again, the table never has more entries than before or after the step.
// Rests on: the counters of `blocks`, the row of `directed`, one look at an entry by `worktable`.
#![tactic(auto)]

ghost use Rattle.std.specs.Prelude.{◌≡◌, ◌≢◌, ◌⊎◌, not, cond, ◌&&◌, ℕ, ◌+◌, ◌-◌, ◌/◌, ◌%◌, ◌<◌, ◌≤◌, eqb, ltb, length, get_or, replicate};
ghost use Rattle.journeys.specs.Counting.{one};
ghost use Rattle.worktable.specs.Map.{absent, touched, remaining_of, distance_limit, Figure, put};
ghost use Rattle.worktable.specs.Table.{map_of, InOrder};
ghost use Rattle.directed.specs.Directed.{due_of, Numbered};
ghost use Rattle.meeting.specs.Passing.{missing, Ready};
ghost use Rattle.meeting.specs.Answer.{Leads};
ghost use Rattle.blocks.specs.Block.{in_block, stays_in, chance};
ghost use Rattle.surveys.specs.Survey.{tallied, Waiting, Surveyed, Gap, Started};

use blocks::{note, offer_in, stays};
use directed::{Directed, near_at};
use marks::clear;
use words::Ticks;
use worktable::{Passed, Table, pass};

// The tally of entries when one vertex comes or goes.
fn changed(before: bool, after: bool, tally: usize) -> usize
    requires { (0 < tally) × (tally < 9223372036854775808) }
    ensures { result ≡ (tally + one after) - one before }
{
    tally + usize::from(after) - usize::from(before)
}

// A record of the new vertex u is noted: it may come to stay with it, or turn out to be hopeless.
fn note_and_tally(
    vertices: &[u8],
    row: Directed,
    u: usize,
    offer: Ticks,
    tally: usize,
    counters: &mut [u16],
) -> usize
    requires { (u < length vertices.now / 12) × (0 < due_of vertices.now row u) × (length counters.old ≡ 2048) × (0 < tally) × (tally < 9223372036854775808) }
    ensures value { result ≡ tallied row.arriving.allowed.0 offer.0 (due_of vertices.now row u) (get_or counters.old (u % 2048) 0) tally absent }
    ensures by_index { (k : ℕ) → k < 2048 → get_or counters.new k 0 ≡ cond (eqb (u % 2048) k) (chance row.arriving.allowed.0 offer.0 (due_of vertices.now row u) (get_or counters.old k 0)) (get_or counters.old k 0) }
{
    let before = stays(counters, u);
    note(vertices, row, u, offer, counters);
    changed(before, stays(counters, u), tally)
}

// One record with u at its other end, if it is of the block, is passed, and nobody is dropped or entered. The tally tells how the number of entries is going to change.
fn survey_one(
    held: &mut [u8],
    t: Table,
    vertices: &[u8],
    row: Directed,
    u: usize,
    offer: Ticks,
    block: usize,
    tally: usize,
    counters: &mut [u16],
) -> usize
    requires in_order { InOrder t held.old × (u < length vertices.now / 12) × Figure offer.0 × (row.arriving.allowed.0 < distance_limit) × (length counters.old ≡ 2048) × (0 < tally) × (tally < 9223372036854775808) }
    requires nonzero { u / 2048 ≡ block → (map_of t held.old u ≢ absent → 0 < remaining_of (map_of t held.old u)) × (map_of t held.old u ≡ absent → 0 < due_of vertices.now row u) }
    ensures leads { Leads t t held.new (put (map_of t held.old) u (cond (in_block block u) (touched offer.0 (map_of t held.old u)) (map_of t held.old u))) }
    ensures value { result ≡ cond (in_block block u) (tallied row.arriving.allowed.0 offer.0 (due_of vertices.now row u) (get_or counters.old (u % 2048) 0) tally (map_of t held.old u)) tally }
    ensures by_index { (k : ℕ) → k < 2048 → get_or counters.new k 0 ≡ cond (in_block block u && (missing (map_of t held.old u) && eqb (u % 2048) k)) (chance row.arriving.allowed.0 offer.0 (due_of vertices.now row u) (get_or counters.old k 0)) (get_or counters.old k 0) }
{
    if u / 2048 == block {
        match pass(held, t, u, offer.0, row.arriving.allowed.0) {
            Passed::Absent => { return note_and_tally(vertices, row, u, offer, tally, counters) }
            Passed::Kept => return tally,
            Passed::Spent(_) => return tally - 1,
        }
    }
    tally
}

// All records of a block so. The tally starts at the number of records, so that it never falls below zero.
fn survey(
    held: &mut [u8],
    t: Table,
    vertices: &[u8],
    walks: &[u8],
    hops: &[u8],
    list: &[u8],
    row: Directed,
    block: usize,
    counters: &mut [u16],
) -> usize
    requires { Waiting vertices.now walks.now hops.now list.now row block t held.old × (counters.old ≡ replicate 2048 0) }
    ensures { Surveyed vertices.now walks.now hops.now list.now row block t held.old held.new result × (counters.new ≡ replicate 2048 0) }
{
    let n = row.arriving.walks + row.arriving.hops;
    let mut tally = n;
    for j in 0..n {
        let u = near_at(walks, hops, list, row, j);
        let offer = offer_in(walks, hops, list, row, j, u, block);
        tally = survey_one(held, t, vertices, row, u, offer, block, tally, counters);
    }
    clear(counters);
    tally
}

// The lesser of next and block, unless block is below first.
fn nearer(next: usize, block: usize, first: usize) -> usize
    ensures { (result ≤ next) × ((block < first) ⊎ (result ≤ block)) × (first ≤ next → first ≤ result) }
{
    if block < first {
        return next;
    }
    next.min(block)
}

// The lowest block from first on, and below end, that has a record in the row; or end. Blocks without one are left alone.
pub fn next_block(
    walks: &[u8],
    hops: &[u8],
    list: &[u8],
    row: Directed,
    first: usize,
    end: usize,
) -> usize
    requires { Numbered walks.now hops.now list.now row × (first ≤ «end») }
    ensures { (first ≤ result) × (result ≤ «end») × Gap walks.now hops.now list.now row first result }
{
    let n = row.arriving.walks + row.arriving.hops;
    let mut next = end;
    for j in 0..n {
        let u = near_at(walks, hops, list, row, j);
        next = nearer(next, u / 2048, first);
    }
    next
}

// The block to begin with: the one behind the highest tally so far.
fn better(best: usize, total: usize, start: usize, next: usize) -> usize
    ensures { result ≡ cond (ltb best total) next start }
{
    if best < total {
        return next;
    }
    start
}

// All blocks, ascending. The sum of the tallies starts at 65,536, so that it never falls below zero.
pub fn survey_all(
    held: &mut [u8],
    t: Table,
    vertices: &[u8],
    walks: &[u8],
    hops: &[u8],
    list: &[u8],
    row: Directed,
    counters: &mut [u16],
) -> usize
    requires { Ready vertices.now walks.now hops.now list.now row t held.old × (counters.old ≡ replicate 2048 0) }
    ensures { Started vertices.now walks.now hops.now list.now row t held.old held.new result × (counters.new ≡ replicate 2048 0) }
{
    let n = row.arriving.walks + row.arriving.hops;
    let mut total = 65536;
    let mut best = 65536;
    let mut start = 0;
    let mut block = next_block(walks, hops, list, row, 0, 32);
    // A while: it goes on to the next block that has a record, and leaves out the others.
    while block < 32 {
        let tally = survey(held, t, vertices, walks, hops, list, row, block, counters);
        total = total + tally - n;
        start = better(best, total, start, block + 1);
        best = best.max(total);
        block = next_block(walks, hops, list, row, block + 1, 32);
    }
    start
}
