// The end of a step where room is scarce, for one block of 2,048 vertices: all that are held have been touched, the spent ones are dropped, and only then the new ones are added.
// Promises: the table then holds the map of the definitions for that block, or that map has no room; the other blocks and the counters are as before.
// Rests on: the row of `directed`, the entries of `meeting` and `worktable`, the clearing of `marks`.
#![tactic(auto)]

ghost use Rattle.std.specs.Prelude.{◌≡◌, true, cond, ◌&&◌, ℕ, ◌-◌, ◌/◌, ◌%◌, ◌<◌, ◌≤◌, eqb, ltb, length, get_or, replicate};
ghost use Rattle.journeys.specs.Counting.{one};
ghost use Rattle.worktable.specs.Map as map;
ghost use Rattle.worktable.specs.Map.{absent, swept, distance_limit, Figure, put, size};
ghost use Rattle.worktable.specs.Table.{map_of, InOrder};
ghost use Rattle.passing.specs.Row.{passes};
ghost use Rattle.directed.specs.Directed.{brings_of, due_of, Numbered, Passable};
ghost use Rattle.meeting.specs.Passing.{missing, met, left, Offered};
ghost use Rattle.meeting.specs.Answer.{Leads, ArrivedIs};
ghost use Rattle.blocks.specs.Block.{in_block, stays_in, chance, Noted, swept_block, added_block, block_over, Touched, Swept};
ghost use Rattle.blocks.specs.Lack.{is_new};

use directed::{Directed, brings_at, due_at, near_at};
use marks::clear;
use meeting::enter_or_drop;
use words::Ticks;
use worktable::{Passed, Table, drop, find, free, look, pass};

// 1 if an offer is above D.
pub fn above(offer: Ticks, allowed: Ticks) -> u32
    ensures { result ≡ one (ltb allowed.0 offer.0) }
{
    u32::from(allowed.0 < offer.0)
}

// What record j of the row brings, if the vertex u at its other end is of the block. Most records of a long row are of other blocks, and reckoning what they bring would take most of the time.
pub fn offer_in(
    walks: &[u8],
    hops: &[u8],
    list: &[u8],
    row: Directed,
    j: usize,
    u: usize,
    block: usize,
) -> Ticks
    requires { Passable walks.now hops.now list.now row × (j < passes row.arriving) }
    ensures { (u / 2048 ≡ block → result.0 ≡ brings_of walks.now hops.now list.now row j) × Figure result.0 }
{
    if u / 2048 == block {
        return brings_at(walks, hops, list, row, j);
    }
    Ticks(0)
}

// Whether the counter of u says that it stays.
pub fn stays(counters: &[u16], u: usize) -> bool
    requires { length counters.now ≡ 2048 }
    ensures { result ≡ stays_in counters.now (u % 2048) }
{
    counters[u % 2048] != 0
}

// One record of the new vertex u. Its counter goes down from all its records by each whose offer is above D: at 0 all of them are passed, and u is hopeless.
// Two bytes hold 65,535. Who has more records than that is never hopeless, for the row has no more: so the limit is felt only after the first record, and the counter stays above 0.
pub fn note(vertices: &[u8], row: Directed, u: usize, offer: Ticks, counters: &mut [u16])
    requires { (u < length vertices.now / 12) × (0 < due_of vertices.now row u) × (length counters.old ≡ 2048) }
    ensures { (k : ℕ) → k < 2048 → get_or counters.new k 0 ≡ cond (eqb (u % 2048) k) (chance row.arriving.allowed.0 offer.0 (due_of vertices.now row u) (get_or counters.old k 0)) (get_or counters.old k 0) }
{
    let k = u % 2048;
    let less = above(offer, row.arriving.allowed);
    if counters[k] == 0 {
        let due = due_at(vertices, row, u) - less;
        counters[k] = due.min(65535) as u16;
        return;
    }
    counters[k] = ((counters[k] as u32) - less) as u16;
}

fn note_one(
    held: &[u8],
    t: Table,
    vertices: &[u8],
    row: Directed,
    u: usize,
    offer: Ticks,
    block: usize,
    counters: &mut [u16],
)
    requires { InOrder t held.now × (u < length vertices.now / 12) × (length counters.old ≡ 2048) × (u / 2048 ≡ block → map_of t held.now u ≡ absent → 0 < due_of vertices.now row u) }
    ensures { (k : ℕ) → k < 2048 → get_or counters.new k 0 ≡ cond (in_block block u && (missing (map_of t held.now u) && eqb (u % 2048) k)) (chance row.arriving.allowed.0 offer.0 (due_of vertices.now row u) (get_or counters.old k 0)) (get_or counters.old k 0) }
{
    if u / 2048 != block {
        return;
    }
    if find(held, t, u).is_none() {
        note(vertices, row, u, offer, counters);
    }
}

// The new vertices of a block are noted, before the drops make room.
fn note_new(
    held: &[u8],
    t: Table,
    vertices: &[u8],
    walks: &[u8],
    hops: &[u8],
    list: &[u8],
    row: Directed,
    block: usize,
    counters: &mut [u16],
)
    requires { Touched vertices.now walks.now hops.now list.now row block t held.now × (counters.old ≡ replicate 2048 0) }
    ensures { Noted vertices.now walks.now hops.now list.now row block (map_of t held.now) counters.new }
{
    let n = row.arriving.walks + row.arriving.hops;
    for j in 0..n {
        let u = near_at(walks, hops, list, row, j);
        let offer = offer_in(walks, hops, list, row, j, u, block);
        note_one(held, t, vertices, row, u, offer, block, counters);
    }
}

fn sweep_one(held: &mut [u8], t: Table, u: usize, allowed: Ticks, block: usize) -> Table
    requires { InOrder t held.old × (allowed.0 < distance_limit) }
    ensures { Leads t result held.new (put (map_of t held.old) u (cond (in_block block u) (swept allowed.0 (map_of t held.old u)) (map_of t held.old u))) }
{
    if u / 2048 == block {
        match look(held, t, u, allowed.0) {
            Passed::Spent(slot) => return drop(held, t, u, slot),
            Passed::Kept => return t,
            Passed::Absent => return t,
        }
    }
    t
}

// The spent vertices of a block are dropped.
fn sweep(
    held: &mut [u8],
    t: Table,
    walks: &[u8],
    hops: &[u8],
    list: &[u8],
    row: Directed,
    block: usize,
) -> Table
    requires { InOrder t held.old × Numbered walks.now hops.now list.now row × (row.arriving.allowed.0 < distance_limit) }
    ensures { Leads t result held.new (swept_block walks.now hops.now list.now row block (map_of t held.old)) }
{
    let n = row.arriving.walks + row.arriving.hops;
    let mut table = t;
    for j in 0..n {
        let u = near_at(walks, hops, list, row, j);
        table = sweep_one(held, table, u, row.arriving.allowed, block);
    }
    table
}

// Whether a vertex, of which that is told, is new and finds no free slot.
fn lacks_slot(held: &[u8], t: Table, told: Passed) -> bool
    requires { InOrder t held.now }
    ensures { result ≡ (is_new told && eqb (t.room - size (map_of t held.now)) 0) }
{
    match told {
        Passed::Absent => free(held, t) == 0,
        Passed::Kept => false,
        Passed::Spent(_) => false,
    }
}

// One record with u at its other end, which has an entry after it. There is no room where u is new and finds no free slot.
pub fn meet_in_room(
    held: &mut [u8],
    t: Table,
    vertices: &[u8],
    row: Directed,
    u: usize,
    offer: Ticks,
) -> Option<Table>
    requires in_order { Offered t held.old vertices.now u offer.0 × (row.arriving.allowed.0 < distance_limit) }
    requires nonzero { (0 < left (due_of vertices.now row u) (map_of t held.old u)) × (map.one (met row.arriving.allowed.0 offer.0 (due_of vertices.now row u) (map_of t held.old u)) ≡ 1) }
    ensures { ArrivedIs t held.new (put (map_of t held.old) u (met row.arriving.allowed.0 offer.0 (due_of vertices.now row u) (map_of t held.old u))) result }
{
    let told = pass(held, t, u, offer.0, row.arriving.allowed.0);
    if lacks_slot(held, t, told) {
        return None;
    }
    Some(enter_or_drop(held, t, vertices, row, u, offer, told))
}

// One record of a vertex of the block.
fn add_one(
    held: &mut [u8],
    t: Table,
    vertices: &[u8],
    row: Directed,
    u: usize,
    offer: Ticks,
    counters: &[u16],
) -> Option<Table>
    requires in_order { Offered t held.old vertices.now u offer.0 × (length counters.now ≡ 2048) × (row.arriving.allowed.0 < distance_limit) }
    requires nonzero { stays_in counters.now (u % 2048) ≡ true → (0 < left (due_of vertices.now row u) (map_of t held.old u)) × (map.one (met row.arriving.allowed.0 offer.0 (due_of vertices.now row u) (map_of t held.old u)) ≡ 1) }
    ensures { ArrivedIs t held.new (put (map_of t held.old) u (cond (stays_in counters.now (u % 2048)) (met row.arriving.allowed.0 offer.0 (due_of vertices.now row u) (map_of t held.old u)) (map_of t held.old u))) result }
{
    if stays(counters, u) {
        return meet_in_room(held, t, vertices, row, u, offer);
    }
    Some(t)
}

// The new vertices of a block that stay are met. There is no room where one finds no free slot. Most records of a long row are of other blocks: they are passed by before the table is handed on.
fn add(
    held: &mut [u8],
    t: Table,
    vertices: &[u8],
    walks: &[u8],
    hops: &[u8],
    list: &[u8],
    row: Directed,
    block: usize,
    counters: &[u16],
) -> Option<Table>
    requires { Swept vertices.now walks.now hops.now list.now row block counters.now t held.old × (length counters.now ≡ 2048) }
    ensures { ArrivedIs t held.new (added_block vertices.now walks.now hops.now list.now row block counters.now (map_of t held.old)) result }
{
    let n = row.arriving.walks + row.arriving.hops;
    let mut table = t;
    for j in 0..n {
        let u = near_at(walks, hops, list, row, j);
        if u / 2048 != block {
            continue;
        }
        let offer = brings_at(walks, hops, list, row, j);
        table = add_one(held, table, vertices, row, u, offer, counters)?;
    }
    Some(table)
}

// What was absent is noted before the drops make room, so that no dropped vertex is met anew.
pub fn end_block(
    held: &mut [u8],
    t: Table,
    vertices: &[u8],
    walks: &[u8],
    hops: &[u8],
    list: &[u8],
    row: Directed,
    block: usize,
    counters: &mut [u16],
) -> Option<Table>
    requires { Touched vertices.now walks.now hops.now list.now row block t held.old × (counters.old ≡ replicate 2048 0) }
    ensures { ArrivedIs t held.new (block_over vertices.now walks.now hops.now list.now row block (map_of t held.old)) result × (counters.new ≡ replicate 2048 0) }
{
    note_new(held, t, vertices, walks, hops, list, row, block, counters);
    let swept = sweep(held, t, walks, hops, list, row, block);
    let ended = add(
        held, swept, vertices, walks, hops, list, row, block, counters,
    );
    clear(counters);
    ended
}
