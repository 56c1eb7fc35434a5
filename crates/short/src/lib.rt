// The records of a row where room is scarce and the row is short, in either direction: all that are held are met, and only then the new ones that stay.
// Promises: the table then holds exactly the map of the definitions, or that map has no room; the marks are as before.
// Rests on: the row of `directed`, one look at an entry by `worktable`, a new entry where there is room by `blocks`, the clearing of `marks`.
#![tactic(auto)]

ghost use Rattle.std.specs.Prelude.{◌≡◌, ◌≢◌, true, not, cond, ◌&&◌, ℕ, ◌/◌, ◌<◌, ◌≤◌, eqb, ltb, length, get_or, set, replicate};
ghost use Rattle.journeys.specs.Counting.{one};
ghost use Rattle.worktable.specs.Map as map;
ghost use Rattle.worktable.specs.Map.{absent, touched, swept, remaining_of, distance_limit, Figure, put};
ghost use Rattle.worktable.specs.Table.{map_of, InOrder, PassedIs};
ghost use Rattle.passing.specs.Row.{passes};
ghost use Rattle.directed.specs.Directed.{near_of, brings_of, row_in, Passable, Near};
ghost use Rattle.meeting.specs.Passing.{missing, meets, leaving, left, Ready};
ghost use Rattle.meeting.specs.Answer as answer;
ghost use Rattle.meeting.specs.Answer.{Leads, ArrivedIs};
ghost use Rattle.blocks.specs.Lack.{is_new};
ghost use Rattle.short.specs.ShortRow.{lasting, KeptAll, Marked, Adding, AddedAll};

use blocks::{above, meet_in_room};
use directed::{Directed, brings_at, due_at, near_at};
use marks::clear;
use words::Ticks;
use worktable::{Passed, Table, drop, pass};

// 1 for a vertex that has no entry.
fn new_mark(told: Passed) -> u16
    ensures { result ≡ one (is_new told) }
{
    match told {
        Passed::Absent => 1,
        Passed::Kept => 0,
        Passed::Spent(_) => 0,
    }
}

// A spent vertex goes.
fn drop_spent(held: &mut [u8], t: Table, u: usize, allowed: Ticks, told: Passed) -> Table
    requires { InOrder t held.old × PassedIs allowed.0 t held.old u (map_of t held.old u) told }
    ensures { Leads t result held.new (put (map_of t held.old) u (swept allowed.0 (map_of t held.old u))) }
{
    match told {
        Passed::Spent(slot) => drop(held, t, u, slot),
        Passed::Kept => t,
        Passed::Absent => t,
    }
}

// Record j of the row, with u at its other end: it is marked where u is new, and met where u is held. A vertex that goes has no further record in the row.
fn touch_one(
    held: &mut [u8],
    t: Table,
    u: usize,
    offer: Ticks,
    allowed: Ticks,
    j: usize,
    marks: &mut [u16],
) -> Table
    requires { InOrder t held.old × Figure offer.0 × (map_of t held.old u ≢ absent → 0 < remaining_of (map_of t held.old u)) × (allowed.0 < distance_limit) × (length marks.old ≡ 2048) × (j < 2048) }
    ensures leads { Leads t result held.new (put (map_of t held.old) u (swept allowed.0 (touched offer.0 (map_of t held.old u)))) }
    ensures marks_after { marks.new ≡ set marks.old j (one (missing (map_of t held.old u))) }
{
    let told = pass(held, t, u, offer.0, allowed.0);
    marks[j] = new_mark(told);
    drop_spent(held, t, u, allowed, told)
}

// All that are held are met, and the records of the new ones are marked.
fn touch_row(
    held: &mut [u8],
    t: Table,
    vertices: &[u8],
    walks: &[u8],
    hops: &[u8],
    list: &[u8],
    row: Directed,
    marks: &mut [u16],
) -> Table
    requires { Ready vertices.now walks.now hops.now list.now row t held.old × (length marks.old ≡ 2048) × (passes row.arriving ≤ 2048) }
    ensures kept_all { KeptAll vertices.now walks.now hops.now list.now row t held.old held.new result }
    ensures marked { Marked (row_in vertices.now walks.now hops.now list.now row) (passes row.arriving) (map_of t held.old) marks.new }
{
    let n = row.arriving.walks + row.arriving.hops;
    let mut table = t;
    for j in 0..n {
        let u = near_at(walks, hops, list, row, j);
        let offer = brings_at(walks, hops, list, row, j);
        table = touch_one(held, table, u, offer, row.arriving.allowed, j, marks);
    }
    table
}

// 1 if record i has u at its other end and brings more than D.
fn over_at(walks: &[u8], hops: &[u8], list: &[u8], row: Directed, i: usize, u: usize) -> u32
    requires { Passable walks.now hops.now list.now row × (i < passes row.arriving) }
    ensures { result ≡ one (eqb (near_of walks.now hops.now list.now row i) u && ltb row.arriving.allowed.0 (brings_of walks.now hops.now list.now row i)) }
{
    if near_at(walks, hops, list, row, i) == u {
        return above(brings_at(walks, hops, list, row, i), row.arriving.allowed);
    }
    0
}

// Whether the new vertex u has an entry when the row is over: unless all its records are in the row and offer more than D.
fn lasts(vertices: &[u8], walks: &[u8], hops: &[u8], list: &[u8], row: Directed, u: usize) -> bool
    requires passable { Passable walks.now hops.now list.now row × (u < length vertices.now / 12) × (length vertices.now / 12 ≤ 65536) }
    requires arriving_bound { (leaving (row_in vertices.now walks.now hops.now list.now row) u (passes row.arriving) ≤ (row_in vertices.now walks.now hops.now list.now row).departing u) × (0 < leaving (row_in vertices.now walks.now hops.now list.now row) u (passes row.arriving)) }
    ensures { result ≡ lasting (row_in vertices.now walks.now hops.now list.now row) (passes row.arriving) u }
{
    let n = row.arriving.walks + row.arriving.hops;
    let mut hope = due_at(vertices, row, u);
    for i in 0..n {
        hope -= over_at(walks, hops, list, row, i, u);
    }
    hope != 0
}

// The same of the vertex u at the other end of record j: an offer within D tells it at once.
fn stays(
    vertices: &[u8],
    walks: &[u8],
    hops: &[u8],
    list: &[u8],
    row: Directed,
    j: usize,
    u: usize,
    offer: Ticks,
) -> bool
    requires passable { Passable walks.now hops.now list.now row × (u < length vertices.now / 12) × (length vertices.now / 12 ≤ 65536) × (j < passes row.arriving) × (u ≡ near_of walks.now hops.now list.now row j) × (offer.0 ≡ brings_of walks.now hops.now list.now row j) }
    requires arriving_bound { leaving (row_in vertices.now walks.now hops.now list.now row) u (passes row.arriving) ≤ (row_in vertices.now walks.now hops.now list.now row).departing u }
    ensures { result ≡ lasting (row_in vertices.now walks.now hops.now list.now row) (passes row.arriving) u }
{
    let allowed = row.arriving.allowed;
    if offer.0 <= allowed.0 {
        return true;
    }
    lasts(vertices, walks, hops, list, row, u)
}

// Record j, if it is marked and its vertex stays, is met.
fn add_one(
    held: &mut [u8],
    t: Table,
    vertices: &[u8],
    walks: &[u8],
    hops: &[u8],
    list: &[u8],
    row: Directed,
    j: usize,
    marks: &[u16],
) -> Option<Table>
    requires in_order { InOrder t held.old × Passable walks.now hops.now list.now row × Near vertices.now walks.now hops.now list.now row × (j < passes row.arriving) × (length marks.now ≡ 2048) × (j < 2048) }
    requires arriving_bound { get_or marks.now j 0 ≢ 0 → leaving (row_in vertices.now walks.now hops.now list.now row) (near_of walks.now hops.now list.now row j) (passes row.arriving) ≤ (row_in vertices.now walks.now hops.now list.now row).departing (near_of walks.now hops.now list.now row j) }
    requires nonzero { get_or marks.now j 0 ≢ 0 → lasting (row_in vertices.now walks.now hops.now list.now row) (passes row.arriving) (near_of walks.now hops.now list.now row j) ≡ true → (0 < left ((row_in vertices.now walks.now hops.now list.now row).departing (near_of walks.now hops.now list.now row j)) (map_of t held.old (near_of walks.now hops.now list.now row j))) × (map.one (meets (row_in vertices.now walks.now hops.now list.now row) j (map_of t held.old (near_of walks.now hops.now list.now row j))) ≡ 1) }
    ensures { ArrivedIs t held.new (put (map_of t held.old) (near_of walks.now hops.now list.now row j) (cond (not (eqb (get_or marks.now j 0) 0) && lasting (row_in vertices.now walks.now hops.now list.now row) (passes row.arriving) (near_of walks.now hops.now list.now row j)) (meets (row_in vertices.now walks.now hops.now list.now row) j (map_of t held.old (near_of walks.now hops.now list.now row j))) (map_of t held.old (near_of walks.now hops.now list.now row j)))) result }
{
    if marks[j] != 0 {
        let u = near_at(walks, hops, list, row, j);
        let offer = brings_at(walks, hops, list, row, j);
        if stays(vertices, walks, hops, list, row, j, u, offer) {
            return meet_in_room(held, t, vertices, row, u, offer);
        }
    }
    Some(t)
}

// The new vertices that stay are met. There is no room where one finds no free slot.
fn add(
    held: &mut [u8],
    t: Table,
    vertices: &[u8],
    walks: &[u8],
    hops: &[u8],
    list: &[u8],
    row: Directed,
    marks: &[u16],
) -> Option<Table>
    requires { Adding vertices.now walks.now hops.now list.now row marks.now t held.old × (length marks.now ≡ 2048) × (passes row.arriving ≤ 2048) }
    ensures { AddedAll vertices.now walks.now hops.now list.now row marks.now t held.old held.new result }
{
    let n = row.arriving.walks + row.arriving.hops;
    let mut table = t;
    for j in 0..n {
        table = add_one(held, table, vertices, walks, hops, list, row, j, marks)?;
    }
    Some(table)
}

// What was absent is marked before any drop makes room, so that no dropped vertex is met anew.
pub fn pass_row(
    held: &mut [u8],
    t: Table,
    vertices: &[u8],
    walks: &[u8],
    hops: &[u8],
    list: &[u8],
    row: Directed,
    marks: &mut [u16],
) -> Option<Table>
    requires { Ready vertices.now walks.now hops.now list.now row t held.old × (length marks.old ≡ 2048) × (passes row.arriving ≤ 2048) }
    ensures { answer.Passed vertices.now walks.now hops.now list.now row t held.old held.new result × (marks.new ≡ replicate 2048 0) }
{
    let kept = touch_row(held, t, vertices, walks, hops, list, row, marks);
    let ended = add(held, kept, vertices, walks, hops, list, row, marks);
    clear(marks);
    ended
}
