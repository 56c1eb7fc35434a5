// What the records of a settled vertex's row do to the working table, in either direction, where a slot is free for each of them that brings an entry.
// Promises: the table then holds exactly the map of the definitions.
// Rests on: the row of `directed`, one look at an entry by `worktable`.
#![tactic(auto)]

ghost use Rattle.std.specs.Prelude.{◌≡◌, false, not, ◌-◌, ◌<◌};
ghost use Rattle.journeys.specs.Counting.{one};
ghost use Rattle.worktable.specs.Map.{absent, known, distance_limit, put, swept, size};
ghost use Rattle.worktable.specs.Table.{map_of, PassedIs};
ghost use Rattle.passing.specs.Row.{passes};
ghost use Rattle.directed.specs.Directed.{due_of, row_in, Passable, Near};
ghost use Rattle.meeting.specs.Passing.{entered, met, futile, comers, left, Offered, Spacious, Ready};
ghost use Rattle.meeting.specs.Answer.{Leads, AllMet};

use directed::{Directed, brings_at, due_at, near_at};
use words::Ticks;
use worktable::{Passed, Table, drop, insert, pass};

// Whether a new vertex with so many records in all is hopeless with one of them: it has no other, and the offer is above D.
fn hopeless(due: u32, offer: Ticks, allowed: Ticks) -> bool
    ensures { result ≡ futile allowed.0 offer.0 due }
{
    (due < 2) & (allowed.0 < offer.0)
}

// A new vertex gets an entry, unless it is hopeless with its only record: then it takes no slot.
fn enter(held: &mut [u8], t: Table, vertices: &[u8], row: Directed, u: usize, offer: Ticks) -> Table
    requires in_order { Offered t held.old vertices.now u offer.0 × (map_of t held.old u ≡ absent) }
    requires u_nonzero { (0 < due_of vertices.now row u) × (futile row.arriving.allowed.0 offer.0 (due_of vertices.now row u) ≡ false → size (map_of t held.old) < t.room) }
    ensures { Leads t result held.new (put (map_of t held.old) u (swept row.arriving.allowed.0 (known offer.0 0 (due_of vertices.now row u - 1)))) }
{
    let due = due_at(vertices, row, u);
    if hopeless(due, offer, row.arriving.allowed) {
        return t;
    }
    insert(held, t, u, offer.0, due - 1)
}

// What is left to do for the vertex u of a record that has been passed: a new vertex is entered, a spent one is dropped.
pub fn enter_or_drop(
    held: &mut [u8],
    t: Table,
    vertices: &[u8],
    row: Directed,
    u: usize,
    offer: Ticks,
    told: Passed,
) -> Table
    requires in_order { Offered t held.old vertices.now u offer.0 × PassedIs row.arriving.allowed.0 t held.old u (map_of t held.old u) told }
    requires u_nonzero { map_of t held.old u ≡ absent → (0 < due_of vertices.now row u) × (futile row.arriving.allowed.0 offer.0 (due_of vertices.now row u) ≡ false → size (map_of t held.old) < t.room) }
    ensures { Leads t result held.new (put (map_of t held.old) u (entered row.arriving.allowed.0 offer.0 (due_of vertices.now row u) (map_of t held.old u))) }
{
    match told {
        Passed::Absent => enter(held, t, vertices, row, u, offer),
        Passed::Kept => t,
        Passed::Spent(slot) => drop(held, t, u, slot),
    }
}

// One record with u at its other end: u is newly met, or one record less remains to it. A vertex to which nothing remains is dropped where it is settled or known above D.
fn meet(held: &mut [u8], t: Table, vertices: &[u8], row: Directed, u: usize, offer: Ticks) -> Table
    requires in_order { Offered t held.old vertices.now u offer.0 × (row.arriving.allowed.0 < distance_limit) }
    requires nonzero { (0 < left (due_of vertices.now row u) (map_of t held.old u)) × (map_of t held.old u ≡ absent → futile row.arriving.allowed.0 offer.0 (due_of vertices.now row u) ≡ false → size (map_of t held.old) < t.room) }
    ensures { Leads t result held.new (put (map_of t held.old) u (met row.arriving.allowed.0 offer.0 (due_of vertices.now row u) (map_of t held.old u))) }
{
    let told = pass(held, t, u, offer.0, row.arriving.allowed.0);
    enter_or_drop(held, t, vertices, row, u, offer, told)
}

// 1 for a record that may bring a new entry.
fn comes(due: u32, offer: Ticks, allowed: Ticks) -> usize
    ensures { result ≡ one (not (futile allowed.0 offer.0 due)) }
{
    usize::from(!hopeless(due, offer, allowed))
}

// How many records of the row may bring a new entry.
pub fn most_comers(vertices: &[u8], walks: &[u8], hops: &[u8], list: &[u8], row: Directed) -> usize
    requires { Passable walks.now hops.now list.now row × Near vertices.now walks.now hops.now list.now row }
    ensures { result ≡ comers (row_in vertices.now walks.now hops.now list.now row) (passes row.arriving) }
{
    let n = row.arriving.walks + row.arriving.hops;
    let mut come = 0;
    for i in 0..n {
        let u = near_at(walks, hops, list, row, i);
        let offer = brings_at(walks, hops, list, row, i);
        let due = due_at(vertices, row, u);
        come += comes(due, offer, row.arriving.allowed);
    }
    come
}

// All records, one after the other. A vertex that is dropped has no further record in the row. The vertices of the next two records are read before this one is met: what is done to the table turns on
// its bytes, so that nothing behind it is begun early, and the courier's records stand all over the tables.
pub fn meet_all(
    held: &mut [u8],
    t: Table,
    vertices: &[u8],
    walks: &[u8],
    hops: &[u8],
    list: &[u8],
    row: Directed,
) -> Table
    requires { Ready vertices.now walks.now hops.now list.now row t held.old × Spacious (row_in vertices.now walks.now hops.now list.now row) (passes row.arriving) t.room (map_of t held.old) }
    ensures { AllMet vertices.now walks.now hops.now list.now row t held.old held.new result }
{
    let n = row.arriving.walks + row.arriving.hops;
    if n < 1 {
        return t;
    }
    let mut table = t;
    let mut u = near_at(walks, hops, list, row, 0);
    let mut next = near_at(walks, hops, list, row, (n - 1).min(1));
    for j in 0..n {
        let later = near_at(walks, hops, list, row, (j + 2).min(n - 1));
        let offer = brings_at(walks, hops, list, row, j);
        table = meet(held, table, vertices, row, u, offer);
        u = next;
        next = later;
    }
    table
}
