// One step of the run, in either direction: the foremost vertex of the working table is settled, and its row is passed, the records that arrive at it or for the courier those that leave it.
// Promises: the map after the step and the record that it lists, or the refusal of the lowest number that lacks room, with the step.
// Rests on: the working table (`worktable`), `arrivals`, the readers and writers of `records`, the places of `stretches`.
#![tactic(auto)]

ghost use Rattle.std.specs.Prelude.{◌≡◌, ◌+◌, ◌/◌, ◌<◌, ◌≤◌, length, replicate};
ghost use Rattle.journeys.specs.Counting.{none};
ghost use Rattle.worktable.specs.Map.{state_of, distance_of};
ghost use Rattle.worktable.specs.Table.{map_of, InOrder, Place};
ghost use Rattle.meeting.specs.Answer.{Leads, ArrivedIs};
ghost use Rattle.listing.specs.Places.{Sound};
ghost use Rattle.heldmap.specs.Model.{Standing, arriving_at, settled_now};
ghost use Rattle.heldmap.specs.RowsOfTables.{Lists, stretch_in, numbers_at, walks_in, hops_in, directed_at};
ghost use Rattle.stepping.specs.Taken.{NextIs, Begins, map_after, StepMade};

use directed::Directed;
use passing::Arriving;
use records::Kind;
use stretches::Stretch;
use words::{Reason, Refusal, Seconds, Ticks};
use worktable::{Nearest, Table};

// Where the run stands: the table, and how many vertices are listed.
#[derive(Clone, Copy)]
pub struct Progress {
    pub table: Table,
    pub settled: usize,
}

// The vertex v at its slot is settled, and dropped at once where nothing of it remains.
fn settle_next(held: &mut [u8], t: Table, v: usize, slot: usize) -> Table
    requires { InOrder t held.old × Place t held.old v slot × (state_of (map_of t held.old v) ≡ 0) × (distance_of (map_of t held.old v) < none) }
    ensures { Leads t result held.new (settled_now (map_of t held.old) v) }
{
    if worktable::settle_at(held, t, v, slot) {
        return worktable::drop(held, t, v, slot);
    }
    t
}

// The walks that the row of x reads: those that arrive at it, a part of the walk table; for the courier the whole table.
// Walks and hops have a function each: one for both would first ask the kind for its table and its number of records.
fn walks_at<'a>(
    vertices: &[u8],
    walks: &'a [u8],
    hops: &'a [u8],
    size: usize,
    courier: bool,
    x: usize,
) -> &'a [u8]
    requires { Standing size vertices.now walks.now hops.now x × (16 ≤ size) }
    ensures { result.now ≡ walks_in courier vertices.now walks.now x }
{
    if courier {
        return walks;
    }
    let first = records::first_arriving(vertices, Kind::Walks, x);
    let end = records::end_arriving(vertices, Kind::Walks, x, walks.len() / 16);
    records::arriving(walks, hops, size, Kind::Walks, first, end)
}

// The hops that it reads.
fn hops_at<'a>(
    vertices: &[u8],
    walks: &'a [u8],
    hops: &'a [u8],
    size: usize,
    courier: bool,
    x: usize,
) -> &'a [u8]
    requires { Standing size vertices.now walks.now hops.now x × (16 ≤ size) }
    ensures { result.now ≡ hops_in courier size vertices.now hops.now x }
{
    if courier {
        return hops;
    }
    let first = records::first_arriving(vertices, Kind::Hops, x);
    let end = records::end_arriving(vertices, Kind::Hops, x, hops.len() / size);
    records::arriving(walks, hops, size, Kind::Hops, first, end)
}

// The numbers of a stretch: a part of the list.
fn numbers_at(list: &[u8], s: Stretch) -> &[u8]
    requires { s.first + s.many ≤ length list.now / 4 }
    ensures { result.now ≡ numbers_at list.now s }
{
    let end = s.first + s.many;
    &list[4 * s.first..4 * end]
}

// The vertex x at its slot is settled, and its row is passed.
fn settle_and_pass<'a>(
    vertices: &[u8],
    walks: &'a [u8],
    hops: &'a [u8],
    list: &[u8],
    held: &mut [u8],
    scratch: &mut [u16],
    t: Table,
    x: usize,
    slot: usize,
    stretch: Stretch,
    row: Directed,
) -> Option<Table>
    requires { Begins vertices.now walks.now hops.now list.now x slot stretch row t held.old × (scratch.old ≡ replicate 2048 0) }
    ensures { ArrivedIs t held.new (map_after vertices.now walks.now hops.now list.now x stretch row (map_of t held.old)) result × (scratch.new ≡ replicate 2048 0) }
{
    let settled = settle_next(held, t, x, slot);
    let walked = walks_at(vertices, walks, hops, row.arriving.size, row.courier, x);
    let ridden = hops_at(vertices, walks, hops, row.arriving.size, row.courier, x);
    let numbers = numbers_at(list, stretch);
    arrivals::arrive(
        held, settled, vertices, walked, ridden, numbers, row, scratch,
    )
}

// One step: x, at its slot, is the next vertex, with the distance d. A refusal names the step.
pub fn step<'a>(
    vertices: &[u8],
    walks: &'a [u8],
    hops: &'a [u8],
    list: &[u8],
    held: &mut [u8],
    settled: &mut [u8],
    scratch: &mut [u16],
    p: Progress,
    x: usize,
    slot: usize,
    stretch: Stretch,
    row: Directed,
) -> Result<Progress, Refusal>
    requires begins { Begins vertices.now walks.now hops.now list.now x slot stretch row p.table held.old × (scratch.old ≡ replicate 2048 0) }
    requires settled_in_bounds { (p.settled ≤ length settled.old / 8) × (p.settled < 4294967295) }
    ensures step_made { StepMade vertices.now walks.now hops.now list.now x stretch row p held.old held.new settled.old settled.new result }
    ensures scratch_after { scratch.new ≡ replicate 2048 0 }
{
    let count = p.settled + 1;
    let place = count as u32;
    let table = settle_and_pass(
        vertices, walks, hops, list, held, scratch, p.table, x, slot, stretch, row,
    )
    .ok_or(Refusal {
        reason: Reason::HeldRoom,
        place,
    })?;
    if p.settled == settled.len() / 8 {
        return Err(Refusal {
            reason: Reason::SettledRoom,
            place,
        });
    }
    records::add_settled(settled, p.settled, x as u32, row.arriving.distance);
    Ok(Progress {
        table,
        settled: count,
    })
}

// The least entry within the ticks allowed, or nothing.
pub fn next(held: &[u8], t: Table, allowed: u32) -> Option<Nearest>
    requires { InOrder t held.now }
    ensures { NextIs t held.now allowed result }
{
    let nearest = worktable::least(held, t)?;
    if allowed < nearest.distance {
        return None;
    }
    Some(nearest)
}

// How many records arrive at x, which is settled at d, and what their offers ask.
fn arriving_at(
    vertices: &[u8],
    walks: &[u8],
    hops: &[u8],
    hop_size: usize,
    x: usize,
    d: u32,
    arrival: Seconds,
    speed: u32,
    allowed: Ticks,
) -> Arriving
    requires { Standing hop_size vertices.now walks.now hops.now x × (0 < hop_size) }
    ensures { result ≡ arriving_at hop_size vertices.now walks.now hops.now x d arrival speed allowed.0 }
{
    let first_walk = records::first_arriving(vertices, Kind::Walks, x);
    let first_hop = records::first_arriving(vertices, Kind::Hops, x);
    Arriving {
        walks: records::end_arriving(vertices, Kind::Walks, x, walks.len() / 16) - first_walk,
        hops: records::end_arriving(vertices, Kind::Hops, x, hops.len() / hop_size) - first_hop,
        size: hop_size,
        distance: Ticks(d),
        arrival: arrival,
        speed: speed,
        allowed: allowed,
    }
}

// Where the numbers of x stand in the list of records by where they leave; an ordinary row reads none. What was noted in the held buffer before the first step may still stand there: it is a guess.
pub fn stretch_at(
    vertices: &[u8],
    walks: &[u8],
    hops: &[u8],
    hop_size: usize,
    list: &[u8],
    held: &[u8],
    courier: bool,
    x: usize,
) -> Stretch
    requires { Lists courier hop_size walks.now hops.now list.now × Sound hop_size vertices.now walks.now hops.now × (x < length vertices.now / 12) }
    ensures { result ≡ stretch_in courier hop_size walks.now hops.now x }
{
    if courier {
        let guess = starts::guess(vertices, held, x);
        return stretches::find(vertices, walks, hops, hop_size, list, x as u32, guess);
    }
    Stretch { first: 0, many: 0 }
}

// The row of x, which is settled at d: how many records it has, and what they ask.
pub fn row_at(
    vertices: &[u8],
    walks: &[u8],
    hops: &[u8],
    hop_size: usize,
    stretch: Stretch,
    courier: bool,
    x: usize,
    d: u32,
    arrival: Seconds,
    speed: u32,
    allowed: Ticks,
) -> Directed
    requires { Standing hop_size vertices.now walks.now hops.now x × (0 < hop_size) }
    ensures { result ≡ directed_at courier hop_size vertices.now walks.now hops.now stretch x d arrival speed allowed.0 }
{
    let ways = walks.len() / 16;
    let rides = hops.len() / hop_size;
    if courier {
        return Directed {
            arriving: Arriving {
                walks: stretch.many,
                hops: 0,
                size: hop_size,
                distance: Ticks(d),
                arrival: arrival,
                speed: speed,
                allowed: allowed,
            },
            courier: true,
            ways: ways,
            rides: rides,
        };
    }
    Directed {
        arriving: arriving_at(
            vertices, walks, hops, hop_size, x, d, arrival, speed, allowed,
        ),
        courier: false,
        ways: ways,
        rides: rides,
    }
}
