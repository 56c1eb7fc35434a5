// Step 0 of the run, in either direction: the seeds are entered into the working table.
// Promises: the map of the seeds, or that there is no room for them.
// Rests on: the working table (`worktable`), the query's road (`parts`), what is due to a vertex (`directed`), the readers of `records`.
#![tactic(auto)]

ghost use Rattle.std.specs.Prelude.{◌≡◌, ◌/◌, ◌%◌, ◌<◌, ◌≤◌, min, length};
ghost use Rattle.opening.specs.Seeds.{from_ticks_of, to_ticks_of, at_end, to_is_seed, wait_on, sent_ticks, from_is_seed, RoadFits, PairFits, pair_of, pair_map, seed_count, no_records, SeededIs, OpenIs};

use directed::{Directed, due_at};
use parts::Road;
use passing::Arriving;
use records::{Query, wait_ticks};
use stepping::Progress;
use words::{Offset, Reason, Refusal, Ticks, walked, word_at};
use worktable::Table;

// A vertex at which the search starts, and the ticks that it is away.
#[derive(Clone, Copy)]
struct Seed {
    vertex: u32,
    away: Ticks,
}

// The seeds of a road: one that is sure, and another where it is one.
#[derive(Clone, Copy)]
struct Pair {
    sure: Seed,
    other: Option<Seed>,
}

// Before the first step: the sure seed, and the other where it is one; or the table has too few slots. What is due to a vertex is what the direction of the row says.
fn seeds(held: &mut [u8], vertices: &[u8], pair: Pair, row: Directed) -> Option<Table>
    requires held_len { (length held.old % 16 ≡ 0) × (length vertices.now / 12 ≤ 65536) }
    requires pair_fits { PairFits (length vertices.now / 12) pair }
    ensures { SeededIs held.new (min (length held.old / 16) (min (length vertices.now / 12) 65536)) (pair_map vertices.now row pair) (seed_count pair) result }
{
    let empty = worktable::start(held, vertices.len() / 12);
    if worktable::room(empty) < 1 {
        return None;
    }
    let sure = pair.sure;
    let first = sure.vertex as usize;
    let one = worktable::insert(
        held,
        empty,
        first,
        sure.away.0,
        due_at(vertices, row, first),
    );
    let Some(other) = pair.other else {
        return Some(one);
    };
    if worktable::room(one) < 2 {
        return None;
    }
    let second = other.vertex as usize;
    Some(worktable::insert(
        held,
        one,
        second,
        other.away.0,
        due_at(vertices, row, second),
    ))
}

// The ticks of the two seeds: what it takes to the query place, from "from" of its road and from "to" along the twin, the wait that the place is past
// among it.
pub fn from_ticks(e: Road) -> Ticks
    requires { from_ticks_of e ≤ 112000 }
    ensures { result.0 ≡ from_ticks_of e }
{
    let near = e.near;
    let past = e.past;
    Ticks(walked(near).0 + past.0)
}

pub fn to_ticks(e: Road) -> Ticks
    requires { to_ticks_of e ≤ 112000 }
    ensures { result.0 ≡ to_ticks_of e }
{
    let back = e.back;
    let past = e.past_back;
    Ticks(walked(back).0 + past.0)
}

// Whether the query place is the end of its road.
fn at_end(e: Road) -> bool
    ensures { result ≡ at_end e }
{
    let left = e.back;
    left.0 == 0
}

// Whether "to" of the road is a seed too: it has a twin, or the place is its end.
pub fn to_is_seed(e: Road) -> bool
    ensures { result ≡ to_is_seed e }
{
    (e.twin != words::NONE) | at_end(e)
}

// The wait of walk i. Where there is no such walk there is none.
fn wait_on(walks: &[u8], i: u32, speed: u32) -> Ticks
    requires { speed ≤ 100 }
    ensures { result.0 ≡ wait_on walks.now speed i }
{
    let at = i as usize;
    if at < walks.len() / 16 {
        return wait_ticks(word_at(walks, 16 * at + 8), speed);
    }
    Ticks(0)
}

// What the courier takes to the end of walk i, so far away, the wait before it among that; who is there already waits for nothing.
fn sent_ticks(walks: &[u8], left: Offset, i: u32, speed: u32) -> Ticks
    requires { (speed ≤ 100) × (sent_ticks walks.now speed left.0 i ≤ 112000) }
    ensures { result.0 ≡ sent_ticks walks.now speed left.0 i }
{
    if left.0 == 0 {
        return Ticks(0);
    }
    Ticks(walked(left).0 + wait_on(walks, i, speed).0)
}

// Whether "from" of the road is a seed of the courier's too: it has a twin, or the place is its start.
fn from_is_seed(e: Road) -> bool
    ensures { result ≡ from_is_seed e }
{
    let near = e.near;
    (e.twin != words::NONE) | (near.0 == 0)
}

// The seeds of the road in either direction: "from" is sure, and for the courier "to".
fn pair_of(walks: &[u8], e: Road, courier: bool) -> Pair
    requires { RoadFits walks.now e }
    ensures { result ≡ pair_of courier walks.now e }
{
    let w = records::walk_at(walks, e.walk as usize);
    if courier {
        return Pair {
            sure: Seed {
                vertex: w.to,
                away: sent_ticks(walks, e.back, e.walk, e.speed),
            },
            other: from_is_seed(e).then_some(Seed {
                vertex: w.from,
                away: sent_ticks(walks, e.near, e.twin, e.speed),
            }),
        };
    }
    Pair {
        sure: Seed {
            vertex: w.from,
            away: from_ticks(e),
        },
        other: to_is_seed(e).then_some(Seed {
            vertex: w.to,
            away: to_ticks(e),
        }),
    }
}

// A row without records: what is due to a vertex asks for the direction and the sizes of the two tables alone.
pub fn no_records(
    walks: &[u8],
    hops: &[u8],
    hop_size: usize,
    q: Query,
    courier: bool,
    allowed: Ticks,
) -> Directed
    requires { 0 < hop_size }
    ensures { result ≡ no_records courier hop_size walks.now hops.now q.arrival q.speed allowed }
{
    let arrival = q.arrival;
    Directed {
        arriving: Arriving {
            walks: 0,
            hops: 0,
            size: hop_size,
            distance: Ticks(0),
            arrival: arrival,
            speed: q.speed,
            allowed: allowed,
        },
        courier: courier,
        ways: walks.len() / 16,
        rides: hops.len() / hop_size,
    }
}

// Step 0: the seeds in the table, or that it has no room for them.
pub fn begin(
    vertices: &[u8],
    walks: &[u8],
    held: &mut [u8],
    road: Road,
    row: Directed,
) -> Result<Progress, Refusal>
    requires held_len { (length held.old % 16 ≡ 0) × (length vertices.now / 12 ≤ 65536) × RoadFits walks.now road }
    requires pair_fits { PairFits (length vertices.now / 12) (pair_of row.courier walks.now road) }
    ensures { OpenIs (min (length held.old / 16) (min (length vertices.now / 12) 65536)) (pair_map vertices.now row (pair_of row.courier walks.now road)) (seed_count (pair_of row.courier walks.now road)) held.new result }
{
    let pair = pair_of(walks, road, row.courier);
    let table = seeds(held, vertices, pair, row).ok_or(Refusal {
        reason: Reason::HeldRoom,
        place: 0,
    })?;
    Ok(Progress { table, settled: 0 })
}
