// The records of a settled vertex as one row in either direction: those that arrive at it, and for the courier those that leave it. Of each record the vertex at its other end, and what it brings to that vertex; of each vertex how many records it has in all.
// Promises: all three are what the definitions say, whichever the direction; what is brought is none or a distance that an entry can have.
// Rests on: the row of `passing`, the readers and conversions of `records`, the courier's offers of `journeys`.
#![tactic(auto)]

ghost use Rattle.std.specs.Prelude.{◌≡◌, ◌+◌, ◌-◌, ◌*◌, ◌/◌, ◌<◌, ◌≤◌, min, length};
ghost use Rattle.journeys.specs.Bytes.{be32, clocked};
ghost use Rattle.journeys.specs.Tables.{hop_at};
ghost use Rattle.journeys.specs.Records.{ridden};
ghost use Rattle.journeys.specs.CourierRecords.{offer};
ghost use Rattle.words.specs.Quantities.{DayTime};
ghost use Rattle.worktable.specs.Map.{remaining_limit, Figure};
ghost use Rattle.passing.specs.Row.{asking, passes, Rides};
ghost use Rattle.directed.specs.Directed.{listed_to, listed_offer, near_of, brings_of, arrive_at, due_of, Listed, ListedSound, Numbered, Passable};

use passing::{Arriving, from_at, offer_at};
use records::{Kind, end_arriving, first_arriving, hop_at, walk_ticks};
use words::{NONE, Seconds, Ticks, half_at, not_after, ticks_before, word_at};

// A row with its direction. The courier's has the walks and hops that leave the vertex, its arrival is the departure, and its records are those of the whole tables that a stretch of the list numbers, 4 bytes each:
// there are `ways` walks, whose numbers come before those of the hops, and `rides` hops. No other row asks for these two. A number tells by itself which of both it is, so the courier's row counts its records together, as `arriving.walks`, and its `arriving.hops` is 0.
#[derive(Clone, Copy)]
pub struct Directed {
    pub arriving: Arriving,
    // A bool: the definitions choose between the two directions by a truth value, and an enum would only be turned into one.
    pub courier: bool,
    pub ways: usize,
    pub rides: usize,
}

// The offer of a hop to the vertex where the courier alights, if it departs in time. It mirrors `hop_offer` of `passing` in time: earlier and later change places, so that one function for both would hold each comparison twice.
fn ride_offer(
    hops: &[u8],
    size: usize,
    at: usize,
    distance: Ticks,
    departure: Seconds,
    speed: u32,
) -> Ticks
    requires { (at < length hops.now / size) × Rides size hops.now at × DayTime (clocked departure.0) × (speed ≤ 100) × (16 ≤ size) }
    ensures { result.0 ≡ offer (asking (clocked departure.0) speed) (ridden (hop_at size hops.now at)) distance.0 }
{
    let h = hop_at(hops, size, at);
    let boards = h.departure;
    let alights = h.arrival;
    if not_after(departure, boards) {
        if distance.0 <= ticks_before(boards, departure, speed).0 {
            return ticks_before(alights, departure, speed);
        }
    }
    Ticks(NONE)
}

// The number of record j of the courier's row.
fn number_at(list: &[u8], j: usize) -> usize
    requires { j < length list.now / 4 }
    ensures { result ≡ be32 list.now (4 * j) }
{
    word_at(list, 4 * j) as usize
}

// The vertex to which record j of the courier's row leads.
fn to_listed(walks: &[u8], hops: &[u8], list: &[u8], row: Directed, j: usize) -> usize
    requires { Listed walks.now hops.now list.now row × (j < passes row.arriving) }
    ensures { result ≡ listed_to walks.now hops.now list.now row j }
{
    let r = number_at(list, j);
    if r < row.ways {
        return word_at(walks, 16 * r + 4) as usize;
    }
    records::to_at(hops, row.arriving.size, r - row.ways) as usize
}

// What record j of the courier's row offers.
fn offer_listed(walks: &[u8], hops: &[u8], list: &[u8], row: Directed, j: usize) -> Ticks
    requires { ListedSound walks.now hops.now list.now row × (j < passes row.arriving) }
    ensures { (result.0 ≡ listed_offer walks.now hops.now list.now row j) × Figure result.0 }
{
    let r = number_at(list, j);
    let distance = row.arriving.distance;
    if r < row.ways {
        let way = walk_ticks(word_at(walks, 16 * r + 8), row.arriving.speed);
        let sum = distance.0 + way.0;
        return Ticks(sum);
    }
    let departure = row.arriving.arrival;
    ride_offer(
        hops,
        row.arriving.size,
        r - row.ways,
        distance,
        departure,
        row.arriving.speed,
    )
}

// The vertex at the other end of record j.
pub fn near_at(walks: &[u8], hops: &[u8], list: &[u8], row: Directed, j: usize) -> usize
    requires { Numbered walks.now hops.now list.now row × (j < passes row.arriving) }
    ensures { result ≡ near_of walks.now hops.now list.now row j }
{
    if row.courier {
        return to_listed(walks, hops, list, row, j);
    }
    let arriving = row.arriving;
    from_at(walks, hops, arriving, j)
}

// What record j brings to that vertex.
pub fn brings_at(walks: &[u8], hops: &[u8], list: &[u8], row: Directed, j: usize) -> Ticks
    requires { Passable walks.now hops.now list.now row × (j < passes row.arriving) }
    ensures { (result.0 ≡ brings_of walks.now hops.now list.now row j) × Figure result.0 }
{
    if row.courier {
        return offer_listed(walks, hops, list, row, j);
    }
    let arriving = row.arriving;
    offer_at(walks, hops, arriving, j)
}

// How many numbers there are from one up to another. Twice as many as are counted here would not fit an entry.
fn between(first: usize, end: usize) -> usize
    ensures { result ≡ min («end» - first) 524287 }
{
    end.saturating_sub(first).min(524287)
}

// How many records arrive at u, by the vertex table.
fn arrive_at(vertices: &[u8], row: Directed, u: usize) -> u32
    requires { u < length vertices.now / 12 }
    ensures { (result ≡ arrive_at vertices.now row u) × (result < remaining_limit) }
{
    let walks_end = end_arriving(vertices, Kind::Walks, u, row.ways);
    let walks = between(first_arriving(vertices, Kind::Walks, u), walks_end);
    let hops_end = end_arriving(vertices, Kind::Hops, u, row.rides);
    let hops = between(first_arriving(vertices, Kind::Hops, u), hops_end);
    (walks + hops) as u32
}

// How many records of u there are to be passed in all: those that leave it, or for the courier those that arrive at it.
pub fn due_at(vertices: &[u8], row: Directed, u: usize) -> u32
    requires { u < length vertices.now / 12 }
    ensures { (result ≡ due_of vertices.now row u) × (result < remaining_limit) }
{
    if row.courier {
        return arrive_at(vertices, row, u);
    }
    half_at(vertices, 12 * u + 8)
}
