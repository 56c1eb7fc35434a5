// The records that arrive at a settled vertex as one row: of each record the vertex that it leaves, and what it offers to that vertex.
// Promises: both are what the definitions say of that record; an offer is none or a distance that an entry can have.
// Rests on: the readers and conversions of `records`, the offers of `journeys`.
#![tactic(auto)]

ghost use Rattle.std.specs.Prelude.{◌≡◌, ◌/◌, ◌<◌, ◌≤◌, length};
ghost use Rattle.journeys.specs.Bytes.{clocked};
ghost use Rattle.journeys.specs.Tables.{hop_at};
ghost use Rattle.journeys.specs.Records.{ridden, offer};
ghost use Rattle.words.specs.Quantities.{DayTime};
ghost use Rattle.worktable.specs.Map.{Figure};
ghost use Rattle.passing.specs.Row.{asking, passes, from_of, offer_of, Rides, Counted, Sound};

use records::{hop_at, walk_ticks};
use words::{NONE, Seconds, Ticks, not_after, ticks_before, word_at};

// How many walks and hops arrive at the vertex, the size of a hop, the distance of the vertex, what of the query an offer asks, and D. The records themselves are a part of the walk table and a part of the hop table.
#[derive(Clone, Copy)]
pub struct Arriving {
    pub walks: usize,
    pub hops: usize,
    pub size: usize,
    pub distance: Ticks,
    pub arrival: Seconds,
    pub speed: u32,
    pub allowed: Ticks,
}

// The offer of a hop to the vertex where it is boarded, if it arrives in time.
fn hop_offer(
    hops: &[u8],
    size: usize,
    at: usize,
    distance: Ticks,
    arrival: Seconds,
    speed: u32,
) -> Ticks
    requires { (at < length hops.now / size) × Rides size hops.now at × DayTime (clocked arrival.0) × (speed ≤ 100) × (16 ≤ size) }
    ensures { result.0 ≡ offer (asking (clocked arrival.0) speed) (ridden (hop_at size hops.now at)) distance.0 }
{
    let h = hop_at(hops, size, at);
    let boards = h.departure;
    let arrives = h.arrival;
    if not_after(arrives, arrival) {
        if distance.0 <= ticks_before(arrival, arrives, speed).0 {
            return ticks_before(arrival, boards, speed);
        }
    }
    Ticks(NONE)
}

// The vertex that record j of the row leaves.
pub fn from_at(walks: &[u8], hops: &[u8], arriving: Arriving, j: usize) -> usize
    requires { Counted walks.now hops.now arriving × (j < passes arriving) }
    ensures { result ≡ from_of walks.now hops.now arriving j }
{
    if j < arriving.walks {
        return word_at(walks, 16 * j) as usize;
    }
    records::from_at(hops, arriving.size, j - arriving.walks) as usize
}

// What record j of the row offers.
pub fn offer_at(walks: &[u8], hops: &[u8], arriving: Arriving, j: usize) -> Ticks
    requires { Sound walks.now hops.now arriving × (j < passes arriving) }
    ensures { (result.0 ≡ offer_of walks.now hops.now arriving j) × Figure result.0 }
{
    let distance = arriving.distance;
    if j < arriving.walks {
        let way = walk_ticks(word_at(walks, 16 * j + 8), arriving.speed);
        let sum = distance.0 + way.0;
        return Ticks(sum);
    }
    let arrival = arriving.arrival;
    hop_offer(
        hops,
        arriving.size,
        j - arriving.walks,
        distance,
        arrival,
        arriving.speed,
    )
}
