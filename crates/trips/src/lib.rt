// The trip of a hop, and when one has to stand at its stop: what the run with a boarding time reads of a hop beside its ends.
// Promises: the trip as the definitions have it, 0 in hops of 16 bytes; T less the departure plus the boarding time, in ticks.
// Rests on: the hops of `records` and the conversions of `words`.
#![tactic(auto)]

ghost use Rattle.std.specs.Prelude.{◌≡◌, ◌<◌, ◌≤◌};
ghost use Rattle.journeys.specs.Bytes.{clocked};
ghost use Rattle.journeys.specs.Tables.{hop_at};
ghost use Rattle.words.specs.Quantities.{DayTime};
ghost use Rattle.records.specs.Columns.{records_in};
ghost use Rattle.boarding.specs.Rides.{trip_at};
ghost use Rattle.trips.specs.Standing.{standing_by};

use records::hop_at;
use words::{Seconds, Ticks, ticks_before, word_at};

// A hop of 20 bytes ends with its trip; one of 16 has none.
pub fn trip_at(hops: &[u8], size: usize, j: usize) -> u32
    requires { (16 ≤ size) × (j < records_in size hops.now) }
    ensures { result ≡ trip_at size hops.now j }
{
    if size == 20 {
        return word_at(hops, 20 * j + 16);
    }
    0
}

// How many ticks before T one stands at the stop to board hop j.
pub fn standing_at(
    hops: &[u8],
    size: usize,
    j: usize,
    arrival: Seconds,
    speed: u32,
    boarding: u32,
) -> Ticks
    requires le_size { (16 ≤ size) × (j < records_in size hops.now) }
    requires day_time { DayTime (clocked arrival.0) }
    requires day_time_2 { DayTime (hop_at size hops.now j).departure }
    requires j_bound { ((hop_at size hops.now j).departure ≤ clocked arrival.0) × (speed ≤ 100) × (boarding ≤ 600) }
    ensures { result.0 ≡ standing_by (clocked arrival.0) speed boarding (hop_at size hops.now j).departure }
{
    let departure = hop_at(hops, size, j).departure;
    Ticks(ticks_before(arrival, departure, speed).0 + boarding * speed)
}
