// The stops of a timetable as records of 20 bytes, one for each line that is not empty, in the order of the lines.
// Promises: each record is the stop that the definitions of `feed` read in its line, the trip by its place in the trip list.
// Rests on: the stop of a line (`halts`), lists by their ids (`known`), the records of `sorting`.
#![tactic(auto)]

ghost use Rattle.std.specs.Prelude.{◌≡◌, true, cond, ℕ, ◌+◌, ◌*◌, ◌-◌, ◌<◌, ◌≤◌, ◌^◌, length, take, drop, set, get_or};
ghost use Rattle.journeys.specs.Counting.{none};
ghost use Rattle.journeys.specs.Refusals.{fine};
ghost use Rattle.feed.specs.Fields.{row_of, field};
ghost use Rattle.feed.specs.Ids.{ids_refusal, number_of};
ghost use Rattle.sorting.specs.Sorted.{recs};
ghost use Rattle.known.specs.Counted.{id_known};
ghost use Rattle.rows.specs.Placed.{place_of, places_of};
ghost use Rattle.stoplist.specs.Made.{packed, stop_made, entry_good, Inside};

use idtable::Ids;
use rows::Places;
use sorting::put;

// How many fields a line has, and in which of them the five columns stand.
#[derive(Clone, Copy)]
pub struct Columns {
    pub count: usize,
    pub trip: usize,
    pub arrival: usize,
    pub departure: usize,
    pub stop: usize,
    pub sequence: usize,
}

// The vertex that a list has for the id in field k of a line, which begins at a place.
pub fn vertex_of(list: &Ids, line: &[u8], k: usize, at: usize) -> u32
    requires k_in_bounds { (k < length (row_of line.now).fields) × (at ≡ place_of line.now k) }
    requires list_value { (ids_refusal 65535 list.now ≡ fine) × (id_known list.now k line.now ≡ true) }
    ensures { (result ≡ number_of list.now (field (row_of line.now) k)) × (result ≤ 65535) }
{
    let place = known::listed_from(list, line, k, at);
    spelling::number_at(list.list, place - 1)
}

// Where the columns of a line begin, if it has as many fields as line 1 and its quotes are in order.
pub fn places_in(line: &[u8], c: Columns) -> Option<Places>
    requires { Inside c }
    ensures { result ≡ places_of c.count c.trip c.arrival c.departure c.stop c.sequence line.now }
{
    rows::places_of(
        line,
        c.count,
        c.trip,
        c.arrival,
        c.departure,
        c.stop,
        c.sequence,
    )
}

// A stop from its fields becomes record j.
fn put_stop(
    b: &mut [u8],
    n: usize,
    j: usize,
    trip: u32,
    sequence: u32,
    line: u32,
    vertex: u32,
    timed: bool,
    arrival: u32,
    departure: u32,
)
    requires { (length b.old ≡ 20 * n) × (j < n) × (vertex ≤ 65535) × (arrival < 262144) × (departure < 262144) }
    ensures { recs n b.new ≡ set (recs n b.old) j (packed (record { line = line; trip = trip; trip_number = 0; sequence = sequence; vertex = vertex; timed = timed; arrival = arrival; departure = departure })) }
{
    let times = vertex as u64 * 1099511627776
        + u64::from(timed) * 68719476736
        + arrival as u64 * 262144
        + departure as u64;
    put(
        b,
        n,
        j,
        trip,
        sequence as u64 * 4294967296 + line as u64,
        times,
    );
}

// The stop of a line becomes record j.
fn write_line(
    b: &mut [u8],
    n: usize,
    j: usize,
    number: u32,
    line: &[u8],
    c: Columns,
    stops: &Ids,
    trips: &Ids,
)
    requires b_len { (length b.old ≡ 20 * n) × (j < n) × Inside c × (entry_good c stops.now trips.now line.now ≡ true) }
    requires stops_good { ids_refusal 65535 stops.now ≡ fine }
    requires trips_good { (ids_refusal none trips.now ≡ fine) × (length trips.now < 4294967296) }
    ensures { recs n b.new ≡ set (recs n b.old) j (packed (stop_made c stops.now trips.now number line.now)) }
{
    let p = places_in(line, c).unwrap();
    let vertex = vertex_of(stops, line, c.stop, p.stop);
    let trip = known::listed_from(trips, line, c.trip, p.trip);
    let sequence = halts::number_from(line, c.sequence, p.sequence);
    let times = halts::times_of(line, c.arrival, c.departure, p.arrival, p.departure);
    put_stop(
        b,
        n,
        j,
        trip as u32,
        sequence,
        number,
        vertex,
        times.timed,
        times.arrival,
        times.departure,
    );
}

// The line that stands between two places of the text.
pub fn write_part(
    b: &mut [u8],
    n: usize,
    j: usize,
    number: u32,
    text: &[u8],
    at: usize,
    stop: usize,
    c: Columns,
    stops: &Ids,
    trips: &Ids,
)
    requires b_len { (length b.old ≡ 20 * n) × (j < n) × Inside c × (at ≤ stop) × (stop ≤ length text.now) × (entry_good c stops.now trips.now (take (stop - at) (drop at text.now)) ≡ true) }
    requires stops_good { ids_refusal 65535 stops.now ≡ fine }
    requires trips_good { (ids_refusal none trips.now ≡ fine) × (length trips.now < 4294967296) }
    ensures { recs n b.new ≡ set (recs n b.old) j (packed (stop_made c stops.now trips.now number (take (stop - at) (drop at text.now)))) }
{
    write_line(b, n, j, number, &text[at..stop], c, stops, trips);
}
