// The stops of a timetable, each read from its line when it is asked for: for texts and lists that are too long for records.
// Promises: how many stops there are, and each by its number, as the definitions of `feed` read them; the trip by its place in the trip list.
// Rests on: the stop of a line (`halts`, `stoplist`), lists by their ids (`known`), lines (`lines`).
#![tactic(auto)]

ghost use Rattle.std.specs.Prelude.{◌≡◌, true, ℕ, ◌+◌, ◌*◌, ◌-◌, ◌<◌, ◌≤◌, length, take, drop};
ghost use Rattle.feed.specs.Lines.{lines_of};
ghost use Rattle.feed.specs.Trips.{stop};
ghost use Rattle.stoplist.specs.Made.{entry_good};
ghost use Rattle.reread.specs.Read.{stop_is, stop_read, stops_here, many_lines, Ready, Lined};

use idtable::Ids;
use stoplist::Columns;

// No Option of the two times: the definitions read those of a stop without times, too.
#[derive(Clone, Copy)]
pub struct Halt {
    pub line: usize,
    pub trip: usize,
    pub number: u32,
    pub sequence: u32,
    pub vertex: u32,
    pub timed: bool,
    pub arrival: u32,
    pub departure: u32,
}

fn halt_of(number: usize, line: &[u8], c: Columns, stops: &Ids, trips: &Ids) -> Halt
    requires { Ready c stops.now trips.now × (entry_good c stops.now trips.now line.now ≡ true) }
    ensures { stop_is result ≡ stop_read c stops.now trips.now number line.now }
{
    let p = stoplist::places_in(line, c).unwrap();
    let vertex = stoplist::vertex_of(stops, line, c.stop, p.stop);
    let trip = known::listed_from(trips, line, c.trip, p.trip);
    let own = spelling::number_at(trips.list, trip - 1);
    let sequence = halts::number_from(line, c.sequence, p.sequence);
    let times = halts::times_of(line, c.arrival, c.departure, p.arrival, p.departure);
    Halt {
        line: number,
        trip,
        number: own,
        sequence,
        vertex,
        timed: times.timed,
        arrival: times.arrival,
        departure: times.departure,
    }
}

fn halt_in(
    number: usize,
    text: &[u8],
    at: usize,
    stop: usize,
    c: Columns,
    stops: &Ids,
    trips: &Ids,
) -> Halt
    requires at_le_stop { (at ≤ stop) × (stop ≤ length text.now) }
    requires ready { Ready c stops.now trips.now × (entry_good c stops.now trips.now (take (stop - at) (drop at text.now)) ≡ true) }
    ensures { stop_is result ≡ stop_read c stops.now trips.now number (take (stop - at) (drop at text.now)) }
{
    halt_of(number, &text[at..stop], c, stops, trips)
}

// Stop i of the lines from a place on, where line 2 begins.
pub fn stop_at(i: usize, text: &[u8], from: usize, c: Columns, stops: &Ids, trips: &Ids) -> Halt
    requires ready { Ready c stops.now trips.now × Lined c stops.now trips.now text.now from }
    requires i_in_bounds { i < length (stops_here c stops.now trips.now text.now from) }
    ensures { stop_is result ≡ stop (stops_here c stops.now trips.now text.now from) i }
{
    let mut at = from;
    let mut line = 2;
    let mut left = i;
    // A while: each turn goes on where the line ends, so there is no range to go over.
    while at < text.len() {
        let stop = lines::line_stop(text, at);
        let next = lines::line_next(text, stop);
        if at < stop {
            if left == 0 {
                return halt_in(line, text, at, stop, c, stops, trips);
            }
            left -= 1;
            line += 1;
            at = next;
        } else {
            line += 1;
            at = next;
        }
    }
    unreachable!()
}

// How many stops the lines from a place on have.
pub fn count_stops(text: &[u8], from: usize) -> usize
    requires { from ≤ length text.now }
    ensures { result ≡ many_lines (lines_of (drop from text.now)) }
{
    let mut at = from;
    let mut n = 0;
    // A while: each turn goes on where the line ends, so there is no range to go over.
    while at < text.len() {
        let stop = lines::line_stop(text, at);
        let next = lines::line_next(text, stop);
        if at < stop {
            n += 1;
            at = next;
        } else {
            at = next;
        }
    }
    n
}
