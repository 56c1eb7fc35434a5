// A stop of a trip as its line has it.
// Promises: sequence and times of a line, as the definitions of `feed` say.
// Rests on: the fields of a line (`rows`), numbers and times (`values`).
#![tactic(auto)]

ghost use Rattle.std.specs.Prelude.{◌≡◌, true, ◌-◌, ◌<◌, ◌≤◌, length, take, drop};
ghost use Rattle.journeys.specs.Counting.{none};
ghost use Rattle.feed.specs.Fields.{row_of, field};
ghost use Rattle.feed.specs.Values.{number, value_of, time_or_blank};
ghost use Rattle.feed.specs.Stops.{or_other};
ghost use Rattle.values.specs.Readings.{time_read};
ghost use Rattle.rows.specs.Placed.{place_of};
ghost use Rattle.halts.specs.Halts.{timed_in, moment};

// The number in field k of a line, which begins at a place.
pub fn number_from(line: &[u8], k: usize, at: usize) -> u32
    requires { (k < length (row_of line.now).fields) × (at ≡ place_of line.now k) × (number none (field (row_of line.now) k) ≡ true) }
    ensures { result ≡ value_of (field (row_of line.now) k) }
{
    rows::number_from(line, k, at, 4294967295).unwrap()
}

pub fn number_of(line: &[u8], k: usize) -> u32
    requires { (k < length (row_of line.now).fields) × (number none (field (row_of line.now) k) ≡ true) }
    ensures { result ≡ value_of (field (row_of line.now) k) }
{
    let at = rows::field_place(line, k);
    number_from(line, k, at)
}

// The times of a stop: one that is given stands for both, and 0 where none is.
// No Option: the definitions read the two numbers of a stop without times, too.
#[derive(Clone, Copy)]
pub struct Times {
    pub timed: bool,
    pub arrival: u32,
    pub departure: u32,
}

// The time in the field that begins at a place, if it is not left blank.
fn moment_in(line: &[u8], k: usize, at: usize) -> Option<u32>
    requires { (k < length (row_of line.now).fields) × (time_or_blank (field (row_of line.now) k) ≡ true) × (at ≡ place_of line.now k) }
    ensures { result ≡ moment (field (row_of line.now) k) }
{
    let span = rows::span_from(line, k, at);
    values::read_time(span.bytes(line))
}

// The times in two columns, which begin at two places.
pub fn times_of(
    line: &[u8],
    arrival: usize,
    departure: usize,
    earlier: usize,
    later: usize,
) -> Times
    requires arrival_in_bounds { (arrival < length (row_of line.now).fields) × (time_or_blank (field (row_of line.now) arrival) ≡ true) × (earlier ≡ place_of line.now arrival) }
    requires departure_in_bounds { (departure < length (row_of line.now).fields) × (time_or_blank (field (row_of line.now) departure) ≡ true) × (later ≡ place_of line.now departure) }
    ensures { (result.timed ≡ timed_in line.now arrival departure)
        × (result.arrival ≡ or_other (field (row_of line.now) arrival) (field (row_of line.now) departure))
        × (result.departure ≡ or_other (field (row_of line.now) departure) (field (row_of line.now) arrival)) }
{
    let first = moment_in(line, arrival, earlier);
    let second = moment_in(line, departure, later);
    Times {
        timed: first.is_some() | second.is_some(),
        arrival: first.or(second).unwrap_or(0),
        departure: second.or(first).unwrap_or(0),
    }
}
