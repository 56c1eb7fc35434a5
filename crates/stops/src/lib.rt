// The lines of a timetable, line 1 with its columns and each other a stop of a trip, judged: refusals 12 and 13.
// Promises: which of them the text has first and at which line, as the definitions of `feed` say.
// Rests on: lines (`lines`), the fields of a line (`rows`), the columns of line 1 (`header`), refusals (`words`).
#![tactic(auto)]

ghost use Rattle.std.specs.Prelude.{◌≡◌, true, ◌&&◌, ◌||◌, ◌+◌, ◌-◌, ◌<◌, ◌≤◌, eqb, length, take, drop};
ghost use Rattle.feed.specs.Lines.{empty, lines_of, first_bad_line};
ghost use Rattle.feed.specs.Fields.{row_of, field};
ghost use Rattle.feed.specs.Values.{time_or_blank};
ghost use Rattle.journeys.specs.Refusals.{or_else};
ghost use Rattle.feed.specs.Stops.{header_refusal, lines_refusal};
ghost use Rattle.rows.specs.Placed.{place_of};
ghost use Rattle.words.specs.Told.{told};
ghost use Rattle.stops.specs.StopLines.{line_good, fault_below};

use words::{Reason, Refusal};

// A field that begins at a place is a time, or blank.
fn time_or_blank(line: &[u8], k: usize, at: usize) -> bool
    requires { (k < length (row_of line.now).fields) × (at ≡ place_of line.now k) }
    ensures { result ≡ time_or_blank (field (row_of line.now) k) }
{
    let span = rows::span_from(line, k, at);
    if span.start == span.stop {
        return true;
    }
    values::read_time(span.bytes(line)).is_some()
}

// A line with so many fields has times and a sequence in these columns, which begin at three places.
pub fn timely(
    line: &[u8],
    count: usize,
    arrival: usize,
    departure: usize,
    sequence: usize,
    first: usize,
    second: usize,
    third: usize,
) -> bool
    requires arrival_lt_count { (arrival < count) × (departure < count) × (sequence < count) × (((row_of line.now).sound && eqb (length (row_of line.now).fields) count) ≡ true) }
    requires first_value { (first ≡ place_of line.now arrival) × (second ≡ place_of line.now departure) × (third ≡ place_of line.now sequence) }
    ensures { result ≡ line_good count arrival departure sequence line.now }
{
    if !time_or_blank(line, arrival, first) {
        return false;
    }
    if !time_or_blank(line, departure, second) {
        return false;
    }
    rows::number_from(line, sequence, third, 4294967295).is_some()
}

// A line with so many fields, and with times and a sequence in these columns. No other column is looked for.
fn stop_line(line: &[u8], count: usize, arrival: usize, departure: usize, sequence: usize) -> bool
    requires { (arrival < count) × (departure < count) × (sequence < count) × (count < 18446744073709551615) }
    ensures { result ≡ line_good count arrival departure sequence line.now }
{
    let places = rows::places_of(line, count, arrival, arrival, departure, arrival, sequence);
    let Some(p) = places else {
        return false;
    };
    timely(
        line,
        count,
        arrival,
        departure,
        sequence,
        p.arrival,
        p.departure,
        p.sequence,
    )
}

// The line between two places of a text. Empty lines are passed over.
fn line_good(
    text: &[u8],
    at: usize,
    stop: usize,
    count: usize,
    arrival: usize,
    departure: usize,
    sequence: usize,
) -> bool
    requires at_le_stop { (at ≤ stop) × (stop ≤ length text.now) }
    requires arrival_lt_count { (arrival < count) × (departure < count) × (sequence < count) × (count < 18446744073709551615) }
    ensures { result ≡ (empty (take (stop - at) (drop at text.now)) || line_good count arrival departure sequence (take (stop - at) (drop at text.now))) }
{
    if at == stop {
        return true;
    }
    stop_line(&text[at..stop], count, arrival, departure, sequence)
}

// Refusal 13 of the lines from a place on, the first of which has a number.
pub fn lines_fault(
    text: &[u8],
    from: usize,
    first: u32,
    count: usize,
    arrival: usize,
    departure: usize,
    sequence: usize,
) -> Result<(), Refusal>
    requires from_in_bounds { from ≤ length text.now }
    requires arrival_lt_count { (arrival < count) × (departure < count) × (sequence < count) × (count < 18446744073709551615) }
    ensures { told result ≡ first_bad_line 13 (line_good count arrival departure sequence) first (lines_of (drop from text.now)) }
{
    let mut at = from;
    let mut line = first;
    // A while: each turn goes on where the line ends, so there is no range to go over.
    while at < text.len() {
        let stop = lines::line_stop(text, at);
        if !line_good(text, at, stop, count, arrival, departure, sequence) {
            return words::refused(Reason::Line, line);
        }
        at = lines::line_next(text, stop);
        line = ids::next_number(line);
    }
    Ok(())
}

// Refusals 12 and 13 of a text whose line 1 is a line, and whose other lines begin at a place.
fn fault_below(line: &[u8], text: &[u8], from: usize) -> Result<(), Refusal>
    requires { from ≤ length text.now }
    ensures { told result ≡ fault_below (row_of line.now) (lines_of (drop from text.now)) }
{
    if !header::columns_once(line) {
        return words::refused(Reason::Columns, 1);
    }
    let fields = header::count_fields(line);
    if !fields.sound {
        return words::refused(Reason::Line, 1);
    }
    let arrival = header::column_of(line, b"arrival_time");
    let departure = header::column_of(line, b"departure_time");
    let sequence = header::column_of(line, b"stop_sequence");
    lines_fault(text, from, 2, fields.count, arrival, departure, sequence)
}

// Refusals 12 and 13 of a text.
pub fn text_fault(text: &[u8]) -> Result<(), Refusal>
    ensures { told result ≡ or_else (header_refusal text.now) (lines_refusal text.now) }
{
    let stop = lines::line_stop(text, 0);
    let from = lines::line_next(text, stop);
    fault_below(&text[..stop], text, from)
}
