// A timetable and its two lists, judged before its trips are: refusals 29, 12, 13 and 14.
// Promises: the first of them, as the definitions of `feed` say; and by one pass over the lines, whether 13 and 14 let all of them pass.
// Rests on: lists (`ids`), lines (`stops`), ids in the lists (`known`), of two tests the lower line (`lowest`).
#![tactic(auto)]

ghost use Rattle.std.specs.Prelude.{◌≡◌, ◌&&◌, ◌||◌, ◌-◌, ◌≤◌, eqb, length, take, drop};
ghost use Rattle.journeys.specs.Refusals.{fine};
ghost use Rattle.journeys.specs.Counting.{none};
ghost use Rattle.feed.specs.Ids.{ids_refusal};
ghost use Rattle.feed.specs.Lines.{empty, lines_of};
ghost use Rattle.feed.specs.Fields.{row_of};
ghost use Rattle.feed.specs.Stops.{columns_once, lines_refusal, known_refusal};
ghost use Rattle.stoplist.specs.Made.{entry_good, Inside};
ghost use Rattle.words.specs.Told.{told};
ghost use Rattle.headings.specs.Opened.{Opened};
ghost use Rattle.vetting.specs.Vetted.{text_refusal, opens, all_fit};

use idtable::Ids;
use stoplist::Columns;
use words::Refusal;

// Refusals 29, of the stop list and of the trip list, then 12 and 13.
pub fn text_fault(text: &[u8], stops: &[u8], trips: &[u8]) -> Result<(), Refusal>
    ensures { told result ≡ text_refusal text.now stops.now trips.now }
{
    ids::list_fault(stops, 65535)?;
    ids::list_fault(trips, 4294967295)?;
    stops::text_fault(text)
}

// Refusal 14, by the columns of line 1 and by the ids of both lists.
pub fn unknown(
    text: &[u8],
    from: usize,
    c: Columns,
    stops: &Ids,
    trips: &Ids,
) -> Result<(), Refusal>
    requires opened { Opened text.now from c × (lines_refusal text.now ≡ fine) }
    requires stops_good { ids_refusal 65535 stops.now ≡ fine }
    requires trips_good { ids_refusal none trips.now ≡ fine }
    ensures { told result ≡ known_refusal text.now stops.now trips.now }
{
    let by_stop = known::unlisted(stops, 65535, text, from, 2, c.count, c.stop);
    let by_trip = known::unlisted(trips, 4294967295, text, from, 2, c.count, c.trip);
    lowest::lower(by_stop, by_trip)
}

// Neither list is refused, nor is line 1: 29, 12 and the quotes of line 1.
pub fn opening(line: &[u8], stops: &[u8], trips: &[u8]) -> bool
    ensures { result ≡ opens (row_of line.now) stops.now trips.now }
{
    if ids::list_fault(stops, 65535).is_err() {
        return false;
    }
    if ids::list_fault(trips, 4294967295).is_err() {
        return false;
    }
    if !header::columns_once(line) {
        return false;
    }
    let fields = header::count_fields(line);
    fields.sound
}

// 13 and 14 let a line pass. Its columns are looked for once.
fn line_fits(line: &[u8], c: Columns, stops: &Ids, trips: &Ids) -> bool
    requires inside { Inside c }
    requires stops_good { ids_refusal 65535 stops.now ≡ fine }
    requires trips_good { ids_refusal none trips.now ≡ fine }
    ensures { result ≡ entry_good c stops.now trips.now line.now }
{
    let Some(p) = stoplist::places_in(line, c) else {
        return false;
    };
    if !stops::timely(
        line,
        c.count,
        c.arrival,
        c.departure,
        c.sequence,
        p.arrival,
        p.departure,
        p.sequence,
    ) {
        return false;
    }
    if known::listed_from(stops, line, c.stop, p.stop) == 0 {
        return false;
    }
    known::listed_from(trips, line, c.trip, p.trip) != 0
}

// The line between two places of a text. Empty lines are passed over.
fn part_fits(text: &[u8], at: usize, stop: usize, c: Columns, stops: &Ids, trips: &Ids) -> bool
    requires inside { Inside c × (at ≤ stop) × (stop ≤ length text.now) }
    requires stops_good { ids_refusal 65535 stops.now ≡ fine }
    requires trips_good { ids_refusal none trips.now ≡ fine }
    ensures { result ≡ (empty (take (stop - at) (drop at text.now)) || entry_good c stops.now trips.now (take (stop - at) (drop at text.now))) }
{
    if at == stop {
        return true;
    }
    line_fits(&text[at..stop], c, stops, trips)
}

// 13 and 14 let all lines from a place on pass. Where they do not, the pass of each tells which line.
pub fn all_fit(text: &[u8], from: usize, c: Columns, stops: &Ids, trips: &Ids) -> bool
    requires inside { Inside c × (from ≤ length text.now) }
    requires stops_good { ids_refusal 65535 stops.now ≡ fine }
    requires trips_good { ids_refusal none trips.now ≡ fine }
    ensures { result ≡ all_fit (entry_good c stops.now trips.now) (lines_of (drop from text.now)) }
{
    let mut at = from;
    // A while: each turn goes on where the line ends, so there is no range to go over.
    while at < text.len() {
        let stop = lines::line_stop(text, at);
        if !part_fits(text, at, stop, c, stops, trips) {
            return false;
        }
        at = lines::line_next(text, stop);
    }
    true
}
