// The operators' timetable: stop_times.txt and two lists of ids become hops of 20 bytes.
// Promises: the refusal, the number of hops and every byte of the target, as the definitions of `feed` say, for texts of every length.
// Rests on: the texts judged (`vetting`), tables of ids (`idtable`), and for the trips records in windows (`windows`) or, for want of them, `unaided`.
#![tactic(auto)]

ghost use Rattle.std.specs.Prelude.{◌≡◌, true, ◌+◌, take, drop};
ghost use Rattle.journeys.specs.Refusals.{table_of};
ghost use Rattle.feed.specs.Fields.{row_of};
ghost use Rattle.feed.specs.Answers.{Passed};
ghost use Rattle.lines.specs.Ends.{width, end_width};
ghost use Rattle.headings.specs.Opened.{Opened};
ghost use Rattle.recorded.specs.Asked.{Read, Short};
ghost use Rattle.vetting.specs.Vetted.{text_refusal, opens};
ghost use Rattle.timetable.specs.Lent.{feed_of, Answers, Called};

use departures::refuse;
use idtable::Ids;
use stoplist::Columns;
use words::{Reason, Refusal};

// The sorted stops come window by window: in one where the target holds a record of each line.
fn windowed(
    target: &mut [u8],
    text: &[u8],
    from: usize,
    c: Columns,
    stops: &Ids,
    trips: &Ids,
) -> Result<usize, Refusal>
    requires read { Read (feed_of text.now stops.now trips.now target.old) c from × Short (feed_of text.now stops.now trips.now target.old) }
    ensures { Answers (feed_of text.now stops.now trips.now target.old) result target.new }
{
    let mut spare = [0u8; 20480];
    windows::all_hops(target, &mut spare, 1024, text, from, c, stops, trips)
}

// What 14 lets pass. Records serve where 32 bits hold the number of each line and the place of its trip. Without them each stop is read again from its line.
fn passed(
    target: &mut [u8],
    text: &[u8],
    from: usize,
    c: Columns,
    stops: &Ids,
    trips: &Ids,
) -> Result<usize, Refusal>
    requires target_value { (table_of 20 0 262144 target.old ≡ true) × Passed (feed_of text.now stops.now trips.now target.old) × Opened text.now from c }
    ensures { Answers (feed_of text.now stops.now trips.now target.old) result target.new }
{
    let short = (text.len() < 4294967294) & (trips.list.len() < 4294967296);
    if short {
        return windowed(target, text, from, c, stops, trips);
    }
    unaided::all_hops(target, text, from, c, stops, trips)
}

// A text and lists that 29, 12 and 13 let pass, with the tables of both lists.
fn judged(target: &mut [u8], text: &[u8], stops: &Ids, trips: &Ids) -> Result<usize, Refusal>
    requires target_value { (table_of 20 0 262144 target.old ≡ true) × ((text_refusal text.now stops.now trips.now).number ≡ 0) }
    ensures { Answers (feed_of text.now stops.now trips.now target.old) result target.new }
{
    let stop = lines::line_stop(text, 0);
    let from = lines::line_next(text, stop);
    let c = headings::columns_of(&text[..stop]);
    if let Err(refusal) = vetting::unknown(text, from, c, stops, trips) {
        return refuse(target, refusal.reason, refusal.place);
    }
    passed(target, text, from, c, stops, trips)
}

// The first refusal in the order of the definitions, each by a pass of its own.
fn exactly(target: &mut [u8], text: &[u8], stops: &Ids, trips: &Ids) -> Result<usize, Refusal>
    requires target_value { table_of 20 0 262144 target.old ≡ true }
    ensures { Answers (feed_of text.now stops.now trips.now target.old) result target.new }
{
    if let Err(refusal) = vetting::text_fault(text, stops.list, trips.list) {
        return refuse(target, refusal.reason, refusal.place);
    }
    judged(target, text, stops, trips)
}

// A text whose lists and line 1 are not refused: one pass over its lines tells for nearly every timetable that 13 and 14 let them all pass.
fn quickly(
    target: &mut [u8],
    text: &[u8],
    stop: usize,
    from: usize,
    stops: &Ids,
    trips: &Ids,
) -> Result<usize, Refusal>
    requires target_value { (table_of 20 0 262144 target.old ≡ true) × (stop ≡ 0 + width (drop 0 text.now)) × (from ≡ stop + end_width (drop stop text.now)) × (opens (row_of (take stop text.now)) stops.now trips.now ≡ true) }
    ensures { Answers (feed_of text.now stops.now trips.now target.old) result target.new }
{
    let c = headings::columns_of(&text[..stop]);
    if vetting::all_fit(text, from, c, stops, trips) {
        return passed(target, text, from, c, stops, trips);
    }
    exactly(target, text, stops, trips)
}

// A text and its lists, with the tables of both lists.
fn opened(target: &mut [u8], text: &[u8], stops: &Ids, trips: &Ids) -> Result<usize, Refusal>
    requires target_value { table_of 20 0 262144 target.old ≡ true }
    ensures { Answers (feed_of text.now stops.now trips.now target.old) result target.new }
{
    let stop = lines::line_stop(text, 0);
    let from = lines::line_next(text, stop);
    if vetting::opening(&text[..stop], stops.list, trips.list) {
        return quickly(target, text, stop, from, stops, trips);
    }
    exactly(target, text, stops, trips)
}

// The same with room for the tables.
fn named(target: &mut [u8], text: &[u8], stops: &[u8], trips: &[u8]) -> Result<usize, Refusal>
    requires { table_of 20 0 262144 target.old ≡ true }
    ensures { Answers (feed_of text.now stops.now trips.now target.old) result target.new }
{
    let mut of_stops = [0u32; 8192];
    let mut of_trips = [0u32; 19456];
    let held_stops = idtable::build(&mut of_stops, stops);
    let held_trips = idtable::build(&mut of_trips, trips);
    let by_stop = Ids {
        list: stops,
        table: &of_stops,
        held: held_stops,
    };
    let by_trip = Ids {
        list: trips,
        table: &of_trips,
        held: held_trips,
    };
    opened(target, text, &by_stop, &by_trip)
}

// The hops of a timetable, or the first refusal in the order of the definitions.
pub fn read(text: &[u8], stops: &[u8], trips: &[u8], target: &mut [u8]) -> Result<usize, Refusal>
    ensures { Answers (feed_of text.now stops.now trips.now target.old) result target.new }
{
    if !audit::table_ok(target, 20, 0, 262144) {
        return Err(Refusal {
            reason: Reason::Length,
            place: 2,
        });
    }
    named(target, text, stops, trips)
}

// The same for a caller in C, who lends 12 bytes for refusal, place and number of hops; 1 where they are not 12, and then nothing is written.
pub fn call(text: &[u8], stops: &[u8], trips: &[u8], target: &mut [u8], out: &mut [u8]) -> u32
    ensures { Called (feed_of text.now stops.now trips.now target.old) out.old target.new out.new result }
{
    if out.len() != 12 {
        return 1;
    }
    match read(text, stops, trips, target) {
        Ok(hops) => calls::put_three(out, 0, 0, hops as u32),
        Err(refusal) => calls::put_three(out, u32::from(refusal.reason), refusal.place, 0),
    }
    0
}
