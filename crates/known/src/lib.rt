// The ids of a timetable, looked up in its lists: refusal 14.
// Promises: at which place of a list the first line with an id stands, and the first line whose id is not listed, as the definitions of `feed` say.
// Rests on: lists by their ids (`idtable`), lines and fields (`lines`, `rows`), refusals (`words`).
#![tactic(auto)]

ghost use Rattle.std.specs.Prelude.{◌≡◌, true, ◌||◌, ◌+◌, ◌*◌, ◌-◌, ◌<◌, ◌≤◌, length, take, drop};
ghost use Rattle.feed.specs.Lines.{empty, lines_of, first_bad_line};
ghost use Rattle.feed.specs.Fields.{row_of};
ghost use Rattle.feed.specs.Ids.{ids_refusal};
ghost use Rattle.journeys.specs.Refusals.{fine};
ghost use Rattle.lines.specs.Spans.{bytes_in};
ghost use Rattle.rows.specs.Placed.{place_of, field_span};
ghost use Rattle.naming.specs.Named.{found_from};
ghost use Rattle.words.specs.Told.{told};
ghost use Rattle.known.specs.Counted.{counted, id_known};

use idtable::Ids;
use words::{Reason, Refusal};

// The place, counted from 1, of the first line of a list that has the id in field k of a line, which begins at a place; 0 where none has it.
pub fn listed_from(list: &Ids, line: &[u8], k: usize, at: usize) -> usize
    requires { (k < length (row_of line.now).fields) × (at ≡ place_of line.now k) }
    ensures { result ≡ found_from list.now 0 (bytes_in line.now (field_span line.now k)) }
{
    let span = rows::span_from(line, k, at);
    list.find(span.bytes(line))
}

// The same for a field that is looked for from the line's start.
pub fn listed_at(list: &Ids, line: &[u8], k: usize) -> usize
    requires { k < length (row_of line.now).fields }
    ensures { result ≡ found_from list.now 0 (bytes_in line.now (field_span line.now k)) }
{
    let at = rows::field_place(line, k);
    listed_from(list, line, k, at)
}

// The line between two places of a text has a listed id in field k. Empty lines are passed over.
fn line_known(list: &Ids, most: u32, line: &[u8], count: usize, k: usize) -> bool
    requires list_good { (ids_refusal most list.now ≡ fine) × (k < count) }
    requires line_value { (empty line.now || counted count line.now) ≡ true }
    ensures { result ≡ (empty line.now || id_known list.now k line.now) }
{
    if line.len() == 0 {
        return true;
    }
    listed_at(list, line, k) != 0
}

fn part_known(
    list: &Ids,
    most: u32,
    text: &[u8],
    at: usize,
    stop: usize,
    count: usize,
    k: usize,
) -> bool
    requires list_good { (ids_refusal most list.now ≡ fine) × (k < count) }
    requires at_le_stop { (at ≤ stop) × (stop ≤ length text.now) }
    requires text_value { (empty (take (stop - at) (drop at text.now)) || counted count (take (stop - at) (drop at text.now))) ≡ true }
    ensures { result ≡ (empty (take (stop - at) (drop at text.now)) || id_known list.now k (take (stop - at) (drop at text.now))) }
{
    line_known(list, most, &text[at..stop], count, k)
}

// The first line of a text, from a place on, whose id in field k is not listed.
pub fn unlisted(
    list: &Ids,
    most: u32,
    text: &[u8],
    from: usize,
    first: u32,
    count: usize,
    k: usize,
) -> Result<(), Refusal>
    requires list_good { (ids_refusal most list.now ≡ fine) × (k < count) }
    requires from_in_bounds { (from ≤ length text.now) × (first_bad_line 13 (counted count) first (lines_of (drop from text.now)) ≡ fine) }
    ensures { told result ≡ first_bad_line 14 (id_known list.now k) first (lines_of (drop from text.now)) }
{
    let mut at = from;
    let mut line = first;
    // A while: each turn goes on where the line ends, so there is no range to go over.
    while at < text.len() {
        let stop = lines::line_stop(text, at);
        if !part_known(list, most, text, at, stop, count, k) {
            return words::refused(Reason::UnknownId, line);
        }
        at = lines::line_next(text, stop);
        line = ids::next_number(line);
    }
    Ok(())
}
