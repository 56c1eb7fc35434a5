// The lists of a timetable, lines "id,number", judged: refusal 29.
// Promises: the first line that is not good, as the definitions of `feed` say.
// Rests on: lines (`lines`), the fields of a line (`rows`), refusals (`words`).
#![tactic(auto)]

ghost use Rattle.std.specs.Prelude.{◌≡◌, ◌||◌, ◌+◌, ◌-◌, ◌≤◌, min, length, take, drop};
ghost use Rattle.journeys.specs.Counting.{none};
ghost use Rattle.feed.specs.Lines.{empty};
ghost use Rattle.feed.specs.Ids.{list_line, ids_refusal};
ghost use Rattle.words.specs.Told.{told};

use words::{Reason, Refusal};

// A line of a list: two fields, the second a number up to a greatest.
fn list_line(line: &[u8], most: u32) -> bool
    ensures { result ≡ list_line most line.now }
{
    if !rows::has_fields(line, 2) {
        return false;
    }
    rows::number_in(line, 1, most).is_some()
}

// The line between two places of a text. Empty lines are passed over.
fn line_good(text: &[u8], at: usize, stop: usize, most: u32) -> bool
    requires { (at ≤ stop) × (stop ≤ length text.now) }
    ensures { result ≡ (empty (take (stop - at) (drop at text.now)) || list_line most (take (stop - at) (drop at text.now))) }
{
    if at == stop {
        return true;
    }
    list_line(&text[at..stop], most)
}

// The number of the next line, as far as 32 bits hold it.
pub fn next_number(line: u32) -> u32
    ensures { result ≡ min (line + 1) none }
{
    line.saturating_add(1)
}

// Refusal 29 of a list whose numbers go up to a greatest.
pub fn list_fault(text: &[u8], most: u32) -> Result<(), Refusal>
    ensures { told result ≡ ids_refusal most text.now }
{
    let mut at = 0;
    let mut line: u32 = 1;
    // A while: each turn goes on where the line ends, so there is no range to go over.
    while at < text.len() {
        let stop = lines::line_stop(text, at);
        if !line_good(text, at, stop, most) {
            return words::refused(Reason::IdLine, line);
        }
        at = lines::line_next(text, stop);
        line = next_number(line);
    }
    Ok(())
}
