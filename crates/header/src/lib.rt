// Line 1 of a timetable: its columns by their names.
// Promises: how often a name stands in a line, at which field first, and whether each of the five names stands there once, as the definitions of `feed` say.
// Rests on: places in a line (`lines`). The line is read field by field, once for each name.
#![tactic(auto)]

ghost use Rattle.std.specs.Prelude.{◌≡◌, false, ◌+◌, ◌-◌, ◌<◌, ◌≤◌, eqb, length, take, drop};
ghost use Rattle.feed.specs.Fields.{row_of, field, same};
ghost use Rattle.feed.specs.Stops.{times, column, columns_once};
ghost use Rattle.header.specs.Counted.{Counted};
ghost use Rattle.lines.specs.Rows.{row_at};
ghost use Rattle.lines.specs.Spans.{quotes};

use lines::Stand;

pub fn same_bytes(a: &[u8], b: &[u8]) -> bool
    ensures { result ≡ same a.now b.now }
{
    a == b
}

// The field that begins at a place has a name. The name itself has no quotes.
fn named(line: &[u8], at: usize, name: &[u8]) -> bool
    requires at_in_bounds { (at ≤ length line.now) × (0 < length (row_at line.now at).fields) }
    requires name_value { quotes name.now ≡ false }
    ensures { result ≡ same name.now (field (row_at line.now at) 0) }
{
    let span = lines::span_at(line, at);
    same_bytes(name, span.bytes(line))
}

// How many fields of a line have a name.
pub fn times_named(line: &[u8], name: &[u8]) -> usize
    requires { quotes name.now ≡ false }
    ensures { result ≡ times name.now (row_of line.now).fields }
{
    let mut at = 0;
    let mut found: usize = 0;
    // A loop: each turn goes on where a field ends, and the last field ends it.
    loop {
        let stand = lines::some_fields(line, at, 1);
        match stand {
            Stand::Begins(next) => {
                if named(line, at, name) {
                    found += 1;
                }
                at = next;
            }
            Stand::Ended(_) => {
                if named(line, at, name) {
                    return found + 1;
                }
                return found;
            }
            Stand::Broken(_) => {
                return found;
            }
        }
    }
}

// The number of the first field that has a name; the number of fields where none has it.
pub fn column_of(line: &[u8], name: &[u8]) -> usize
    requires { quotes name.now ≡ false }
    ensures { result ≡ column name.now (row_of line.now) }
{
    let mut at = 0;
    let mut k: usize = 0;
    // A loop: each turn goes on where a field ends, and the last field ends it.
    loop {
        let stand = lines::some_fields(line, at, 1);
        match stand {
            Stand::Begins(next) => {
                if named(line, at, name) {
                    return k;
                }
                at = next;
                k += 1;
            }
            Stand::Ended(_) => {
                if named(line, at, name) {
                    return k;
                }
                return k + 1;
            }
            Stand::Broken(_) => {
                return k;
            }
        }
    }
}

fn once(line: &[u8], name: &[u8]) -> bool
    requires { quotes name.now ≡ false }
    ensures { result ≡ eqb (times name.now (row_of line.now).fields) 1 }
{
    times_named(line, name) == 1
}

// Each of the five names stands in the line once: otherwise refusal 12.
pub fn columns_once(line: &[u8]) -> bool
    ensures { result ≡ columns_once (row_of line.now) }
{
    let trip = once(line, b"trip_id");
    let arrival = once(line, b"arrival_time");
    let departure = once(line, b"departure_time");
    let stop = once(line, b"stop_id");
    let sequence = once(line, b"stop_sequence");
    trip & arrival & departure & stop & sequence
}

// How many fields a line has, up to a quote that breaks it, and whether none does.
// No Option: the columns of line 1 take the number of fields of a broken line, too.
#[derive(Clone, Copy)]
pub struct Fields {
    pub count: usize,
    pub sound: bool,
}

pub fn count_fields(line: &[u8]) -> Fields
    ensures { Counted line.now result }
{
    let mut at = 0;
    let mut k: usize = 0;
    // A loop: each turn goes on where a field ends, and the last field ends it.
    loop {
        let stand = lines::some_fields(line, at, 1);
        match stand {
            Stand::Begins(next) => {
                at = next;
                k += 1;
            }
            Stand::Ended(_) => {
                return Fields {
                    count: k + 1,
                    sound: true,
                };
            }
            Stand::Broken(_) => {
                return Fields {
                    count: k,
                    sound: false,
                };
            }
        }
    }
}
