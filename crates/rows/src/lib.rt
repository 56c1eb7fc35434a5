// The fields of a line by their numbers.
// Promises: whether a line has so many fields with its quotes in order, where a field begins and what it says as a number, as the definitions of `feed` read it; and where five columns begin, by one pass over the line.
// Rests on: places in a line (`lines`), numbers and times (`values`).
#![tactic(auto)]

ghost use Rattle.std.specs.Prelude.{◌≡◌, cond, ◌&&◌, ◌+◌, ◌-◌, ◌<◌, ◌≤◌, eqb, length, take, drop};
ghost use Rattle.feed.specs.Fields.{row_of, field};
ghost use Rattle.values.specs.Readings.{number_read};
ghost use Rattle.rows.specs.Placed.{place_of, field_span, places_of};

use lines::{Span, Stand};

// Where the five columns of a line begin.
#[derive(Clone, Copy)]
pub struct Places {
    pub trip: usize,
    pub arrival: usize,
    pub departure: usize,
    pub stop: usize,
    pub sequence: usize,
}

// The line has so many fields, and its quotes are in order.
pub fn has_fields(line: &[u8], count: usize) -> bool
    requires { count < 18446744073709551615 }
    ensures { result ≡ ((row_of line.now).sound && eqb (length (row_of line.now).fields) count) }
{
    let all = lines::pass(line, count + 1);
    match all {
        Stand::Ended(over) => over == 1,
        Stand::Begins(_) => false,
        Stand::Broken(_) => false,
    }
}

// Where a field begins.
pub fn field_place(line: &[u8], k: usize) -> usize
    ensures { result ≡ place_of line.now k }
{
    let stand = lines::pass(line, k);
    match stand {
        Stand::Begins(at) => at,
        Stand::Ended(_) => 0,
        Stand::Broken(_) => 0,
    }
}

// The bytes of a field that begins at a place, without the quotes around it.
pub fn span_from(line: &[u8], k: usize, at: usize) -> Span
    requires { (k < length (row_of line.now).fields) × (at ≡ place_of line.now k) }
    ensures { result ≡ field_span line.now k }
{
    lines::span_at(line, at)
}

// The same for a field that is looked for from the line's start.
pub fn field_span(line: &[u8], k: usize) -> Span
    requires { k < length (row_of line.now).fields }
    ensures { result ≡ field_span line.now k }
{
    let at = field_place(line, k);
    span_from(line, k, at)
}

// A field that begins at a place, as a number up to a greatest.
pub fn number_from(line: &[u8], k: usize, at: usize, most: u32) -> Option<u32>
    requires { (k < length (row_of line.now).fields) × (at ≡ place_of line.now k) }
    ensures { result ≡ number_read most (field (row_of line.now) k) }
{
    let span = span_from(line, k, at);
    values::read_number(span.bytes(line), most)
}

// The same for a field that is looked for from the line's start.
pub fn number_in(line: &[u8], k: usize, most: u32) -> Option<u32>
    requires { k < length (row_of line.now).fields }
    ensures { result ≡ number_read most (field (row_of line.now) k) }
{
    let at = field_place(line, k);
    number_from(line, k, at, most)
}

fn pick(k: usize, c: usize, at: usize, old: usize) -> usize
    ensures { result ≡ cond (eqb k c) at old }
{
    if k == c { at } else { old }
}

// Where five columns begin in a line, if it has as many fields as are wanted and its quotes are in order.
pub fn places_of(
    line: &[u8],
    count: usize,
    trip: usize,
    arrival: usize,
    departure: usize,
    stop: usize,
    sequence: usize,
) -> Option<Places>
    requires { (trip < count) × (arrival < count) × (departure < count) × (stop < count) × (sequence < count) }
    ensures { result ≡ places_of count trip arrival departure stop sequence line.now }
{
    let mut at = 0;
    let mut k: usize = 0;
    let mut t = 0;
    let mut a = 0;
    let mut d = 0;
    let mut p = 0;
    let mut q = 0;
    // A loop: each turn goes on where a field ends, and the last field ends it.
    loop {
        t = pick(k, trip, at, t);
        a = pick(k, arrival, at, a);
        d = pick(k, departure, at, d);
        p = pick(k, stop, at, p);
        q = pick(k, sequence, at, q);
        let stand = lines::some_fields(line, at, 1);
        match stand {
            Stand::Begins(next) => {
                at = next;
                k += 1;
            }
            Stand::Ended(_) => {
                if k + 1 != count {
                    return None;
                }
                return Some(Places {
                    trip: t,
                    arrival: a,
                    departure: d,
                    stop: p,
                    sequence: q,
                });
            }
            Stand::Broken(_) => {
                return None;
            }
        }
    }
}
