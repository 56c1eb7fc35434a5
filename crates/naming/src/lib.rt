// The lines of a list by their ids, read line by line.
// Promises: whether the line at a place has an id, and the place of the first line that has it, as the definitions of `feed` say.
// Rests on: lines and fields (`lines`), bytes compared (`header`).
#![tactic(auto)]

ghost use Rattle.std.specs.Prelude.{◌≡◌, true, ◌-◌, ◌<◌, ◌≤◌, length, take, drop};
ghost use Rattle.feed.specs.Fields.{same};
ghost use Rattle.naming.specs.Named.{line_at, first_bytes, found_from, leads, above};

// The first field of a line has these bytes.
fn begins_with(line: &[u8], name: &[u8]) -> bool
    ensures { result ≡ same name.now (first_bytes line.now) }
{
    let span = lines::span_at(line, 0);
    header::same_bytes(name, span.bytes(line))
}

fn begins_between(name: &[u8], text: &[u8], at: usize, stop: usize) -> bool
    requires { (at ≤ stop) × (stop ≤ length text.now) }
    ensures { result ≡ same name.now (first_bytes (take (stop - at) (drop at text.now))) }
{
    begins_with(&text[at..stop], name)
}

// From a place on, a text goes on with these bytes. They are compared from the last one on: ids of one list mostly differ there.
fn goes_on(text: &[u8], at: usize, name: &[u8]) -> bool
    requires { at ≤ length text.now }
    ensures { result ≡ leads name.now (drop at text.now) }
{
    if name.len() > text.len() - at {
        return false;
    }
    for k in (0..name.len()).rev() {
        if name[k] != text[at + k] {
            return false;
        }
    }
    true
}

// None of these bytes ends a field or a line, or is a quote.
fn plain_name(name: &[u8]) -> bool
    ensures { result ≡ above name.now }
{
    for b in name {
        if *b <= 44 {
            return false;
        }
    }
    true
}

// A comma stands behind a name of plain bytes: if the text goes on with the name, it is the line's first field.
fn comma_behind(text: &[u8], at: usize, name: &[u8]) -> bool
    requires { at < length text.now }
    ensures { result ≡ true → leads name.now (drop at text.now) ≡ true → same name.now (first_bytes (line_at text.now at)) ≡ true }
{
    let end = at + name.len();
    if text.len() <= end {
        return false;
    }
    if text[end] != 44 {
        return false;
    }
    plain_name(name)
}

// The line that begins at a place has this id. Where no quote stands first, the first byte that differs decides before the line's end is looked for; and a plain id that a comma follows is told without it.
pub fn names_at(text: &[u8], at: usize, name: &[u8]) -> bool
    requires { at < length text.now }
    ensures { result ≡ same name.now (first_bytes (line_at text.now at)) }
{
    let led = goes_on(text, at, name);
    if (text[at] != 34) & !led {
        return false;
    }
    let sure = comma_behind(text, at, name);
    if led & sure {
        return true;
    }
    let stop = lines::line_stop(text, at);
    begins_between(name, text, at, stop)
}

// The place, counted from 1, of the first line from a place on that has an id; 0 where none has it.
pub fn seek(text: &[u8], from: usize, name: &[u8]) -> usize
    requires { from ≤ length text.now }
    ensures { result ≡ found_from text.now from name.now }
{
    let mut at = from;
    // A while: each turn goes on where the line ends, so there is no range to go over.
    while at < text.len() {
        let stop = lines::line_stop(text, at);
        let next = lines::line_next(text, stop);
        if (at < stop) & begins_between(name, text, at, stop) {
            return at + 1;
        }
        at = next;
    }
    0
}
