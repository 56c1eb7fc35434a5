// The lines of a text, and the fields of a line.
// Promises: where a line and its end stop, and where a field begins or a quote breaks the line, each as the definitions of `feed` read it.
// Rests on: `feed` alone. A plain field and a quoted field hand over to one another, at most 32 fields deep; a loop goes on from there.
#![tactic(auto)]

ghost use Rattle.std.specs.Prelude.{◌≡◌, true, false, ℕ, ◌+◌, ◌-◌, ◌<◌, ◌≤◌, min, length, take, drop};
ghost use Rattle.lines.specs.Ends.{ends, width, end_width};
ghost use Rattle.lines.specs.Passing.{opens_at, plain_stop, quoted_stop, stand};
ghost use Rattle.lines.specs.Spans.{span_at};

// Where the reading of a line stands after some fields: the place where the next begins; or the line is over, or a quote breaks it, with so many
// fields fewer than were to be passed.
#[derive(Clone, Copy)]
pub enum Stand {
    Begins(usize),
    Ended(usize),
    Broken(usize),
}

// The bytes of a field, without the quotes around it.
#[derive(Clone, Copy)]
pub struct Span {
    pub start: usize,
    pub stop: usize,
}

impl Span {
    pub fn bytes(self, line: &[u8]) -> &[u8]
        requires { (self.start ≤ self.stop) × (self.stop ≤ length line.now) }
        ensures { result.now ≡ take (self.stop - self.start) (drop self.start line.now) }
    {
        &line[self.start..self.stop]
    }
}

// The line ends here: LF, or CR with LF behind it.
fn ends_at(text: &[u8], i: usize) -> bool
    requires { i < length text.now }
    ensures { result ≡ ends (drop i text.now) }
{
    let b = text[i];
    if b == 10 {
        return true;
    }
    if b != 13 {
        return false;
    }
    let next = i + 1;
    if next == text.len() {
        return false;
    }
    text[next] == 10
}

// No line ends within two bytes, four, eight: all are above CR. Several are tested at once, which takes half the time.
fn two_on(text: &[u8], i: usize) -> bool
    requires { i + 2 ≤ length text.now }
    ensures { result ≡ true → i + width (drop i text.now) ≡ i + 2 + width (drop (i + 2) text.now) }
{
    (13 < text[i]) & (13 < text[i + 1])
}

fn four_on(text: &[u8], i: usize) -> bool
    requires { i + 4 ≤ length text.now }
    ensures { result ≡ true → i + width (drop i text.now) ≡ i + 4 + width (drop (i + 4) text.now) }
{
    let first = two_on(text, i);
    let second = two_on(text, i + 2);
    first & second
}

fn eight_on(text: &[u8], i: usize) -> bool
    requires { i + 8 ≤ length text.now }
    ensures { result ≡ true → i + width (drop i text.now) ≡ i + 8 + width (drop (i + 8) text.now) }
{
    let first = four_on(text, i);
    let second = four_on(text, i + 4);
    first & second
}

// As far as eight bytes at once tell that the line goes on.
fn line_on(text: &[u8], at: usize) -> usize
    requires { at ≤ length text.now }
    ensures { (result ≤ length text.now) × (result + width (drop result text.now) ≡ at + width (drop at text.now)) }
{
    let mut i = at;
    // A while: the place where it stops is the answer, so the steps of eight are counted by hand.
    while 7 < text.len() - i {
        if !eight_on(text, i) {
            return i;
        }
        i += 8;
    }
    i
}

// Where the line that begins at a place ends.
pub fn line_stop(text: &[u8], at: usize) -> usize
    requires { at ≤ length text.now }
    ensures { result ≡ at + width (drop at text.now) }
{
    for i in line_on(text, at)..text.len() {
        if ends_at(text, i) {
            return i;
        }
    }
    text.len()
}

// Where the next line begins, behind the end of a line.
pub fn line_next(text: &[u8], stop: usize) -> usize
    requires { stop ≤ length text.now }
    ensures { result ≡ stop + end_width (drop stop text.now) }
{
    if stop == text.len() {
        return stop;
    }
    if !ends_at(text, stop) {
        return stop;
    }
    if text[stop] == 10 {
        return stop + 1;
    }
    stop + 2
}

// A quoted field begins here.
fn opens(line: &[u8], at: usize) -> bool
    requires { at ≤ length line.now }
    ensures { result ≡ opens_at line.now at }
{
    if at == line.len() {
        return false;
    }
    line[at] == 34
}

// No field ends within two bytes, four: all are above comma and quote.
fn two_plain(line: &[u8], i: usize) -> bool
    requires { i + 2 ≤ length line.now }
    ensures { result ≡ true → plain_stop line.now i ≡ plain_stop line.now (i + 2) }
{
    (44 < line[i]) & (44 < line[i + 1])
}

fn four_plain(line: &[u8], i: usize) -> bool
    requires { i + 4 ≤ length line.now }
    ensures { result ≡ true → plain_stop line.now i ≡ plain_stop line.now (i + 4) }
{
    let first = two_plain(line, i);
    let second = two_plain(line, i + 2);
    first & second
}

// As far as four bytes at once tell that a plain field goes on.
fn plain_run(line: &[u8], at: usize) -> usize
    requires { at ≤ length line.now }
    ensures { (result ≤ length line.now) × (plain_stop line.now result ≡ plain_stop line.now at) }
{
    let mut i = at;
    // A while: the place where it stops is the answer, so the steps of four are counted by hand.
    while 3 < line.len() - i {
        if !four_plain(line, i) {
            return i;
        }
        i += 4;
    }
    i
}

// The first comma or quote from a place on, or the line's end.
fn plain_stop(line: &[u8], at: usize) -> usize
    requires { at ≤ length line.now }
    ensures { result ≡ plain_stop line.now at }
{
    for i in plain_run(line, at)..line.len() {
        let b = line[i];
        if (b == 44) | (b == 34) {
            return i;
        }
    }
    line.len()
}

// The first quote from a place on that no quote follows, or the line's end.
fn quoted_stop(line: &[u8], at: usize) -> usize
    requires { at ≤ length line.now }
    ensures { result ≡ quoted_stop line.now at }
{
    let mut i = at;
    // A while: a turn takes one byte or two, so there is no range to go over.
    while i < line.len() {
        if line[i] != 34 {
            i += 1;
        } else {
            if !opens(line, i + 1) {
                return i;
            }
            i += 2;
        }
    }
    i
}

// A plain field, and what follows it.
#[cycle(plain_quoted)]
fn plain(line: &[u8], at: usize, left: usize) -> Stand
    requires at_in_bounds { (at ≤ length line.now) × (0 < left) }
    requires at_value { opens_at line.now at ≡ false }
    ensures { result ≡ stand line.now left at }
{
    let stop = plain_stop(line, at);
    if stop == line.len() {
        return Stand::Ended(left - 1);
    }
    if line[stop] == 34 {
        return Stand::Broken(left);
    }
    let next = stop + 1;
    if left == 1 {
        return Stand::Begins(next);
    }
    if opens(line, next) {
        return quoted(line, next, left - 1);
    }
    plain(line, next, left - 1)
}

// A quoted field, and what follows it.
#[cycle(plain_quoted)]
fn quoted(line: &[u8], at: usize, left: usize) -> Stand
    requires at_in_bounds { (at < length line.now) × (0 < left) }
    requires at_value { opens_at line.now at ≡ true }
    ensures { result ≡ stand line.now left at }
{
    let close = quoted_stop(line, at + 1);
    if close == line.len() {
        return Stand::Broken(left);
    }
    let comma = close + 1;
    if comma == line.len() {
        return Stand::Ended(left - 1);
    }
    if line[comma] != 44 {
        return Stand::Broken(left);
    }
    let next = comma + 1;
    if left == 1 {
        return Stand::Begins(next);
    }
    if opens(line, next) {
        return quoted(line, next, left - 1);
    }
    plain(line, next, left - 1)
}

// So many fields, the first of which begins at a place; each takes a little stack.
pub fn some_fields(line: &[u8], at: usize, left: usize) -> Stand
    requires { (at ≤ length line.now) × (0 < left) }
    ensures { result ≡ stand line.now left at }
{
    if opens(line, at) {
        return quoted(line, at, left);
    }
    plain(line, at, left)
}

// How many fields are handed over from one to the next before the loop goes on: each takes a little stack.
fn at_once(left: usize) -> usize
    ensures { result ≡ min left 32 }
{
    left.min(32)
}

// So many fields of a line, passed over from its beginning.
pub fn pass(line: &[u8], fields: usize) -> Stand
    ensures { result ≡ stand line.now fields 0 }
{
    let mut at = 0;
    let mut left = fields;
    // A while: each turn goes on where the fields before it end, and may end the line.
    while 0 < left {
        let most = at_once(left);
        let stand = some_fields(line, at, most);
        let rest = left - most;
        match stand {
            Stand::Begins(next) => {
                at = next;
                left = rest;
            }
            Stand::Ended(over) => {
                return Stand::Ended(over + rest);
            }
            Stand::Broken(over) => {
                return Stand::Broken(over + rest);
            }
        }
    }
    Stand::Begins(at)
}

// The field that begins at a place.
pub fn span_at(line: &[u8], at: usize) -> Span
    requires { at ≤ length line.now }
    ensures { result ≡ span_at line.now at }
{
    if opens(line, at) {
        let start = at + 1;
        return Span {
            start,
            stop: quoted_stop(line, start),
        };
    }
    Span {
        start: at,
        stop: plain_stop(line, at),
    }
}
