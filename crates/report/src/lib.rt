// The printed text of the program `reach`: lines of words and decimal numbers, each ended by LF.
// Promises: every byte of the text of an answer and of a faulty job, where there is room for it, and otherwise that nothing is written.
// Rests on: bytes copied into a buffer (`copying`), the words of `words`, the decimal digits of `io`.
#![tactic(auto)]

ghost use Rattle.std.specs.Prelude.{◌≡◌, true, [], ◌∷◌, ◌++◌, ◌+◌, ◌*◌, ◌≤◌, length};
ghost use Rattle.io.specs.Counts.{IsPrefixLen};
ghost use Rattle.copying.specs.Write.{over, Wrote};
ghost use Rattle.report.specs.Text.{decimal, field as Text·field, fields, fields_at, line, lines as Text·lines, lists as Text·lists, answer_word, end_word, printed, given, fits, report as Text·report, fault_in};

use copying::put;
use records::Answer;
use words::word_at;

// A number in decimal.
fn number(out: &mut [u8], at: usize, x: u64) -> usize
    requires { at + length (decimal x) ≤ length out.old }
    ensures { Wrote out.old at (decimal x) out.new result }
{
    let mut digits = [0u8; 20];
    let k = io::decimal(x, &mut digits);
    put(out, at, &digits[..k])
}

fn newline(out: &mut [u8], at: usize) -> usize
    requires { at + 1 ≤ length out.old }
    ensures { Wrote out.old at (10 ∷ []) out.new result }
{
    put(out, at, b"\n")
}

// A space and a number of 32 bits, at most 11 bytes.
fn field(out: &mut [u8], at: usize, x: u32) -> usize
    requires { at + 11 ≤ length out.old }
    ensures wrote { Wrote out.old at (Text·field x) out.new result }
    ensures upper_bound { result ≤ at + 11 }
{
    let next = put(out, at, b" ");
    number(out, next, x as u64)
}

fn pair(out: &mut [u8], at: usize, x: u32, y: u32) -> usize
    requires { at + 22 ≤ length out.old }
    ensures wrote { Wrote out.old at (Text·field x ++ Text·field y) out.new result }
    ensures upper_bound { result ≤ at + 22 }
{
    let next = field(out, at, x);
    field(out, next, y)
}

// A line of the n numbers that stand from a place of a table on, at most 49 bytes.
fn record_line(
    out: &mut [u8],
    at: usize,
    label: &[u8],
    table: &[u8],
    from: usize,
    n: usize,
) -> usize
    requires { (length label.now + 11 * n ≤ 48) × (from + 4 * n ≤ length table.now) × (at + 49 ≤ length out.old) }
    ensures wrote { Wrote out.old at (line label.now (fields_at table.now from n)) out.new result }
    ensures upper_bound { result ≤ at + 49 }
{
    let mut to = put(out, at, label);
    for j in 0..n {
        let x = word_at(table, from + 4 * j);
        to = field(out, to, x);
    }
    newline(out, to)
}

// A line for each of the first records of a table.
fn lines(out: &mut [u8], at: usize, label: &[u8], table: &[u8], n: usize, count: usize) -> usize
    requires { (length label.now + 11 * n ≤ 48) × (4 * n * count ≤ length table.now) × (at + 49 * count ≤ length out.old) }
    ensures wrote { Wrote out.old at (Text·lines label.now table.now n count) out.new result }
    ensures upper_bound { result ≤ at + 49 * count }
{
    let size = 4 * n;
    let mut to = at;
    for i in 0..count {
        to = record_line(out, to, label, table, size * i, n);
    }
    to
}

fn answer_line(out: &mut [u8], at: usize, refusal: u32, place: u32) -> usize
    requires { at + 49 ≤ length out.old }
    ensures wrote { Wrote out.old at (line answer_word (fields (refusal ∷ place ∷ []))) out.new result }
    ensures upper_bound { result ≤ at + 49 }
{
    let a = put(out, at, b"answer");
    let b = pair(out, a, refusal, place);
    newline(out, b)
}

fn end_line(out: &mut [u8], at: usize, settled: u32, parts: u32, held: u32, finished: u32) -> usize
    requires { at + 49 ≤ length out.old }
    ensures wrote { Wrote out.old at (line end_word (fields (settled ∷ parts ∷ held ∷ finished ∷ []))) out.new result }
    ensures upper_bound { result ≤ at + 49 }
{
    let a = put(out, at, b"end");
    let b = pair(out, a, settled, parts);
    let d = pair(out, b, held, finished);
    newline(out, d)
}

// The three lists, one behind the other.
fn lists(
    out: &mut [u8],
    at: usize,
    s: usize,
    p: usize,
    h: usize,
    settled: &[u8],
    parts: &[u8],
    held: &[u8],
) -> usize
    requires { (8 * s ≤ length settled.now) × (12 * p ≤ length parts.now) × (16 * h ≤ length held.now) × (at + 49 * (s + p + h) ≤ length out.old) }
    ensures wrote { Wrote out.old at (Text·lists s p h settled.now parts.now held.now) out.new result }
    ensures upper_bound { result ≤ at + 49 * (s + p + h) }
{
    let a = lines(out, at, b"vertex", settled, 2, s);
    let b = lines(out, a, b"part", parts, 3, p);
    lines(out, b, b"held", held, 4, h)
}

// The whole text, where there is room for it.
fn whole(out: &mut [u8], answer: Answer, settled: &[u8], parts: &[u8], held: &[u8]) -> usize
    requires { fits (given answer settled.now parts.now held.now) (length out.old) ≡ true }
    ensures { Wrote out.old 0 (printed (given answer settled.now parts.now held.now)) out.new result }
{
    let a = answer_line(out, 0, answer.refusal, answer.place);
    if answer.refusal != 0 {
        return a;
    }
    let s = answer.settled as usize;
    let p = answer.parts as usize;
    let h = answer.held as usize;
    let b = lists(out, a, s, p, h, settled, parts, held);
    end_line(
        out,
        b,
        answer.settled,
        answer.parts,
        answer.held,
        answer.finished,
    )
}

// The text of a run's answer and of the parts of its list, into the front of a buffer; answers its length. Where the buffers hold fewer records than the answer counts, or the
// room is below 49 bytes for each line and two more, it writes nothing and answers 0.
pub fn report(answer: Answer, settled: &[u8], parts: &[u8], held: &[u8], out: &mut [u8]) -> usize
    ensures out_after { out.new ≡ over (Text·report (given answer settled.now parts.now held.now) (length out.old)) out.old }
    ensures value { result ≡ length (Text·report (given answer settled.now parts.now held.now) (length out.old)) }
    ensures prefix_len { IsPrefixLen result out.new }
{
    let s = answer.settled as usize;
    let p = answer.parts as usize;
    let h = answer.held as usize;
    let room = (s <= settled.len() / 8)
        & (p <= parts.len() / 12)
        & (h <= held.len() / 16)
        & (49 * (s + p + h + 2) <= out.len());
    if room {
        whole(out, answer, settled, parts, held)
    } else {
        0
    }
}

// The line of a faulty job, into the front of a buffer; answers its length. Where the room is below 25 bytes, it writes nothing and answers 0.
pub fn fault_line(n: usize, out: &mut [u8]) -> usize
    ensures out_after { out.new ≡ over (fault_in n (length out.old)) out.old }
    ensures value { result ≡ length (fault_in n (length out.old)) }
    ensures prefix_len { IsPrefixLen result out.new }
{
    if out.len() < 25 {
        return 0;
    }
    let a = put(out, 0, b"job ");
    let b = number(out, a, n as u64);
    newline(out, b)
}
