// The frame of a settled list on the map: the smallest and the largest of each coordinate of the listed vertices.
// Promises: the answer of the definition for every byte string of every length, each value a stored one bit for bit; the lent marks are zero afterwards.
// Rests on: the numbers of `words`, the list's judge of `lists`, and the toolchain's comparison of floats. Floats are compared, never computed with.
#![tactic(auto)]

ghost use Rattle.std.specs.Prelude.{◌≡◌, true, ◌+◌, ◌-◌, ◌*◌, ◌/◌, ◌<◌, ◌≤◌, ltb, length, replicate};
ghost use Rattle.journeys.specs.Counting.{none};
ghost use Rattle.journeys.specs.Refusals.{unless, or_else, first_bad, table_of};
ghost use Rattle.words.specs.Told.{told};
ghost use Rattle.journeys.specs.Lists.{vertex_in, list_refusal};
ghost use Rattle.frame.specs.Frames.{value, finite_bits, point_ok, no_bounds, bounds_to, frame_lengths, frame_refusal, frame_bounds, frame_bytes, Listed};
ghost use Rattle.frame.specs.Floats.{lesser_of, greater_of, point_at, widened_by, frame_from, frame_in, answer_from, Numbers, bits_of};

use words::{Reason, Refusal, put_word, refused};

// A map point, and the frame of several.
#[derive(Clone, Copy)]
pub struct Point {
    pub x: f32,
    pub y: f32,
}

#[derive(Clone, Copy)]
pub struct Frame {
    pub least_x: f32,
    pub greatest_x: f32,
    pub least_y: f32,
    pub greatest_y: f32,
}

// The six numbers that a call writes (RULES 21.7): the refusal by number and place, both 0 where nothing is refused, and the frame.
#[derive(Clone, Copy)]
pub struct Framed {
    pub number: u32,
    pub place: u32,
    pub frame: Frame,
}

// The exponent is not all ones.
fn finite(bits: u32) -> bool
    ensures { result ≡ finite_bits bits }
{
    bits % 2147483648 < 2139095040
}

fn point_ok(coordinates: &[u8], v: usize) -> bool
    requires { 8 * v + 8 ≤ length coordinates.now }
    ensures { result ≡ point_ok coordinates.now v }
{
    finite(words::word_at(coordinates, 8 * v)) & finite(words::word_at(coordinates, 8 * v + 4))
}

// Refusal 23: the first of n vertices with a coordinate that is not finite.
fn points(coordinates: &[u8], n: usize) -> Result<(), Refusal>
    requires { (8 * n ≤ length coordinates.now) × (n ≤ 65536) }
    ensures { told result ≡ first_bad 23 (point_ok coordinates.now) n }
{
    for v in 0..n {
        if !point_ok(coordinates, v) {
            return refused(Reason::Coordinate, v as u32);
        }
    }
    Ok(())
}

fn coordinate(bits: u32) -> f32
    requires { finite_bits bits ≡ true }
    ensures { result ≡ value bits }
{
    f32::from_bits(bits)
}

fn point_at(coordinates: &[u8], v: usize) -> Point
    requires { (8 * v + 8 ≤ length coordinates.now) × (point_ok coordinates.now v ≡ true) }
    ensures { result ≡ point_at coordinates.now v }
{
    Point {
        x: coordinate(words::word_at(coordinates, 8 * v)),
        y: coordinate(words::word_at(coordinates, 8 * v + 4)),
    }
}

// The earlier of two stays unless the later is smaller, or larger.
fn lesser(a: f32, b: f32) -> f32
    ensures { result ≡ lesser_of a b }
{
    if b < a { b } else { a }
}

fn greater(a: f32, b: f32) -> f32
    ensures { result ≡ greater_of a b }
{
    if a < b { b } else { a }
}

fn widened(f: Frame, p: Point) -> Frame
    ensures { result ≡ widened_by f p }
{
    Frame {
        least_x: lesser(f.least_x, p.x),
        greatest_x: greater(f.greatest_x, p.x),
        least_y: lesser(f.least_y, p.y),
        greatest_y: greater(f.greatest_y, p.y),
    }
}

fn listed(list: &[u8], coordinates: &[u8], i: usize) -> Point
    requires { (i < length list.now / 8) × (8 * vertex_in 8 list.now i + 8 ≤ length coordinates.now) × (point_ok coordinates.now (vertex_in 8 list.now i) ≡ true) }
    ensures { result ≡ point_at coordinates.now (vertex_in 8 list.now i) }
{
    point_at(coordinates, words::word_at(list, 8 * i) as usize)
}

// The frame of every entry of a list: that of the first, widened by each of the others.
fn around(list: &[u8], coordinates: &[u8]) -> Frame
    requires nonzero { 0 < length list.now / 8 }
    requires listed { Listed list.now coordinates.now }
    ensures { result ≡ frame_from (bounds_to list.now coordinates.now (length list.now / 8 - 1)) }
{
    let n = list.len() / 8;
    let first = listed(list, coordinates, 0);
    let mut f = Frame {
        least_x: first.x,
        greatest_x: first.x,
        least_y: first.y,
        greatest_y: first.y,
    };
    for i in 1..n {
        let p = listed(list, coordinates, i);
        f = widened(f, p);
    }
    f
}

fn table_ok(vertices: &[u8]) -> bool
    ensures { result ≡ table_of 12 1 65536 vertices.now }
{
    (vertices.len() % 12 == 0) & (1 <= vertices.len() / 12) & (vertices.len() / 12 <= 65536)
}

// Refusal 1: the lengths.
fn lengths(vertices: &[u8], list: &[u8], coordinates: &[u8]) -> Result<(), Refusal>
    ensures { told result ≡ frame_lengths vertices.now list.now coordinates.now }
{
    if !table_ok(vertices) {
        return refused(Reason::Length, 0);
    }
    if list.len() % 8 != 0 {
        return refused(Reason::Length, 4);
    }
    if coordinates.len() != 8 * (vertices.len() / 12) {
        return refused(Reason::Length, 6);
    }
    Ok(())
}

// The frame that goes with a refusal.
fn nowhere() -> Frame
    ensures { result ≡ frame_from no_bounds }
{
    Frame {
        least_x: 0.0,
        greatest_x: 0.0,
        least_y: 0.0,
        greatest_y: 0.0,
    }
}

// Refusal 21: the list, whose distances are not looked at.
fn entries(vertices: &[u8], list: &[u8], marks: &mut [u16]) -> Result<(), Refusal>
    requires vertices_len_bound { length vertices.now / 12 ≤ 65536 }
    requires marks_value { marks.old ≡ replicate 2048 0 }
    ensures result_value { told result ≡ list_refusal 8 (length vertices.now / 12) none list.now }
    ensures marks_after { marks.new ≡ replicate 2048 0 }
{
    let n = (vertices.len() / 12) as u32;
    match lists::judge(list, 8, n, words::NONE, marks) {
        Ok(()) => Ok(()),
        Err(i) => refused(Reason::Entry, i),
    }
}

fn nonempty(list: &[u8]) -> Result<(), Refusal>
    ensures { told result ≡ unless (ltb 0 (length list.now / 8)) 24 0 }
{
    if 0 < list.len() / 8 {
        return Ok(());
    }
    refused(Reason::EmptyList, 0)
}

// The first reason in the fixed order.
fn fault(vertices: &[u8], list: &[u8], coordinates: &[u8], marks: &mut [u16]) -> Result<(), Refusal>
    requires { marks.old ≡ replicate 2048 0 }
    ensures result_value { told result ≡ frame_refusal vertices.now list.now coordinates.now }
    ensures marks_after { marks.new ≡ replicate 2048 0 }
{
    lengths(vertices, list, coordinates)?;
    entries(vertices, list, marks)?;
    points(coordinates, vertices.len() / 12)?;
    nonempty(list)
}

pub fn frame_of(
    vertices: &[u8],
    list: &[u8],
    coordinates: &[u8],
    marks: &mut [u16],
) -> Result<Frame, Refusal>
    requires { marks.old ≡ replicate 2048 0 }
    ensures value { told result ≡ frame_refusal vertices.now list.now coordinates.now }
    ensures frame { frame_in result ≡ frame_from (frame_bounds vertices.now list.now coordinates.now) }
    ensures marks_after { marks.new ≡ replicate 2048 0 }
{
    fault(vertices, list, coordinates, marks)?;
    Ok(around(list, coordinates))
}

// An answer as the six numbers that a call writes.
pub fn in_numbers(r: Result<Frame, Refusal>) -> Framed
    ensures { result ≡ answer_from (told r) (frame_in r) }
{
    match r {
        Ok(frame) => Framed {
            number: 0,
            place: 0,
            frame,
        },
        Err(e) => Framed {
            number: u32::from(e.reason),
            place: e.place,
            frame: nowhere(),
        },
    }
}

// The 24 bytes of an answer: refusal, place, and each of the four as its stored bytes.
pub fn put(out: &mut [u8], a: Framed)
    requires out_len { length out.old ≡ 24 }
    requires numbers { Numbers a.frame }
    ensures { out.new ≡ frame_bytes (record { number = a.number; place = a.place }) (bits_of a.frame) }
{
    let f = a.frame;
    put_word(out, 0, a.number);
    put_word(out, 4, a.place);
    put_word(out, 8, f32::to_bits(f.least_x));
    put_word(out, 12, f32::to_bits(f.greatest_x));
    put_word(out, 16, f32::to_bits(f.least_y));
    put_word(out, 20, f32::to_bits(f.greatest_y));
}
