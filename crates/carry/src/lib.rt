// The sorted stops of a timetable, judged and joined to hops piece by piece: what is carried from one piece to the next.
// Promises: after the last piece, 15 and 16 and the hops are those of all stops, wherever the pieces were cut.
// Rests on: the records of `sorting`, the stops of `succession`, the hops of `connections`. A hop is written only where the stop has been read.
#![tactic(auto)]

ghost use Rattle.std.specs.Prelude.{◌≡◌, Bool, cond, ◌++◌, ℕ, ◌+◌, ◌-◌, ◌*◌, ◌<◌, ◌≤◌, min, length, set, take, drop};
ghost use Rattle.journeys.specs.Counting.{none};
ghost use Rattle.table_bytes.specs.Columns.{at};
ghost use Rattle.sorting.specs.Sorted.{recs};
ghost use Rattle.carry.specs.Carried as spec;
ghost use Rattle.carry.specs.Carried.{item_of, seen, hop_number, followed, all_followed, all_hops, late_end};

use sorting::{high, low, middle, put};

// A record in its three fields, in the order of their weight.
#[derive(Clone, Copy, PartialEq, Eq, PartialOrd, Ord)]
pub struct Item {
    pub high: u32,
    pub middle: u64,
    pub low: u64,
}

// The stop before, the last timed one, and the lowest lines that 15 and 16 are told for so far. Where none is told stands the greatest number, as in the
// definitions: so the lower of two lines is their minimum, and an Option would be no plainer.
#[derive(Clone, Copy)]
pub struct Carry {
    pub prev: Item,
    pub last: Item,
    pub fifteen: u32,
    pub sixteen: u32,
}

#[derive(Clone, Copy)]
pub struct Piece {
    pub carry: Carry,
    pub hops: usize,
}

pub fn item_at(b: &[u8], n: usize, i: usize) -> Item
    requires { (length b.now ≡ 20 * n) × (i < n) }
    ensures { result ≡ item_of (at (recs n b.now) i) }
{
    Item {
        high: high(b, n, i),
        middle: middle(b, n, i),
        low: low(b, n, i),
    }
}

fn line(x: Item) -> u32
    ensures { result ≡ (seen x).line }
{
    (x.middle % 4294967296) as u32
}

fn sequence(x: Item) -> u64
    ensures { result ≡ (seen x).sequence }
{
    x.middle / 4294967296
}

fn vertex(x: Item) -> u64
    ensures { (result ≡ (seen x).vertex) × (result < 16777216) }
{
    x.low / 1099511627776
}

fn timed(x: Item) -> bool
    ensures { result ≡ (seen x).timed }
{
    x.low / 68719476736 % 2 == 1
}

fn arrival(x: Item) -> u64
    ensures { result ≡ (seen x).arrival }
{
    x.low / 262144 % 262144
}

fn departure(x: Item) -> u64
    ensures { result ≡ (seen x).departure }
{
    x.low % 262144
}

fn lowered(least: u32, bad: bool, line: u32) -> u32
    ensures { result ≡ min least (cond bad line none) }
{
    if bad {
        return least.min(line);
    }
    least
}

// 15: the stop before has the trip and the sequence.
fn fifteen(c: Carry, x: Item) -> u32
    ensures { result ≡ spec.fifteen c (seen x) }
{
    let bad = (c.prev.high == x.high) & (sequence(c.prev) == sequence(x));
    lowered(c.fifteen, bad, line(x))
}

// 16, as far as it is known without the stop behind.
fn untimely(c: Carry, x: Item) -> bool
    ensures { result ≡ spec.untimely c (seen x) }
{
    if timed(x) {
        return (departure(x) < arrival(x))
            | ((c.last.high == x.high) & (arrival(x) < departure(c.last)));
    }
    c.prev.high != x.high
}

// An untimed stop was the last of its trip.
fn ended(c: Carry, x: Item) -> bool
    ensures { result ≡ spec.ended c (seen x) }
{
    if timed(c.prev) {
        return false;
    }
    c.prev.high != x.high
}

fn sixteen(c: Carry, x: Item) -> u32
    ensures { result ≡ spec.sixteen c (seen x) }
{
    let before = lowered(c.sixteen, ended(c, x), line(c.prev));
    lowered(before, untimely(c, x), line(x))
}

fn latest(c: Carry, x: Item) -> Item
    ensures { result ≡ spec.latest c x }
{
    if timed(x) {
        return x;
    }
    c.last
}

fn follow(c: Carry, x: Item) -> Carry
    ensures { result ≡ spec.follow c x }
{
    Carry {
        prev: x,
        last: latest(c, x),
        fifteen: fifteen(c, x),
        sixteen: sixteen(c, x),
    }
}

// A hop ends at x: it is timed, and the last timed stop of its trip is at another vertex.
fn joins(c: Carry, x: Item) -> bool
    ensures { result ≡ spec.joins c (seen x) }
{
    timed(x) & ((c.last.high == x.high) & (vertex(c.last) != vertex(x)))
}

// The hop from stop p to stop x becomes record k.
fn put_hop(b: &mut [u8], n: usize, k: usize, p: Item, x: Item)
    requires { (length b.old ≡ 20 * n) × (k < n) }
    ensures { recs n b.new ≡ set (recs n b.old) k (hop_number (seen p) (seen x)) }
{
    let times = vertex(p) * 68719476736 + departure(p) * 262144 + arrival(x);
    let place = line(p) as u64 * 4294967296 + p.high as u64;
    put(b, n, k, vertex(x) as u32, place, times);
}

// The first m records are a piece of the sorted stops. Their hops stand in front then; no more hops end than stops were read.
pub fn pass(b: &mut [u8], n: usize, m: usize, from: Carry) -> Piece
    requires { (length b.old ≡ 20 * n) × (m ≤ n) }
    ensures { (result.carry ≡ all_followed from (take m (recs n b.old)))
        × (result.hops ≡ length (all_hops from (take m (recs n b.old))))
        × (result.hops ≤ m)
        × (take result.hops (recs n b.new) ≡ all_hops from (take m (recs n b.old))) }
{
    let mut c = from;
    let mut k = 0;
    for i in 0..m {
        let x = item_at(b, n, i);
        if joins(c, x) {
            put_hop(b, n, k, c.last, x);
            k += 1;
        }
        c = follow(c, x);
    }
    Piece { carry: c, hops: k }
}

// 16, where no other stop follows.
pub fn late(c: Carry) -> u32
    ensures { result ≡ late_end c }
{
    lowered(c.sixteen, !timed(c.prev), line(c.prev))
}
