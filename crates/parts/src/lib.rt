// The covered parts of walk records, listed in the part buffer vertex by vertex: those that lead to the query place, and those that the courier reaches from it.
// Promises: the parts of step 0, and those at a listed vertex, stand behind the ones already there, or the buffer has no room for all of them.
// Rests on: the readers and the part writer of `records`, which is lent the unfilled rest of the buffer.
#![tactic(auto)]

ghost use Rattle.std.specs.Prelude.{◌≡◌, List, ℕ, ◌+◌, ◌-◌, ◌*◌, ◌/◌, ◌<◌, ◌≤◌, max, min, length};
ghost use Rattle.journeys.specs.Bytes.{be32};
ghost use Rattle.journeys.specs.Tables.{wait_of, walk_at};
ghost use Rattle.journeys.specs.Parts.{Part};
ghost use Rattle.records.specs.Asked.{query_of};
ghost use Rattle.parts.specs.Listing.{part_in, past_on, road_of, near_on, pair_on, first_on, part_on, run_on, parts_on, reach_on, first_ahead, ahead_on, aheads_on, ListedIs};

use records::{Query, length_of, wait_ticks};
use words::{Offset, Ticks, word_at};

// The query's road: its record, its twin, the offset of the query place on each of the two, and what is waited for the place there; and the speed
// that makes ticks of waits.
#[derive(Clone, Copy)]
pub struct Road {
    pub walk: u32,
    pub twin: u32,
    pub near: Offset,
    pub back: Offset,
    pub past: Ticks,
    pub past_back: Ticks,
    pub speed: u32,
}

// A part of a walk record, from an offset to one: none where the two are the same.
#[derive(Clone, Copy)]
struct Piece {
    walk: u32,
    start: Offset,
    end: Offset,
}

// What is waited for a place on walk i: the place at its length is past the wait, and no other is. Where there is no such walk there is no wait.
fn past_at(walks: &[u8], i: u32, place: Offset, speed: u32) -> Ticks
    requires { speed ≤ 100 }
    ensures { result.0 ≡ past_on walks.now speed i place.0 }
{
    let at = i as usize;
    if at < walks.len() / 16 {
        let bits = word_at(walks, 16 * at + 8);
        if place.0 == length_of(bits).0 {
            return wait_ticks(bits, speed);
        }
    }
    Ticks(0)
}

pub fn read_road(walks: &[u8], q: Query) -> Road
    requires { (q.walk < length walks.now / 16) × (q.offset.0 ≤ (walk_at walks.now q.walk).len) × (q.speed ≤ 100) }
    ensures { result ≡ road_of walks.now (query_of q) }
{
    let walk = q.walk;
    let near = q.offset;
    let speed = q.speed;
    let w = records::walk_at(walks, walk as usize);
    let back = Offset(w.len.0 - near.0);
    Road {
        walk: walk,
        twin: w.twin,
        near: near,
        back: back,
        past: past_at(walks, walk, near, speed),
        past_back: past_at(walks, w.twin, back, speed),
        speed: speed,
    }
}

// A part behind `count` others, unless it is empty: how many there are then, or none where there is no room for it.
fn list_part(parts: &mut [u8], count: usize, p: Piece) -> Option<usize>
    requires { count ≤ length parts.old / 12 }
    ensures { ListedIs count (part_in p) parts.old parts.new result }
{
    if p.start.0 == p.end.0 {
        return Some(count);
    }
    if count == parts.len() / 12 {
        return None;
    }
    records::add_part(parts, count, p.walk, p.start, p.end);
    Some(count + 1)
}

// The parts that `piece` gives for the numbers from `first` up to `end`, behind `count` others.
fn list_each<F: Fn(usize) -> Piece>(
    parts: &mut [u8],
    count: usize,
    first: usize,
    end: usize,
    piece: F,
) -> Option<usize>
    requires range { (count ≤ length parts.old / 12) × (first ≤ end) }
    requires callable { (i : ℕ) → first ≤ i → i < end → F.pre piece i }
    ensures { (g : ℕ → List Part) → ((i : ℕ) (p : Piece) → first ≤ i → i < end → F.post piece i p → part_in p ≡ g i) → ListedIs count (run_on g first (end - first)) parts.old parts.new result }
{
    let mut listed = count;
    for i in first..end {
        listed = list_part(parts, listed, piece(i))?;
    }
    Some(listed)
}

// So many ticks of walking back from a place, at most to the start of the record: a decimetre is walked in one.
fn walked_back(place: Offset, spent: Ticks) -> Offset
    ensures { result.0 ≡ place.0 - spent.0 }
{
    Offset(place.0.saturating_sub(spent.0))
}

// What is left of so many ticks after a wait: none where they do not reach it.
fn after_wait(left: Ticks, wait: Ticks) -> Ticks
    ensures { result.0 ≡ left.0 - wait.0 }
{
    Ticks(left.0.saturating_sub(wait.0))
}

// The same by the bits of a walk's length. Most walks have no wait, and need no product.
fn left_of(left: Ticks, bits: u32, speed: u32) -> Ticks
    requires { speed ≤ 100 }
    ensures { result.0 ≡ left.0 - wait_of bits * speed }
{
    if bits < 16777216 {
        return left;
    }
    after_wait(left, wait_ticks(bits, speed))
}

fn larger(a: Offset, b: Offset) -> Offset
    ensures { result.0 ≡ max a.0 b.0 }
{
    Offset(a.0.max(b.0))
}

fn near_on(e: Road, i: u32) -> Offset
    ensures { result.0 ≡ near_on e i }
{
    if i == e.walk {
        return e.near;
    }
    if i == e.twin {
        return e.back;
    }
    Offset(0)
}

// Step 0: a part on the query's record, and one on the twin, if any.
fn list_pair(
    parts: &mut [u8],
    e: Road,
    start: Offset,
    end: Offset,
    start_back: Offset,
    end_back: Offset,
) -> Option<usize>
    ensures { ListedIs 0 (pair_on e start.0 end.0 start_back.0 end_back.0) parts.old parts.new result }
{
    let count = list_part(
        parts,
        0,
        Piece {
            walk: e.walk,
            start,
            end,
        },
    )?;
    if e.twin == words::NONE {
        return Some(count);
    }
    list_part(
        parts,
        count,
        Piece {
            walk: e.twin,
            start: start_back,
            end: end_back,
        },
    )
}

// Up to the query place.
pub fn list_first(parts: &mut [u8], e: Road, allowed: Ticks) -> Option<usize>
    ensures { ListedIs 0 (first_on e allowed.0) parts.old parts.new result }
{
    let near = e.near;
    let back = e.back;
    let past = e.past;
    let past_back = e.past_back;
    list_pair(
        parts,
        e,
        walked_back(near, after_wait(allowed, past)),
        near,
        walked_back(back, after_wait(allowed, past_back)),
        back,
    )
}

// The part of walk i, at whose end `left` ticks are left, the wait among them.
fn arriving(walks: &[u8], i: u32, e: Road, left: Ticks) -> Piece
    requires { (i < length walks.now / 16) × (e.speed ≤ 100) }
    ensures { part_in result ≡ part_on walks.now e left.0 i }
{
    let bits = word_at(walks, 16 * (i as usize) + 8);
    let len = length_of(bits);
    let rest = left_of(left, bits, e.speed);
    let start = larger(walked_back(len, rest), near_on(e, i));
    Piece {
        walk: i,
        start,
        end: len,
    }
}

// At a listed vertex: its arriving walks, ascending.
pub fn list_arriving(
    parts: &mut [u8],
    count: usize,
    walks: &[u8],
    first: u32,
    end: u32,
    e: Road,
    left: Ticks,
) -> Option<usize>
    requires { (count ≤ length parts.old / 12) × (first ≤ end) × (end ≤ length walks.now / 16) × (e.speed ≤ 100) }
    ensures { ListedIs count (parts_on walks.now e left.0 first (end - first)) parts.old parts.new result }
{
    list_each(
        parts,
        count,
        first as usize,
        end as usize,
        |i| arriving(walks, i as u32, e, left),
    )
}

// So many ticks of walking on from a place, at most as far as there is room.
fn walked_on(place: Offset, room: Offset, spent: Ticks) -> Offset
    requires { place.0 + room.0 < 4294967296 }
    ensures { result.0 ≡ place.0 + min room.0 spent.0 }
{
    Offset(place.0 + room.0.min(spent.0))
}

fn smaller(a: Offset, b: Offset) -> Offset
    ensures { result.0 ≡ min a.0 b.0 }
{
    Offset(a.0.min(b.0))
}

// The courier's step 0: from the query place on, at most to the end of the road.
pub fn list_ahead(parts: &mut [u8], e: Road, allowed: Ticks) -> Option<usize>
    requires { e.near.0 + e.back.0 < 4294967296 }
    ensures { ListedIs 0 (first_ahead e allowed.0) parts.old parts.new result }
{
    let near = e.near;
    let back = e.back;
    list_pair(
        parts,
        e,
        near,
        walked_on(near, back, allowed),
        back,
        walked_on(back, near, allowed),
    )
}

// How far the courier's part on walk i may reach: to the query place where that lies on it.
fn reach_on(e: Road, i: u32, len: Offset) -> Offset
    ensures { result.0 ≡ reach_on e i len.0 }
{
    if (i == e.walk) | (i == e.twin) {
        return near_on(e, i);
    }
    len
}

// The courier's part of walk i, at whose start `left` ticks are left.
fn departing(walks: &[u8], i: u32, e: Road, left: Ticks) -> Piece
    requires { i < length walks.now / 16 }
    ensures { part_in result ≡ ahead_on walks.now e left.0 i }
{
    let len = length_of(word_at(walks, 16 * (i as usize) + 8));
    let end = smaller(len, reach_on(e, i, len));
    Piece {
        walk: i,
        start: Offset(0),
        end: walked_on(Offset(0), end, left),
    }
}

// At a listed vertex: its departing walks, ascending, whose numbers stand in `records` from `first` up to `end`.
pub fn list_departing(
    parts: &mut [u8],
    count: usize,
    walks: &[u8],
    records: &[u8],
    first: usize,
    end: usize,
    e: Road,
    left: Ticks,
) -> Option<usize>
    requires { (count ≤ length parts.old / 12) × (first ≤ end) × (end ≤ length records.now / 4) × ((j : ℕ) → first ≤ j → j < end → be32 records.now (4 * j) < length walks.now / 16) }
    ensures { ListedIs count (aheads_on walks.now e left.0 records.now first (end - first)) parts.old parts.new result }
{
    list_each(
        parts,
        count,
        first,
        end,
        |j| departing(walks, word_at(records, 4 * j), e, left),
    )
}
