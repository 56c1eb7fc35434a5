// The working table of the search inside the lent held buffer: a finite map from vertices to distance, state and remaining.
// Promises: each call does to the map, which `map_of` tells of the bytes, what its contract says; how it lies there is the affair of this crate and of the three named table_.
// Rests on: `table_bytes`, `table_tree`, `table_records`, the zeroing of `words`; the held records of `journeys`.
#![tactic(auto)]

ghost use Rattle.std.specs.Prelude.{◌≡◌, ◌≢◌, ◌-◌, ◌/◌, ◌%◌, ◌<◌, ◌≤◌, min, eqb, length};
ghost use Rattle.table_bytes.specs.Columns.{cols};
ghost use Rattle.table_tree.specs.Words.{vacant, Slotted};
ghost use Rattle.table_tree.specs.Tree.{Win, Changed};
ghost use Rattle.table_records.specs.Fields.{distance_in, state_in, remaining_in};
ghost use mathlib.Core.List.{flat_map};
ghost use Rattle.journeys.specs.Bytes.{filled};
ghost use Rattle.journeys.specs.Answers.{held_bytes};
ghost use Rattle.journeys.specs.Counting.{none};
ghost use Rattle.worktable.specs.Map.{absent, known, distance_of, state_of, remaining_of, distance_limit, remaining_limit, Figure, empty, put, settled, touched, size, rows};
ghost use Rattle.worktable.specs.Inside.{word_of, told_of};
ghost use Rattle.worktable.specs.Table.{map_of, InOrder, Holds, Place, Gives, FoundIs, PassedIs, NearestIs};

use table_bytes::{next, set_next, set_word, tree, word};
use table_records::{distance_in, pack, sort, spread};
use table_tree::{
    VACANT, build, change_word, cut, link, lower_word, mask_of, plant, spare, vertex_in,
};

const SETTLED: u64 = 0x8000_0000_0000_0000;

// The numbers that go with a buffer while it is a table: the slots that it has, those that may be used, and how many of these are laid out.
#[derive(Clone, Copy)]
pub struct Table {
    slots: usize,
    room: usize,
    capacity: usize,
    mask: usize,
    top: usize,
    free: usize,
}

// What a vertex has after a look at it: no entry, one that stays, or a spent one at its slot, for the caller to drop.
#[derive(Clone, Copy)]
pub enum Passed {
    Absent,
    Kept,
    Spent(usize),
}

// An entry that waits: its slot, its vertex, its distance.
#[derive(Clone, Copy)]
pub struct Nearest {
    pub slot: usize,
    pub vertex: usize,
    pub distance: u32,
}

// The mask of the buckets of a table with that room.
fn mask_for(room: usize) -> usize
    requires { room ≤ 65536 }
    ensures { 0 < room → result < room }
{
    if room == 0 {
        return 0;
    }
    mask_of(room)
}

// An empty table in any bytes, of at most n slots. More than 65,536 are never needed. No slot is laid out before an entry asks for it, so that a short search does not pay for room that it leaves alone.
pub fn start(b: &[u8], n: usize) -> Table
    requires { length b.now % 16 ≡ 0 }
    ensures { Holds result b.now empty × (result.room ≡ min (length b.now / 16) (min n 65536)) }
{
    let r = b.len() / 16;
    let room = r.min(n.min(65536));
    Table {
        slots: r,
        room: room,
        capacity: 0,
        mask: mask_for(room),
        top: 0,
        free: 0,
    }
}

// How many slots may be used.
pub fn room(t: Table) -> usize
    ensures { result ≡ t.room }
{
    t.room
}

// How many more entries there may be.
pub fn free(b: &[u8], t: Table) -> usize
    requires { InOrder t b.now }
    ensures { result ≡ t.room - size (map_of t b.now) }
{
    t.room - t.capacity + t.free
}

// The slot of vertex u, if it has one.
pub fn find(b: &[u8], t: Table, u: usize) -> Option<usize>
    requires { InOrder t b.now }
    ensures { FoundIs t b.now u result }
{
    if t.capacity == 0 {
        return None;
    }
    let s = table_tree::find(b, t.slots, t.capacity, t.mask, u);
    if s == t.capacity {
        return None;
    }
    Some(s)
}

// The unsettled vertex with the least distance, by number among equals.
pub fn least(b: &[u8], t: Table) -> Option<Nearest>
    requires { InOrder t b.now }
    ensures { NearestIs t b.now result }
{
    if t.capacity == 0 {
        return None;
    }
    let s = tree(b, t.slots, 1);
    let w = word(b, t.slots, s);
    if w < 0x7FFF_FFF0_0000_0000 {
        return Some(Nearest {
            slot: s,
            vertex: vertex_in(w),
            distance: distance_in(w),
        });
    }
    None
}

// The fields side by side.
fn word_of(u: usize, d: u32, n: u32) -> u64
    requires { (u < 65536) × (n < remaining_limit) }
    ensures { result ≡ word_of u d n }
{
    let k = d.min(134217727);
    (k as u64) * 68719476736 + (u as u64) * 1048576 + (n as u64)
}

// A table without a vacant slot gets n slots in all. Entries keep their slots and chains, and the tree is played anew.
fn grow(b: &mut [u8], t: Table, n: usize) -> Table
    requires { InOrder t b.old × (t.free ≡ 0) × (t.capacity < n) × (n ≤ t.room) }
    ensures { Gives t result b.old b.new (map_of t b.old) × (result.capacity ≡ n) }
{
    spare(b, t.slots, t.capacity, n);
    plant(b, t.slots, n);
    build(b, t.slots, n);
    Table {
        slots: t.slots,
        room: t.room,
        capacity: n,
        mask: t.mask,
        top: t.capacity,
        free: n - t.capacity,
    }
}

// More slots than there are, as far as the room goes: about twice as many. The last sixteenth of the room is taken by itself and last, so that what was noted there before the table started stands as long as may be.
fn larger(capacity: usize, room: usize) -> usize
    requires { (capacity < room) × (room ≤ 65536) }
    ensures { (capacity < result) × (result ≤ room) }
{
    let most = room - room / 16;
    if capacity < most {
        return most.min(2 * capacity + 64);
    }
    room
}

// A table with a vacant slot: one that has none gets more.
fn opened(b: &mut [u8], t: Table) -> Table
    requires { InOrder t b.old × (size (map_of t b.old) < t.room) }
    ensures { Gives t result b.old b.new (map_of t b.old) × (size (map_of t b.old) < result.capacity) }
{
    if 0 < t.free {
        return t;
    }
    grow(b, t, larger(t.capacity, t.room))
}

// A new vertex, unsettled, takes the vacant slot at the top.
fn enter(b: &mut [u8], t: Table, u: usize, d: u32, n: u32) -> Table
    requires { InOrder t b.old × (u < 65536) × Figure d × (n < remaining_limit) × (map_of t b.old u ≡ absent) × (size (map_of t b.old) < t.capacity) }
    ensures { Gives t result b.old b.new (put (map_of t b.old) u (known d 0 n)) }
{
    let w = word_of(u, d, n);
    let s = t.top;
    let x = next(b, t.slots, s);
    link(b, t.slots, t.capacity, t.mask, s, w);
    lower_word(b, t.slots, t.capacity, s, w);
    // The link of the last vacant slot leads nowhere: it is only kept in range.
    Table {
        slots: t.slots,
        room: t.room,
        capacity: t.capacity,
        mask: t.mask,
        top: x % 65536,
        free: t.free - 1,
    }
}

// A new vertex, unsettled.
pub fn insert(b: &mut [u8], t: Table, u: usize, d: u32, n: u32) -> Table
    requires { InOrder t b.old × (u < 65536) × Figure d × (n < remaining_limit) × (map_of t b.old u ≡ absent) × (size (map_of t b.old) < t.room) }
    ensures { Gives t result b.old b.new (put (map_of t b.old) u (known d 0 n)) }
{
    let ready = opened(b, t);
    enter(b, ready, u, d, n)
}

// What the word w of slot s tells. One comparison serves both: a settled word is above every distance.
fn told(w: u64, s: usize, allowed: u32) -> Passed
    requires { allowed < distance_limit }
    ensures { result ≡ told_of allowed s (known (distance_in w) (state_in w) (remaining_in w)) }
{
    if (w % 1048576 == 0) & ((allowed as u64) < w / 68719476736) {
        return Passed::Spent(s);
    }
    Passed::Kept
}

// A record with an offer is passed, in one look at the word of the vertex u that it leaves: one less remains, and an unsettled vertex takes the lesser distance.
// The tree compares the distance and not what remains.
pub fn pass(b: &mut [u8], t: Table, u: usize, offer: u32, allowed: u32) -> Passed
    requires { InOrder t b.old × Figure offer × (map_of t b.old u ≢ absent → 0 < remaining_of (map_of t b.old u)) × (allowed < distance_limit) }
    ensures gives { Gives t t b.old b.new (put (map_of t b.old) u (touched offer (map_of t b.old u))) }
    ensures passed_is { PassedIs allowed t b.new u (touched offer (map_of t b.old u)) result }
{
    let Some(s) = find(b, t, u) else {
        return Passed::Absent;
    };
    let w = word(b, t.slots, s) - 1;
    if w < SETTLED {
        let x = offer as u64;
        if x < w / 68719476736 {
            let lower = x * 68719476736 + w % 68719476736;
            lower_word(b, t.slots, t.capacity, s, lower);
            return told(lower, s, allowed);
        }
        set_word(b, t.slots, s, w);
        return told(w, s, allowed);
    }
    set_word(b, t.slots, s, w);
    told(w, s, allowed)
}

// What the vertex u has, in one look at its word.
pub fn look(b: &[u8], t: Table, u: usize, allowed: u32) -> Passed
    requires { InOrder t b.now × (allowed < distance_limit) }
    ensures { PassedIs allowed t b.now u (map_of t b.now u) result }
{
    let Some(s) = find(b, t, u) else {
        return Passed::Absent;
    };
    let w = word(b, t.slots, s);
    told(w, s, allowed)
}

// The unsettled vertex u at slot s, which has a distance, is settled; whether no record of it remains.
pub fn settle_at(b: &mut [u8], t: Table, u: usize, s: usize) -> bool
    requires { InOrder t b.old × Place t b.old u s × (state_of (map_of t b.old u) ≡ 0) × (distance_of (map_of t b.old u) < none) }
    ensures { Gives t t b.old b.new (put (map_of t b.old) u (settled (map_of t b.old u))) × (result ≡ eqb (remaining_of (map_of t b.old u)) 0) }
{
    let w = word(b, t.slots, s);
    change_word(b, t.slots, t.capacity, s, w + SETTLED);
    w % 1048576 == 0
}

// Slot s gets the vacant word. Where it was settled the tree stands as it is: both come last.
fn vacate(b: &mut [u8], r: usize, cap: usize, s: usize)
    requires { Slotted r cap b.old × (s < cap) × Win cap (cols r b.old).w (cols r b.old).t }
    ensures { Changed cap s vacant (cols r b.old) (cols r b.new) }
{
    if word(b, r, s) < SETTLED {
        change_word(b, r, cap, s, VACANT);
        return;
    }
    set_word(b, r, s, VACANT);
}

// Vertex u leaves the table, and its slot s is the next one to be used.
pub fn drop(b: &mut [u8], t: Table, u: usize, s: usize) -> Table
    requires { InOrder t b.old × Place t b.old u s }
    ensures { Gives t result b.old b.new (put (map_of t b.old) u absent) }
{
    cut(b, t.slots, t.capacity, t.mask, s);
    vacate(b, t.slots, t.capacity, s);
    set_next(b, t.slots, s, t.top);
    Table {
        slots: t.slots,
        room: t.room,
        capacity: t.capacity,
        mask: t.mask,
        top: s,
        free: t.free + 1,
    }
}

// The table becomes the held records, ascending by vertex, with zero behind them; how many there are.
pub fn finish(b: &mut [u8], t: Table) -> usize
    requires { InOrder t b.old }
    ensures { (result ≡ size (map_of t b.old)) × (b.new ≡ filled b.old (flat_map held_bytes (rows (map_of t b.old)))) }
{
    let k = pack(b, t.slots, t.capacity);
    sort(b, t.slots, 0, k, 0, 65536);
    let o = 16 * k;
    words::zero(&mut b[o..]);
    spread(b, t.slots, k);
    k
}
