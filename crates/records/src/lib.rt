// The records of RULES 3 in their bytes: readers and writers; and the query and the answer as the calls hand them on.
// Promises: what is read is what `journeys` decodes, a record is refused exactly as RULES 12 says, and what is written reads back.
// Rests on: the numbers of `words` and the definitions of `journeys`.
#![tactic(auto)]

ghost use Rattle.std.specs.Prelude.{◌≡◌, true, [], ◌++◌, ℕ, ◌+◌, ◌-◌, ◌*◌, ◌/◌, ◌<◌, ◌≤◌, eqb, leb, length, drop};
ghost use Rattle.journeys.specs.Bytes.{clocked, midnight};
ghost use Rattle.journeys.specs.Tables.{len_of, wait_of, vertex_at, walk_at, hop_at, tables_of};
ghost use Rattle.journeys.specs.Refusals.{ends_ok, length_ok, pair_ok, twin_ok, times_ok, walk_ok};
ghost use Rattle.journeys.specs.Records.{departing};
ghost use Rattle.journeys.specs.Answers.{settled_bytes};
ghost use Rattle.journeys.specs.Parts.{part_bytes};
ghost use Rattle.records.specs.Meaning.{offset_of, span_of, vertex_of, walk_of, walk_in, hop_of, refusal_of};
ghost use Rattle.records.specs.Readings.{told_vertex, told_walk, told_hop, vertex_reading, walk_reading, hop_reading};
ghost use Rattle.records.specs.Columns.{records_in, from_at, to_at, Ascending, arriving_below};
ghost use Rattle.records.specs.Arriving.{table_of, size_of, first_of, end_of, run};
ghost use Rattle.records.specs.Fields.{settled_of, part_of};
ghost use Rattle.words.specs.Written.{written};

use words::{
    NONE, Offset, Seconds, Ticks, half_at, not_after, put_word, seconds_of, ticks_of, walked,
    word_at,
};

#[derive(Clone, Copy)]
pub struct Vertex {
    pub first_walk: u32,
    pub first_hop: u32,
    pub departing: u32,
    pub zeros: u32,
}

#[derive(Clone, Copy)]
pub struct Walk {
    pub from: u32,
    pub to: u32,
    pub len: Offset,
    pub wait: Seconds,
    pub twin: u32,
}

#[derive(Clone, Copy)]
pub struct Hop {
    pub from: u32,
    pub to: u32,
    pub departure: Seconds,
    pub arrival: Seconds,
}

// The two tables that hold arriving records.
#[derive(Clone, Copy)]
pub enum Kind {
    Walks,
    Hops,
}

// A walk record, an offset on it, the arrival, the duration in seconds, the speed in decimetres a second.
#[derive(Clone, Copy)]
pub struct Query {
    pub walk: u32,
    pub offset: Offset,
    pub arrival: Seconds,
    pub duration: u32,
    pub speed: u32,
}

// The six numbers of an answer.
#[derive(Clone, Copy)]
pub struct Answer {
    pub refusal: u32,
    pub place: u32,
    pub settled: u32,
    pub parts: u32,
    pub held: u32,
    pub finished: u32,
}

// The bytes of a walk record. A hop has 16 bytes or 20; whoever lends hops names the size.
pub const WALK_SIZE: usize = 16;

// An answer that refuses: nothing is listed.
pub fn refusal(number: u32, place: u32) -> Answer
    ensures { result ≡ refusal_of number place }
{
    Answer {
        refusal: number,
        place,
        settled: 0,
        parts: 0,
        held: 0,
        finished: 0,
    }
}

// The record at a number, as it stands. Each kind has a reader of its own, here and below: they share no field, and each is told other things.
pub fn vertex_at(vertices: &[u8], v: usize) -> Vertex
    requires { v < length vertices.now / 12 }
    ensures { result ≡ vertex_of (vertex_at vertices.now v) }
{
    let at = 12 * v;
    Vertex {
        first_walk: word_at(vertices, at),
        first_hop: word_at(vertices, at + 4),
        departing: half_at(vertices, at + 8),
        zeros: half_at(vertices, at + 10),
    }
}

// Of the four bytes of a walk's length the first is the wait and the other three the length.
pub fn length_of(bits: u32) -> Offset
    ensures { result ≡ offset_of (len_of bits) }
{
    Offset(bits % 16777216)
}

pub fn wait_of(bits: u32) -> Seconds
    ensures { result ≡ span_of (wait_of bits) }
{
    Seconds((bits / 16777216) as i32)
}

// The ticks of such a wait, and those of the whole walk.
pub fn wait_ticks(bits: u32, speed: u32) -> Ticks
    requires { speed ≤ 100 }
    ensures { result.0 ≡ wait_of bits * speed }
{
    ticks_of(wait_of(bits), speed)
}

pub fn walk_ticks(bits: u32, speed: u32) -> Ticks
    requires { speed ≤ 100 }
    ensures { result.0 ≡ len_of bits + wait_of bits * speed }
{
    Ticks(walked(length_of(bits)).0 + wait_ticks(bits, speed).0)
}

pub fn walk_at(walks: &[u8], i: usize) -> Walk
    requires { i < length walks.now / 16 }
    ensures { result ≡ walk_of (walk_at walks.now i) }
{
    let at = 16 * i;
    let bits = word_at(walks, at + 8);
    Walk {
        from: word_at(walks, at),
        to: word_at(walks, at + 4),
        len: length_of(bits),
        wait: wait_of(bits),
        twin: word_at(walks, at + 12),
    }
}

// Of a hop record the first 16 bytes are read, whatever its size.
pub fn hop_at(hops: &[u8], size: usize, j: usize) -> Hop
    requires { (16 ≤ size) × (j < records_in size hops.now) }
    ensures { result ≡ hop_of (hop_at size hops.now j) }
{
    let at = hop_start(size, j);
    Hop {
        from: word_at(hops, at),
        to: word_at(hops, at + 4),
        departure: seconds_of(word_at(hops, at + 8)),
        arrival: seconds_of(word_at(hops, at + 12)),
    }
}

// Where the record i of records of a size starts.
pub fn hop_start(size: usize, i: usize) -> usize
    requires { size * i ≤ 18446744073709551615 }
    ensures { result ≡ size * i }
{
    size * i
}

// "from" and "to" of the record i of records of a size. Two functions of a line: a parameter for the byte would be no plainer.
pub fn from_at(table: &[u8], size: usize, i: usize) -> u32
    requires { (4 ≤ size) × (i < records_in size table.now) }
    ensures { result ≡ from_at size table.now i }
{
    word_at(table, hop_start(size, i))
}

pub fn to_at(table: &[u8], size: usize, i: usize) -> u32
    requires { (8 ≤ size) × (i < records_in size table.now) }
    ensures { result ≡ to_at size table.now i }
{
    word_at(table, hop_start(size, i) + 4)
}

// The tests of a record. They are joined by `&`, so that a test's value is the definition's own expression.
fn ends_ok(vertices: usize, from: u32, to: u32) -> bool
    ensures { result ≡ ends_ok vertices from to }
{
    ((from as usize) < vertices) & ((to as usize) < vertices) & (from != to)
}

fn length_ok(len: u32) -> bool
    ensures { result ≡ length_ok len }
{
    (1 <= len) & (len <= 100000)
}

fn wait_ok(wait: Seconds) -> bool
    ensures { result ≡ leb (clocked wait.0) (midnight + 120) }
{
    not_after(wait, Seconds(120))
}

fn pair_ok(i: u32, w: Walk, t: Walk) -> bool
    ensures { result ≡ pair_ok i (walk_in w) (walk_in t) }
{
    (t.twin == i) & (t.from == w.to) & (t.to == w.from) & (t.len == w.len)
}

fn twin_ok(walks: &[u8], i: u32, w: Walk) -> bool
    ensures { result ≡ twin_ok (tables_of 16 [] walks.now []) i (walk_in w) }
{
    let twin = w.twin;
    if twin == NONE {
        return true;
    }
    let at = twin as usize;
    if at < walks.len() / 16 {
        return pair_ok(i, w, walk_at(walks, at));
    }
    false
}

fn times_ok(departure: Seconds, arrival: Seconds) -> bool
    ensures { result ≡ times_ok (clocked departure.0) (clocked arrival.0) }
{
    not_after(Seconds(-86400), departure)
        & not_after(departure, arrival)
        & not_after(arrival, Seconds(172800))
}

// Whether `first` is the number of records with a "to" below v: the one before it has, and the one that it names has not.
pub fn first_ok(table: &[u8], size: usize, first: u32, v: u32) -> bool
    requires le_size { 8 ≤ size }
    requires ascending { Ascending size table.now }
    ensures { result ≡ eqb first (arriving_below size table.now v) }
{
    let at = first as usize;
    if table.len() / size < at {
        return false;
    }
    if 0 < at {
        if v <= to_at(table, size, at - 1) {
            return false;
        }
    }
    if at < table.len() / size {
        return v <= to_at(table, size, at);
    }
    true
}

// The record at a number, or the place of a refusal of it. For a vertex both tables ascend by "to", and `departs` is the number of its departing records.
pub fn read_vertex(
    vertices: &[u8],
    walks: &[u8],
    hops: &[u8],
    hop_size: usize,
    v: u32,
    departs: u32,
) -> Result<Vertex, u32>
    requires v_in_bounds { (v < length vertices.now / 12) × (16 ≤ hop_size) }
    requires ascending { Ascending 16 walks.now }
    requires ascending_2 { Ascending hop_size hops.now }
    requires departs_value { departs ≡ departing (tables_of hop_size vertices.now walks.now hops.now) v }
    ensures { told_vertex result ≡ vertex_reading (tables_of hop_size vertices.now walks.now hops.now) v }
{
    let x = vertex_at(vertices, v as usize);
    if first_ok(walks, WALK_SIZE, x.first_walk, v)
        & first_ok(hops, hop_size, x.first_hop, v)
        & (x.departing == departs)
        & (x.zeros == 0)
    {
        Ok(x)
    } else {
        Err(v)
    }
}

// A pair is tested once, from its lower record: that one tests the ends and the length of both. So a walk whose twin is lower, and good, is good
// exactly if the twin names it and its own wait is good.
fn walk_ok(vertices: &[u8], walks: &[u8], i: u32) -> bool
    requires i_bound { (i < records_in 16 walks.now) × (records_in 16 walks.now ≤ 262144) }
    requires by_index { (k : ℕ) → k < i → walk_ok (tables_of 16 vertices.now walks.now []) k ≡ true }
    ensures { result ≡ walk_ok (tables_of 16 vertices.now walks.now []) i }
{
    let w = walk_at(walks, i as usize);
    let wait = w.wait;
    if w.twin < i {
        if !wait_ok(wait) {
            return false;
        }
        return walk_at(walks, w.twin as usize).twin == i;
    }
    if !ends_ok(vertices.len() / 12, w.from, w.to) {
        return false;
    }
    if !(length_ok(w.len.0) & wait_ok(wait)) {
        return false;
    }
    twin_ok(walks, i, w)
}

// Of a walk those before it are good.
pub fn read_walk(vertices: &[u8], walks: &[u8], i: u32) -> Result<Walk, u32>
    requires i_bound { (i < records_in 16 walks.now) × (records_in 16 walks.now ≤ 262144) }
    requires by_index { (k : ℕ) → k < i → walk_ok (tables_of 16 vertices.now walks.now []) k ≡ true }
    ensures { told_walk result ≡ walk_reading (tables_of 16 vertices.now walks.now []) i }
{
    if walk_ok(vertices, walks, i) {
        Ok(walk_at(walks, i as usize))
    } else {
        Err(i)
    }
}

pub fn read_hop(vertices: &[u8], hops: &[u8], size: usize, j: u32) -> Result<Hop, u32>
    requires { (16 ≤ size) × (j < records_in size hops.now) }
    ensures { told_hop result ≡ hop_reading (tables_of size vertices.now [] hops.now) j }
{
    let h = hop_at(hops, size, j as usize);
    let departure = h.departure;
    let arrival = h.arrival;
    if ends_ok(vertices.len() / 12, h.from, h.to) & times_ok(departure, arrival) {
        Ok(h)
    } else {
        Err(j)
    }
}

// Where the records that arrive at v begin in the table of a kind, and where they end. `records` is the number of records of that table.
pub fn first_arriving(vertices: &[u8], kind: Kind, v: usize) -> usize
    requires { v < length vertices.now / 12 }
    ensures { result ≡ first_of kind (vertex_at vertices.now v) }
{
    match kind {
        Kind::Walks => word_at(vertices, 12 * v) as usize,
        Kind::Hops => word_at(vertices, 12 * v + 4) as usize,
    }
}

pub fn end_arriving(vertices: &[u8], kind: Kind, v: usize, records: usize) -> usize
    requires { v < length vertices.now / 12 }
    ensures { result ≡ end_of kind vertices.now records v }
{
    let next = v + 1;
    if next < vertices.len() / 12 {
        return first_arriving(vertices, kind, next);
    }
    records
}

fn part_of(table: &[u8], size: usize, first: usize, end: usize) -> &[u8]
    requires { (0 < size) × (first ≤ end) × (end ≤ records_in size table.now) }
    ensures { result.now ≡ run size table.now first end }
{
    &table[hop_start(size, first)..hop_start(size, end)]
}

// Those records, as a part of the table.
pub fn arriving<'a>(
    walks: &'a [u8],
    hops: &'a [u8],
    hop_size: usize,
    kind: Kind,
    first: usize,
    end: usize,
) -> &'a [u8]
    requires { (0 < hop_size) × (first ≤ end) × (end ≤ records_in (size_of kind hop_size) (table_of kind walks.now hops.now)) }
    ensures { result.now ≡ run (size_of kind hop_size) (table_of kind walks.now hops.now) first end }
{
    match kind {
        Kind::Walks => part_of(walks, WALK_SIZE, first, end),
        Kind::Hops => part_of(hops, hop_size, first, end),
    }
}

// A record at the front of what is lent: the unfilled rest of a buffer. Each kind has its own fields: a writer of any number of words would need a
// loop, and say less.
pub fn put_settled(out: &mut [u8], vertex: u32, distance: Ticks)
    requires { 8 ≤ length out.old }
    ensures { out.new ≡ settled_bytes (settled_of vertex distance.0) ++ drop 8 out.old }
{
    put_word(out, 0, vertex);
    put_word(out, 4, distance.0);
}

pub fn put_part(out: &mut [u8], walk: u32, start: Offset, end: Offset)
    requires { 12 ≤ length out.old }
    ensures { out.new ≡ part_bytes (part_of walk start.0 end.0) ++ drop 12 out.old }
{
    put_word(out, 0, walk);
    put_word(out, 4, start.0);
    put_word(out, 8, end.0);
}

// The next settled vertex and the next part, behind the `count` that stand there already.
pub fn add_settled(settled: &mut [u8], count: usize, vertex: u32, distance: Ticks)
    requires { count < length settled.old / 8 }
    ensures { settled.new ≡ written settled.old (8 * count) (settled_bytes (settled_of vertex distance.0)) }
{
    let at = 8 * count;
    put_settled(&mut settled[at..], vertex, distance);
}

pub fn add_part(parts: &mut [u8], count: usize, walk: u32, start: Offset, end: Offset)
    requires { count < length parts.old / 12 }
    ensures { parts.new ≡ written parts.old (12 * count) (part_bytes (part_of walk start.0 end.0)) }
{
    let at = 12 * count;
    put_part(&mut parts[at..], walk, start, end);
}
