// The marks of the mode with a boarding time: a hop is marked once a ride that begins with it alights in time at a settled vertex.
// Promises: a mark is set, the hop's offer is made where its "to" is settled, and the hop is kept to be followed; all hops that alight in time at a vertex are marked.
// Rests on: the sets of `bitset`, the map of `improving`, the hops of `records` and `trips`, the theory of the search in `boarding`.
#![tactic(auto)]

ghost use Rattle.std.specs.Prelude.{◌≡◌, ◌/◌, ◌<◌, ◌≤◌, length};
ghost use Rattle.journeys.specs.Bytes.{clocked};
ghost use Rattle.journeys.specs.Tables.{hop, hop_at, hop_count};
ghost use Rattle.records.specs.Columns.{records_in};
ghost use Rattle.words.specs.Quantities.{DayTime};
ghost use Rattle.marks.specs.Marks.{bit};
ghost use Rattle.improving.specs.Figures.{Ready, figures};
ghost use Rattle.marking.specs.Setting.{tables, query, mode, Judged};
ghost use Rattle.marking.specs.Carried.{offered_by};
ghost use Rattle.marking.specs.Pends.{state, Fit, Markable, HopMarked, Pushed};
ghost use Rattle.marking.specs.Moves.{alights_test, AlightsBy, Alighted};

use bitset::{member, put};
use improving::improve;
use records::{Kind, Query, from_at, hop_at, to_at};
use trips::standing_at;
use words::{not_after, ticks_before};
use worktable::Table;

// What the run is asked: the size of a hop, the query, the boarding time in seconds, and D.
#[derive(Clone, Copy)]
pub struct Asked {
    pub size: usize,
    pub query: Query,
    pub boarding: u32,
    pub allowed: u32,
}

// The table of the map, how many words the stack has, and from which hop on the marked ones are to be followed.
#[derive(Clone, Copy)]
pub struct Pending {
    pub table: Table,
    pub height: usize,
    pub cursor: usize,
}

// How many words the stack can have. The table, the marks and the stack stay apart in the calls: each is lent by itself, and the clauses join them as one `state`.
pub const DEPTH: usize = 16384;

// The offer of hop j, which is marked: it is made once the vertex that the hop leads to is settled.
pub fn release(
    vertices: &[u8],
    walks: &[u8],
    hops: &[u8],
    a: Asked,
    set: &[u16],
    table: &mut [u8],
    t: Table,
    j: usize,
) -> Table
    requires judged { Judged vertices.now walks.now hops.now a × Ready t table.old × (length set.now ≡ 4096) × (j < hop_count (tables vertices.now walks.now hops.now a)) }
    requires j_bound { (hop (tables vertices.now walks.now hops.now a) j).departure ≤ (query a).arrival }
    ensures { Ready result table.new × (figures result table.new ≡ offered_by (tables vertices.now walks.now hops.now a) (query a) (mode hops.now a) (bit set.now) j (figures t table.old)) }
{
    if !member(set, to_at(hops, a.size, j) as usize) {
        return t;
    }
    let from = from_at(hops, a.size, j) as usize;
    if member(set, from) {
        return t;
    }
    let arrival = a.query.arrival;
    let offer = standing_at(hops, a.size, j, arrival, a.query.speed, a.boarding);
    improve(table, t, from, offer.0, a.allowed)
}

// Hop j goes onto the stack. Where that is full, every marked hop is to be followed: there is no list of them that is shorter.
fn push(stack: &mut [u32], p: Pending, t: Table, j: usize) -> Pending
    requires { (length stack.old ≡ 16384) × (p.height ≤ 16384) × (j < 4294967296) }
    ensures { Pushed p t j stack.old result stack.new }
{
    let top = p.height;
    if top < DEPTH {
        stack[top] = j as u32;
        return Pending {
            table: t,
            height: top + 1,
            cursor: p.cursor,
        };
    }
    Pending {
        table: t,
        height: top,
        cursor: 0,
    }
}

// Hop j, which is not marked yet, is marked.
pub fn mark_hop(
    vertices: &[u8],
    walks: &[u8],
    hops: &[u8],
    a: Asked,
    set: &[u16],
    table: &mut [u8],
    marks: &mut [u16],
    stack: &mut [u32],
    p: Pending,
    j: usize,
) -> Pending
    requires judged { Judged vertices.now walks.now hops.now a × Fit (tables vertices.now walks.now hops.now a) (query a) set.now (state p table.old marks.old stack.old) }
    requires markable { Markable (tables vertices.now walks.now hops.now a) (query a) (state p table.old marks.old stack.old) j }
    ensures { HopMarked (tables vertices.now walks.now hops.now a) (query a) (mode hops.now a) set.now j (state p table.old marks.old stack.old) (state result table.new marks.new stack.new) }
{
    put(marks, j);
    let t = release(vertices, walks, hops, a, set, table, p.table, j);
    push(stack, p, t, j)
}

// Whether hop i arrives in time for a vertex that is settled at d.
fn alights(hops: &[u8], a: Asked, i: usize, d: u32) -> bool
    requires le_size { (16 ≤ a.size) × (i < records_in a.size hops.now) × (a.query.speed ≤ 100) }
    requires day_time { DayTime (clocked a.query.arrival.0) × DayTime (hop_at a.size hops.now i).arrival }
    ensures { result ≡ alights_test (query a) d (hop_at a.size hops.now i).arrival }
{
    let arrives = hop_at(hops, a.size, i).arrival;
    let arrival = a.query.arrival;
    if !not_after(arrives, arrival) {
        return false;
    }
    d <= ticks_before(arrival, arrives, a.query.speed).0
}

// Hop i is marked, if it alights in time and is not marked yet.
fn alight_by(
    vertices: &[u8],
    walks: &[u8],
    hops: &[u8],
    a: Asked,
    set: &[u16],
    table: &mut [u8],
    marks: &mut [u16],
    stack: &mut [u32],
    p: Pending,
    i: usize,
    d: u32,
) -> Pending
    requires judged { Judged vertices.now walks.now hops.now a × Fit (tables vertices.now walks.now hops.now a) (query a) set.now (state p table.old marks.old stack.old) }
    requires i_bound { i < hop_count (tables vertices.now walks.now hops.now a) }
    ensures { AlightsBy (tables vertices.now walks.now hops.now a) (query a) (mode hops.now a) set.now i d (state p table.old marks.old stack.old) (state result table.new marks.new stack.new) }
{
    if !alights(hops, a, i, d) {
        return p;
    }
    if member(marks, i) {
        return p;
    }
    mark_hop(vertices, walks, hops, a, set, table, marks, stack, p, i)
}

// All hops are marked that alight in time at x, which is settled at d.
pub fn alight(
    vertices: &[u8],
    walks: &[u8],
    hops: &[u8],
    a: Asked,
    set: &[u16],
    table: &mut [u8],
    marks: &mut [u16],
    stack: &mut [u32],
    p: Pending,
    x: usize,
    d: u32,
) -> Pending
    requires judged { Judged vertices.now walks.now hops.now a × Fit (tables vertices.now walks.now hops.now a) (query a) set.now (state p table.old marks.old stack.old) }
    requires x_in_bounds { x < length vertices.now / 12 }
    ensures { Alighted (tables vertices.now walks.now hops.now a) (query a) (mode hops.now a) set.now x d (state p table.old marks.old stack.old) (state result table.new marks.new stack.new) }
{
    let end = records::end_arriving(vertices, Kind::Hops, x, hops.len() / a.size);
    let mut q = p;
    for i in records::first_arriving(vertices, Kind::Hops, x)..end {
        q = alight_by(vertices, walks, hops, a, set, table, marks, stack, q, i, d);
    }
    q
}
