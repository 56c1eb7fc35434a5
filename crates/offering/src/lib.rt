// The offers that the records to a vertex make when it is settled, in the mode with a boarding time: its walks, and of its hops those that are marked already.
// Promises: the figures of the map are then the least that was offered within D, of every vertex that is not settled.
// Rests on: the map of `improving`, the offers of marked hops (`marking`), the readers of `records`.
#![tactic(auto)]

ghost use Rattle.std.specs.Prelude.{◌≡◌, true, ◌+◌, ◌<◌, ◌≤◌, length};
ghost use Rattle.journeys.specs.Tables.{walk, hop, walk_count, hop_count};
ghost use Rattle.journeys.specs.Query.{allowed, walk_ticks};
ghost use Rattle.journeys.specs.Records.{record_count};
ghost use Rattle.marks.specs.Marks.{bit};
ghost use Rattle.improving.specs.Figures.{Ready, figures};
ghost use Rattle.marking.specs.Setting.{tables, query, mode, Judged};
ghost use Rattle.marking.specs.Carried.{offered_by};
ghost use Rattle.offering.specs.Offers.{taken_at, held_back, passed, Passable, Passes};

use bitset::member;
use improving::improve;
use marking::{Asked, release};
use records::{Kind, from_at, walk_ticks};
use words::word_at;
use worktable::Table;

// Walk i offers the vertex that it leaves the distance of the one that it leads to and its own ticks.
fn pass_walk(
    vertices: &[u8],
    walks: &[u8],
    hops: &[u8],
    a: Asked,
    set: &[u16],
    table: &mut [u8],
    t: Table,
    i: usize,
    d: u32,
) -> Table
    requires { Judged vertices.now walks.now hops.now a × Ready t table.old × (length set.now ≡ 4096) × (i < walk_count (tables vertices.now walks.now hops.now a)) × (d ≤ allowed (query a)) }
    ensures { Ready result table.new × (figures result table.new ≡ taken_at (allowed (query a)) (bit set.now) (walk (tables vertices.now walks.now hops.now a) i).from (d + walk_ticks (query a) (walk (tables vertices.now walks.now hops.now a) i)) (figures t table.old)) }
{
    let from = from_at(walks, 16, i) as usize;
    if member(set, from) {
        return t;
    }
    let way = walk_ticks(word_at(walks, 16 * i + 8), a.query.speed);
    improve(table, t, from, d + way.0, a.allowed)
}

// The walks to x.
fn pass_walks(
    vertices: &[u8],
    walks: &[u8],
    hops: &[u8],
    a: Asked,
    set: &[u16],
    marks: &[u16],
    table: &mut [u8],
    t: Table,
    x: usize,
    d: u32,
) -> Table
    requires { Judged vertices.now walks.now hops.now a × Passable (tables vertices.now walks.now hops.now a) (query a) set.now marks.now x d t table.old }
    ensures { Passes (tables vertices.now walks.now hops.now a) (query a) (mode hops.now a) set.now marks.now x d 0 (walk_count (tables vertices.now walks.now hops.now a)) t result table.old table.new }
{
    let end = records::end_arriving(vertices, Kind::Walks, x, walks.len() / 16);
    let mut q = t;
    for i in records::first_arriving(vertices, Kind::Walks, x)..end {
        q = pass_walk(vertices, walks, hops, a, set, table, q, i, d);
    }
    q
}

// Hop j, which leads to x, offers if it is marked.
fn pass_hop(
    vertices: &[u8],
    walks: &[u8],
    hops: &[u8],
    a: Asked,
    set: &[u16],
    marks: &[u16],
    table: &mut [u8],
    t: Table,
    j: usize,
) -> Table
    requires judged { Judged vertices.now walks.now hops.now a × Ready t table.old × (length set.now ≡ 4096) × (length marks.now ≡ 16384) × (j < hop_count (tables vertices.now walks.now hops.now a)) }
    requires j_bound { bit marks.now j ≡ true → (hop (tables vertices.now walks.now hops.now a) j).departure ≤ (query a).arrival }
    ensures { Ready result table.new × (figures result table.new ≡ held_back (bit marks.now j) (offered_by (tables vertices.now walks.now hops.now a) (query a) (mode hops.now a) (bit set.now) j (figures t table.old)) (figures t table.old)) }
{
    if !member(marks, j) {
        return t;
    }
    release(vertices, walks, hops, a, set, table, t, j)
}

// The marked hops to x.
// Not one loop with `pass_walks`, which would be no plainer: the two share the range alone, and a turn has another law for each kind.
fn pass_hops(
    vertices: &[u8],
    walks: &[u8],
    hops: &[u8],
    a: Asked,
    set: &[u16],
    marks: &[u16],
    table: &mut [u8],
    t: Table,
    x: usize,
    d: u32,
) -> Table
    requires { Judged vertices.now walks.now hops.now a × Passable (tables vertices.now walks.now hops.now a) (query a) set.now marks.now x d t table.old }
    ensures { Passes (tables vertices.now walks.now hops.now a) (query a) (mode hops.now a) set.now marks.now x d (walk_count (tables vertices.now walks.now hops.now a)) (record_count (tables vertices.now walks.now hops.now a)) t result table.old table.new }
{
    let end = records::end_arriving(vertices, Kind::Hops, x, hops.len() / a.size);
    let mut q = t;
    for i in records::first_arriving(vertices, Kind::Hops, x)..end {
        q = pass_hop(vertices, walks, hops, a, set, marks, table, q, i);
    }
    q
}

// All records to x, which has been put into the set at the distance d, make their offers.
pub fn pass(
    vertices: &[u8],
    walks: &[u8],
    hops: &[u8],
    a: Asked,
    set: &[u16],
    marks: &[u16],
    table: &mut [u8],
    t: Table,
    x: usize,
    d: u32,
) -> Table
    requires { Judged vertices.now walks.now hops.now a × Passable (tables vertices.now walks.now hops.now a) (query a) set.now marks.now x d t table.old }
    ensures { Ready result table.new × (figures result table.new ≡ passed (tables vertices.now walks.now hops.now a) (query a) (mode hops.now a) (bit set.now) (bit marks.now) x d (record_count (tables vertices.now walks.now hops.now a)) (figures t table.old)) }
{
    let walked = pass_walks(vertices, walks, hops, a, set, marks, table, t, x, d);
    pass_hops(vertices, walks, hops, a, set, marks, table, walked, x, d)
}
