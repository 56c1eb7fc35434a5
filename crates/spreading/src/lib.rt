// Who stays in the vehicle for a marked hop is marked, too: the pending hops are followed, one after another, until none is left.
// Promises: with a marked hop all hops are marked from which one stays for it; what is true inside a step stays so, and it ends.
// Rests on: the marks and the pending hops of `marking`, the hops by trip and arrival of `arranging`.
#![tactic(auto)]

ghost use Rattle.std.specs.Prelude.{◌≡◌, true, ◌<◌, ◌≤◌};
ghost use Rattle.journeys.specs.Tables.{hop, hop_count};
ghost use Rattle.marking.specs.Setting.{tables, query, mode, Judged};
ghost use Rattle.marking.specs.Pends.{state, marks_of, Pends, Prefix, Fit};
ghost use Rattle.spreading.specs.Spreads.{Sorted, Readable, Lowest, StaysBy, Staying, StaysFrom, FollowedBy, Turned, Spread};

use arranging::{upto, word};
use bitset::member;
use marking::{Asked, Pending, mark_hop};
use records::{Kind, from_at};
use trips::trip_at;

// How far down from q the hops of a stretch are of the trip and not marked yet. Of one vertex and one trip the marked hops are those up to an arrival: below a marked one all are.
fn lowest(
    hops: &[u8],
    a: Asked,
    marks: &[u16],
    scratch: &[u8],
    first: usize,
    end: usize,
    q: usize,
    trip: u32,
) -> usize
    requires { Readable a.size hops.now marks.now scratch.now first end × (first ≤ q) × (q ≤ end) }
    ensures { Lowest a.size hops.now marks.now scratch.now first q trip result }
{
    for p in (first..q).rev() {
        let j = word(scratch, p) as usize;
        if trip_at(hops, a.size, j) != trip {
            return p + 1;
        }
        if member(marks, j) {
            return p + 1;
        }
    }
    first
}

// Hop i is marked, if it is not yet.
fn stay_by(
    vertices: &[u8],
    walks: &[u8],
    hops: &[u8],
    a: Asked,
    set: &[u16],
    table: &mut [u8],
    marks: &mut [u16],
    stack: &mut [u32],
    p: Pending,
    i: usize,
) -> Pending
    requires judged { Judged vertices.now walks.now hops.now a × Fit (tables vertices.now walks.now hops.now a) (query a) set.now (state p table.old marks.old stack.old) }
    requires i_bound { (i < hop_count (tables vertices.now walks.now hops.now a)) × ((hop (tables vertices.now walks.now hops.now a) i).departure ≤ (query a).arrival) }
    ensures { StaysBy (tables vertices.now walks.now hops.now a) (query a) (mode hops.now a) set.now i (state p table.old marks.old stack.old) (state result table.new marks.new stack.new) }
{
    if member(marks, i) {
        return p;
    }
    mark_hop(vertices, walks, hops, a, set, table, marks, stack, p, i)
}

// The hops at the words from low to q are marked, all of which stay for hop j.
fn stay_from(
    vertices: &[u8],
    walks: &[u8],
    hops: &[u8],
    a: Asked,
    set: &[u16],
    table: &mut [u8],
    marks: &mut [u16],
    stack: &mut [u32],
    scratch: &[u8],
    p: Pending,
    low: usize,
    q: usize,
    j: usize,
) -> Pending
    requires judged { Judged vertices.now walks.now hops.now a × Fit (tables vertices.now walks.now hops.now a) (query a) set.now (state p table.old marks.old stack.old) }
    requires staying { Staying (tables vertices.now walks.now hops.now a) (mode hops.now a) scratch.now low q j × (marks_of (state p table.old marks.old stack.old) j ≡ true) }
    ensures { StaysFrom (tables vertices.now walks.now hops.now a) (query a) (mode hops.now a) set.now scratch.now low q j (state p table.old marks.old stack.old) (state result table.new marks.new stack.new) }
{
    let mut r = p;
    for g in low..q {
        let i = word(scratch, g) as usize;
        r = stay_by(vertices, walks, hops, a, set, table, marks, stack, r, i);
    }
    r
}

// All hops are marked from which one stays for hop j, which is marked.
fn follow(
    vertices: &[u8],
    walks: &[u8],
    hops: &[u8],
    a: Asked,
    set: &[u16],
    table: &mut [u8],
    marks: &mut [u16],
    stack: &mut [u32],
    scratch: &[u8],
    p: Pending,
    j: usize,
) -> Pending
    requires judged { Judged vertices.now walks.now hops.now a × Fit (tables vertices.now walks.now hops.now a) (query a) set.now (state p table.old marks.old stack.old) }
    requires sorted { Sorted vertices.now hops.now a scratch.now × (marks_of (state p table.old marks.old stack.old) j ≡ true) × Prefix (tables vertices.now walks.now hops.now a) (mode hops.now a) (marks_of (state p table.old marks.old stack.old)) }
    ensures { FollowedBy (tables vertices.now walks.now hops.now a) (query a) (mode hops.now a) set.now j (state p table.old marks.old stack.old) (state result table.new marks.new stack.new) }
{
    let trip = trip_at(hops, a.size, j);
    if trip == 0 {
        return p;
    }
    let x = from_at(hops, a.size, j) as usize;
    let first = records::first_arriving(vertices, Kind::Hops, x);
    let end = records::end_arriving(vertices, Kind::Hops, x, hops.len() / a.size);
    let q = upto(hops, a.size, scratch, first, end, j);
    let low = lowest(hops, a, marks, scratch, first, end, q, trip);
    stay_from(
        vertices, walks, hops, a, set, table, marks, stack, scratch, p, low, q, j,
    )
}

// One pending hop is taken, from the stack if it has one, and followed.
fn turn(
    vertices: &[u8],
    walks: &[u8],
    hops: &[u8],
    a: Asked,
    set: &[u16],
    table: &mut [u8],
    marks: &mut [u16],
    stack: &mut [u32],
    scratch: &[u8],
    p: Pending,
) -> Pending
    requires judged { Judged vertices.now walks.now hops.now a × Fit (tables vertices.now walks.now hops.now a) (query a) set.now (state p table.old marks.old stack.old) }
    requires sorted { Sorted vertices.now hops.now a scratch.now × Pends (tables vertices.now walks.now hops.now a) (mode hops.now a) (hop_count (tables vertices.now walks.now hops.now a)) (state p table.old marks.old stack.old) × Prefix (tables vertices.now walks.now hops.now a) (mode hops.now a) (marks_of (state p table.old marks.old stack.old)) }
    requires cursor_bound { p.height ≡ 0 → p.cursor < hop_count (tables vertices.now walks.now hops.now a) }
    ensures { Turned (tables vertices.now walks.now hops.now a) (query a) (mode hops.now a) set.now (state p table.old marks.old stack.old) (state result table.new marks.new stack.new) }
{
    let height = p.height;
    let t = p.table;
    if 0 < height {
        let top = height - 1;
        let j = stack[top] as usize;
        return follow(
            vertices,
            walks,
            hops,
            a,
            set,
            table,
            marks,
            stack,
            scratch,
            Pending {
                table: t,
                height: top,
                cursor: p.cursor,
            },
            j,
        );
    }
    let at = p.cursor;
    let next = Pending {
        table: t,
        height,
        cursor: at + 1,
    };
    if !member(marks, at) {
        return next;
    }
    follow(
        vertices, walks, hops, a, set, table, marks, stack, scratch, next, at,
    )
}

// The pending hops are followed until none is left.
pub fn spread(
    vertices: &[u8],
    walks: &[u8],
    hops: &[u8],
    a: Asked,
    set: &[u16],
    table: &mut [u8],
    marks: &mut [u16],
    stack: &mut [u32],
    scratch: &[u8],
    p: Pending,
) -> Pending
    requires judged { Judged vertices.now walks.now hops.now a × Fit (tables vertices.now walks.now hops.now a) (query a) set.now (state p table.old marks.old stack.old) }
    requires sorted { Sorted vertices.now hops.now a scratch.now × Pends (tables vertices.now walks.now hops.now a) (mode hops.now a) (hop_count (tables vertices.now walks.now hops.now a)) (state p table.old marks.old stack.old) × Prefix (tables vertices.now walks.now hops.now a) (mode hops.now a) (marks_of (state p table.old marks.old stack.old)) }
    ensures { Spread (tables vertices.now walks.now hops.now a) (query a) (mode hops.now a) set.now (state p table.old marks.old stack.old) (state result table.new marks.new stack.new) }
{
    let count = hops.len() / a.size;
    let mut q = p;
    // A while: it goes on until no hop is pending, and a turn can make more of them.
    while (0 < q.height) | (q.cursor < count) {
        q = turn(
            vertices, walks, hops, a, set, table, marks, stack, scratch, q,
        );
    }
    q
}
