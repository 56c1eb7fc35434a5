// The steps of the search with a boarding time, up to its limit: the foremost vertex is settled, the records to it make their offers, the hops that alight there are marked, and with them those that stay for them.
// Promises: as many steps as the limit and the order of settling allow, each listed, and whether that is all; or the first step after which the list is larger than lent.
// Rests on: the offers of `offering`, the marks of `marking` and `spreading`, the theory of the search in `boarding`.
#![tactic(auto)]

ghost use Rattle.std.specs.Prelude.{◌≡◌, length};
ghost use Rattle.marking.specs.Setting.{tables, query, mode, Judged};
ghost use Rattle.marking.specs.Pends.{state};
ghost use Rattle.spreading.specs.Spreads.{Sorted};
ghost use Rattle.ridesteps.specs.Between.{Opened, Steps, Stepped};
ghost use Rattle.ridesteps.specs.Ended.{RidesEnd};

use bitset::put;
use marking::{Asked, Pending, alight};
use offering::pass;
use spreading::spread;
use words::{Reason, Refusal, Ticks};

// How many vertices are listed, and whether that is all.
#[derive(Clone, Copy)]
pub struct Ridden {
    pub settled: usize,
    pub finished: bool,
}

// One step: x, at its slot, is the next vertex, with the distance d. It is in the set before any record to it offers: an offer to a settled vertex is none, and a hop to x offers only where x is settled.
fn step(
    vertices: &[u8],
    walks: &[u8],
    hops: &[u8],
    a: Asked,
    set: &mut [u16],
    table: &mut [u8],
    marks: &mut [u16],
    stack: &mut [u32],
    scratch: &[u8],
    p: Pending,
    x: usize,
    slot: usize,
    d: u32,
) -> Pending
    requires judged { Judged vertices.now walks.now hops.now a × Sorted vertices.now hops.now a scratch.now }
    requires steps { Steps (tables vertices.now walks.now hops.now a) (query a) (mode hops.now a) set.old (state p table.old marks.old stack.old) x slot d }
    ensures { Stepped (tables vertices.now walks.now hops.now a) (query a) (mode hops.now a) set.old (state p table.old marks.old stack.old) set.new (state result table.new marks.new stack.new) }
{
    put(set, x);
    let gone = worktable::drop(table, p.table, x, slot);
    let t = pass(vertices, walks, hops, a, set, marks, table, gone, x, d);
    let q = Pending {
        table: t,
        height: p.height,
        cursor: p.cursor,
    };
    let r = alight(vertices, walks, hops, a, set, table, marks, stack, q, x, d);
    spread(
        vertices, walks, hops, a, set, table, marks, stack, scratch, r,
    )
}

// Steps up to the limit: as many as it and the order allow, or the first after which the list is larger than lent.
pub fn steps(
    vertices: &[u8],
    walks: &[u8],
    hops: &[u8],
    a: Asked,
    set: &mut [u16],
    table: &mut [u8],
    marks: &mut [u16],
    stack: &mut [u32],
    scratch: &[u8],
    settled: &mut [u8],
    start: Pending,
    limit: u32,
) -> Result<Ridden, Refusal>
    requires judged { Judged vertices.now walks.now hops.now a × Sorted vertices.now hops.now a scratch.now }
    requires opened { Opened (tables vertices.now walks.now hops.now a) (query a) (mode hops.now a) set.old (state start table.old marks.old stack.old) }
    ensures { RidesEnd (tables vertices.now walks.now hops.now a) (query a) (mode hops.now a) (length settled.old) limit settled.new result }
{
    let mut p = start;
    for n in 0..limit as usize {
        let Some(next) = stepping::next(table, p.table, a.allowed) else {
            return Ok(Ridden {
                settled: n,
                finished: true,
            });
        };
        if n == settled.len() / 8 {
            return Err(Refusal {
                reason: Reason::SettledRoom,
                place: (n + 1) as u32,
            });
        }
        let x = next.vertex;
        let d = next.distance;
        records::add_settled(settled, n, x as u32, Ticks(d));
        p = step(
            vertices, walks, hops, a, set, table, marks, stack, scratch, p, x, next.slot, d,
        );
    }
    Ok(Ridden {
        settled: limit as usize,
        finished: stepping::next(table, p.table, a.allowed).is_none(),
    })
}
