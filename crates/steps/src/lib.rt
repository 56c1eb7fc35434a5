// The steps of a run behind step 0, up to its limit, in either direction.
// Promises: as many steps as the limit and the order of settling allow, and whether that is all; or the first step that lacks room.
// Rests on: one step (`stepping`), what it means for the held map (`heldmap`).
#![tactic(auto)]

ghost use Rattle.std.specs.Prelude.{◌≡◌, ◌≤◌, length, replicate};
ghost use Rattle.journeys.specs.Tables.{tables_of};
ghost use Rattle.journeys.specs.Query as query;
ghost use Rattle.worktable.specs.Table.{InOrder};
ghost use Rattle.records.specs.Asked.{query_of};
ghost use Rattle.heldmap.specs.RowsOfTables.{Lists};
ghost use Rattle.steps.specs.Running.{WaitsIs, Stands, Ends};
ghost use Rattle.journeys.specs.Valid.{Valid};

use records::Query;
use stepping::Progress;
use words::{Refusal, Ticks};
use worktable::Table;

// How far the steps went, and whether nothing is left.
#[derive(Clone, Copy)]
pub struct Ended {
    pub progress: Progress,
    pub finished: bool,
}

// Whether a vertex waits within the ticks allowed.
fn waits(held: &[u8], t: Table, allowed: Ticks) -> bool
    requires { InOrder t held.now }
    ensures { WaitsIs t held.now allowed.0 result }
{
    stepping::next(held, t, allowed.0).is_some()
}

// Steps up to the limit: as many as it and the order allow, or the first that lacks room.
pub fn steps<'a>(
    vertices: &[u8],
    walks: &'a [u8],
    hops: &'a [u8],
    hop_size: usize,
    list: &[u8],
    held: &mut [u8],
    settled: &mut [u8],
    scratch: &mut [u16],
    start: Progress,
    q: Query,
    courier: bool,
    allowed: Ticks,
    limit: u32,
) -> Result<Ended, Refusal>
    requires valid { Valid (tables_of hop_size vertices.now walks.now hops.now) (query_of q) × (allowed.0 ≡ query.allowed (query_of q)) × (scratch.old ≡ replicate 2048 0) × (start.settled ≡ 0) × (16 ≤ hop_size) }
    requires lists { Lists courier hop_size walks.now hops.now list.now }
    requires stands { Stands courier (tables_of hop_size vertices.now walks.now hops.now) (length held.old) (length settled.old) (query_of q) start held.old settled.old }
    ensures ends { Ends courier (tables_of hop_size vertices.now walks.now hops.now) (length held.old) (length settled.old) (query_of q) limit held.new settled.new result }
    ensures scratch_after { scratch.new ≡ replicate 2048 0 }
{
    let mut p = start;
    // A while: the steps are counted where the run stands, which the answer of each step tells anew.
    while p.settled < limit as usize {
        let Some(next) = stepping::next(held, p.table, allowed.0) else {
            return Ok(Ended {
                progress: p,
                finished: true,
            });
        };
        let x = next.vertex;
        let stretch = stepping::stretch_at(vertices, walks, hops, hop_size, list, held, courier, x);
        let row = stepping::row_at(
            vertices,
            walks,
            hops,
            hop_size,
            stretch,
            courier,
            x,
            next.distance,
            q.arrival,
            q.speed,
            allowed,
        );
        // A match and no `?`: the refusal stands here by name, and an edit can tell a wrong step in it (docs/DESIGN-PASS.md).
        match stepping::step(
            vertices, walks, hops, list, held, settled, scratch, p, x, next.slot, stretch, row,
        ) {
            Ok(further) => p = further,
            Err(lack) => return Err(lack),
        }
    }
    Ok(Ended {
        progress: p,
        finished: !waits(held, p.table, allowed),
    })
}
