// A vertex has just been settled: the records of its row are passed, in either direction, and the entries of the vertices at their other ends are brought up to date.
// Promises: the table then holds exactly the map of the definitions, or that map has no room; the room is that after the whole step.
// Rests on: `meeting` where a slot is free for each record that brings an entry, `short` for a short row where that is not known, `surveys` and `blocks` for a long one, the map of `worktable`.
#![tactic(auto)]

ghost use Rattle.std.specs.Prelude.{◌≡◌, true, ◌≤◌, replicate};
ghost use Rattle.worktable.specs.Table.{map_of};
ghost use Rattle.passing.specs.Row.{passes};
ghost use Rattle.directed.specs.Directed.{row_in};
ghost use Rattle.meeting.specs.Passing.{Spacious, Ready};
ghost use Rattle.meeting.specs.Answer.{Passed};
ghost use Rattle.arrivals.specs.Range.{RangeTouched, RangeOver};

use blocks::end_block;
use directed::Directed;
use meeting::{meet_all, most_comers};
use short::pass_row;
use surveys::{next_block, survey_all};
use worktable::{Table, free, room};

// Up to so many records a row is short: its newcomers may each take a pass over it, and a longer row goes block by block.
const SHORT: usize = 128;

// The blocks from first on, and below end, one after the other.
fn end_range(
    held: &mut [u8],
    t: Table,
    vertices: &[u8],
    walks: &[u8],
    hops: &[u8],
    list: &[u8],
    row: Directed,
    first: usize,
    end: usize,
    counters: &mut [u16],
) -> Option<Table>
    requires { RangeTouched vertices.now walks.now hops.now list.now row first «end» t held.old × (counters.old ≡ replicate 2048 0) × (first ≤ «end») × («end» ≤ 32) }
    ensures { RangeOver vertices.now walks.now hops.now list.now row first «end» t held.old held.new result × (counters.new ≡ replicate 2048 0) }
{
    let mut table = t;
    let mut block = next_block(walks, hops, list, row, first, end);
    // A while: it goes on to the next block that has a record, and leaves out the others.
    while block < end {
        table = end_block(
            held, table, vertices, walks, hops, list, row, block, counters,
        )?;
        block = next_block(walks, hops, list, row, block + 1, end);
    }
    Some(table)
}

// Where room is scarce, drops come before additions, block by block. From the block that the survey tells, round to it again, the entries are never more than before the step
// or after it: there is room on the way exactly if there is room at the end.
fn scarce(
    held: &mut [u8],
    t: Table,
    vertices: &[u8],
    walks: &[u8],
    hops: &[u8],
    list: &[u8],
    row: Directed,
    counters: &mut [u16],
) -> Option<Table>
    requires { Ready vertices.now walks.now hops.now list.now row t held.old × (counters.old ≡ replicate 2048 0) }
    ensures { Passed vertices.now walks.now hops.now list.now row t held.old held.new result × (counters.new ≡ replicate 2048 0) }
{
    let start = survey_all(held, t, vertices, walks, hops, list, row, counters);
    let table = end_range(
        held, t, vertices, walks, hops, list, row, start, 32, counters,
    )?;
    end_range(
        held, table, vertices, walks, hops, list, row, 0, start, counters,
    )
}

// Whether a slot is known to be free for each record that brings an entry. So it is where there is a slot for every vertex, however many records there are.
// Otherwise the records are counted by what they bring only where there are more of them than free slots: at a hub most may be the only ones of vertices that are hopeless.
fn suffices(
    held: &[u8],
    t: Table,
    vertices: &[u8],
    walks: &[u8],
    hops: &[u8],
    list: &[u8],
    row: Directed,
) -> bool
    requires { Ready vertices.now walks.now hops.now list.now row t held.now }
    ensures { result ≡ true → Spacious (row_in vertices.now walks.now hops.now list.now row) (passes row.arriving) t.room (map_of t held.now) }
{
    if vertices.len() / 12 <= room(t) {
        return true;
    }
    let spare = free(held, t);
    if row.arriving.walks + row.arriving.hops <= spare {
        return true;
    }
    most_comers(vertices, walks, hops, list, row) <= spare
}

// The step: each record of the row brings its offer to the vertex at its other end.
pub fn arrive(
    held: &mut [u8],
    t: Table,
    vertices: &[u8],
    walks: &[u8],
    hops: &[u8],
    list: &[u8],
    row: Directed,
    counters: &mut [u16],
) -> Option<Table>
    requires { Ready vertices.now walks.now hops.now list.now row t held.old × (counters.old ≡ replicate 2048 0) }
    ensures { Passed vertices.now walks.now hops.now list.now row t held.old held.new result × (counters.new ≡ replicate 2048 0) }
{
    if suffices(held, t, vertices, walks, hops, list, row) {
        return Some(meet_all(held, t, vertices, walks, hops, list, row));
    }
    if row.arriving.walks + row.arriving.hops <= SHORT {
        return pass_row(held, t, vertices, walks, hops, list, row, counters);
    }
    scarce(held, t, vertices, walks, hops, list, row, counters)
}
