// The end of a run: the lent buffers as its answer leaves them.
// Promises: the held records and the settled list, each with zero behind it; or zero in every lent byte, where a step lacks room.
// Rests on: the end of the working table (`worktable`), the answer of `records`.
#![tactic(auto)]

ghost use Rattle.std.specs.Prelude.{◌*◌, ◌<◌, ◌≤◌, length};
ghost use Rattle.worktable.specs.Table.{InOrder};
ghost use Rattle.ending.specs.Left.{Concluded, GivenUp};

use records::Answer;
use stepping::Progress;

// The table becomes its records, and what is not filled of the list becomes zero.
pub fn conclude(held: &mut [u8], settled: &mut [u8], p: Progress, finished: u32) -> Answer
    requires { InOrder p.table held.old × (8 * p.settled ≤ length settled.old) × (p.settled < 4294967296) }
    ensures { Concluded p finished held.old settled.old held.new settled.new result }
{
    let entries = worktable::finish(held, p.table);
    let listed = 8 * p.settled;
    words::zero(&mut settled[listed..]);
    Answer {
        refusal: 0,
        place: 0,
        settled: p.settled as u32,
        parts: 0,
        held: entries as u32,
        finished: finished,
    }
}

// A step lacks room: every lent byte becomes zero, and nothing is listed.
pub fn give_up(held: &mut [u8], settled: &mut [u8], number: u32, step: u32) -> Answer
    ensures { GivenUp number step held.old settled.old held.new settled.new result }
{
    words::zero(held);
    words::zero(settled);
    Answer {
        refusal: number,
        place: step,
        settled: 0,
        parts: 0,
        held: 0,
        finished: 0,
    }
}
