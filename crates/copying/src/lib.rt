// Bytes copied into a lent buffer.
// Promises: the bytes stand at their place, the others are untouched, and the answer is the place behind them.
// Rests on: what is written at a place (`words`).
#![tactic(auto)]

ghost use Rattle.std.specs.Prelude.{◌+◌, ◌≤◌, length};
ghost use Rattle.copying.specs.Write.{Wrote};

// Copies bytes to a place of a buffer, and answers the place behind them.
pub fn put(out: &mut [u8], at: usize, bytes: &[u8]) -> usize
    requires { at + length bytes.now ≤ length out.old }
    ensures { Wrote out.old at bytes.now out.new result }
{
    let end = at + bytes.len();
    out[at..end].copy_from_slice(bytes);
    end
}
