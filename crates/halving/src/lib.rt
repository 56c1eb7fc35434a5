// A search by halves among numbers that follow each other.
// Promises: where those that pass a test end. Where each that passes stands before each that fails, there is one such place.
// Rests on: nothing. It knows nothing of what is tested.
#![tactic(auto)]

ghost use Rattle.std.specs.Prelude.{ℕ, true, false, ◌-◌, ◌<◌, ◌≤◌};

// Of lo..hi the one before the answer passes the test, and the answer fails it: each unless it is outside.
pub fn end_of<F: Fn(usize) -> bool>(lo: usize, hi: usize, passes: F) -> usize
    requires order { lo ≤ hi }
    requires callable { (m : ℕ) → lo ≤ m → m < hi → F.pre passes m }
    ensures within { (lo ≤ result) × (result ≤ hi) }
    ensures before { lo < result → F.post passes (result - 1) true }
    ensures here { result < hi → F.post passes result false }
{
    let mut low = lo;
    let mut high = hi;
    // A while: the range shrinks at either end, as the test says.
    while low < high {
        let m = low + (high - low) / 2;
        if passes(m) {
            low = m + 1;
        } else {
            high = m;
        }
    }
    low
}
