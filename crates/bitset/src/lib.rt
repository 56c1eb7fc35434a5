// An array of 16-bit words as a set of numbers, as many as it has bits.
// Promises: to put a number sets its bit and no other; member tells whether a number was put.
// Rests on: the weight of a bit and the laws of bits of `marks`, whose other functions are for one half of the vertices.
#![tactic(auto)]

ghost use Rattle.std.specs.Prelude.{◌≡◌, ◌/◌, ◌<◌, length};
ghost use Rattle.marks.specs.Marks.{bit};
ghost use Rattle.bitset.specs.Joined.{joined};

use marks::power;

pub fn member(set: &[u16], k: usize) -> bool
    requires { k / 16 < length set.now }
    ensures { result ≡ bit set.now k }
{
    set[k / 16] / power(k % 16) % 2 == 1
}

// A number that is there already changes nothing.
pub fn put(set: &mut [u16], k: usize)
    requires { k / 16 < length set.old }
    ensures { bit set.new ≡ joined (bit set.old) k }
{
    let at = k / 16;
    let p = power(k % 16);
    if set[at] / p % 2 == 1 {
        return;
    }
    set[at] = set[at] + p;
}
