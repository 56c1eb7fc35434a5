// A lent array of 2,048 words as a set of numbers below 32,768: for the vertices of one half, or for any list in which no vertex may stand twice.
// Promises: to mark a number sets its bit and no other, and tells whether it was marked; to clear makes every word zero.
// Rests on: nothing but the words themselves.
#![tactic(auto)]

ghost use Rattle.std.specs.Prelude.{◌≡◌, cond, ◌||◌, ℕ, ◌<◌, eqb, length, replicate};
ghost use Rattle.marks.specs.Marks as Marks;
ghost use Rattle.marks.specs.Marks.{bit};

// 2 to the k: the weight of a bit in its word.
pub fn power(k: usize) -> u16
    requires { k < 16 }
    ensures { result ≡ Marks.power k }
{
    1 << k
}

pub fn marked(marks: &[u16], k: usize) -> bool
    requires { (k < 32768) × (length marks.now ≡ 2048) }
    ensures { result ≡ bit marks.now k }
{
    marks[k / 16] / power(k % 16) % 2 == 1
}

// Marks k, and answers 1 if it was not marked.
pub fn mark(marks: &mut [u16], k: usize) -> usize
    requires { (k < 32768) × (length marks.old ≡ 2048) }
    ensures { (result ≡ cond (bit marks.old k) 0 1) × ((i : ℕ) → i < 32768 → bit marks.new i ≡ (bit marks.old i || eqb k i)) }
{
    let at = k / 16;
    let p = power(k % 16);
    if marks[at] / p % 2 == 1 {
        return 0;
    }
    marks[at] = marks[at] + p;
    1
}

// The set is empty: `Bits.zero_bit` says so of its bits.
pub fn clear(marks: &mut [u16])
    requires { length marks.old ≡ 2048 }
    ensures { marks.new ≡ replicate 2048 0 }
{
    marks.fill(0);
}
