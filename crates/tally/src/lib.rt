// Counters of claims, as narrow as the claims of each group of 64 allow, inside a lent scratch of 2,048 numbers.
// Promises: a counter that is laid holds its claim, each number drained takes one off its own counter alone, and none falls below zero.
// Rests on: the counting of `journeys`. It knows nothing of what is counted, and has no array of its own.
#![tactic(auto)]

ghost use Rattle.std.specs.Prelude.{◌≡◌, true, cond, ℕ, ◌+◌, ◌*◌, ◌≤◌, ◌<◌, ◌^◌, max, eqb, ltb, length, get_or};
ghost use Rattle.tally.specs.Laid as spec;
ghost use Rattle.tally.specs.Laid.{Width, Placed, Same, More, Drained, Met, left, lowered, listed, filled, packed, words_with};

// The words of the counters stand first, then an entry for each group: where its words start and how many nibbles a counter has.
// A list of 64 numbers stands last: of claims to lay, or of counters to take one off.
const WORDS: usize = 1856;

pub const LIST: usize = 1984;

// 16 to the r: the weight of a nibble in its word.
fn power(r: usize) -> u32
    requires { r ≤ 4 }
    ensures { (result ≡ 16 ^ r) × (0 < result) }
{
    1 << (4 * r)
}

// The greatest of the 64 claims.
fn greatest(scratch: &[u16]) -> u16
    requires { length scratch.now ≡ 2048 }
    ensures { result ≡ spec.greatest (listed scratch.now) 64 }
{
    let mut most: u16 = 0;
    for i in 0..64 {
        most = most.max(scratch[LIST + i]);
    }
    most
}

// How many nibbles hold a number.
fn width(x: u16) -> usize
    ensures { (result ≡ spec.width x) × Width result × (x < 16 ^ result) }
{
    if x < 16 {
        return 1;
    }
    if x < 256 {
        return 2;
    }
    4
}

// Four counters in a word, and two: the first is the lowest.
fn four(a: u16, b: u16, c: u16, d: u16) -> u16
    requires { (a < 16) × (b < 16) × (c < 16) × (d < 16) }
    ensures { result ≡ a + 16 * b + 256 * c + 4096 * d }
{
    a + 16 * b + 256 * c + 4096 * d
}

fn two(a: u16, b: u16) -> u16
    requires { (a < 256) × (b < 256) }
    ensures { result ≡ a + 256 * b }
{
    a + 256 * b
}

// The word w of a group whose claims stand in the list.
fn word(scratch: &[u16], size: usize, w: usize) -> u16
    requires width { Width size × (w < 16 * size) × (length scratch.now ≡ 2048) }
    requires by_index { (i : ℕ) → i < 64 → listed scratch.now i < 16 ^ size }
    ensures { result ≡ packed (listed scratch.now) size w }
{
    if size == 1 {
        let i = 4 * w;
        return four(
            scratch[LIST + i],
            scratch[LIST + (i + 1)],
            scratch[LIST + (i + 2)],
            scratch[LIST + (i + 3)],
        );
    }
    if size == 2 {
        let i = 2 * w;
        return two(scratch[LIST + i], scratch[LIST + (i + 1)]);
    }
    scratch[LIST + w]
}

// The words of a group, from a place on.
fn pack(scratch: &mut [u16], at: usize, size: usize)
    requires width { Width size × (at + 16 * size ≤ 1856) × (length scratch.old ≡ 2048) }
    requires by_index { (i : ℕ) → i < 64 → listed scratch.old i < 16 ^ size }
    ensures by_index_2 { (w : ℕ) → w < 16 * size → get_or scratch.new (at + w) 0 ≡ packed (listed scratch.old) size w }
    ensures same { Same 0 at scratch.old scratch.new × Same 1856 2048 scratch.old scratch.new }
{
    for w in 0..16 * size {
        scratch[at + w] = word(scratch, size, w);
    }
}

// One group more, of the 64 claims in the list. Answers how many words are laid then: as many as before if there is no room.
pub fn lay(scratch: &mut [u16], groups: usize, words: usize) -> usize
    requires { (16 * groups ≤ words) × (words ≤ 1856) × (length scratch.old ≡ 2048) }
    ensures more { words < result → More groups words result scratch.old scratch.new }
    ensures scratch_unchanged { (result ≡ words → scratch.new ≡ scratch.old) × (words ≤ result) × (result ≡ words_with (listed scratch.old) words) }
    ensures same { Same 1972 2048 scratch.old scratch.new }
{
    let size = width(greatest(scratch));
    let end = words + 16 * size;
    if end > WORDS {
        return words;
    }
    pack(scratch, words, size);
    scratch[WORDS + groups] = (8 * words + size) as u16;
    end
}

// Takes one off the counter k, unless it is zero.
fn take(scratch: &mut [u16], k: usize) -> bool
    requires { Placed scratch.old k × (length scratch.old ≡ 2048) }
    ensures value { result ≡ ltb 0 (left scratch.old k) }
    ensures scratch_after { scratch.new ≡ cond result (lowered scratch.old k) scratch.old }
{
    let entry = scratch[WORDS + k / 64] as usize;
    let nibble = k % 64 * (entry % 8);
    let at = entry / 8 + nibble / 4;
    let unit = power(nibble % 4);
    let above = power(nibble % 4 + entry % 8);
    let word = scratch[at] as u32;
    if word % above < unit {
        return false;
    }
    scratch[at] = (word - unit) as u16;
    true
}

// Takes one off for each of the first numbers of the list, which name counters. True if no counter would fall below zero.
pub fn drain(scratch: &mut [u16], count: usize) -> bool
    requires count_bound { (count ≤ 64) × (length scratch.old ≡ 2048) }
    requires by_index { (i : ℕ) → i < count → Placed scratch.old (listed scratch.old i) }
    ensures drained { Drained count result scratch.old scratch.new }
    ensures same { Same 1856 2048 scratch.old scratch.new }
{
    for i in 0..count {
        let k = scratch[LIST + i] as usize;
        if !take(scratch, k) {
            return false;
        }
    }
    true
}

// Every counter is zero if every word is.
pub fn empty(scratch: &[u16], words: usize) -> bool
    requires { (words ≤ 1856) × (length scratch.now ≡ 2048) }
    ensures { (result ≡ true → Met words scratch.now) × (result ≡ eqb (filled scratch.now words) 0) }
{
    scratch[..words].iter().all(|x| *x == 0)
}
