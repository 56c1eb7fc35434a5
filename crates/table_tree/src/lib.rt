// The winner tree and the bucket chains over the columns of a table: who has the least word, and where a vertex is. `r` is the number of slots that the buffer has and `cap` how many of them are used.
// Promises: after each change the tree's root is the least word, and a vertex is found exactly if a slot has it.
// Rests on: the columns of `table_bytes`.
#![tactic(auto)]

ghost use Rattle.std.specs.Prelude.{◌≡◌, ◌≢◌, ◌⊎◌, ◌+◌, ◌*◌, ◌<◌, ◌≤◌, length};
ghost use Rattle.table_bytes.specs.Columns.{cols, at, set_h, set_n};
ghost use Rattle.table_tree.specs.Words.{vacant, vertex_in, key, bucket_of, Slotted};
ghost use Rattle.table_tree.specs.Tree.{Win, Wins, Changed, Kept, Spared, Leaves};
ghost use Rattle.table_tree.specs.Chains.{Mem, Chained, Slot, First, Before, Linked};

use table_bytes::{head, next, set_head, set_next, set_tree, set_word, tree, word};

pub const VACANT: u64 = 0xFFFF_FFFF_FFFF_FFFF;

pub fn vertex_in(w: u64) -> usize
    ensures { (result ≡ vertex_in w) × (result < 65536) }
{
    (w / 1048576 % 65536) as usize
}

fn bucket(mask: usize, u: usize) -> usize
    ensures { (result ≡ bucket_of mask u) × (result ≤ mask) }
{
    u & mask
}

// Slot i gets the word x, and the winners above it are played again.
pub fn change_word(b: &mut [u8], r: usize, cap: usize, i: usize, x: u64)
    requires { Slotted r cap b.old × (i < cap) × Win cap (cols r b.old).w (cols r b.old).t }
    ensures { Changed cap i x (cols r b.old) (cols r b.new) }
{
    set_word(b, r, i, x);
    let mut p = cap + i;
    let mut winner = i;
    let mut least = x;
    // A while: it goes up the tree.
    while 1 < p {
        let s = tree(b, r, p ^ 1);
        let w = word(b, r, s);
        if w < least {
            winner = s;
            least = w;
        }
        p = p / 2;
        set_tree(b, r, p, winner);
    }
}

// Slot i gets the word x, whose key is not above the old one's: its leaf climbs as long as it wins.
pub fn lower_word(b: &mut [u8], r: usize, cap: usize, i: usize, x: u64)
    requires { Slotted r cap b.old × (i < cap) × Win cap (cols r b.old).w (cols r b.old).t × (key x ≤ key (at (cols r b.old).w i)) }
    ensures { Changed cap i x (cols r b.old) (cols r b.new) }
{
    set_word(b, r, i, x);
    let mut p = (cap + i) / 2;
    // A while: it goes up the tree.
    while 0 < p {
        let s = tree(b, r, p);
        if s == i {
            p = p / 2;
        } else {
            if word(b, r, s) < x {
                return;
            }
            set_tree(b, r, p, i);
            p = p / 2;
        }
    }
}

// The first slot of bucket k, if it has one. A head is neither prepared nor reset, so it is tested.
fn first(b: &[u8], r: usize, cap: usize, mask: usize, k: usize) -> Option<usize>
    requires { Slotted r cap b.now × Chained cap mask (cols r b.now).w (cols r b.now).h (cols r b.now).n × (k ≤ mask) }
    ensures { First cap mask (cols r b.now).w k result }
{
    let s = head(b, r, k);
    if cap <= s {
        return None;
    }
    let w = word(b, r, s);
    if w == VACANT {
        return None;
    }
    if bucket(mask, vertex_in(w)) != k {
        return None;
    }
    Some(s)
}

// The slot of vertex u, or cap where there is none.
pub fn find(b: &[u8], r: usize, cap: usize, mask: usize, u: usize) -> usize
    requires { Slotted r cap b.now × Chained cap mask (cols r b.now).w (cols r b.now).h (cols r b.now).n }
    ensures { Slot cap (cols r b.now).w u result }
{
    let k = bucket(mask, u);
    let Some(mut s) = first(b, r, cap, mask, k) else {
        return cap;
    };
    // A while: it goes along the chain.
    while vertex_in(word(b, r, s)) != u {
        let x = next(b, r, s);
        if x == s {
            return cap;
        }
        s = x;
    }
    s
}

// The last slot above s in the chain of bucket k, from its member h above s on.
fn before(b: &[u8], r: usize, cap: usize, mask: usize, k: usize, h: usize, s: usize) -> usize
    requires { Slotted r cap b.now × Chained cap mask (cols r b.now).w (cols r b.now).h (cols r b.now).n × Mem cap mask (cols r b.now).w k h × (s < h) }
    ensures { Before cap mask (cols r b.now).w (cols r b.now).n k s result }
{
    let mut p = h;
    let mut x = next(b, r, p);
    // A while: it goes along the chain.
    while s < x {
        if x == p {
            return p;
        }
        p = x;
        x = next(b, r, p);
    }
    p
}

// Slot s becomes the first of the chain k, and n is behind it.
fn push(b: &mut [u8], r: usize, k: usize, s: usize, n: usize)
    requires { (length b.old ≡ 16 * r) × (k < r) × (s < r) × (s < 65536) × (n < 65536) }
    ensures { cols r b.new ≡ set_h (set_n (cols r b.old) s n) k s }
{
    set_next(b, r, s, n);
    set_head(b, r, k, s);
}

// The chains for the word w in the vacant slot s, which is written afterwards.
pub fn link(b: &mut [u8], r: usize, cap: usize, mask: usize, s: usize, w: u64)
    requires { Slotted r cap b.old × Chained cap mask (cols r b.old).w (cols r b.old).h (cols r b.old).n × (s < cap) × (at (cols r b.old).w s ≡ vacant) × (w ≢ vacant) }
    ensures { Linked cap mask s w (cols r b.old) (cols r b.new) }
{
    let k = bucket(mask, vertex_in(w));
    let Some(h) = first(b, r, cap, mask, k) else {
        push(b, r, k, s, s);
        return;
    };
    if h < s {
        push(b, r, k, s, h);
        return;
    }
    let p = before(b, r, cap, mask, k, h, s);
    let x = next(b, r, p);
    set_next(b, r, s, x.min(s));
    set_next(b, r, p, s);
}

// What is behind p once s has gone, where n was behind s: p itself, where s was the last.
fn passed(n: usize, s: usize, p: usize) -> usize
    ensures { ((n ≡ s) × (result ≡ p)) ⊎ ((n ≢ s) × (result ≡ n)) }
{
    if n == s { p } else { n }
}

// The chains without slot s, whose word is taken away afterwards.
pub fn cut(b: &mut [u8], r: usize, cap: usize, mask: usize, s: usize)
    requires { Slotted r cap b.old × Chained cap mask (cols r b.old).w (cols r b.old).h (cols r b.old).n × (s < cap) × (at (cols r b.old).w s ≢ vacant) }
    ensures { Linked cap mask s vacant (cols r b.old) (cols r b.new) }
{
    let k = bucket(mask, vertex_in(word(b, r, s)));
    let h = head(b, r, k);
    let n = next(b, r, s);
    if h == s {
        set_head(b, r, k, n);
        return;
    }
    let p = before(b, r, cap, mask, k, h, s);
    set_next(b, r, p, passed(n, s, p));
}

// The slots from `from` on become vacant, and slot i + 1 is behind slot i in the list of the vacant ones.
pub fn spare(b: &mut [u8], r: usize, from: usize, cap: usize)
    requires { Slotted r cap b.old × (from ≤ cap) }
    ensures { Spared from cap (cols r b.old) (cols r b.new) }
{
    for i in from..cap {
        set_word(b, r, i, VACANT);
        set_next(b, r, i, (i + 1) % 65536);
    }
}

// The leaves of a tree over cap slots.
pub fn plant(b: &mut [u8], r: usize, cap: usize)
    requires { Slotted r cap b.old }
    ensures { Kept (cols r b.old) (cols r b.new) × Leaves cap cap (cols r b.new).t }
{
    for i in 0..cap {
        set_tree(b, r, cap + i, i);
    }
}

// Of two slots the one with the lesser word.
fn winner(b: &[u8], r: usize, x: usize, y: usize) -> usize
    requires { (length b.now ≡ 16 * r) × (x < r) × (y < r) }
    ensures { Wins (cols r b.now).w x y result }
{
    if word(b, r, y) < word(b, r, x) { y } else { x }
}

// The nodes above the leaves, played from the last to the first.
pub fn build(b: &mut [u8], r: usize, cap: usize)
    requires { Slotted r cap b.old × Leaves cap cap (cols r b.old).t }
    ensures { Kept (cols r b.old) (cols r b.new) × Win cap (cols r b.new).w (cols r b.new).t }
{
    for p in (1..cap).rev() {
        let x = tree(b, r, 2 * p);
        let y = tree(b, r, 2 * p + 1);
        let z = winner(b, r, x, y);
        set_tree(b, r, p, z);
    }
}

// The greatest number below cap of the form 2^k - 1.
pub fn mask_of(cap: usize) -> usize
    requires { (0 < cap) × (cap ≤ 65536) }
    ensures { result < cap }
{
    (1 << cap.ilog2()) - 1
}
