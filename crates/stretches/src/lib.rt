// Where the records of a vertex stand in the right list of records by "from".
// Promises: the first place, and how many records leave the vertex; or how many walks, which stand first. A guess of the first place is tested by one record; else it is told from a vertex near by where tables are even, for which one record is read, and else sought by halves, for which at most 20 are; the first hop is sought by the list alone.
// Rests on: where records leave (`listing`) and how many (`starts`), the size of a walk (`records`), numbers in bytes (`words`), the search by halves of `halving`.
#![tactic(auto)]

ghost use Rattle.std.specs.Prelude.{◌≡◌, true, ℕ, ◌*◌, ◌/◌, ◌<◌, ◌≤◌, length};
ghost use Rattle.journeys.specs.Bytes.{be32};
ghost use Rattle.listing.specs.Places.{total, from_of, below, Sound};
ghost use Rattle.starts.specs.Sums.{sums};
ghost use Rattle.stretches.specs.Stretch.{Right, Falls, Parted, stretch_of, walks_of};

use halving::end_of;
use listing::from_of;
use records::WALK_SIZE;
use starts::{between, departing_of};
use words::word_at;

// Where the numbers of a vertex begin in the list, and how many there are.
#[derive(Clone, Copy)]
pub struct Stretch {
    pub first: usize,
    pub many: usize,
}

const VERTEX_SIZE: usize = 12;

// How many places are looked at for one where the numbers of a vertex begin.
const LOOK: usize = 32;

// How many counts are added up, less than.
const REACH: u32 = 256;

// The vertex that the record at a place of the list leaves.
fn left_at(walks: &[u8], hops: &[u8], hop_size: usize, list: &[u8], place: usize) -> u32
    requires le_hop_size { (4 ≤ hop_size) × (total hop_size walks.now hops.now ≤ 524288) × (length list.now ≡ 4 * total hop_size walks.now hops.now) }
    requires right { Right (from_of hop_size walks.now hops.now) (total hop_size walks.now hops.now) list.now }
    requires in_list { place < total hop_size walks.now hops.now }
    ensures { result ≡ from_of hop_size walks.now hops.now (be32 list.now (4 * place)) }
{
    from_of(walks, hops, hop_size, word_at(list, 4 * place) as usize)
}

// How many of n numbers stand before those of vertex v: those that leave a vertex before it.
fn before(walks: &[u8], hops: &[u8], hop_size: usize, list: &[u8], v: u32, n: usize) -> usize
    requires le_hop_size { (4 ≤ hop_size) × (total hop_size walks.now hops.now ≤ 524288) × (length list.now ≡ 4 * total hop_size walks.now hops.now) × (n ≡ total hop_size walks.now hops.now) }
    requires right { Right (from_of hop_size walks.now hops.now) (total hop_size walks.now hops.now) list.now }
    ensures { result ≡ below (from_of hop_size walks.now hops.now) v (total hop_size walks.now hops.now) }
{
    end_of(0, n, |m| left_at(walks, hops, hop_size, list, m) < v)
}

// The first place behind `at` whose number is less than the one before it; the end of the list where none of 31 is so. The numbers of a vertex rise, so those of a vertex begin there.
fn fall(list: &[u8], at: usize) -> usize
    requires { (at ≤ 34359738368) × (length list.now / 4 ≤ 524288) }
    ensures { Falls list.now result }
{
    let n = list.len() / 4;
    let end = (at + LOOK).min(n);
    for i in at + 1..end {
        if word_at(list, 4 * i) < word_at(list, 4 * (i - 1)) {
            return i;
        }
    }
    n
}

// Where the numbers of v begin, told from those of w.
fn moved(vertices: &[u8], first: usize, w: u32, v: u32) -> usize
    requires { (w ≤ length vertices.now / 12) × (v ≤ length vertices.now / 12) × (first ≡ sums vertices.now w) × ((u : ℕ) → sums vertices.now u ≤ 524288) }
    ensures { result ≡ sums vertices.now v }
{
    if w < v {
        return first + between(vertices, w as usize, v as usize) as usize;
    }
    first - between(vertices, v as usize, w as usize) as usize
}

// Where the numbers of v begin. Where vertices have about as many records each, its place in the list is about its share of it: what stands there leaves a vertex near v, and the counts between the two are few.
fn first_place(
    vertices: &[u8],
    walks: &[u8],
    hops: &[u8],
    hop_size: usize,
    list: &[u8],
    v: u32,
) -> usize
    requires sound { Sound hop_size vertices.now walks.now hops.now × (length list.now ≡ 4 * total hop_size walks.now hops.now) }
    requires right { Right (from_of hop_size walks.now hops.now) (total hop_size walks.now hops.now) list.now }
    ensures { result ≡ below (from_of hop_size walks.now hops.now) v (total hop_size walks.now hops.now) }
{
    let n = list.len() / 4;
    let many = vertices.len() / VERTEX_SIZE;
    if (v as usize) < many {
        let i = fall(list, v as usize * n / many);
        if i < n {
            let w = from_of(walks, hops, hop_size, word_at(list, 4 * i) as usize);
            if (w < v + REACH) & (v < w + REACH) {
                return moved(vertices, i, w, v);
            }
        }
    }
    before(walks, hops, hop_size, list, v, n)
}

// Whether the numbers of v begin at a place, which may be any number: the list falls there, and its record leaves v. A no says nothing.
fn begins_at(walks: &[u8], hops: &[u8], hop_size: usize, list: &[u8], v: u32, place: usize) -> bool
    requires le_hop_size { (4 ≤ hop_size) × (total hop_size walks.now hops.now ≤ 524288) × (length list.now ≡ 4 * total hop_size walks.now hops.now) }
    requires right { Right (from_of hop_size walks.now hops.now) (total hop_size walks.now hops.now) list.now }
    ensures { result ≡ true → place ≡ below (from_of hop_size walks.now hops.now) v (total hop_size walks.now hops.now) }
{
    if place < 1 {
        return false;
    }
    if list.len() / 4 <= place {
        return false;
    }
    let x = word_at(list, 4 * place);
    if word_at(list, 4 * (place - 1)) <= x {
        return false;
    }
    from_of(walks, hops, hop_size, x as usize) == v
}

// Where the numbers of v begin: at the guess where it is right, which costs nothing that passing its records would not.
fn place_of(
    vertices: &[u8],
    walks: &[u8],
    hops: &[u8],
    hop_size: usize,
    list: &[u8],
    v: u32,
    guess: usize,
) -> usize
    requires sound { Sound hop_size vertices.now walks.now hops.now × (length list.now ≡ 4 * total hop_size walks.now hops.now) }
    requires right { Right (from_of hop_size walks.now hops.now) (total hop_size walks.now hops.now) list.now }
    ensures { result ≡ below (from_of hop_size walks.now hops.now) v (total hop_size walks.now hops.now) }
{
    if begins_at(walks, hops, hop_size, list, v, guess) {
        return guess;
    }
    first_place(vertices, walks, hops, hop_size, list, v)
}

// Where walks end and hops begin among the numbers from `first` up to `end`: those of walks are below `ways`, so the list alone tells.
fn first_hop(list: &[u8], ways: usize, first: usize, end: usize) -> usize
    requires { (first ≤ end) × (end ≤ length list.now / 4) × (end ≤ 524288) }
    ensures { (m : ℕ) → Parted list.now ways first end m → result ≡ m }
{
    end_of(first, end, |m| (word_at(list, 4 * m) as usize) < ways)
}

// Over tables that the check has passed and the right list of them. The guess is where the numbers of v may begin, and may be any number. Where its walks end is not sought: a number tells by itself whether it is a walk's.
pub fn find(
    vertices: &[u8],
    walks: &[u8],
    hops: &[u8],
    hop_size: usize,
    list: &[u8],
    v: u32,
    guess: usize,
) -> Stretch
    requires sound { Sound hop_size vertices.now walks.now hops.now × (length list.now ≡ 4 * total hop_size walks.now hops.now) }
    requires right { Right (from_of hop_size walks.now hops.now) (total hop_size walks.now hops.now) list.now }
    ensures { result ≡ stretch_of hop_size walks.now hops.now v }
{
    let first = place_of(vertices, walks, hops, hop_size, list, v, guess);
    let many = departing_of(vertices, v as usize) as usize;
    Stretch { first, many }
}

// The same for the walks of v alone, which stand before its hops.
pub fn walks_of(
    vertices: &[u8],
    walks: &[u8],
    hops: &[u8],
    hop_size: usize,
    list: &[u8],
    v: u32,
) -> Stretch
    requires sound { Sound hop_size vertices.now walks.now hops.now × (length list.now ≡ 4 * total hop_size walks.now hops.now) }
    requires right { Right (from_of hop_size walks.now hops.now) (total hop_size walks.now hops.now) list.now }
    ensures { result ≡ walks_of hop_size walks.now hops.now v }
{
    let first = first_place(vertices, walks, hops, hop_size, list, v);
    let end = first + departing_of(vertices, v as usize) as usize;
    let middle = first_hop(list, walks.len() / WALK_SIZE, first, end);
    let many = middle - first;
    Stretch { first, many }
}
