// The entries of a bought list by an array that has a distance at each vertex read so far: whether a vertex is new, and refusals 25 to 27 where the first wrong entry is known.
// Promises: the first 25, else the first 26, else 27 at that entry, as the definitions have them; entries before it are not read again.
// Rests on: the numbers of `words` and the laws of `lists`.
#![tactic(auto)]

ghost use Rattle.std.specs.Prelude.{◌≡◌, ◌&&◌, ◌≤◌, ◌<◌, eqb, ltb, length};
ghost use Rattle.journeys.specs.Counting.{none};
ghost use Rattle.journeys.specs.Lists.{entry_ok};
ghost use Rattle.journeys.specs.VendorLists.{size, in_time};
ghost use Rattle.words.specs.Told.{told};
ghost use Rattle.lists.specs.Passes.{First};
ghost use Rattle.entries.specs.Noted.{heard, Noted, Before, entry_refusal};

use words::{NONE, Reason, Refusal, refused, word_at};

// Whether a vertex exists, and `far` does not list it yet.
pub fn is_new(far: &[u32], vertices: usize, v: u32) -> bool
    requires { (vertices ≤ 65536) × (length far.now ≡ 65536) }
    ensures { result ≡ (ltb v vertices && eqb (heard far.now v) none) }
{
    let u = v as usize;
    if vertices <= u {
        return false;
    }
    far[u] == NONE
}

// 25: the first entry whose vertex does not exist or stands in an earlier entry, or the number of entries. Those before `start` are good, and `far` has a distance at each.
fn first_old(list: &[u8], vertices: usize, start: usize, far: &mut [u32]) -> usize
    requires vertices_bound { (vertices ≤ 65536) × (start ≤ size list.now) × Noted list.now far.old start }
    requires before { Before (entry_ok 12 vertices none list.now) start }
    ensures { First (entry_ok 12 vertices none list.now) (size list.now) result }
{
    let n = list.len() / 12;
    for i in start..n {
        let v = word_at(list, 12 * i);
        if !is_new(far, vertices, v) {
            return i;
        }
        far[v as usize] = 0;
    }
    n
}

// 26: the first entry whose distance is above D, or the number of entries. Those before `start` are in time.
fn first_late(list: &[u8], most: u32, start: usize) -> usize
    requires { (start ≤ size list.now) × Before (in_time most list.now) start }
    ensures { First (in_time most list.now) (size list.now) result }
{
    let n = list.len() / 12;
    for i in start..n {
        if most < word_at(list, 12 * i + 4) {
            return i;
        }
    }
    n
}

// 25, 26 or 27, where entry i is the first with which anything is wrong.
pub fn entry_fault(
    list: &[u8],
    vertices: usize,
    most: u32,
    i: usize,
    far: &mut [u32],
) -> Result<(), Refusal>
    requires vertices_bound { (vertices ≤ 65536) × (i < size list.now) × Noted list.now far.old i }
    requires before { Before (entry_ok 12 vertices none list.now) i × Before (in_time most list.now) i }
    ensures { told result ≡ entry_refusal vertices most list.now i }
{
    let old = first_old(list, vertices, i, far);
    if old < list.len() / 12 {
        return refused(Reason::BoughtVertex, old as u32);
    }
    let late = first_late(list, most, i);
    if late < list.len() / 12 {
        return refused(Reason::BoughtDistance, late as u32);
    }
    refused(Reason::BoughtRecord, i as u32)
}
