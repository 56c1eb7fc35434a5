// The list of record numbers by "from", judged: refusal 22.
// Promises: the first place that differs from the right list, or none; the list and the tables are only read.
// Rests on: where records leave (`listing`, `records`) and how many (`starts`), numbers in bytes and refusals (`words`). It has no array of its own.
#![tactic(auto)]

ghost use Rattle.std.specs.Prelude.{◌≡◌, true, ℕ, ◌+◌, ◌*◌, ◌/◌, ◌<◌, ◌≤◌, length, IfSome};
ghost use Rattle.journeys.specs.Tables.{tables_of};
ghost use Rattle.journeys.specs.Records.{record_count};
ghost use Rattle.journeys.specs.Valid.{ValidTables};
ghost use Rattle.journeys.specs.CourierList.{list_refusal};
ghost use Rattle.words.specs.Told.{told};
ghost use Rattle.listing.specs.Places.{total, from_of};
ghost use Rattle.records.specs.Columns.{records_in, from_at};
ghost use Rattle.listed.specs.Stretches.{Fits, Stretch, Upto, Rising, Risen, Sure};
ghost use Rattle.listed.specs.Waiting.{Leave, waited, WaitingIs};

use listing::from_of;
use records::{WALK_SIZE, from_at};
use starts::departing_of;
use words::{Reason, Refusal, refused, word_at};

const VERTEX_SIZE: usize = 12;

// So many hops may wait in the scratch, four words for each.
const PLACES: usize = 512;

// The numbers from `first` up to `end` are records that leave v, and rise: so they are its records, if they are as many.
fn rises(
    walks: &[u8],
    hops: &[u8],
    hop_size: usize,
    list: &[u8],
    v: u32,
    first: usize,
    end: usize,
) -> bool
    requires fits { Fits hop_size walks.now hops.now list.now end }
    requires first_le_end { first ≤ end }
    ensures { result ≡ true → Risen (from_of hop_size walks.now hops.now) (total hop_size walks.now hops.now) v first end list.now }
{
    let n = list.len() / 4;
    let mut low = 0;
    for i in first..end {
        let x = word_at(list, 4 * i) as usize;
        if x < low {
            return false;
        }
        if n <= x {
            return false;
        }
        if from_of(walks, hops, hop_size, x) != v {
            return false;
        }
        low = x + 1;
    }
    true
}

// The first place of a vertex that has not the number of its record there; `end` if there is none. All records are passed.
fn differs(
    walks: &[u8],
    hops: &[u8],
    hop_size: usize,
    list: &[u8],
    v: u32,
    first: usize,
    end: usize,
) -> usize
    requires fits { Fits hop_size walks.now hops.now list.now end }
    requires stretch { Stretch (from_of hop_size walks.now hops.now) (total hop_size walks.now hops.now) v first end }
    ensures { Upto (from_of hop_size walks.now hops.now) (total hop_size walks.now hops.now) v first end result list.now }
{
    let n = list.len() / 4;
    let mut at = first;
    for x in 0..n {
        if from_of(walks, hops, hop_size, x) == v {
            if word_at(list, 4 * at) as usize != x {
                return at;
            }
            at += 1;
        }
    }
    at
}

// The same in one pass over the stretch where it is right: what `rises` refuses is looked at exactly.
fn wrong_in(
    walks: &[u8],
    hops: &[u8],
    hop_size: usize,
    list: &[u8],
    v: u32,
    first: usize,
    end: usize,
) -> usize
    requires fits { Fits hop_size walks.now hops.now list.now end }
    requires stretch { Stretch (from_of hop_size walks.now hops.now) (total hop_size walks.now hops.now) v first end }
    ensures { Upto (from_of hop_size walks.now hops.now) (total hop_size walks.now hops.now) v first end result list.now }
{
    if rises(walks, hops, hop_size, list, v, first, end) {
        return end;
    }
    differs(walks, hops, hop_size, list, v, first, end)
}

// Refusal 22, over tables that the check has passed and a list of their length.
pub fn fault(
    vertices: &[u8],
    walks: &[u8],
    hops: &[u8],
    hop_size: usize,
    list: &[u8],
) -> Result<(), Refusal>
    requires le_hop_size { (4 ≤ hop_size) × ValidTables (tables_of hop_size vertices.now walks.now hops.now) }
    requires list_len { length list.now ≡ 4 * record_count (tables_of hop_size vertices.now walks.now hops.now) }
    ensures { told result ≡ list_refusal (tables_of hop_size vertices.now walks.now hops.now) list.now }
{
    let n = vertices.len() / VERTEX_SIZE;
    let mut first = 0;
    for v in 0..n {
        let end = first + departing_of(vertices, v) as usize;
        let at = wrong_in(walks, hops, hop_size, list, v as u32, first, end);
        if at < end {
            return refused(Reason::RecordList, at as u32);
        }
        first = end;
    }
    Ok(())
}

// Up to which place the numbers from `first` on are walks that leave v, and rise.
fn walks_rise(walks: &[u8], list: &[u8], v: u32, first: usize, end: usize) -> usize
    requires { (first ≤ end) × (end ≤ length list.now / 4) × (end ≤ 524288) × (records_in 16 walks.now ≤ 524288) }
    ensures { (first ≤ result) × (result ≤ end) × Rising (from_at 16 walks.now) (records_in 16 walks.now) v first result (records_in 16 walks.now) list.now }
{
    let ways = walks.len() / WALK_SIZE;
    let mut low = 0;
    for i in first..end {
        let x = word_at(list, 4 * i) as usize;
        if ways <= x {
            return i;
        }
        if x < low {
            return i;
        }
        if from_at(walks, WALK_SIZE, x) != v {
            return i;
        }
        low = x + 1;
    }
    end
}

fn wide(x: u16) -> usize
    ensures { (result ≡ x) × (result < 65536) }
{
    x as usize
}

// Hop x waits in place k, as one that has to leave v.
fn wait(scratch: &mut [u16], k: usize, x: usize, v: usize)
    requires { (length scratch.old ≡ 2048) × (k < 512) × (x < 524288) × (v < 65536) }
    ensures { scratch.new ≡ waited scratch.old k x v }
{
    scratch[4 * k] = (x % 65536) as u16;
    scratch[4 * k + 1] = (x / 65536) as u16;
    scratch[4 * k + 2] = v as u16;
}

// Whether each of the k hops that wait leaves its vertex. They stand all over the table: read one right behind the other they are waited for at once.
fn all_leave(hops: &[u8], hop_size: usize, scratch: &[u16], k: usize) -> bool
    requires { (4 ≤ hop_size) × (k ≤ 512) × (length scratch.now ≡ 2048) }
    ensures { result ≡ true → Leave (from_at hop_size hops.now) scratch.now k }
{
    let n = hops.len() / hop_size;
    for j in 0..k {
        let x = wide(scratch[4 * j]) + 65536 * wide(scratch[4 * j + 1]);
        if n <= x {
            return false;
        }
        if from_at(hops, hop_size, x) as usize != wide(scratch[4 * j + 2]) {
            return false;
        }
    }
    true
}

// A free place behind the k hops that wait; where there is none they are looked at, and have to leave.
fn free_place(hops: &[u8], hop_size: usize, scratch: &[u16], k: usize) -> Option<usize>
    requires { (4 ≤ hop_size) × (k ≤ 512) × (length scratch.now ≡ 2048) }
    ensures { IfSome result (λ place. (place < 512) × (Leave (from_at hop_size hops.now) scratch.now place → Leave (from_at hop_size hops.now) scratch.now k)) }
{
    if k < PLACES {
        return Some(k);
    }
    if all_leave(hops, hop_size, scratch, k) {
        return Some(0);
    }
    None
}

// How many hops wait, where the numbers from `at` up to `end` are those of hops, and rise; or that a number is wrong. That they leave v is looked at later: they wait behind the k that wait already.
fn hops_wait(
    walks: &[u8],
    hops: &[u8],
    hop_size: usize,
    list: &[u8],
    v: usize,
    at: usize,
    end: usize,
    scratch: &mut [u16],
    k: usize,
) -> Option<usize>
    requires fits { Fits hop_size walks.now hops.now list.now end }
    requires at_le_end { (at ≤ end) × (v < 65536) × (k ≤ 512) × (length scratch.old ≡ 2048) }
    ensures { WaitingIs hop_size walks.now hops.now v at end list.now scratch.old k scratch.new result }
{
    let n = list.len() / 4;
    let ways = walks.len() / WALK_SIZE;
    let mut many = k;
    let mut least = ways;
    for i in at..end {
        let x = word_at(list, 4 * i) as usize;
        if x < least {
            return None;
        }
        if n <= x {
            return None;
        }
        let place = free_place(hops, hop_size, scratch, many)?;
        wait(scratch, place, x - ways, v);
        many = place + 1;
        least = x + 1;
    }
    Some(many)
}

// Whether all is right, the departing counts of the vertices and the list, by one pass over the list; tables and list have their lengths. A yes is sure; a no says nothing. Walks stand near one another and are looked at on the way, hops wait in the scratch, which may hold anything before and afterwards.
pub fn sure(
    vertices: &[u8],
    walks: &[u8],
    hops: &[u8],
    hop_size: usize,
    list: &[u8],
    scratch: &mut [u16],
) -> bool
    requires { (4 ≤ hop_size) × (length vertices.now / 12 ≤ 65536) × (total hop_size walks.now hops.now ≤ 524288) × (length list.now ≡ 4 * total hop_size walks.now hops.now) × (length scratch.old ≡ 2048) }
    ensures { result ≡ true → Sure hop_size vertices.now walks.now hops.now list.now }
{
    let n = vertices.len() / VERTEX_SIZE;
    let many = list.len() / 4;
    let mut k = 0;
    let mut first = 0;
    for v in 0..n {
        let end = first + departing_of(vertices, v) as usize;
        if many < end {
            return false;
        }
        let middle = walks_rise(walks, list, v as u32, first, end);
        let Some(more) = hops_wait(walks, hops, hop_size, list, v, middle, end, scratch, k) else {
            return false;
        };
        k = more;
        first = end;
    }
    if !all_leave(hops, hop_size, scratch, k) {
        return false;
    }
    first == many
}
