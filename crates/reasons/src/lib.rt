// The entries of a bought list, where their distances come from, and whether anything offers better: refusals 25 to 28 over the records of both tables, read as one row.
// Promises: the refusals in their order, as the definitions have them. One pass over the list fills an own array of 256 KB with the distance listed for each vertex, which
// also tells a vertex that stands twice; only where that pass finds something wrong is the rest read again, since every 25 comes before any 26.
// Rests on: the rows and offers of `passing`, the readers of `records`, and 25 and 26 of `entries`.
#![tactic(auto)]

ghost use Rattle.std.specs.Prelude.{◌≡◌, ◌≢◌, ◌≤◌, ◌<◌, replicate};
ghost use Rattle.journeys.specs.Counting.{none};
ghost use Rattle.journeys.specs.VendorLists.{size, no_better, backs, far_before, bought_refusal};
ghost use Rattle.words.specs.Told.{told};
ghost use Rattle.lists.specs.Passes.{First};
ghost use Rattle.entries.specs.Noted.{heard};
ghost use Rattle.passing.specs.Row as row;
ghost use Rattle.passing.specs.Row.{passes, Counted};
ghost use Rattle.reasons.specs.Rows.{seed_of, farther, to_of, net_of, Led, Figures, Gives, entry_good, good_by, fair_by, offer_refusal};

use passing::Arriving;
use words::{NONE, Reason, Refusal, Ticks, refused, word_at};

// The vertices of the query's road with the distances that they have as seeds; `back` is none where "to" is no seed.
#[derive(Clone, Copy)]
pub struct Seeds {
    pub from: u32,
    pub near: Ticks,
    pub to: u32,
    pub back: Ticks,
}

fn seed_at(ends: Seeds, v: u32) -> u32
    ensures { result ≡ seed_of ends v }
{
    if ends.from == v {
        return ends.near.0;
    }
    if ends.to == v {
        return ends.back.0;
    }
    NONE
}

// The records of a row with a distance at their far end.
fn at_distance(all: Arriving, distance: u32) -> Arriving
    ensures { result ≡ farther all distance }
{
    Arriving {
        distance: Ticks(distance),
        ..all
    }
}

// The vertex to which record r of a row leads.
fn to_at(walks: &[u8], hops: &[u8], all: Arriving, r: usize) -> usize
    requires { Counted walks.now hops.now all × (r < passes all) }
    ensures { result ≡ to_of walks.now hops.now all r }
{
    if r < all.walks {
        return word_at(walks, 16 * r + 4) as usize;
    }
    records::to_at(hops, all.size, r - all.walks) as usize
}

// Whether r tells where the distance d of v comes from, by what `far` lists.
fn reason_ok(
    walks: &[u8],
    hops: &[u8],
    all: Arriving,
    ends: Seeds,
    far: &[u32],
    v: u32,
    d: u32,
    r: u32,
) -> bool
    requires sound { row.Sound walks.now hops.now all × Figures far.now × (passes all ≤ 524288) }
    requires led { Led walks.now hops.now all }
    ensures { result ≡ backs (net_of 65536 walks.now hops.now all ends) (heard far.now) v d r }
{
    if r == NONE {
        return seed_at(ends, v) == d;
    }
    let named = r as usize;
    if all.walks + all.hops <= named {
        return false;
    }
    let listed = far[to_at(walks, hops, all, named)];
    if listed == NONE {
        return false;
    }
    if passing::from_at(walks, hops, all, named) != v as usize {
        return false;
    }
    passing::offer_at(walks, hops, at_distance(all, listed), named).0 == d
}

// An entry is a new vertex, in time, with its reason, by what `far` lists.
fn entry_ok(
    walks: &[u8],
    hops: &[u8],
    all: Arriving,
    ends: Seeds,
    far: &[u32],
    vertices: usize,
    v: u32,
    d: u32,
    r: u32,
) -> bool
    requires sound { row.Sound walks.now hops.now all × Figures far.now × (passes all ≤ 524288) × (vertices ≤ 65536) }
    requires led { Led walks.now hops.now all }
    ensures { result ≡ good_by (net_of vertices walks.now hops.now all ends) all.allowed.0 (heard far.now) v d r }
{
    if !entries::is_new(far, vertices, v) {
        return false;
    }
    if all.allowed.0 < d {
        return false;
    }
    reason_ok(walks, hops, all, ends, far, v, d, r)
}

// The first entry with which anything is wrong, or the number of entries. `far` lists those before it.
fn first_wrong(
    walks: &[u8],
    hops: &[u8],
    all: Arriving,
    ends: Seeds,
    list: &[u8],
    vertices: usize,
    far: &mut [u32],
) -> usize
    requires sound { row.Sound walks.now hops.now all × (passes all ≤ 524288) × (vertices ≤ 65536) }
    requires led { Led walks.now hops.now all }
    requires far_value { far.old ≡ replicate 65536 none }
    ensures first { First (entry_good (net_of vertices walks.now hops.now all ends) all.allowed.0 list.now) (size list.now) result }
    ensures figures { Figures far.new × Gives far.new (far_before list.now result) }
{
    let n = list.len() / 12;
    for i in 0..n {
        let v = word_at(list, 12 * i);
        let d = word_at(list, 12 * i + 4);
        if !entry_ok(
            walks,
            hops,
            all,
            ends,
            far,
            vertices,
            v,
            d,
            word_at(list, 12 * i + 8),
        ) {
            return i;
        }
        far[v as usize] = d;
    }
    n
}

// What is offered is no better than what is listed, or than D where nothing is. It does not branch, since nothing tells beforehand whether a vertex is listed.
fn no_better(most: u32, listed: u32, offered: u32) -> bool
    ensures { result ≡ no_better most listed offered }
{
    ((listed < NONE) & (listed <= offered)) | (!(listed < NONE) & (most < offered))
}

fn record_fair(
    walks: &[u8],
    hops: &[u8],
    all: Arriving,
    ends: Seeds,
    most: u32,
    far: &[u32],
    r: usize,
) -> bool
    requires sound { row.Sound walks.now hops.now all × Figures far.now × (r < passes all) }
    requires led { Led walks.now hops.now all }
    ensures { result ≡ fair_by (net_of 65536 walks.now hops.now all ends) most (heard far.now) r }
{
    let listed = far[to_at(walks, hops, all, r)];
    if listed == NONE {
        return true;
    }
    let offered = passing::offer_at(walks, hops, at_distance(all, listed), r);
    no_better(most, far[passing::from_at(walks, hops, all, r)], offered.0)
}

// 28: the lowest record into a listed vertex that offers better, or the number of records.
fn first_unfair(
    walks: &[u8],
    hops: &[u8],
    all: Arriving,
    ends: Seeds,
    most: u32,
    far: &[u32],
) -> usize
    requires sound { row.Sound walks.now hops.now all × Figures far.now × (passes all ≤ 524288) }
    requires led { Led walks.now hops.now all }
    ensures { First (fair_by (net_of 65536 walks.now hops.now all ends) most (heard far.now)) (passes all) result }
{
    let n = all.walks + all.hops;
    for r in 0..n {
        if !record_fair(walks, hops, all, ends, most, far, r) {
            return r;
        }
    }
    n
}

// 28 by what `far` lists: the seed of "from", that of "to", and only then the lowest record.
fn offer_fault(
    walks: &[u8],
    hops: &[u8],
    all: Arriving,
    ends: Seeds,
    far: &[u32],
) -> Result<(), Refusal>
    requires sound { row.Sound walks.now hops.now all × Figures far.now × (passes all ≤ 524288) }
    requires led { Led walks.now hops.now all }
    requires from_bound { (ends.from < 65536) × (ends.to < 65536) × (ends.from ≢ ends.to) }
    ensures { told result ≡ offer_refusal (net_of 65536 walks.now hops.now all ends) all.allowed.0 (heard far.now) ends.from ends.to }
{
    let most = all.allowed.0;
    if !no_better(most, far[ends.from as usize], ends.near.0) {
        return refused(Reason::BoughtOffer, 4294967294);
    }
    if !no_better(most, far[ends.to as usize], ends.back.0) {
        return refused(Reason::BoughtOffer, 4294967295);
    }
    let r = first_unfair(walks, hops, all, ends, most, far);
    if r < all.walks + all.hops {
        return refused(Reason::BoughtOffer, r as u32);
    }
    Ok(())
}

// 25 to 28 of any list.
pub fn list_fault(
    walks: &[u8],
    hops: &[u8],
    all: Arriving,
    ends: Seeds,
    list: &[u8],
    vertices: usize,
) -> Result<(), Refusal>
    requires sound { row.Sound walks.now hops.now all × (passes all ≤ 524288) × (vertices ≤ 65536) }
    requires led { Led walks.now hops.now all }
    requires from_bound { (ends.from < 65536) × (ends.to < 65536) × (ends.from ≢ ends.to) }
    ensures { told result ≡ bought_refusal (net_of vertices walks.now hops.now all ends) all.allowed.0 list.now ends.from ends.to }
{
    let mut far = [4294967295u32; 65536];
    let i = first_wrong(walks, hops, all, ends, list, vertices, &mut far);
    if i < list.len() / 12 {
        return entries::entry_fault(list, vertices, all.allowed.0, i, &mut far);
    }
    offer_fault(walks, hops, all, ends, &far)
}
