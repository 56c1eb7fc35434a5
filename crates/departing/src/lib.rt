// The departing records of the vertices, counted block by block in the lent scratch: what refusal 6 asks of the tables.
// Promises: the counters of a block are the numbers of records that leave its vertices, and none wraps.
// Rests on: the columns of `records`. It has no array of its own.
#![tactic(auto)]

ghost use Rattle.std.specs.Prelude.{◌≡◌, cond, ◌++◌, ℕ, ◌+◌, ◌*◌, ◌<◌, ◌≤◌, min, max, eqb, ltb, length, get_or, set, drop, replicate};
ghost use Rattle.journeys.specs.Counting.{one};
ghost use Rattle.records.specs.Columns.{records_in, from_at, leaving};
ghost use Rattle.departing.specs.Scratch.{Outside, Counted, Noted, Near, Low, Inside, range_start, range_end};

use records::{WALK_SIZE, from_at};

// The scratch has a counter for each vertex of a block. Behind them stand, for each block that 65,536 vertices need, the first and the last
// record that leaves it, for walks and then for hops. Those numbers are divided by four, so that they fit 16 bits.
pub const BLOCK: usize = 1904;

const BLOCKS: usize = 35;

const WALK_RANGES: usize = 1904;

const HOP_RANGES: usize = 1974;

// Zero in the first `count` numbers.
fn zero(scratch: &mut [u16], count: usize)
    requires { count ≤ length scratch.old }
    ensures { scratch.new ≡ replicate count 0 ++ drop count scratch.old }
{
    scratch[..count].fill(0);
}

// The whole scratch.
pub fn clear(scratch: &mut [u16; 2048])
    ensures { scratch.new ≡ replicate 2048 0 }
{
    zero(scratch, 2048);
}

// Every range is empty. A range may be too wide, which costs time alone, so nothing is promised here.
fn empty_ranges(scratch: &mut [u16])
    requires { length scratch.old ≡ 2048 }
{
    for g in 0..2 * BLOCKS {
        let range = WALK_RANGES + 2 * g;
        scratch[range] = 65535;
        scratch[range + 1] = 0;
    }
}

// The range at a place is widened to reach the four records from 4q on.
fn widen(scratch: &mut [u16], at: usize, q: u16)
    requires { at + 2 ≤ length scratch.old }
    ensures { Near scratch.old scratch.new at q }
{
    let low = scratch[at];
    let high = scratch[at + 1];
    scratch[at] = low.min(q);
    scratch[at + 1] = high.max(q);
}

// The ranges from `at` on are widened to reach every record of a table: each in the range of the block that it leaves.
fn note(table: &[u8], size: usize, at: usize, scratch: &mut [u16])
    requires le_size { 4 ≤ size }
    requires table_bound { (records_in size table.now ≤ 262144) × (at ≤ 1974) × (length scratch.old ≡ 2048) }
    requires low { Low size table.now }
    ensures noted { Noted size table.now at (records_in size table.now) scratch.new }
    ensures outside { Outside at (at + 70) scratch.old scratch.new }
{
    let n = table.len() / size;
    for i in 0..n {
        let from = from_at(table, size, i) as usize;
        widen(scratch, at + 2 * (from / BLOCK), (i / 4) as u16);
    }
}

// The ranges of both tables.
pub fn note_ranges(walks: &[u8], hops: &[u8], hop_size: usize, scratch: &mut [u16])
    requires walks_bound { (records_in 16 walks.now ≤ 262144) × (records_in hop_size hops.now ≤ 262144) × (length scratch.old ≡ 2048) × (4 ≤ hop_size) }
    requires low { Low 16 walks.now × Low hop_size hops.now }
    ensures noted { Noted 16 walks.now 1904 (records_in 16 walks.now) scratch.new }
    ensures noted_2 { Noted hop_size hops.now 1974 (records_in hop_size hops.now) scratch.new }
{
    empty_ranges(scratch);
    note(walks, WALK_SIZE, WALK_RANGES, scratch);
    note(hops, hop_size, HOP_RANGES, scratch);
}

// One more for the counter k. A counter stops at 65,535, and `low` is the first that has passed it: so no counter wraps.
fn count_one(scratch: &mut [u16], k: usize, low: usize) -> usize
    requires { k < length scratch.old }
    ensures value { result ≡ cond (ltb (get_or scratch.old k 0) 65535) low (min low k) }
    ensures scratch_after { scratch.new ≡ set scratch.old k (min (get_or scratch.old k 0 + 1) 65535) }
{
    let counted = scratch[k];
    if counted < 65535 {
        scratch[k] = counted + 1;
        return low;
    }
    low.min(k)
}

// The record i of a table is counted if it leaves one of `len` vertices from `base` on.
fn count_record(
    table: &[u8],
    size: usize,
    i: usize,
    base: usize,
    len: usize,
    scratch: &mut [u16],
    low: usize,
) -> usize
    requires le_size { 4 ≤ size }
    requires i_bound { (i < records_in size table.now) × (len ≤ 1904) × (length scratch.old ≡ 2048) }
    ensures by_index { (all : ℕ → ℕ) → Counted len low scratch.old all → Counted len result scratch.new (λ k. all k + one (eqb (from_at size table.now i) (base + k))) }
    ensures outside { Outside 0 1904 scratch.old scratch.new }
{
    let from = from_at(table, size, i) as usize;
    if from < base {
        return low;
    }
    let k = from - base;
    if k < len {
        return count_one(scratch, k, low);
    }
    low
}

// All records of a table are counted by those from `start` up to `end`: no other leaves these vertices.
fn count_table(
    table: &[u8],
    size: usize,
    start: usize,
    end: usize,
    base: usize,
    len: usize,
    scratch: &mut [u16],
    first: usize,
) -> usize
    requires le_size { 4 ≤ size }
    requires start_le_end { (start ≤ end) × (end ≤ records_in size table.now) × (len ≤ 1904) × (length scratch.old ≡ 2048) }
    requires inside { Inside size table.now start end base len }
    ensures by_index { (all : ℕ → ℕ) → Counted len first scratch.old all → Counted len result scratch.new (λ k. all k + leaving size table.now (base + k)) }
    ensures outside { Outside 0 1904 scratch.old scratch.new }
{
    let mut low = first;
    for i in start..end {
        low = count_record(table, size, i, base, len, scratch, low);
    }
    low
}

// The range of a block as record numbers, cut at the end of the table.
fn range_end(scratch: &[u16], range: usize, records: usize) -> usize
    requires { (range + 2 ≤ length scratch.now) × (records ≤ 262144) }
    ensures { result ≡ range_end scratch.now range records }
{
    (4 * (scratch[range + 1] as usize) + 4).min(records)
}

fn range_start(scratch: &[u16], range: usize, records: usize) -> usize
    requires { (range + 2 ≤ length scratch.now) × (records ≤ 262144) }
    ensures { result ≡ range_start scratch.now range records }
{
    (4 * (scratch[range] as usize)).min(range_end(scratch, range, records))
}

// The records of a table that leave `len` vertices of the block g are counted by the block's range.
fn count_block(
    table: &[u8],
    size: usize,
    at: usize,
    g: usize,
    len: usize,
    scratch: &mut [u16],
    first: usize,
) -> usize
    requires le_size { 4 ≤ size }
    requires g_bound { (g < 35) × (at ≤ 1974) × (1904 ≤ at) × (len ≤ 1904) × (records_in size table.now ≤ 262144) × (length scratch.old ≡ 2048) }
    requires noted { Noted size table.now at (records_in size table.now) scratch.old }
    ensures by_index { (all : ℕ → ℕ) → Counted len first scratch.old all → Counted len result scratch.new (λ k. all k + leaving size table.now (1904 * g + k)) }
    ensures outside { Outside 0 1904 scratch.old scratch.new }
{
    let range = at + 2 * g;
    let start = range_start(scratch, range, table.len() / size);
    let end = range_end(scratch, range, table.len() / size);
    count_table(table, size, start, end, BLOCK * g, len, scratch, first)
}

// The departing records of `len` vertices of the block g, in the first counters. Answers the first counter that has passed 65,535.
pub fn count_departing(
    walks: &[u8],
    hops: &[u8],
    hop_size: usize,
    g: usize,
    len: usize,
    scratch: &mut [u16],
) -> usize
    requires g_bound { (g < 35) × (len ≤ 1904) × (records_in 16 walks.now ≤ 262144) × (records_in hop_size hops.now ≤ 262144) × (length scratch.old ≡ 2048) × (4 ≤ hop_size) }
    requires noted { Noted 16 walks.now 1904 (records_in 16 walks.now) scratch.old }
    requires noted_2 { Noted hop_size hops.now 1974 (records_in hop_size hops.now) scratch.old }
    ensures counted { Counted len result scratch.new (λ k. leaving 16 walks.now (1904 * g + k) + leaving hop_size hops.now (1904 * g + k)) }
    ensures outside { Outside 0 1904 scratch.old scratch.new }
{
    zero(scratch, BLOCK);
    let low = count_block(walks, WALK_SIZE, WALK_RANGES, g, len, scratch, len);
    count_block(hops, hop_size, HOP_RANGES, g, len, scratch, low)
}
