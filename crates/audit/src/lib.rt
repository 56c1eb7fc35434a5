// The check of the three tables: refusals 1 (places 0 to 2) to 6, or none: RULES 12.12.
// Promises: for every byte string of every length the answer is that of the definition, the tables are only read, and the lent scratch is zero afterwards.
// Rests on: the readers of `records`, the quick judge of `quick`, the counts of `departing` and the definitions of `journeys`. It has no array of its own.
#![tactic(auto)]

ghost use Rattle.std.specs.Prelude.{◌≡◌, true, ◌&&◌, ℕ, ◌+◌, ◌-◌, ◌*◌, ◌/◌, ◌<◌, ◌≤◌, min, eqb, length, get_or, replicate, IfOk};
ghost use Rattle.journeys.specs.Counting.{none, count};
ghost use Rattle.journeys.specs.Tables.{tables_of};
ghost use Rattle.journeys.specs.Records.{departing};
ghost use Rattle.journeys.specs.Refusals as refusals;
ghost use Rattle.journeys.specs.Refusals.{hop_size_ok, table_of, table_lengths, unless, or_else, first_from, first_bad, vertex_ok};
ghost use Rattle.words.specs.Told.{number_of, told};
ghost use Rattle.records.specs.Columns.{records_in, ascends_at, Ascending};
ghost use Rattle.quick.specs.Claims.{twin_at, alone_in};
ghost use Rattle.records.specs.Arriving.{size_of};
ghost use Rattle.departing.specs.Scratch.{Outside, Noted};
ghost use Rattle.audit.specs.Judging.{Sizes, Passed, Counts, record_fault, vertex_refusals};

use departing::{BLOCK, clear, count_departing, note_ranges};
use records::{Kind, WALK_SIZE, to_at};
use words::{Reason, Refusal, half_at, refused};

// What a pass over a table finds where no record is bad: the first one out of order, and how many have no twin.
// Hops have no twin: of them that number says nothing.
#[derive(Clone, Copy)]
struct Scanned {
    order: Result<(), Refusal>,
    alone: usize,
}

// Refusal 1: the lengths.
pub fn table_ok(table: &[u8], size: usize, low: usize, high: usize) -> bool
    requires { 0 < size }
    ensures { result ≡ table_of size low high table.now }
{
    (table.len() % size == 0) & (low <= table.len() / size) & (table.len() / size <= high)
}

// A size other than 16 or 20 is refused before anything is divided by it.
fn hops_ok(hops: &[u8], size: usize) -> bool
    ensures { result ≡ hop_size_ok size && table_of size 0 262144 hops.now }
{
    if (size == 16) | (size == 20) {
        return table_ok(hops, size, 0, 262144);
    }
    false
}

pub fn lengths(vertices: &[u8], walks: &[u8], hops: &[u8], hop_size: usize) -> Result<(), Refusal>
    ensures { told result ≡ table_lengths hop_size vertices.now walks.now hops.now }
{
    if !table_ok(vertices, 12, 1, 65536) {
        return refused(Reason::Length, 0);
    }
    if !table_ok(walks, 16, 0, 262144) {
        return refused(Reason::Length, 1);
    }
    if !hops_ok(hops, hop_size) {
        return refused(Reason::Length, 2);
    }
    Ok(())
}

// Refusals 2 and 3: the record i of the table of a kind, where those before it are good.
fn record_fault(
    vertices: &[u8],
    table: &[u8],
    size: usize,
    kind: Kind,
    i: u32,
) -> Result<(), Refusal>
    requires i_bound { (i < records_in size table.now) × (records_in size table.now ≤ 262144) }
    requires by_index { (k : ℕ) → k < i → (record_fault kind size vertices.now table.now k).number ≡ 0 }
    requires le_size { (16 ≤ size) × (size ≡ size_of kind size) }
    ensures { told result ≡ record_fault kind size vertices.now table.now i }
{
    match kind {
        Kind::Walks => {
            let Ok(_) = records::read_walk(vertices, table, i) else {
                return refused(Reason::Walk, i);
            };
            Ok(())
        }
        Kind::Hops => {
            let Ok(_) = records::read_hop(vertices, table, size, i) else {
                return refused(Reason::Hop, i);
            };
            Ok(())
        }
    }
}

// Refusals 4 and 5: the first record out of order, after the record i.
fn order_fault(
    first: Result<(), Refusal>,
    ascends: bool,
    reason: Reason,
    i: u32,
) -> Result<(), Refusal>
    ensures { told result ≡ or_else (told first) (unless ascends (number_of reason) i) }
{
    first?;
    if ascends {
        return Ok(());
    }
    refused(reason, i)
}

// All in one pass over the table of a kind; `reason` is that of its order. `before` is "to" of the record before, or 0.
// `alone` is counted here because the quick judge would have to read every walk again for it. It is added in place: by a function the loop gets slower.
fn table_faults(
    vertices: &[u8],
    table: &[u8],
    size: usize,
    kind: Kind,
    reason: Reason,
) -> Result<Scanned, Refusal>
    requires table_bound { records_in size table.now ≤ 262144 }
    requires le_size { (16 ≤ size) × (size ≡ size_of kind size) }
    ensures bad_value { told result ≡ first_from (record_fault kind size vertices.now table.now) (records_in size table.now) 0 }
    ensures order_value { IfOk result (λ s. told s.order ≡ first_bad (number_of reason) (ascends_at size table.now) (records_in size table.now)) }
    ensures alone_value { IfOk result (λ s. s.alone ≡ count (λ k. eqb (twin_at table.now k) none) (records_in size table.now)) }
{
    let n = (table.len() / size) as u32;
    let mut order = Ok(());
    let mut alone = 0;
    let mut before: u32 = 0;
    for i in 0..n {
        record_fault(vertices, table, size, kind, i)?;
        let to = to_at(table, size, i as usize);
        order = order_fault(order, before <= to, reason, i);
        let no_twin = quick::alone(table, i as usize);
        alone += if no_twin { 1 } else { 0 };
        before = to;
    }
    Ok(Scanned { order, alone })
}

// The first bad one of the vertices from `base` on, up to `low`, whose departing records are counted.
fn judge(
    vertices: &[u8],
    walks: &[u8],
    hops: &[u8],
    hop_size: usize,
    base: usize,
    low: usize,
    scratch: &[u16],
) -> Result<(), Refusal>
    requires sizes { Sizes hop_size vertices.now walks.now hops.now }
    requires low_in_bounds { (base + low ≤ length vertices.now / 12) × (low ≤ length scratch.now) }
    requires ascending { Ascending 16 walks.now }
    requires ascending_2 { Ascending hop_size hops.now }
    requires by_index { (k : ℕ) → k < low → get_or scratch.now k 0 ≡ departing (tables_of hop_size vertices.now walks.now hops.now) (base + k) }
    ensures { told result ≡ vertex_refusals (tables_of hop_size vertices.now walks.now hops.now) low base }
{
    for k in 0..low {
        let v = (base + k) as u32;
        let Ok(_) = records::read_vertex(vertices, walks, hops, hop_size, v, scratch[k] as u32)
        else {
            return refused(Reason::Vertex, v);
        };
    }
    Ok(())
}

// The first bad vertex of the block g.
fn block(
    vertices: &[u8],
    walks: &[u8],
    hops: &[u8],
    hop_size: usize,
    g: usize,
    scratch: &mut [u16],
) -> Result<(), Refusal>
    requires sizes { Sizes hop_size vertices.now walks.now hops.now }
    requires g_in_bounds { (1904 * g < length vertices.now / 12) × (length scratch.old ≡ 2048) }
    requires ascending { Ascending 16 walks.now × Ascending hop_size hops.now }
    requires noted { Noted 16 walks.now 1904 (records_in 16 walks.now) scratch.old }
    requires noted_2 { Noted hop_size hops.now 1974 (records_in hop_size hops.now) scratch.old }
    ensures result_value { told result ≡ vertex_refusals (tables_of hop_size vertices.now walks.now hops.now) (min 1904 (length vertices.now / 12 - 1904 * g)) (1904 * g) }
    ensures outside { Outside 0 1904 scratch.old scratch.new }
{
    let base = BLOCK * g;
    let len = BLOCK.min(vertices.len() / 12 - base);
    let low = count_departing(walks, hops, hop_size, g, len, scratch);
    judge(vertices, walks, hops, hop_size, base, low, scratch)?;
    if low < len {
        return refused(Reason::Vertex, (base + low) as u32);
    }
    Ok(())
}

// The first bad vertex, judged from the block `start` on: those before it are good.
fn blocks(
    vertices: &[u8],
    walks: &[u8],
    hops: &[u8],
    hop_size: usize,
    start: usize,
    scratch: &mut [u16],
) -> Result<(), Refusal>
    requires sizes { Sizes hop_size vertices.now walks.now hops.now }
    requires start_in_bounds { (1904 * start ≤ length vertices.now / 12) × (length scratch.old ≡ 2048) }
    requires by_index { (v : ℕ) → v < 1904 * start → vertex_ok (tables_of hop_size vertices.now walks.now hops.now) v ≡ true }
    requires ascending { Ascending 16 walks.now × Ascending hop_size hops.now }
    requires noted { Noted 16 walks.now 1904 (records_in 16 walks.now) scratch.old }
    requires noted_2 { Noted hop_size hops.now 1974 (records_in hop_size hops.now) scratch.old }
    ensures { told result ≡ vertex_refusals (tables_of hop_size vertices.now walks.now hops.now) (length vertices.now / 12) 0 }
{
    let n = (vertices.len() / 12).div_ceil(BLOCK);
    for g in start..n {
        block(vertices, walks, hops, hop_size, g, scratch)?;
    }
    Ok(())
}

// The first bad vertex, where the vertex records say rightly how many records leave.
fn judge_counted(vertices: &[u8], walks: &[u8], hops: &[u8], hop_size: usize) -> Result<(), Refusal>
    requires sizes { Sizes hop_size vertices.now walks.now hops.now }
    requires ascending { Ascending 16 walks.now × Ascending hop_size hops.now }
    requires counts { Counts hop_size vertices.now walks.now hops.now }
    ensures { told result ≡ vertex_refusals (tables_of hop_size vertices.now walks.now hops.now) (length vertices.now / 12) 0 }
{
    let n = (vertices.len() / 12) as u32;
    for v in 0..n {
        let departs = half_at(vertices, 12 * (v as usize) + 8);
        let Ok(_) = records::read_vertex(vertices, walks, hops, hop_size, v, departs) else {
            return refused(Reason::Vertex, v);
        };
    }
    Ok(())
}

// Refusal 6: the vertices. Where their counts are known to be right, only the rest of their records is looked at. Else the quick judge goes before; where it stops, the exact check begins with that block. `alone` walks have no twin.
fn vertex_records(
    vertices: &[u8],
    walks: &[u8],
    hops: &[u8],
    hop_size: usize,
    alone: usize,
    counted: bool,
    scratch: &mut [u16],
) -> Result<(), Refusal>
    requires sizes { Sizes hop_size vertices.now walks.now hops.now }
    requires scratch_len { (length scratch.old ≡ 2048) × (alone ≡ alone_in walks.now) × (counted ≡ true → Counts hop_size vertices.now walks.now hops.now) }
    requires passed { Passed hop_size vertices.now walks.now hops.now }
    ensures { told result ≡ vertex_refusals (tables_of hop_size vertices.now walks.now hops.now) (length vertices.now / 12) 0 }
{
    if counted {
        return judge_counted(vertices, walks, hops, hop_size);
    }
    let sure = quick::sure(vertices, walks, hops, hop_size, alone, scratch);
    if sure == vertices.len() / 12 {
        return Ok(());
    }
    note_ranges(walks, hops, hop_size, scratch);
    blocks(vertices, walks, hops, hop_size, sure / BLOCK, scratch)
}

// Refusals 2 to 6, the lowest number first.
fn first_fault(
    vertices: &[u8],
    walks: &[u8],
    hops: &[u8],
    hop_size: usize,
    counted: bool,
    scratch: &mut [u16],
) -> Result<(), Refusal>
    requires sizes { Sizes hop_size vertices.now walks.now hops.now }
    requires scratch_len { (length scratch.old ≡ 2048) × (counted ≡ true → Counts hop_size vertices.now walks.now hops.now) }
    ensures { told result ≡ refusals.contents (tables_of hop_size vertices.now walks.now hops.now) }
{
    let of_walks = table_faults(vertices, walks, WALK_SIZE, Kind::Walks, Reason::WalkOrder)?;
    let of_hops = table_faults(vertices, hops, hop_size, Kind::Hops, Reason::HopOrder)?;
    of_walks.order?;
    of_hops.order?;
    vertex_records(
        vertices,
        walks,
        hops,
        hop_size,
        of_walks.alone,
        counted,
        scratch,
    )
}

// Refusals 2 to 6 of tables whose lengths are right. The scratch may hold anything at the call.
pub fn contents(
    vertices: &[u8],
    walks: &[u8],
    hops: &[u8],
    hop_size: usize,
    scratch: &mut [u16; 2048],
) -> Result<(), Refusal>
    requires { Sizes hop_size vertices.now walks.now hops.now }
    ensures result_value { told result ≡ refusals.contents (tables_of hop_size vertices.now walks.now hops.now) }
    ensures scratch_after { scratch.new ≡ replicate 2048 0 }
{
    let refusal = first_fault(vertices, walks, hops, hop_size, false, scratch);
    clear(scratch);
    refusal
}

// The same where the departing counts are known to be right, so that they need not be counted. Two functions and no flag: only this one asks for that.
pub fn contents_counted(
    vertices: &[u8],
    walks: &[u8],
    hops: &[u8],
    hop_size: usize,
    scratch: &mut [u16; 2048],
) -> Result<(), Refusal>
    requires sizes { Sizes hop_size vertices.now walks.now hops.now }
    requires counts { Counts hop_size vertices.now walks.now hops.now }
    ensures result_value { told result ≡ refusals.contents (tables_of hop_size vertices.now walks.now hops.now) }
    ensures scratch_after { scratch.new ≡ replicate 2048 0 }
{
    let refusal = first_fault(vertices, walks, hops, hop_size, true, scratch);
    clear(scratch);
    refusal
}

// Refusals 1 to 6.
fn whole_fault(
    vertices: &[u8],
    walks: &[u8],
    hops: &[u8],
    hop_size: usize,
    scratch: &mut [u16],
) -> Result<(), Refusal>
    requires { length scratch.old ≡ 2048 }
    ensures { told result ≡ refusals.check hop_size vertices.now walks.now hops.now }
{
    lengths(vertices, walks, hops, hop_size)?;
    first_fault(vertices, walks, hops, hop_size, false, scratch)
}

// The check alone. The scratch may hold anything at the call.
pub fn check(
    vertices: &[u8],
    walks: &[u8],
    hops: &[u8],
    hop_size: usize,
    scratch: &mut [u16; 2048],
) -> Result<(), Refusal>
    ensures result_value { told result ≡ refusals.check hop_size vertices.now walks.now hops.now }
    ensures scratch_after { scratch.new ≡ replicate 2048 0 }
{
    let refusal = whole_fault(vertices, walks, hops, hop_size, scratch);
    clear(scratch);
    refusal
}
