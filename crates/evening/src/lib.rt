// The leaves of an evening of arrivals: its refusals in their order, the tally of one settled list, the sums of patients.
// Promises: the refusal and the figures that the definitions say, and every byte of the report.
// Rests on: the tests of `audit` and `intake`, words and refusals (`words`).
#![tactic(auto)]

ghost use Rattle.std.specs.Prelude.{◌≡◌, List, ℕ, ◌+◌, ◌*◌, ◌/◌, ◌<◌, ◌≤◌, length, replicate};
ghost use Rattle.journeys.specs.Bytes.{be32, clocked, midnight};
ghost use Rattle.journeys.specs.Lists.{vertex_in};
ghost use Rattle.journeys.specs.Refusals.{first_bad};
ghost use Rattle.words.specs.Told.{told};
ghost use Rattle.records.specs.Asked.{query_of};
ghost use Rattle.intake.specs.Lending.{lent};
ghost use Rattle.evening.specs.Patients.{patients_of, all_patients};
ghost use Rattle.evening.specs.Asked.{patients_ok, report_lengths, evening_ok, evening_lengths, evening_refusal};
ghost use Rattle.evening.specs.Tallied.{tallied, listed_patients};

use records::Query;
use words::{Reason, Refusal, Seconds, put_word, refused, word_at};

// The count of a vertex.
fn patients_of(patients: &[u8], v: usize) -> u32
    requires { 4 * v + 4 ≤ length patients.now }
    ensures { result ≡ patients_of patients.now v }
{
    word_at(patients, 4 * v)
}

// Refusal 1, places 6 and 7. The numbers are 64 bits wide, so that no number of arrivals wraps.
fn report_fault(
    vertices: &[u8],
    patients: &[u8],
    arrivals: u32,
    report: &[u8],
) -> Result<(), Refusal>
    ensures { told result ≡ report_lengths vertices.now patients.now arrivals report.now }
{
    let n = vertices.len() / 12;
    if patients.len() != 4 * n {
        return refused(Reason::Length, 6);
    }
    if report.len() != 4 * (n + (arrivals as usize) + 1) {
        return refused(Reason::Length, 7);
    }
    Ok(())
}

// Refusal 19: the first of n vertices with too many patients.
fn patients_fault(patients: &[u8], n: usize) -> Result<(), Refusal>
    requires { (4 * n ≤ length patients.now) × (n ≤ 65536) }
    ensures { told result ≡ first_bad 19 (patients_ok patients.now) n }
{
    for v in 0..n {
        if 65535 < patients_of(patients, v) {
            return refused(Reason::Patients, v as u32);
        }
    }
    Ok(())
}

// A moment that lies so many seconds behind a good arrival.
pub fn later(t: Seconds, seconds: u32) -> Seconds
    requires { (midnight ≤ clocked t.0) × (clocked t.0 + seconds ≤ midnight + 600000) }
    ensures { clocked result.0 ≡ clocked t.0 + seconds }
{
    Seconds(((t.0 as u32) + seconds) as i32)
}

// Refusal 20: the gap, the number of arrivals, the last arrival.
fn evening_fault(q: Query, gap: u32, arrivals: u32) -> Result<(), Refusal>
    requires { (midnight ≤ (query_of q).arrival) × ((query_of q).arrival ≤ midnight + 172800) }
    ensures { told result ≡ evening_ok (query_of q) gap arrivals }
{
    if !((1 <= gap) & (gap <= 3600)) {
        return refused(Reason::Evening, 0);
    }
    if !((1 <= arrivals) & (arrivals <= 96)) {
        return refused(Reason::Evening, 1);
    }
    let last = later(q.arrival, gap * (arrivals - 1));
    if !words::not_after(last, Seconds(172800)) {
        return refused(Reason::Evening, 2);
    }
    Ok(())
}

// One more at the vertex of each entry of a settled list; answers the patients of all of them.
pub fn tally(list: &[u8], patients: &[u8], report: &mut [u8]) -> u32
    requires list_len_bound { (length list.now / 8 ≤ 65536) × ((i : ℕ) → i < length list.now / 8 → (4 * vertex_in 8 list.now i + 4 ≤ length patients.now) × (4 * vertex_in 8 list.now i + 4 ≤ length report.old) × (patients_of patients.now (vertex_in 8 list.now i) ≤ 65535)) }
    requires by_index { (i : ℕ) → i < length list.now / 8 → be32 (tallied report.old list.now i) (4 * vertex_in 8 list.now i) < 4294967295 }
    ensures value { result ≡ listed_patients patients.now list.now (length list.now / 8) }
    ensures report_after { report.new ≡ tallied report.old list.now (length list.now / 8) }
{
    let n = list.len() / 8;
    let mut sum = 0;
    for i in 0..n {
        let v = word_at(list, 8 * i) as usize;
        let times = word_at(report, 4 * v);
        put_word(report, 4 * v, times + 1);
        sum += patients_of(patients, v);
    }
    sum
}

// The patients of all n vertices.
pub fn all_patients(patients: &[u8], n: usize) -> u32
    requires { (4 * n ≤ length patients.now) × (n ≤ 65536) × ((v : ℕ) → v < n → patients_of patients.now v ≤ 65535) }
    ensures { result ≡ all_patients patients.now n }
{
    let mut sum = 0;
    for v in 0..n {
        sum += patients_of(patients, v);
    }
    sum
}

// Refusal 1: every length.
fn lengths_fault(
    vertices: &[u8],
    walks: &[u8],
    hops: &[u8],
    hop_size: usize,
    held: &[u8],
    settled: &[u8],
    patients: &[u8],
    arrivals: u32,
    report: &[u8],
) -> Result<(), Refusal>
    ensures { told result ≡ evening_lengths (lent vertices.now walks.now hops.now hop_size held.now settled.now) arrivals patients.now report.now }
{
    audit::lengths(vertices, walks, hops, hop_size)?;
    intake::buffer_fault(held, settled)?;
    report_fault(vertices, patients, arrivals, report)
}

// The first reason of 1 to 7, 19 and 20.
fn whole_fault(
    vertices: &[u8],
    walks: &[u8],
    hops: &[u8],
    hop_size: usize,
    held: &[u8],
    settled: &[u8],
    patients: &[u8],
    report: &[u8],
    q: Query,
    gap: u32,
    arrivals: u32,
    scratch: &mut [u16; 2048],
) -> Result<(), Refusal>
    ensures { told result ≡ evening_refusal (lent vertices.now walks.now hops.now hop_size held.now settled.now) (query_of q) gap arrivals patients.now report.now }
{
    lengths_fault(
        vertices, walks, hops, hop_size, held, settled, patients, arrivals, report,
    )?;
    audit::contents(vertices, walks, hops, hop_size, scratch)?;
    intake::query_fault(walks, q)?;
    patients_fault(patients, vertices.len() / 12)?;
    evening_fault(q, gap, arrivals)
}

// The same, and the scratch is cleared behind it. It may hold anything at the call.
pub fn first_fault(
    vertices: &[u8],
    walks: &[u8],
    hops: &[u8],
    hop_size: usize,
    held: &[u8],
    settled: &[u8],
    patients: &[u8],
    report: &[u8],
    q: Query,
    gap: u32,
    arrivals: u32,
    scratch: &mut [u16; 2048],
) -> Result<(), Refusal>
    ensures result_value { told result ≡ evening_refusal (lent vertices.now walks.now hops.now hop_size held.now settled.now) (query_of q) gap arrivals patients.now report.now }
    ensures scratch_after { scratch.new ≡ replicate 2048 0 }
{
    let fault = whole_fault(
        vertices, walks, hops, hop_size, held, settled, patients, report, q, gap, arrivals, scratch,
    );
    departing::clear(scratch);
    fault
}
