// Patients per hour: whom the pharmacy reaches at each of several arrivals, and how often each vertex is settled.
// Promises: for any bytes the answer that the definitions allow, and every byte of the report and of the two lent buffers.
// Rests on: the refusals and the tally of `evening`, the run (`search`), which reads tables that were judged once.
// The report is the only thing kept from run to run; a settled list is read back as soon as it stands.
#![tactic(auto)]

ghost use Rattle.std.specs.Prelude.{◌≡◌, ◌+◌, ◌/◌, ◌≤◌, length, replicate};
ghost use Rattle.journeys.specs.Bytes.{clocked};
ghost use Rattle.journeys.specs.Answers.{early, Allowed};
ghost use Rattle.journeys.specs.Counting.{none};
ghost use Rattle.records.specs.Asked.{query_of};
ghost use Rattle.intake.specs.Lending.{lent};
ghost use Rattle.search.specs.Outcome.{answer_of};
ghost use Rattle.evening.specs.Asked.{evening_refusal};
ghost use Rattle.evening.specs.Tallied.{reported};
ghost use Rattle.patients.specs.EveningAnswers.{Held, EveningAllowed};
ghost use Rattle.patients.specs.Reporting.{CanReport};

use evening::{all_patients, first_fault, later, tally};
use records::{Answer, Query};
use words::{NONE, Seconds, put_word};

// The run of one arrival, which has no step limit. Where room is found its list is tallied, and its patients go to the figure at `at`.
fn one_arrival<'a>(
    vertices: &[u8],
    walks: &'a [u8],
    hops: &'a [u8],
    hop_size: usize,
    held: &mut [u8],
    settled: &mut [u8],
    scratch: &mut [u16],
    patients: &[u8],
    report: &mut [u8],
    q: Query,
    at: usize,
) -> Answer
    requires q_value { (early (lent vertices.now walks.now hops.now hop_size held.old settled.old) (query_of q)).number ≡ 0 }
    requires scratch_value { (scratch.old ≡ replicate 2048 0) × (at + 4 ≤ length report.old) × CanReport (length vertices.now / 12) patients.now report.old }
    ensures allowed { Allowed (lent vertices.now walks.now hops.now hop_size held.old settled.old) (query_of q) none (answer_of result held.new settled.new) }
    ensures parts_value { (result.parts ≡ 0) × (result.refusal ≡ 0 → report.new ≡ reported report.old patients.now settled.new result.settled at) }
    ensures scratch_after { scratch.new ≡ replicate 2048 0 }
{
    let a = search::run_judged(
        vertices, walks, hops, hop_size, held, settled, scratch, q, NONE,
    );
    if a.refusal != 0 {
        return a;
    }
    let listed = 8 * (a.settled as usize);
    let covered = tally(&settled[..listed], patients, report);
    put_word(report, at, covered);
    a
}

// The query with another arrival.
fn asked_at(q: Query, arrival: Seconds) -> Query
    ensures { query_of result ≡ record { walk = q.walk; offset = q.offset.0; arrival = clocked arrival.0; duration = q.duration; speed = q.speed } }
{
    Query { arrival, ..q }
}

// The arrivals one after the other, for input that was judged.
fn hold<'a>(
    vertices: &[u8],
    walks: &'a [u8],
    hops: &'a [u8],
    hop_size: usize,
    held: &mut [u8],
    settled: &mut [u8],
    scratch: &mut [u16],
    patients: &[u8],
    report: &mut [u8],
    q: Query,
    gap: u32,
    arrivals: u32,
) -> Answer
    requires report_value { (evening_refusal (lent vertices.now walks.now hops.now hop_size held.old settled.old) (query_of q) gap arrivals patients.now report.old).number ≡ 0 }
    requires scratch_value { scratch.old ≡ replicate 2048 0 }
    ensures held { Held (lent vertices.now walks.now hops.now hop_size held.old settled.old) (query_of q) gap arrivals patients.now report.old (answer_of result held.new settled.new) report.new }
    ensures parts_value { result.parts ≡ 0 }
{
    words::zero(report);
    let n = vertices.len() / 12;
    let mut a = Answer {
        refusal: 0,
        place: 0,
        settled: 0,
        parts: 0,
        held: 0,
        finished: 0,
    };
    for j in 0..arrivals {
        let t = asked_at(q, later(q.arrival, gap * j));
        a = one_arrival(
            vertices,
            walks,
            hops,
            hop_size,
            held,
            settled,
            scratch,
            patients,
            report,
            t,
            4 * (n + (j as usize)),
        );
        if a.refusal != 0 {
            words::zero(report);
            return a;
        }
    }
    let total = all_patients(patients, n);
    put_word(report, 4 * (n + (arrivals as usize)), total);
    a
}

// An evening of arrivals, for any bytes and any query.
pub fn evening<'a>(
    vertices: &[u8],
    walks: &'a [u8],
    hops: &'a [u8],
    hop_size: usize,
    held: &mut [u8],
    settled: &mut [u8],
    patients: &[u8],
    report: &mut [u8],
    q: Query,
    gap: u32,
    arrivals: u32,
) -> Answer
    ensures evening_allowed { EveningAllowed (lent vertices.now walks.now hops.now hop_size held.old settled.old) (query_of q) gap arrivals patients.now report.old (answer_of result held.new settled.new) report.new }
    ensures parts_value { result.parts ≡ 0 }
{
    let mut scratch = [0u16; 2048];
    if let Err(r) = first_fault(
        vertices,
        walks,
        hops,
        hop_size,
        held,
        settled,
        patients,
        report,
        q,
        gap,
        arrivals,
        &mut scratch,
    ) {
        return records::refusal(u32::from(r.reason), r.place);
    }
    hold(
        vertices,
        walks,
        hops,
        hop_size,
        held,
        settled,
        &mut scratch[..],
        patients,
        report,
        q,
        gap,
        arrivals,
    )
}
