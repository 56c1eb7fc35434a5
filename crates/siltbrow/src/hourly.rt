// What a manager's report calls: patients per hour.
ghost use Rattle.records.specs.Asked.{query_by};
ghost use Rattle.intake.specs.Lending.{lent};
ghost use Rattle.siltbrow.specs.HourlyCall.{HourlyRan};

use records::Query;
use words::{Offset, Seconds};

// Several arrivals, the first of them in the query. The answer slice gets the six numbers of the last run; 1 where it is not 24 bytes, and then nothing
// is written.
pub fn siltbrow_patients<'a>(
    vertices: &[u8],
    walks: &'a [u8],
    hops: &'a [u8],
    hop_size: u32,
    record_number: u32,
    offset: u32,
    arrival: i32,
    duration: u32,
    speed: u32,
    gap: u32,
    arrivals: u32,
    patients: &[u8],
    held: &mut [u8],
    settled: &mut [u8],
    report: &mut [u8],
    answer: &mut [u8],
) -> u32
    ensures { HourlyRan (lent vertices.now walks.now hops.now hop_size held.old settled.old) (query_by record_number offset arrival duration speed) gap arrivals patients.now report.old answer.old held.new settled.new report.new answer.new result }
{
    if answer.len() != 24 {
        return 1;
    }
    let q = Query {
        walk: record_number,
        offset: Offset(offset),
        arrival: Seconds(arrival),
        duration: duration,
        speed: speed,
    };
    let a = patients::evening(
        vertices,
        walks,
        hops,
        hop_size as usize,
        held,
        settled,
        patients,
        report,
        q,
        gap,
        arrivals,
    );
    calls::put_answer(answer, a);
    0
}
