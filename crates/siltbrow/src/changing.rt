// What the map server calls for passengers who need time to change: the run with a boarding time.
ghost use Rattle.records.specs.Asked.{query_by};
ghost use Rattle.riding.specs.Lending.{ride_lent};
ghost use Rattle.ride_demands.specs.RideRan.{RideRan};

use records::Query;
use words::{Offset, Seconds};

// The answer slice gets its six numbers, the counts of parts and of held records being 0; 1 where it is not 24 bytes, and then nothing is written.
pub fn siltbrow_run_boarding(
    vertices: &[u8],
    walks: &[u8],
    hops: &[u8],
    hop_size: u32,
    record_number: u32,
    offset: u32,
    arrival: i32,
    duration: u32,
    speed: u32,
    boarding: u32,
    limit: u32,
    settled: &mut [u8],
    scratch: &mut [u8],
    answer: &mut [u8],
) -> u32
    ensures { RideRan (ride_lent vertices.now walks.now hops.now hop_size settled.old scratch.old) (query_by record_number offset arrival duration speed) boarding limit answer.old settled.new scratch.new answer.new result }
{
    if answer.len() != 24 {
        return 1;
    }
    let q = Query {
        walk: record_number,
        offset: Offset(offset),
        arrival: Seconds(arrival),
        duration: duration,
        speed: speed,
    };
    let a = riding::run_rides(
        vertices,
        walks,
        hops,
        hop_size as usize,
        settled,
        scratch,
        q,
        boarding,
        limit,
    );
    calls::put_answer(answer, a);
    0
}
