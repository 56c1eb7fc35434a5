// What the map server in C calls, as functions: include/siltbrow.h declares them, and `siltbrow_c` exports each with its clauses.
// Promises: the numbers of RULES 13, for every byte string of every length; the tables are only read.
// Rests on: `audit`, whose scratch it lends, `search`, which has the run, `queries`, which has many runs, `patients`, which has an evening of them, `covering`, which has the parts in either direction, `making`, which has the courier's list, `riding`, which has the run with a boarding time, `frame`, `moves`, `vendors`, and `timetable`.
#![tactic(auto)]

mod asking;
mod changing;
mod dispatch;
mod framing;
mod hourly;
mod judging;
mod moving;
mod streets;
mod timetabling;

ghost use Rattle.std.specs.Prelude.{◌≡◌};
ghost use Rattle.journeys.specs.Refusals.{check};
ghost use Rattle.words.specs.Told.{told};
ghost use Rattle.records.specs.Asked.{query_by};
ghost use Rattle.intake.specs.Lending.{lent};
ghost use Rattle.siltbrow.specs.Packed.{packed};
ghost use Rattle.siltbrow.specs.Ran.{Ran};

pub use asking::siltbrow_runs;
pub use changing::siltbrow_run_boarding;
pub use dispatch::{siltbrow_courier, siltbrow_courier_list, siltbrow_courier_parts};
pub use framing::siltbrow_frame;
pub use hourly::siltbrow_patients;
pub use judging::siltbrow_judge;
pub use moving::{siltbrow_hops_backward, siltbrow_hops_forward};
use records::Query;
pub use streets::siltbrow_parts;
pub use timetabling::siltbrow_timetable;
use words::{Offset, Refusal, Seconds};

// Refusal times 2^32 plus place.
fn pack(r: Result<(), Refusal>) -> u64
    ensures { result ≡ packed (told r) }
{
    match r {
        Ok(()) => 0,
        Err(e) => (u32::from(e.reason) as u64) * 4294967296 + (e.place as u64),
    }
}

// The check alone, refusal times 2^32 plus place. Whoever lends hops names their size, 16 or 20 bytes.
pub fn siltbrow_check(vertices: &[u8], walks: &[u8], hops: &[u8], hop_size: u32) -> u64
    ensures { result ≡ packed (check hop_size vertices.now walks.now hops.now) }
{
    let mut scratch = [0u16; 2048];
    let refusal = audit::check(vertices, walks, hops, hop_size as usize, &mut scratch);
    pack(refusal)
}

// The run. The answer slice gets its six numbers, the count of parts being 0; 1 where it is not 24 bytes, and then nothing is written.
pub fn siltbrow_run<'a>(
    vertices: &[u8],
    walks: &'a [u8],
    hops: &'a [u8],
    hop_size: u32,
    record_number: u32,
    offset: u32,
    arrival: i32,
    duration: u32,
    speed: u32,
    limit: u32,
    held: &mut [u8],
    settled: &mut [u8],
    answer: &mut [u8],
) -> u32
    ensures { Ran (lent vertices.now walks.now hops.now hop_size held.old settled.old) (query_by record_number offset arrival duration speed) limit answer.old held.new settled.new answer.new result }
{
    if answer.len() != 24 {
        return 1;
    }
    let q = Query {
        walk: record_number,
        offset: Offset(offset),
        arrival: Seconds(arrival),
        duration: duration,
        speed: speed,
    };
    let a = search::run(
        vertices,
        walks,
        hops,
        hop_size as usize,
        held,
        settled,
        q,
        limit,
    );
    calls::put_answer(answer, a);
    0
}
