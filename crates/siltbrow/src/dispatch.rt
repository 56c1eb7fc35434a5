// What dispatch calls for the courier: the list of records by "from" is made, and kept beside the tables; the courier's run; the parts of a courier's settled list.
ghost use Rattle.std.specs.Prelude.{◌≡◌};
ghost use Rattle.journeys.specs.CourierMaking.{making_refusal, made};
ghost use Rattle.records.specs.Asked.{query_by};
ghost use Rattle.courier_intake.specs.Lending.{courier_lent};
ghost use Rattle.covering.specs.Lending.{courier_parts_lent};
ghost use Rattle.siltbrow.specs.Packed.{packed};
ghost use Rattle.siltbrow.specs.PartsRan.{CourierPartsRan};
ghost use Rattle.siltbrow.specs.Ran.{CourierRan};

use crate::pack;
use crate::streets::put_three;
use records::Query;
use words::{Offset, Seconds};

// The list, or refusal times 2^32 plus place, and then the list is as it was.
pub fn siltbrow_courier_list(
    vertices: &[u8],
    walks: &[u8],
    hops: &[u8],
    hop_size: u32,
    list: &mut [u8],
) -> u64
    ensures value { result ≡ packed (making_refusal hop_size vertices.now walks.now hops.now list.old) }
    ensures list_after { list.new ≡ (made hop_size vertices.now walks.now hops.now list.old).list }
{
    let mut scratch = [0u16; 2048];
    let refusal = making::courier_list(
        vertices,
        walks,
        hops,
        hop_size as usize,
        list,
        &mut scratch,
    );
    pack(refusal)
}

// The courier's parts of a settled list. The answer slice gets its three numbers; 1 where it is not 12 bytes, and then nothing is written.
pub fn siltbrow_courier_parts(
    vertices: &[u8],
    walks: &[u8],
    hops: &[u8],
    hop_size: u32,
    records: &[u8],
    record_number: u32,
    offset: u32,
    departure: i32,
    duration: u32,
    speed: u32,
    list: &[u8],
    parts: &mut [u8],
    answer: &mut [u8],
) -> u32
    ensures { CourierPartsRan (courier_parts_lent vertices.now walks.now hops.now hop_size records.now list.now parts.old) (query_by record_number offset departure duration speed) answer.old parts.new answer.new result }
{
    if answer.len() != 12 {
        return 1;
    }
    let q = Query {
        walk: record_number,
        offset: Offset(offset),
        arrival: Seconds(departure),
        duration: duration,
        speed: speed,
    };
    let a = covering::courier_parts(
        vertices,
        walks,
        hops,
        hop_size as usize,
        records,
        list,
        parts,
        q,
    );
    put_three(answer, a);
    0
}

// The courier's run. The answer slice gets its six numbers, the count of parts being 0; 1 where it is not 24 bytes, and then nothing is written.
pub fn siltbrow_courier<'a>(
    vertices: &[u8],
    walks: &'a [u8],
    hops: &'a [u8],
    hop_size: u32,
    list: &[u8],
    record_number: u32,
    offset: u32,
    departure: i32,
    duration: u32,
    speed: u32,
    limit: u32,
    held: &mut [u8],
    settled: &mut [u8],
    answer: &mut [u8],
) -> u32
    ensures { CourierRan (courier_lent vertices.now walks.now hops.now hop_size list.now held.old settled.old) (query_by record_number offset departure duration speed) limit answer.old held.new settled.new answer.new result }
{
    if answer.len() != 24 {
        return 1;
    }
    let q = Query {
        walk: record_number,
        offset: Offset(offset),
        arrival: Seconds(departure),
        duration: duration,
        speed: speed,
    };
    let a = search::courier(
        vertices,
        walks,
        hops,
        hop_size as usize,
        list,
        held,
        settled,
        q,
        limit,
    );
    calls::put_answer(answer, a);
    0
}
