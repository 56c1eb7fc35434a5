// What a region calls to have a bought list judged: refusal times 2^32 plus place, 0 if the list is right.
ghost use Rattle.std.specs.Prelude.{◌≡◌};
ghost use Rattle.journeys.specs.VendorLists.{judge_refusal};
ghost use Rattle.records.specs.Asked.{query_by};
ghost use Rattle.vendors.specs.Lending.{judge_lent};
ghost use Rattle.siltbrow.specs.Packed.{packed};

use crate::pack;
use records::Query;
use words::{Offset, Seconds};

// A list of entries of 12 bytes: vertex, distance, record. Nothing is written.
pub fn siltbrow_judge(
    vertices: &[u8],
    walks: &[u8],
    hops: &[u8],
    hop_size: u32,
    record_number: u32,
    offset: u32,
    arrival: i32,
    duration: u32,
    speed: u32,
    list: &[u8],
) -> u64
    ensures { result ≡ packed (judge_refusal (judge_lent vertices.now walks.now hops.now hop_size list.now) (query_by record_number offset arrival duration speed)) }
{
    let q = Query {
        walk: record_number,
        offset: Offset(offset),
        arrival: Seconds(arrival),
        duration: duration,
        speed: speed,
    };
    let refusal = vendors::judge(vertices, walks, hops, hop_size as usize, list, q);
    pack(refusal)
}
