// What the map server in C calls for the covered parts of walks, behind a run.
ghost use Rattle.std.specs.Prelude.{◌≡◌, ◌++◌, length};
ghost use Rattle.journeys.specs.Bytes.{word};
ghost use Rattle.records.specs.Asked.{query_by};
ghost use Rattle.words.specs.Told.{told};
ghost use Rattle.covering.specs.Lending.{parts_lent, count_in};
ghost use Rattle.siltbrow.specs.PartsRan.{PartsRan};

use records::Query;
use words::{Offset, Refusal, Seconds};

// The three numbers of an answer, 4 bytes each.
pub fn put_three(out: &mut [u8], a: Result<u32, Refusal>)
    requires { length out.old ≡ 12 }
    ensures { out.new ≡ word (told a).number ++ word (told a).place ++ word (count_in a) }
{
    match a {
        Ok(n) => calls::put_three(out, 0, 0, n),
        Err(r) => calls::put_three(out, u32::from(r.reason), r.place, 0),
    }
}

// The parts of a settled list. The answer slice gets its three numbers; 1 where it is not 12 bytes, and then nothing is written.
pub fn siltbrow_parts(
    vertices: &[u8],
    walks: &[u8],
    hops: &[u8],
    hop_size: u32,
    record_number: u32,
    offset: u32,
    arrival: i32,
    duration: u32,
    speed: u32,
    list: &[u8],
    parts: &mut [u8],
    answer: &mut [u8],
) -> u32
    ensures { PartsRan (parts_lent vertices.now walks.now hops.now hop_size list.now parts.old) (query_by record_number offset arrival duration speed) answer.old parts.new answer.new result }
{
    if answer.len() != 12 {
        return 1;
    }
    let q = Query {
        walk: record_number,
        offset: Offset(offset),
        arrival: Seconds(arrival),
        duration: duration,
        speed: speed,
    };
    let a = covering::parts(vertices, walks, hops, hop_size as usize, list, parts, q);
    put_three(answer, a);
    0
}
