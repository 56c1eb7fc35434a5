// A bought list of vertices, distances and records, judged against the tables and a query.
// Promises: for any bytes and query the refusal of the definitions, or that the list is right; nothing is written.
// Rests on: the check (`audit`), the query's test (`intake`), the seeds of `opening`, refusals 25 to 28 of `reasons`.
#![tactic(auto)]

ghost use Rattle.std.specs.Prelude.{◌≡◌, ◌/◌, ◌≤◌, ◌<◌, length};
ghost use Rattle.journeys.specs.Tables.{tables_of};
ghost use Rattle.journeys.specs.Valid.{Valid};
ghost use Rattle.journeys.specs.VendorLists.{vendor_refusal, judge_refusal};
ghost use Rattle.words.specs.Told.{told};
ghost use Rattle.records.specs.Asked.{query_of};
ghost use Rattle.opening.specs.Seeds.{from_ticks_of, to_ticks_of};
ghost use Rattle.vendors.specs.Ends.{back_of, seeds_of};
ghost use Rattle.vendors.specs.Lending.{judge_lent};

use parts::Road;
use passing::Arriving;
use reasons::Seeds;
use records::Query;
use words::{NONE, Reason, Refusal, Ticks, refused};

// What it takes from "to" to the query place, where it is a seed.
fn back_ticks(road: Road) -> Ticks
    requires { to_ticks_of road ≤ 112000 }
    ensures { result.0 ≡ back_of road }
{
    if opening::to_is_seed(road) {
        return opening::to_ticks(road);
    }
    Ticks(NONE)
}

fn read_seeds(walks: &[u8], road: Road) -> Seeds
    requires { (road.walk < length walks.now / 16) × (from_ticks_of road ≤ 112000) × (to_ticks_of road ≤ 112000) }
    ensures { result ≡ seeds_of walks.now road }
{
    let w = records::walk_at(walks, road.walk as usize);
    let near = opening::from_ticks(road);
    let back = back_ticks(road);
    Seeds {
        from: w.from,
        near: near,
        to: w.to,
        back: back,
    }
}

// 25 to 28 over good tables and a good query: the records of both tables are one row.
fn vendor_fault(
    vertices: &[u8],
    walks: &[u8],
    hops: &[u8],
    hop_size: usize,
    list: &[u8],
    q: Query,
) -> Result<(), Refusal>
    requires { Valid (tables_of hop_size vertices.now walks.now hops.now) (query_of q) × (16 ≤ hop_size) }
    ensures { told result ≡ vendor_refusal (tables_of hop_size vertices.now walks.now hops.now) (query_of q) list.now }
{
    let arrival = q.arrival;
    let allowed = intake::allowed(q);
    let all = Arriving {
        walks: walks.len() / 16,
        hops: hops.len() / hop_size,
        size: hop_size,
        distance: Ticks(0),
        arrival: arrival,
        speed: q.speed,
        allowed: allowed,
    };
    let road = parts::read_road(walks, q);
    let ends = read_seeds(walks, road);
    reasons::list_fault(walks, hops, all, ends, list, vertices.len() / 12)
}

// The judgement, for any bytes and query.
pub fn judge(
    vertices: &[u8],
    walks: &[u8],
    hops: &[u8],
    hop_size: usize,
    list: &[u8],
    q: Query,
) -> Result<(), Refusal>
    ensures { told result ≡ judge_refusal (judge_lent vertices.now walks.now hops.now hop_size list.now) (query_of q) }
{
    audit::lengths(vertices, walks, hops, hop_size)?;
    if list.len() % 12 != 0 {
        return refused(Reason::Length, 4);
    }
    let mut scratch = [0u16; 2048];
    audit::contents(vertices, walks, hops, hop_size, &mut scratch)?;
    intake::query_fault(walks, q)?;
    vendor_fault(vertices, walks, hops, hop_size, list, q)
}
