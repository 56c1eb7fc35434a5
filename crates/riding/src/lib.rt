// The run with a boarding time, RULES 29.
// Promises: for any bytes, query, boarding time and limit the answer that the definitions allow, and every byte of the list's buffer and of the scratch.
// Rests on: `ride_intake` for the refusals of the input, `arranging` for the hops in the scratch, `ride_opening` for step 0, `ridesteps` for the steps, `ending` for a list that is larger than lent.
#![tactic(auto)]

ghost use Rattle.std.specs.Prelude.{◌≡◌, ℕ, ◌*◌, ◌<◌, ◌≤◌, length};
ghost use Rattle.journeys.specs.Query as asked;
ghost use Rattle.words.specs.Told.{number_of};
ghost use Rattle.records.specs.Asked.{query_of};
ghost use Rattle.records.specs.Columns.{records_in};
ghost use Rattle.boarding.specs.RideAnswers.{RideLent, ride_early, RideAllowed};
ghost use Rattle.marking.specs.Setting.{tables, query, mode, Judged};
ghost use Rattle.ridesteps.specs.Ended.{RidesEnd};
ghost use Rattle.riding.specs.Lending.{ride_lent, ride_answer_of};
ghost use Rattle.riding.specs.Left.{Listed, Answered};

use marking::{Asked, Pending};
use records::{Answer, Query, refusal};
use ridesteps::Ridden;
use words::Refusal;

// The hops are arranged, the seeds stand in the map, and the steps are made. No hop is pending at first, so the cursor is behind the last.
fn search_in(
    vertices: &[u8],
    walks: &[u8],
    hops: &[u8],
    a: Asked,
    map: &mut [u8],
    settled: &mut [u8],
    scratch: &mut [u8],
    limit: u32,
) -> Result<Ridden, Refusal>
    requires { Judged vertices.now walks.now hops.now a × (4 * records_in a.size hops.now ≤ length scratch.old) × (length map.old ≡ 1048576) }
    ensures { RidesEnd (tables vertices.now walks.now hops.now a) (query a) (mode hops.now a) (length settled.old) limit settled.new result }
{
    let mut marks = [0u16; 16384];
    let mut set = [0u16; 4096];
    let mut stack = [0u32; 16384];
    arranging::arrange(vertices, hops, a.size, scratch);
    let table = ride_opening::seeds(vertices, walks, hops, a, map);
    let start = Pending {
        table: table,
        height: 0,
        cursor: hops.len() / a.size,
    };
    ridesteps::steps(
        vertices,
        walks,
        hops,
        a,
        &mut set[..],
        map,
        &mut marks[..],
        &mut stack[..],
        scratch,
        settled,
        start,
        limit,
    )
}

// The map is an array of its own, with room for every vertex.
fn search(
    vertices: &[u8],
    walks: &[u8],
    hops: &[u8],
    a: Asked,
    settled: &mut [u8],
    scratch: &mut [u8],
    limit: u32,
) -> Result<Ridden, Refusal>
    requires { Judged vertices.now walks.now hops.now a × (4 * records_in a.size hops.now ≤ length scratch.old) }
    ensures { RidesEnd (tables vertices.now walks.now hops.now a) (query a) (mode hops.now a) (length settled.old) limit settled.new result }
{
    let mut map = [0u8; 1048576];
    search_in(
        vertices,
        walks,
        hops,
        a,
        &mut map[..],
        settled,
        scratch,
        limit,
    )
}

// Room was found for every step: what is not filled of the list becomes zero, and so does the scratch.
fn listed(settled: &mut [u8], scratch: &mut [u8], ridden: Ridden) -> Answer
    requires { (8 * ridden.settled ≤ length settled.old) × (ridden.settled < 4294967296) }
    ensures { Listed ridden settled.old scratch.old settled.new scratch.new result }
{
    words::zero(scratch);
    let filled = 8 * ridden.settled;
    words::zero(&mut settled[filled..]);
    Answer {
        refusal: 0,
        place: 0,
        settled: ridden.settled as u32,
        parts: 0,
        held: 0,
        finished: u32::from(ridden.finished),
    }
}

// The run for input that was judged.
fn judged(
    vertices: &[u8],
    walks: &[u8],
    hops: &[u8],
    a: Asked,
    settled: &mut [u8],
    scratch: &mut [u8],
    limit: u32,
) -> Answer
    requires { Judged vertices.now walks.now hops.now a × (4 * records_in a.size hops.now ≤ length scratch.old) }
    ensures { Answered (ride_lent vertices.now walks.now hops.now a.size settled.old scratch.old) (query a) a.boarding limit (ride_answer_of result settled.new scratch.new) }
{
    match search(vertices, walks, hops, a, settled, scratch, limit) {
        Ok(ridden) => listed(settled, scratch, ridden),
        Err(why) => ending::give_up(scratch, settled, u32::from(why.reason), why.place),
    }
}

// The answer to input that is refused: what was lent stays as it was.
// It is asked for last, behind a `let` with the run in its `else`: a test that lets a refusal pass is then refused for what the run asks.
fn refuse(fault: Refusal) -> Answer
    ensures { (b : RideLent) (Q : asked.Query) (boarding limit : ℕ) → record { number = number_of fault.reason; place = fault.place } ≡ ride_early b Q boarding → RideAllowed b Q boarding limit (ride_answer_of result b.settled b.scratch) }
{
    refusal(u32::from(fault.reason), fault.place)
}

// The run of RULES 29, for any bytes, query, boarding time and limit. It holds no table and lists no parts.
pub fn run_rides(
    vertices: &[u8],
    walks: &[u8],
    hops: &[u8],
    hop_size: usize,
    settled: &mut [u8],
    scratch: &mut [u8],
    q: Query,
    boarding: u32,
    limit: u32,
) -> Answer
    ensures { RideAllowed (ride_lent vertices.now walks.now hops.now hop_size settled.old scratch.old) (query_of q) boarding limit (ride_answer_of result settled.new scratch.new) }
{
    let Err(fault) = ride_intake::ride_fault(
        vertices, walks, hops, hop_size, settled, scratch, q, boarding,
    ) else {
        let allowed = intake::allowed(q);
        let a = Asked {
            size: hop_size,
            query: q,
            boarding: boarding,
            allowed: allowed.0,
        };
        return judged(vertices, walks, hops, a, settled, scratch, limit);
    };
    refuse(fault)
}
