// The run, RULES 8 to 12, and the courier's, RULES 27.
// Promises: for any bytes, query and limit the answer that the definitions allow, and every byte of the two lent buffers.
// Rests on: `intake` and `courier_intake` for the refusals of the input, `opening` for step 0, `steps` for those behind it, `ending` for what the buffers hold at last.
// From step to step there are the held buffer, plain numbers and the list written, which is not read back.
#![tactic(auto)]

ghost use Rattle.std.specs.Prelude.{◌≡◌, cond, ℕ, ◌/◌, ◌%◌, ◌≤◌, length, replicate};
ghost use Rattle.journeys.specs.Tables.{tables_of};
ghost use Rattle.journeys.specs.Query as query;
ghost use Rattle.journeys.specs.Answers.{Lent, early, Allowed};
ghost use Rattle.journeys.specs.CourierAnswers.{CourierLent, courier_early, CourierAllowed};
ghost use Rattle.words.specs.Told.{number_of};
ghost use Rattle.records.specs.Asked.{query_of};
ghost use Rattle.starts.specs.Sums.{sums};
ghost use Rattle.starts.specs.Notes.{with_notes};
ghost use Rattle.intake.specs.Lending.{lent};
ghost use Rattle.courier_intake.specs.Lending.{courier_lent};
ghost use Rattle.heldmap.specs.RowsOfTables.{Lists};
ghost use Rattle.steps.specs.Running.{Ends};
ghost use Rattle.search.specs.Outcome.{answer_of, AnsweredIn};
ghost use Rattle.journeys.specs.Valid.{Valid};

use records::{Answer, Query, refusal};
use steps::Ended;
use words::Refusal;

// Before step 0 the held buffer may hold anything. For the courier it is noted there where the records of some vertices begin in his list: as long as the working table leaves the notes alone, they spare him a search.
fn prepare(vertices: &[u8], held: &mut [u8], courier: bool)
    requires { (length vertices.now / 12 ≤ 65536) × ((u : ℕ) → sums vertices.now u ≤ 524288) }
    ensures { held.new ≡ cond courier (with_notes vertices.now held.old) held.old }
{
    if courier {
        starts::note(vertices, held);
    }
}

// Step 0 and the steps behind it, in either direction.
fn all_steps<'a>(
    vertices: &[u8],
    walks: &'a [u8],
    hops: &'a [u8],
    hop_size: usize,
    list: &[u8],
    held: &mut [u8],
    settled: &mut [u8],
    scratch: &mut [u16],
    q: Query,
    courier: bool,
    limit: u32,
) -> Result<Ended, Refusal>
    requires valid { Valid (tables_of hop_size vertices.now walks.now hops.now) (query_of q) × (scratch.old ≡ replicate 2048 0) × (length held.old % 16 ≡ 0) × (16 ≤ hop_size) }
    requires lists { Lists courier hop_size walks.now hops.now list.now }
    ensures ends { Ends courier (tables_of hop_size vertices.now walks.now hops.now) (length held.old) (length settled.old) (query_of q) limit held.new settled.new result }
    ensures scratch_after { scratch.new ≡ replicate 2048 0 }
{
    prepare(vertices, held, courier);
    let road = parts::read_road(walks, q);
    let allowed = intake::allowed(q);
    let row = opening::no_records(walks, hops, hop_size, q, courier, allowed);
    let start = opening::begin(vertices, walks, held, road, row)?;
    steps::steps(
        vertices, walks, hops, hop_size, list, held, settled, scratch, start, q, courier, allowed,
        limit,
    )
}

// The run for input that was judged, in either direction.
fn judged<'a>(
    vertices: &[u8],
    walks: &'a [u8],
    hops: &'a [u8],
    hop_size: usize,
    list: &[u8],
    held: &mut [u8],
    settled: &mut [u8],
    scratch: &mut [u16],
    q: Query,
    courier: bool,
    limit: u32,
) -> Answer
    requires valid { Valid (tables_of hop_size vertices.now walks.now hops.now) (query_of q) × (scratch.old ≡ replicate 2048 0) × (length held.old % 16 ≡ 0) × (16 ≤ hop_size) }
    requires lists { Lists courier hop_size walks.now hops.now list.now }
    ensures answered_in { AnsweredIn courier (tables_of hop_size vertices.now walks.now hops.now) (query_of q) limit held.old settled.old (answer_of result held.new settled.new) }
    ensures parts_value { result.parts ≡ 0 }
    ensures scratch_after { scratch.new ≡ replicate 2048 0 }
{
    match all_steps(
        vertices, walks, hops, hop_size, list, held, settled, scratch, q, courier, limit,
    ) {
        Ok(end) => ending::conclude(held, settled, end.progress, u32::from(end.finished)),
        Err(why) => ending::give_up(held, settled, u32::from(why.reason), why.place),
    }
}

// The answer to input that is refused: what was lent stays as it was.
// It is asked for last, behind a `let` with the run in its `else`: a test that lets a refusal pass is then refused for what the run asks.
fn refuse(fault: Refusal) -> Answer
    ensures ordinary { (b : Lent) (Q : query.Query) (limit : ℕ) → record { number = number_of fault.reason; place = fault.place } ≡ early b Q → Allowed b Q limit (answer_of result b.held b.settled) }
    ensures courier { (b : CourierLent) (Q : query.Query) (limit : ℕ) → record { number = number_of fault.reason; place = fault.place } ≡ courier_early b Q → CourierAllowed b Q limit (answer_of result b.lent.held b.lent.settled) }
    ensures parts_value { result.parts ≡ 0 }
{
    refusal(u32::from(fault.reason), fault.place)
}

// The run behind refusals 1 to 7: whoever makes several runs over the same tables judges them once. The scratch is lent by the caller, and is zero again
// afterwards. No list is read, so any bytes are lent for one.
pub fn run_judged<'a>(
    vertices: &[u8],
    walks: &'a [u8],
    hops: &'a [u8],
    hop_size: usize,
    held: &mut [u8],
    settled: &mut [u8],
    scratch: &mut [u16],
    q: Query,
    limit: u32,
) -> Answer
    requires q_value { (early (lent vertices.now walks.now hops.now hop_size held.old settled.old) (query_of q)).number ≡ 0 }
    requires scratch_value { scratch.old ≡ replicate 2048 0 }
    ensures allowed { Allowed (lent vertices.now walks.now hops.now hop_size held.old settled.old) (query_of q) limit (answer_of result held.new settled.new) }
    ensures parts_value { result.parts ≡ 0 }
    ensures scratch_after { scratch.new ≡ replicate 2048 0 }
{
    judged(
        vertices, walks, hops, hop_size, vertices, held, settled, scratch, q, false, limit,
    )
}

// The run of RULES 11 and 12, for any bytes, query and limit. It lists no parts.
pub fn run<'a>(
    vertices: &[u8],
    walks: &'a [u8],
    hops: &'a [u8],
    hop_size: usize,
    held: &mut [u8],
    settled: &mut [u8],
    q: Query,
    limit: u32,
) -> Answer
    ensures allowed { Allowed (lent vertices.now walks.now hops.now hop_size held.old settled.old) (query_of q) limit (answer_of result held.new settled.new) }
    ensures parts_value { result.parts ≡ 0 }
{
    let mut scratch = [0u16; 2048];
    let Err(fault) = intake::input_fault(
        vertices,
        walks,
        hops,
        hop_size,
        held,
        settled,
        q,
        &mut scratch,
    ) else {
        return run_judged(
            vertices,
            walks,
            hops,
            hop_size,
            held,
            settled,
            &mut scratch[..],
            q,
            limit,
        );
    };
    refuse(fault)
}

// The courier's run of RULES 27, for any bytes, query and limit. It lists no parts.
pub fn courier<'a>(
    vertices: &[u8],
    walks: &'a [u8],
    hops: &'a [u8],
    hop_size: usize,
    list: &[u8],
    held: &mut [u8],
    settled: &mut [u8],
    q: Query,
    limit: u32,
) -> Answer
    ensures courier_allowed { CourierAllowed (courier_lent vertices.now walks.now hops.now hop_size list.now held.old settled.old) (query_of q) limit (answer_of result held.new settled.new) }
    ensures parts_value { result.parts ≡ 0 }
{
    let mut scratch = [0u16; 2048];
    let Err(bad) = courier_intake::courier_fault(
        vertices,
        walks,
        hops,
        hop_size,
        list,
        held,
        settled,
        q,
        &mut scratch,
    ) else {
        return judged(
            vertices,
            walks,
            hops,
            hop_size,
            list,
            held,
            settled,
            &mut scratch[..],
            q,
            true,
            limit,
        );
    };
    refuse(bad)
}
