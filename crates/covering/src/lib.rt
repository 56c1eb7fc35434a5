// The parts operation, and the courier's: the covered parts of walk records, made from a settled list in any order.
// Promises: for any bytes and query the answer of the definitions and every byte of the part buffer; the lists are only read.
// Rests on: the check (`audit`), the query's test (`intake`), the courier's (`courier_intake`), the judge of lists (`lists`), the parts of one vertex (`parts`), where its records stand in the list by "from" (`stretches`).
#![tactic(auto)]

ghost use Rattle.std.specs.Prelude.{◌≡◌, List, ℕ, Option, Ok, MatchResult, ◌+◌, ◌*◌, ◌/◌, ◌<◌, ◌≤◌, length, take, replicate};
ghost use Rattle.journeys.specs.Bytes.{filled, cleared};
ghost use Rattle.journeys.specs.Lists.{distance_at, list_refusal};
ghost use Rattle.journeys.specs.Parts.{Part};
ghost use Rattle.journeys.specs.PartAnswers.{list_lengths, parts_early, parts_answer};
ghost use Rattle.journeys.specs.CourierPartAnswers.{courier_parts_early, courier_parts_answer};
ghost use Rattle.words.specs.Told.{told};
ghost use Rattle.records.specs.Asked.{query_of};
ghost use Rattle.parts.specs.Listing.{ListedIs};
ghost use Rattle.covering.specs.Covering.{entry_on, entry_ahead, listed_in, Sound, Leaving, CoveredIs, MayBegin, FindsRoom, Begins, MayList, KeepsRoom, Lists};
ghost use Rattle.covering.specs.Lending.{parts_lent, courier_parts_lent, count_in, parts_answer_of};

use parts::Road;
use records::{Kind, Query};
use words::{Reason, Refusal, Ticks, refused, word_at};

// The parts at the vertex of entry i, behind `count` others.
fn list_entry(
    parts: &mut [u8],
    count: usize,
    vertices: &[u8],
    walks: &[u8],
    list: &[u8],
    i: usize,
    road: Road,
    allowed: Ticks,
) -> Option<usize>
    requires { (count ≤ length parts.old / 12) × (i < length list.now / 8) × (length walks.now / 16 ≤ 262144) × Sound vertices.now walks.now list.now allowed.0 i × (road.speed ≤ 100) }
    ensures { ListedIs count (entry_on vertices.now walks.now list.now road allowed.0 i) parts.old parts.new result }
{
    let vertex = word_at(list, 8 * i) as usize;
    let left = Ticks(allowed.0 - word_at(list, 8 * i + 4));
    let first = records::first_arriving(vertices, Kind::Walks, vertex) as u32;
    let end = records::end_arriving(vertices, Kind::Walks, vertex, walks.len() / 16) as u32;
    parts::list_arriving(parts, count, walks, first, end, road, left)
}

// The courier's parts at the vertex of entry i, behind `count` others: of the walks that leave it.
fn list_entry_ahead(
    parts: &mut [u8],
    count: usize,
    vertices: &[u8],
    walks: &[u8],
    hops: &[u8],
    hop_size: usize,
    records: &[u8],
    list: &[u8],
    i: usize,
    road: Road,
    allowed: Ticks,
) -> Option<usize>
    requires { (count ≤ length parts.old / 12) × (i < length list.now / 8) × (distance_at 8 list.now i ≤ allowed.0) × Leaving hop_size vertices.now walks.now hops.now records.now }
    ensures { ListedIs count (entry_ahead hop_size walks.now hops.now records.now list.now road allowed.0 i) parts.old parts.new result }
{
    let vertex = word_at(list, 8 * i);
    let left = Ticks(allowed.0 - word_at(list, 8 * i + 4));
    let s = stretches::walks_of(vertices, walks, hops, hop_size, records, vertex);
    let first = s.first;
    let end = first + s.many;
    parts::list_departing(parts, count, walks, records, first, end, road, left)
}

// The parts of step 0, as `step_0` lists them, and behind them those of each of n entries, as `entry` does: how many there are then, or which entry, counted from 1,
// has no room for its parts, 0 where those of step 0 have none.
fn cover<S: FnOnce(&mut [u8]) -> Option<usize>, F: Fn(&mut [u8], usize, usize) -> Option<usize>>(
    parts: &mut [u8],
    n: usize,
    step_0: S,
    entry: F,
) -> Result<usize, usize>
    requires begins { MayBegin (S.pre step_0) }
    requires room { FindsRoom (S.post step_0) }
    requires callable { MayList n (F.pre entry) }
    requires keeps { KeepsRoom n (F.post entry) }
    ensures { (step : List Part) (f : ℕ → List Part) → Begins step (S.post step_0) → Lists f n (F.post entry) → CoveredIs (listed_in step f) n parts.old parts.new result }
{
    let Some(known) = step_0(parts) else {
        return Err(0);
    };
    let mut count = known;
    for i in 0..n {
        let Some(more) = entry(parts, count, i) else {
            return Err(i + 1);
        };
        count = more;
    }
    Ok(count)
}

// Refusal 1, places 4 and 5: the list and the part buffer are whole numbers of records.
fn lengths(list: &[u8], parts: &[u8]) -> Result<(), Refusal>
    ensures { told result ≡ list_lengths list.now parts.now }
{
    if list.len() % 8 != 0 {
        return refused(Reason::Length, 4);
    }
    if parts.len() % 12 != 0 {
        return refused(Reason::Length, 5);
    }
    Ok(())
}

// Refusal 21: the first entry of the list that is bad.
fn list_fault(
    list: &[u8],
    vertices: usize,
    allowed: Ticks,
    scratch: &mut [u16],
) -> Result<(), Refusal>
    requires { (vertices ≤ 65536) × (scratch.old ≡ replicate 2048 0) }
    ensures { told result ≡ list_refusal 8 vertices allowed.0 list.now }
{
    match lists::judge(list, 8, vertices as u32, allowed.0, scratch) {
        Ok(()) => Ok(()),
        Err(i) => refused(Reason::Entry, i),
    }
}

// Refusals 1 to 7 and 21 in their order: lengths, the contents of the tables, the query, the list.
fn fault(
    vertices: &[u8],
    walks: &[u8],
    hops: &[u8],
    hop_size: usize,
    list: &[u8],
    parts: &[u8],
    q: Query,
    scratch: &mut [u16; 2048],
) -> Result<(), Refusal>
    ensures { told result ≡ parts_early (parts_lent vertices.now walks.now hops.now hop_size list.now parts.now) (query_of q) }
{
    audit::lengths(vertices, walks, hops, hop_size)?;
    lengths(list, parts)?;
    audit::contents(vertices, walks, hops, hop_size, scratch)?;
    intake::query_fault(walks, q)?;
    list_fault(
        list,
        vertices.len() / 12,
        intake::allowed(q),
        &mut scratch[..],
    )
}

// All parts are listed: what is not filled of the buffer becomes zero.
fn fill(parts: &mut [u8], count: usize) -> u32
    requires { (12 * count ≤ length parts.old) × (count < 4294967296) }
    ensures { (result ≡ count) × (parts.new ≡ filled parts.old (take (12 * count) parts.old)) }
{
    let end = 12 * count;
    words::zero(&mut parts[end..]);
    count as u32
}

// Refusal 10: the part buffer becomes zero.
fn give_up(parts: &mut [u8], entry: usize) -> Result<u32, Refusal>
    requires { entry < 4294967296 }
    ensures { (told result ≡ record { number = 10; place = entry }) × (count_in result ≡ 0) × (parts.new ≡ cleared parts.old) }
{
    words::zero(parts);
    Err(Refusal {
        reason: Reason::PartRoom,
        place: entry as u32,
    })
}

// The answer where so many parts are listed, or an entry has no room for its own.
fn finish(parts: &mut [u8], covered: Result<usize, usize>) -> Result<u32, Refusal>
    requires { MatchResult covered (λ c. (12 * c ≤ length parts.old) × (c < 4294967296)) (λ k. k < 4294967296) }
    ensures { MatchResult covered (λ c. parts_answer_of result parts.new ≡ parts_answer_of (Ok c) (filled parts.old (take (12 * c) parts.old))) (λ k. parts_answer_of result parts.new ≡ record { refusal = 10; place = k; part_count = 0; parts = cleared parts.old }) }
{
    match covered {
        Ok(count) => Ok(fill(parts, count)),
        Err(entry) => give_up(parts, entry),
    }
}

// The parts of step 0 and of each entry of the list, for any bytes and query.
pub fn parts(
    vertices: &[u8],
    walks: &[u8],
    hops: &[u8],
    hop_size: usize,
    list: &[u8],
    parts: &mut [u8],
    q: Query,
) -> Result<u32, Refusal>
    ensures { parts_answer_of result parts.new ≡ parts_answer (parts_lent vertices.now walks.now hops.now hop_size list.now parts.old) (query_of q) }
{
    let mut scratch = [0u16; 2048];
    fault(
        vertices,
        walks,
        hops,
        hop_size,
        list,
        parts,
        q,
        &mut scratch,
    )?;
    let road = parts::read_road(walks, q);
    let allowed = intake::allowed(q);
    let covered = cover(
        parts,
        list.len() / 8,
        |buffer| parts::list_first(buffer, road, allowed),
        |buffer, count, i| list_entry(buffer, count, vertices, walks, list, i, road, allowed),
    );
    finish(parts, covered)
}

// Refusals 1, with the list by "from" at place 6, 2 to 6, 22, 7 and 21 in their order.
fn courier_fault(
    vertices: &[u8],
    walks: &[u8],
    hops: &[u8],
    hop_size: usize,
    records: &[u8],
    list: &[u8],
    parts: &[u8],
    q: Query,
    scratch: &mut [u16; 2048],
) -> Result<(), Refusal>
    ensures { told result ≡ courier_parts_early (courier_parts_lent vertices.now walks.now hops.now hop_size records.now list.now parts.now) (query_of q) }
{
    audit::lengths(vertices, walks, hops, hop_size)?;
    lengths(list, parts)?;
    making::list_length(vertices, walks, hops, hop_size, records)?;
    courier_intake::contents_fault(vertices, walks, hops, hop_size, records, q, scratch)?;
    list_fault(
        list,
        vertices.len() / 12,
        intake::allowed(q),
        &mut scratch[..],
    )
}

// The courier's parts: of step 0 and of each entry of the list, for any bytes and query. `records` is the list by "from".
pub fn courier_parts(
    vertices: &[u8],
    walks: &[u8],
    hops: &[u8],
    hop_size: usize,
    records: &[u8],
    list: &[u8],
    parts: &mut [u8],
    q: Query,
) -> Result<u32, Refusal>
    ensures { parts_answer_of result parts.new ≡ courier_parts_answer (courier_parts_lent vertices.now walks.now hops.now hop_size records.now list.now parts.old) (query_of q) }
{
    let mut scratch = [0u16; 2048];
    courier_fault(
        vertices,
        walks,
        hops,
        hop_size,
        records,
        list,
        parts,
        q,
        &mut scratch,
    )?;
    let road = parts::read_road(walks, q);
    let allowed = intake::allowed(q);
    let covered = cover(
        parts,
        list.len() / 8,
        |buffer| parts::list_ahead(buffer, road, allowed),
        |buffer, count, i| {
            list_entry_ahead(
                buffer, count, vertices, walks, hops, hop_size, records, list, i, road, allowed,
            )
        },
    );
    finish(parts, covered)
}
