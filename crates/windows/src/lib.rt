// The rest of a timetable's answer, behind refusal 14: 15, 16, 17 and the hops.
// Promises: the timetable's answer and every byte of the target, as the definitions of `feed` say.
// Rests on: the records of lines (`stoplist`, `recorded`), windows of them (`sieve`), what is carried over them (`carry`), the answer for records (`departures`).
#![tactic(auto)]

ghost use Rattle.std.specs.Prelude.{◌≡◌, None, ℕ, ◌+◌, ◌-◌, ◌*◌, ◌<◌, ◌≤◌, List, ◌++◌, length, take};
ghost use Rattle.journeys.specs.Counting.{none};
ghost use Rattle.feed.specs.Answers.{feed_refusal, hop_count, target_after};
ghost use Rattle.words.specs.Told.{told};
ghost use Rattle.departures.specs.Answered.{hops_told};
ghost use Rattle.recorded.specs.Asked.{Read, Short};
ghost use Rattle.sorting.specs.Sorted.{recs, sorted};
ghost use Rattle.hopbytes.specs.Listing.{OnTrips};
ghost use Rattle.carry.specs.Carried.{all_followed, all_hops, late_end};
ghost use Rattle.sieve.specs.Kept.{bound, kept};
ghost use Rattle.windows.specs.Lent.{lent};
ghost use Rattle.windows.specs.Gone.{lines_records, Ready, Held, Gone, Ended};

use carry::{Carry, Item};
use idtable::Ids;
use stoplist::Columns;
use words::{NONE, Reason, Refusal};

// How far windows have come: the bound below which all stops are judged, what is carried, and the hops so far. A number above the room says that they are
// more than fit: it is compared with the room in each case, so an Option would be no plainer.
#[derive(Clone, Copy)]
pub struct Run {
    pub lo: Option<Item>,
    pub carry: Carry,
    pub hops: usize,
}

// The first m records of b go behind the first k of the target.
fn append(target: &mut [u8], room: usize, k: usize, b: &[u8], n: usize, m: usize)
    requires { (length target.old ≡ 20 * room) × (length b.now ≡ 20 * n) × (m ≤ n) × (k + m ≤ room) }
    ensures { take (k + m) (recs room target.new) ≡ take k (recs room target.old) ++ take m (recs n b.now) }
{
    for i in 0..m {
        let x = carry::item_at(b, n, i);
        sorting::put(target, room, k + i, x.high, x.middle, x.low);
    }
}

// The hops of a window go behind the k so far, as long as there is room for all of them.
fn gain(target: &mut [u8], room: usize, k: usize, b: &[u8], n: usize, m: usize) -> usize
    requires { (length target.old ≡ 20 * room) × (length b.now ≡ 20 * n) × (m ≤ n) }
    ensures { (H : List ℕ) → Held room k (recs room target.old) H → Held room result (recs room target.new) (H ++ take m (recs n b.now)) }
{
    if room < k {
        return k;
    }
    if room - k < m {
        return room + 1;
    }
    append(target, room, k, b, n, m);
    k + m
}

// The window from a bound on, in a memory: judged, and its hops in front.
fn piece(
    b: &mut [u8],
    n: usize,
    lo: Option<Item>,
    held: Carry,
    text: &[u8],
    from: usize,
    c: Columns,
    stops: &Ids,
    trips: &Ids,
) -> Run
    requires b_len { (length b.old ≡ 20 * n) × (2 ≤ n) × (bound lo < bound None) × Ready c stops.now trips.now text.now from }
    ensures { (bound lo < bound result.lo)
        × (result.carry ≡ all_followed held (kept (bound lo) (bound result.lo) (sorted (lines_records c stops.now trips.now text.now from))))
        × (result.hops ≤ n)
        × (take result.hops (recs n b.new) ≡ all_hops held (kept (bound lo) (bound result.lo) (sorted (lines_records c stops.now trips.now text.now from)))) }
{
    let w = sieve::sift(b, n, lo, text, from, c, stops, trips);
    let p = carry::pass(b, n, w.count, held);
    Run {
        lo: w.end,
        carry: p.carry,
        hops: p.hops,
    }
}

// One window more, in the memory beside the target. This and the two below stay three functions: each has another memory, and does another thing with the hops.
fn beside(
    target: &mut [u8],
    room: usize,
    spare: &mut [u8],
    n: usize,
    run: Run,
    text: &[u8],
    from: usize,
    c: Columns,
    stops: &Ids,
    trips: &Ids,
) -> Run
    requires target_len { (length target.old ≡ 20 * room) × (length spare.old ≡ 20 * n) × (2 ≤ n) × (bound run.lo < bound None) × Ready c stops.now trips.now text.now from }
    ensures { (bound run.lo < bound result.lo)
        × (Gone (sorted (lines_records c stops.now trips.now text.now from)) room (recs room target.old) run
        → Gone (sorted (lines_records c stops.now trips.now text.now from)) room (recs room target.new) result) }
{
    let p = piece(spare, n, run.lo, run.carry, text, from, c, stops, trips);
    let k = gain(target, room, run.hops, spare, n, p.hops);
    Run {
        lo: p.lo,
        carry: p.carry,
        hops: k,
    }
}

// One window more, in what the target has free behind the hops so far: its hops then stand where they belong.
fn behind(
    target: &mut [u8],
    room: usize,
    run: Run,
    text: &[u8],
    from: usize,
    c: Columns,
    stops: &Ids,
    trips: &Ids,
) -> Run
    requires target_len { (length target.old ≡ 20 * room) × (run.hops + 2 ≤ room) × (bound run.lo < bound None) × Ready c stops.now trips.now text.now from }
    ensures { (bound run.lo < bound result.lo)
        × (Gone (sorted (lines_records c stops.now trips.now text.now from)) room (recs room target.old) run
        → Gone (sorted (lines_records c stops.now trips.now text.now from)) room (recs room target.new) result) }
{
    let k = run.hops;
    let p = piece(
        &mut target[20 * k..],
        room - k,
        run.lo,
        run.carry,
        text,
        from,
        c,
        stops,
        trips,
    );
    Run {
        lo: p.lo,
        carry: p.carry,
        hops: k + p.hops,
    }
}

// One window more, where the hops have no room: it is only judged, in the whole target.
fn instead(
    target: &mut [u8],
    room: usize,
    run: Run,
    text: &[u8],
    from: usize,
    c: Columns,
    stops: &Ids,
    trips: &Ids,
) -> Run
    requires target_len { (length target.old ≡ 20 * room) × (2 ≤ room) × (room < run.hops) × (bound run.lo < bound None) × Ready c stops.now trips.now text.now from }
    ensures { (bound run.lo < bound result.lo)
        × (Gone (sorted (lines_records c stops.now trips.now text.now from)) room (recs room target.old) run
        → Gone (sorted (lines_records c stops.now trips.now text.now from)) room (recs room target.new) result) }
{
    let p = piece(target, room, run.lo, run.carry, text, from, c, stops, trips);
    Run {
        lo: p.lo,
        carry: p.carry,
        hops: run.hops,
    }
}

// The records that are free in the target: behind the hops, or all of them where the hops have no room.
fn free(room: usize, k: usize) -> usize
    ensures { (k ≤ room → result ≡ room - k) × (room < k → result ≡ room) }
{
    if room < k {
        return room;
    }
    room - k
}

// One window more, in the larger memory.
fn window(
    target: &mut [u8],
    room: usize,
    spare: &mut [u8],
    n: usize,
    run: Run,
    text: &[u8],
    from: usize,
    c: Columns,
    stops: &Ids,
    trips: &Ids,
) -> Run
    requires target_len { (length target.old ≡ 20 * room) × (length spare.old ≡ 20 * n) × (2 ≤ n) × (bound run.lo < bound None) × Ready c stops.now trips.now text.now from }
    ensures { (bound run.lo < bound result.lo)
        × (Gone (sorted (lines_records c stops.now trips.now text.now from)) room (recs room target.old) run
        → Gone (sorted (lines_records c stops.now trips.now text.now from)) room (recs room target.new) result) }
{
    let k = run.hops;
    if free(room, k) < n {
        return beside(target, room, spare, n, run, text, from, c, stops, trips);
    }
    if room < k {
        return instead(target, room, run, text, from, c, stops, trips);
    }
    behind(target, room, run, text, from, c, stops, trips)
}

// Window by window, until no stop is left.
fn all_windows(
    target: &mut [u8],
    room: usize,
    spare: &mut [u8],
    n: usize,
    text: &[u8],
    from: usize,
    c: Columns,
    stops: &Ids,
    trips: &Ids,
) -> Run
    requires target_len { (length target.old ≡ 20 * room) × (length spare.old ≡ 20 * n) × (2 ≤ n) × Ready c stops.now trips.now text.now from }
    ensures { (bound None ≤ bound result.lo) × Gone (sorted (lines_records c stops.now trips.now text.now from)) room (recs room target.new) result }
{
    let first = Item {
        high: 0,
        middle: 0,
        low: 0,
    };
    let nobody = Item {
        high: 0,
        middle: 0,
        low: 68719476736,
    };
    let mut run = Run {
        lo: Some(first),
        carry: Carry {
            prev: nobody,
            last: nobody,
            fifteen: NONE,
            sixteen: NONE,
        },
        hops: 0,
    };
    // A while: each window begins at the bound where the one before it ended, so there is no range to go over.
    while run.lo.is_some() {
        run = window(target, room, spare, n, run, text, from, c, stops, trips);
    }
    run
}

// The answer by what was carried over all stops.
fn conclude(
    target: &mut [u8],
    room: usize,
    k: usize,
    c: Carry,
    trips: &[u8],
) -> Result<usize, Refusal>
    requires { (length target.old ≡ 20 * room) × (c.fifteen ≡ none → late_end c ≡ none → k ≤ room → OnTrips trips.now (recs k target.old)) }
    ensures { Ended trips.now target.old room k c result target.new }
{
    if c.fifteen != NONE {
        return departures::refuse(target, Reason::Sequence, c.fifteen);
    }
    let late = carry::late(c);
    if late != NONE {
        return departures::refuse(target, Reason::StopTimes, late);
    }
    if room < k {
        return departures::refuse(target, Reason::HopRoom, 0);
    }
    departures::finish(target, k, trips);
    Ok(k)
}

// For any number of lines: window by window, in the free part of the target or in the memory that is lent beside it.
pub fn all_hops(
    target: &mut [u8],
    spare: &mut [u8],
    n: usize,
    text: &[u8],
    from: usize,
    c: Columns,
    stops: &Ids,
    trips: &Ids,
) -> Result<usize, Refusal>
    requires spare_len { (length spare.old ≡ 20 * n) × (2 ≤ n) × Read (lent text.now stops.now trips.now target.old) c from × Short (lent text.now stops.now trips.now target.old) }
    ensures { (told result ≡ feed_refusal (lent text.now stops.now trips.now target.old))
        × (hops_told result ≡ hop_count (lent text.now stops.now trips.now target.old))
        × (target.new ≡ target_after (lent text.now stops.now trips.now target.old)) }
{
    let room = target.len() / 20;
    let run = all_windows(target, room, spare, n, text, from, c, stops, trips);
    conclude(target, room, run.hops, run.carry, trips.list)
}
