// Refusals 15 and 16 by comparing stops in pairs: for texts and lists that are too long for records.
// Promises: which stop is the first whose sequence its trip repeats, which is the first that is not in time, and which follow each other, as the definitions of `feed` say.
// Rests on: stops by their numbers (`reread`), refusals (`words`).
#![tactic(auto)]

ghost use Rattle.std.specs.Prelude.{◌≡◌, Bool, IfErr, not, ℕ, ◌+◌, ◌<◌, ◌≤◌, length};
ghost use Rattle.feed.specs.Lines.{place};
ghost use Rattle.feed.specs.Trips.{stop, some, next, too_soon, once, in_time, first_bad_stop};
ghost use Rattle.words.specs.Told.{told_by};
ghost use Rattle.reread.specs.Read.{stop_is, stops_here, Ready, Lined};
ghost use Rattle.pairwise.specs.Asked.{sooner, asked, good_by};

use idtable::Ids;
use reread::Halt;
use stoplist::Columns;
use words::{Numbered, Reason, Refusal};

// Two stops of one trip, the first of them the earlier.
fn is_sooner(p: Halt, i: Halt) -> bool
    ensures { result ≡ sooner (stop_is p) (stop_is i) }
{
    (p.trip == i.trip) & (p.sequence < i.sequence)
}

// What is asked of a stop beside one or two others.
#[derive(Clone, Copy)]
enum Question {
    // timed, and between two stops of its trip
    Between(Halt, Halt),
    // before a stop of its trip
    Before(Halt),
    // behind it
    Behind(Halt),
    // at its sequence
    Beside(Halt),
}

fn ask(question: Question, k: Halt) -> bool
    ensures { result ≡ asked question (stop_is k) }
{
    match question {
        Question::Between(a, b) => k.timed & is_sooner(a, k) & is_sooner(k, b),
        Question::Before(a) => is_sooner(k, a),
        Question::Behind(a) => is_sooner(a, k),
        Question::Beside(a) => (k.trip == a.trip) & (k.sequence == a.sequence),
    }
}

// One of the first m stops answers a question with yes.
fn any(
    question: Question,
    m: usize,
    text: &[u8],
    from: usize,
    c: Columns,
    stops: &Ids,
    trips: &Ids,
) -> bool
    requires ready { Ready c stops.now trips.now × Lined c stops.now trips.now text.now from }
    requires m_in_bounds { m ≤ length (stops_here c stops.now trips.now text.now from) }
    ensures { result ≡ some (λ k. asked question (stop (stops_here c stops.now trips.now text.now from) k)) m }
{
    for k in 0..m {
        let h = reread::stop_at(k, text, from, c, stops, trips);
        if ask(question, h) {
            return true;
        }
    }
    false
}

// Stops p and i are consecutive timed stops of a trip.
pub fn is_next(
    p: usize,
    i: usize,
    n: usize,
    text: &[u8],
    from: usize,
    c: Columns,
    stops: &Ids,
    trips: &Ids,
) -> bool
    requires ready { Ready c stops.now trips.now × Lined c stops.now trips.now text.now from }
    requires n_value { (n ≡ length (stops_here c stops.now trips.now text.now from)) × (p < n) × (i < n) }
    ensures { result ≡ next (stops_here c stops.now trips.now text.now from) p i }
{
    let a = reread::stop_at(p, text, from, c, stops, trips);
    let b = reread::stop_at(i, text, from, c, stops, trips);
    let ahead = is_sooner(a, b);
    if a.timed & b.timed & ahead {
        return !any(Question::Between(a, b), n, text, from, c, stops, trips);
    }
    false
}

fn is_late(
    p: usize,
    i: usize,
    n: usize,
    text: &[u8],
    from: usize,
    c: Columns,
    stops: &Ids,
    trips: &Ids,
) -> bool
    requires ready { Ready c stops.now trips.now × Lined c stops.now trips.now text.now from }
    requires n_value { (n ≡ length (stops_here c stops.now trips.now text.now from)) × (p < n) × (i < n) }
    ensures { result ≡ too_soon (stops_here c stops.now trips.now text.now from) i p }
{
    let a = reread::stop_at(p, text, from, c, stops, trips);
    let b = reread::stop_at(i, text, from, c, stops, trips);
    if b.arrival < a.departure {
        return is_next(p, i, n, text, from, c, stops, trips);
    }
    false
}

// The last timed stop before stop i leaves after its arrival.
fn any_late(
    i: usize,
    n: usize,
    text: &[u8],
    from: usize,
    c: Columns,
    stops: &Ids,
    trips: &Ids,
) -> bool
    requires ready { Ready c stops.now trips.now × Lined c stops.now trips.now text.now from }
    requires n_value { (n ≡ length (stops_here c stops.now trips.now text.now from)) × (i < n) }
    ensures { result ≡ some (too_soon (stops_here c stops.now trips.now text.now from) i) n }
{
    for p in 0..n {
        if is_late(p, i, n, text, from, c, stops, trips) {
            return true;
        }
    }
    false
}

fn is_once(
    i: usize,
    n: usize,
    text: &[u8],
    from: usize,
    c: Columns,
    stops: &Ids,
    trips: &Ids,
) -> bool
    requires ready { Ready c stops.now trips.now × Lined c stops.now trips.now text.now from }
    requires n_value { (n ≡ length (stops_here c stops.now trips.now text.now from)) × (i < n) }
    ensures { result ≡ once (stops_here c stops.now trips.now text.now from) i }
{
    let h = reread::stop_at(i, text, from, c, stops, trips);
    !any(Question::Beside(h), i, text, from, c, stops, trips)
}

fn is_in_time(
    i: usize,
    n: usize,
    text: &[u8],
    from: usize,
    c: Columns,
    stops: &Ids,
    trips: &Ids,
) -> bool
    requires ready { Ready c stops.now trips.now × Lined c stops.now trips.now text.now from }
    requires n_value { (n ≡ length (stops_here c stops.now trips.now text.now from)) × (i < n) }
    ensures { result ≡ in_time (stops_here c stops.now trips.now text.now from) i }
{
    let h = reread::stop_at(i, text, from, c, stops, trips);
    if h.timed {
        if h.departure < h.arrival {
            return false;
        }
        return !any_late(i, n, text, from, c, stops, trips);
    }
    if any(Question::Before(h), n, text, from, c, stops, trips) {
        return any(Question::Behind(h), n, text, from, c, stops, trips);
    }
    false
}

fn is_good(
    number: u32,
    i: usize,
    n: usize,
    text: &[u8],
    from: usize,
    c: Columns,
    stops: &Ids,
    trips: &Ids,
) -> bool
    requires ready { Ready c stops.now trips.now × Lined c stops.now trips.now text.now from }
    requires n_value { (n ≡ length (stops_here c stops.now trips.now text.now from)) × (i < n) }
    ensures { result ≡ good_by number (stops_here c stops.now trips.now text.now from) i }
{
    if number == u32::from(Reason::Sequence) {
        return is_once(i, n, text, from, c, stops, trips);
    }
    is_in_time(i, n, text, from, c, stops, trips)
}

// Where 32 bits do not hold the number of a line, the greatest number is told.
fn placed(line: usize) -> u32
    ensures { result ≡ place line }
{
    line.min(4294967295) as u32
}

// The refusal of the first stop that 15, or 16, does not let pass; 0 is the number of no refusal.
pub fn first_bad<N: Numbered>(
    reason: N,
    n: usize,
    text: &[u8],
    from: usize,
    c: Columns,
    stops: &Ids,
    trips: &Ids,
) -> Result<(), Refusal<N>>
    requires ready { Ready c stops.now trips.now × Lined c stops.now trips.now text.now from }
    requires n_value { n ≡ length (stops_here c stops.now trips.now text.now from) }
    ensures { (told_by N.number result ≡ first_bad_stop (stops_here c stops.now trips.now text.now from) (N.number reason) (good_by (N.number reason) (stops_here c stops.now trips.now text.now from))) × IfErr result (λ r. (r.reason ≡ reason) × (0 < N.number reason)) }
{
    let number = reason.number();
    if number == 0 {
        return Ok(());
    }
    for i in 0..n {
        if !is_good(number, i, n, text, from, c, stops, trips) {
            let h = reread::stop_at(i, text, from, c, stops, trips);
            return words::refused(reason, placed(h.line));
        }
    }
    Ok(())
}
