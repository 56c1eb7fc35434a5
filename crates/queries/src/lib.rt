// Many queries over the same tables, which are judged once.
// Promises: the answers, shares and held bytes of as many single runs, one after the other, for any bytes.
// Rests on: refusals 1 to 6 (`audit`, `intake`) once, refusal 7 for each query, and the run behind them (`search`).
#![tactic(auto)]

ghost use Rattle.std.specs.Prelude.{◌≡◌, List, ℕ, ◌*◌, ◌/◌, ◌%◌, ◌≤◌, length, take, replicate};
ghost use Rattle.journeys.specs.Tables.{tables_of};
ghost use Rattle.journeys.specs.Refusals.{or_else, query_refusal};
ghost use Rattle.words.specs.Told.{told};
ghost use Rattle.records.specs.Asked.{query_of};
ghost use Rattle.intake.specs.Lending.{lent};
ghost use Rattle.queries.specs.Judged.{judged};
ghost use Rattle.queries.specs.InTurn.{asks_from, share_of, InTurn};
ghost use Rattle.queries.specs.Single.{Left, Single};

use records::Query;
use words::Refusal;

// Refusals 1 to 6, which ask for no query: the lengths of the tables and of the buffers, then the contents.
fn whole_fault(
    vertices: &[u8],
    walks: &[u8],
    hops: &[u8],
    hop_size: usize,
    held: &[u8],
    settled: &[u8],
    scratch: &mut [u16; 2048],
) -> Result<(), Refusal>
    ensures { told result ≡ judged (lent vertices.now walks.now hops.now hop_size held.now settled.now) }
{
    audit::lengths(vertices, walks, hops, hop_size)?;
    intake::buffer_fault(held, settled)?;
    audit::contents(vertices, walks, hops, hop_size, scratch)
}

// The same, and the scratch is cleared behind it. It may hold anything at the call.
fn tables_fault(
    vertices: &[u8],
    walks: &[u8],
    hops: &[u8],
    hop_size: usize,
    held: &[u8],
    settled: &[u8],
    scratch: &mut [u16; 2048],
) -> Result<(), Refusal>
    ensures result_value { told result ≡ judged (lent vertices.now walks.now hops.now hop_size held.now settled.now) }
    ensures scratch_after { scratch.new ≡ replicate 2048 0 }
{
    let fault = whole_fault(vertices, walks, hops, hop_size, held, settled, scratch);
    departing::clear(scratch);
    fault
}

// The first reason against one query: that of the tables, which was found before, or its own.
fn asked_fault(walks: &[u8], fault: Result<(), Refusal>, q: Query) -> Result<(), Refusal>
    ensures { (size : ℕ) (v h : List ℕ) → told result ≡ or_else (told fault) (query_refusal (tables_of size v walks.now h) (query_of q)) }
{
    fault?;
    intake::query_fault(walks, q)
}

// One query, with its share of the settled buffer and its 24 bytes of the answers. `fault` is what the tables and the lengths are refused for.
fn answer_one<'a>(
    vertices: &[u8],
    walks: &'a [u8],
    hops: &'a [u8],
    hop_size: usize,
    held: &mut [u8],
    share: &mut [u8],
    answer: &mut [u8],
    scratch: &mut [u16],
    fault: Result<(), Refusal>,
    q: Query,
    limit: u32,
)
    requires fault_value { told fault ≡ judged (lent vertices.now walks.now hops.now hop_size held.old share.old) }
    requires answer_len { (length answer.old ≡ 24) × (scratch.old ≡ replicate 2048 0) }
    ensures left { Left (lent vertices.now walks.now hops.now hop_size held.old share.old) (query_of q) limit held.new share.new answer.new }
    ensures scratch_after { scratch.new ≡ replicate 2048 0 }
{
    if let Err(why) = asked_fault(walks, fault, q) {
        calls::put_answer(answer, records::refusal(u32::from(why.reason), why.place));
        return;
    }
    let a = search::run_judged(
        vertices, walks, hops, hop_size, held, share, scratch, q, limit,
    );
    calls::put_answer(answer, a);
}

// Each query in turn. The shares are `share` bytes long and lie one behind the other.
fn answer_each<'a>(
    vertices: &[u8],
    walks: &'a [u8],
    hops: &'a [u8],
    hop_size: usize,
    queries: &[u8],
    held: &mut [u8],
    settled: &mut [u8],
    answers: &mut [u8],
    scratch: &mut [u16],
    share: usize,
    fault: Result<(), Refusal>,
)
    requires queries_len { (length queries.now % 24 ≡ 0) × (length answers.old ≡ length queries.now) }
    requires queries_in_bounds { (share * (length queries.now / 24) ≤ length settled.old) × (share % 8 ≡ 0) }
    requires scratch_value { scratch.old ≡ replicate 2048 0 }
    requires fault_value { told fault ≡ judged (lent vertices.now walks.now hops.now hop_size held.old (take share settled.old)) }
    ensures { InTurn (Single vertices.now walks.now hops.now hop_size) share (asks_from queries.now (length queries.now / 24) 0) held.old settled.old held.new settled.new answers.new }
{
    let n = queries.len() / 24;
    // `at` goes along with i: the product of share and i would be no plainer, since it would have to be shown to fit.
    let mut at = 0;
    for i in 0..n {
        let from = 24 * i;
        let q = calls::query_at(queries, from);
        let limit = calls::limit_at(queries, from);
        answer_one(
            vertices,
            walks,
            hops,
            hop_size,
            held,
            &mut settled[at..at + share],
            &mut answers[from..from + 24],
            scratch,
            fault,
            q,
            limit,
        );
        at += share;
    }
}

// As many runs as there are queries, each over the held buffer as the one before left it and its own share of the settled buffer. What lies behind the
// last share is left as it was.
pub fn answer_all<'a>(
    vertices: &[u8],
    walks: &'a [u8],
    hops: &'a [u8],
    hop_size: usize,
    queries: &[u8],
    held: &mut [u8],
    settled: &mut [u8],
    answers: &mut [u8],
)
    requires { (length queries.now % 24 ≡ 0) × (length answers.old ≡ length queries.now) }
    ensures { InTurn (Single vertices.now walks.now hops.now hop_size) (share_of (length queries.now / 24) settled.old) (asks_from queries.now (length queries.now / 24) 0) held.old settled.old held.new settled.new answers.new }
{
    let n = queries.len() / 24;
    if n == 0 {
        return;
    }
    let share = 8 * (settled.len() / 8 / n);
    let mut scratch = [0u16; 2048];
    let fault = tables_fault(
        vertices,
        walks,
        hops,
        hop_size,
        held,
        &settled[..share],
        &mut scratch,
    );
    answer_each(
        vertices,
        walks,
        hops,
        hop_size,
        queries,
        held,
        settled,
        answers,
        &mut scratch[..],
        share,
        fault,
    );
}
