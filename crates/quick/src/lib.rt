// The quick judge of refusal 6: it says up to which vertex all are good, and of the rest it says nothing.
// Each vertex claims its departing field. As many walks with a twin leave a vertex as arrive at it, so those are counted in the vertex's own run, and only
// walks that are alone and hops have to take one off the claim of the vertex that they leave. Where most walks are alone, all of them do.
// Promises: every vertex below the answer is good. "No" costs time alone: the exact check goes on from there.
// Rests on: the counters of `tally`, the readers of `records`, the law of `twins`. It has no array of its own.
#![tactic(auto)]

ghost use Rattle.std.specs.Prelude.{IfSome, ◌≡◌, ℕ, ◌+◌, ◌-◌, ◌*◌, ◌/◌, ◌<◌, ◌≤◌, true, false, not, ◌≢◌, List, length, ◌==◌};
ghost use Rattle.journeys.specs.Counting.{none, one, count};
ghost use Rattle.journeys.specs.Tables.{tables_of};
ghost use Rattle.journeys.specs.Refusals.{walk_ok, vertex_ok};
ghost use Rattle.records.specs.Columns.{records_in, Ascending, arriving_below};
ghost use Rattle.quick.specs.Claims.{twin_at, leaves, counted_to, counted, arriving, alone_in, Run, in_order, claim_of, Met, Ordered};
ghost use Rattle.quick.specs.Lists.{Claims, Claimed, Listed, Takes, Waiting};
ghost use Rattle.tally.specs.Laid.{Same, Placed, listed};

use records::{Kind, WALK_SIZE, end_arriving, first_arriving, first_ok, from_at, vertex_at};
use tally::{LIST, drain, empty, lay};
use words::{NONE, half_at, word_at};

// More than any vertex can claim.
const UNCLAIMED: usize = 65536;

// The most vertices of a stretch: as many as have room, or whole groups of 64 that are fewer than a block of the exact check.
const LONG: usize = 65536;

const SHORT: usize = 1856;

// One more where a test holds.
fn more(count: usize, test: bool) -> usize
    requires { count < 18446744073709551615 }
    ensures { (result ≡ count + one test) × (result ≤ count + 1) }
{
    if test { count + 1 } else { count }
}

// Whether the record i has no twin.
pub fn alone(table: &[u8], i: usize) -> bool
    requires { i < records_in 16 table.now }
    ensures { result ≡ (twin_at table.now i == none) }
{
    word_at(table, 16 * i + 12) == NONE
}

// The record i joins the list of `count` counters if it leaves one of `len` vertices from `base` on and is counted there.
// It is written in any case, so that no branch has to be foreseen.
fn sift_one(
    table: &[u8],
    size: usize,
    pairs: bool,
    i: usize,
    base: usize,
    len: usize,
    scratch: &mut [u16],
    count: usize,
) -> usize
    requires { (i < records_in size table.now) × (base ≤ 65536) × (len ≤ 65536) × (count < 64) × (length scratch.old ≡ 2048) × (16 ≤ size) }
    ensures upper_bound { result ≤ count + 1 }
    ensures by_index { (a b : ℕ → ℕ) → Listed len count scratch.old a b → Listed len result scratch.new a (λ k. b k + one (leaves pairs size table.now (base + k) i)) }
    ensures same { Same 0 1984 scratch.old scratch.new }
{
    let k = std::num::wrapping_sub_usize(from_at(table, size, i) as usize, base);
    scratch[LIST + count] = (k % 65536) as u16;
    more(count, (k < len) & (!pairs | alone(table, i)))
}

// The records from `start` up to `end` that leave one of `len` vertices from `base` on and are counted there join the list. Answers how many stand there.
fn sift_each(
    table: &[u8],
    size: usize,
    pairs: bool,
    start: usize,
    end: usize,
    base: usize,
    len: usize,
    scratch: &mut [u16],
    waiting: usize,
) -> usize
    requires { (start ≤ end) × (waiting + end ≤ start + 64) × (end ≤ records_in size table.now) × (base ≤ 65536) × (len ≤ 65536) × (length scratch.old ≡ 2048) × (16 ≤ size) }
    ensures start_bound { (result + start ≤ waiting + end) × ((a : ℕ → ℕ) → Listed len waiting scratch.old a (λ k. counted_to pairs size table.now (base + k) start) → Listed len result scratch.new a (λ k. counted_to pairs size table.now (base + k) end)) }
    ensures same { Same 0 1984 scratch.old scratch.new }
{
    let mut count = waiting;
    for i in start..end {
        count = sift_one(table, size, pairs, i, base, len, scratch, count);
    }
    count
}

// With `pairs` written out: the loop is compiled for both, and reads no twin where none is asked for.
// No const parameter: it is no plainer, since the proof must name what Rattle makes of a bool there.
fn sift(
    table: &[u8],
    size: usize,
    pairs: bool,
    start: usize,
    end: usize,
    base: usize,
    len: usize,
    scratch: &mut [u16],
    waiting: usize,
) -> usize
    requires { (start ≤ end) × (waiting + end ≤ start + 64) × (end ≤ records_in size table.now) × (base ≤ 65536) × (len ≤ 65536) × (length scratch.old ≡ 2048) × (16 ≤ size) }
    ensures start_bound { (result + start ≤ waiting + end) × ((a : ℕ → ℕ) → Listed len waiting scratch.old a (λ k. counted_to pairs size table.now (base + k) start) → Listed len result scratch.new a (λ k. counted_to pairs size table.now (base + k) end)) }
    ensures same { Same 0 1984 scratch.old scratch.new }
{
    if pairs {
        return sift_each(table, size, true, start, end, base, len, scratch, waiting);
    }
    sift_each(table, size, false, start, end, base, len, scratch, waiting)
}

// A list of more than 32 is drained. Answers how many wait still, and nothing if a counter would fall below zero.
fn relieve(scratch: &mut [u16], waiting: usize) -> Option<usize>
    requires waiting_bound { (waiting ≤ 64) × (length scratch.old ≡ 2048) }
    requires by_index { (j : ℕ) → j < waiting → Placed scratch.old (listed scratch.old j) }
    ensures few { IfSome result (λ left. left ≤ 32) }
    ensures by_index_2 { IfSome result (λ left. (groups : ℕ) (all : ℕ → ℕ) (start : List ℕ) → Waiting groups waiting all start scratch.old → Waiting groups left all start scratch.new) }
    ensures same { Same 1856 1984 scratch.old scratch.new }
{
    if waiting <= 32 {
        return Some(waiting);
    }
    if drain(scratch, waiting) {
        return Some(0);
    }
    None
}

// Every record of a table that leaves a vertex of the groups from `base` on, and is counted there, takes one off. False if a counter would fall below zero.
fn drain_table(
    table: &[u8],
    size: usize,
    pairs: bool,
    base: usize,
    groups: usize,
    scratch: &mut [u16],
) -> bool
    requires base_bound { (base ≤ 65536) × (groups ≤ 116) × (length scratch.old ≡ 2048) × (16 ≤ size) }
    requires by_index { (k : ℕ) → k < 64 * groups → Placed scratch.old k }
    ensures { result ≡ true → Takes groups (λ k. counted pairs size table.now (base + k)) scratch.old scratch.new }
{
    let n = table.len() / size;
    let mut waiting = 0;
    let mut i = 0;
    // A while: tried by steps of 32, and the proof did not close, as it is not told where such a loop ends.
    while i < n {
        let end = (i + 32).min(n);
        let listed = sift(
            table,
            size,
            pairs,
            i,
            end,
            base,
            64 * groups,
            scratch,
            waiting,
        );
        let Some(left) = relieve(scratch, listed) else {
            return false;
        };
        waiting = left;
        i = end;
    }
    drain(scratch, waiting)
}

// Walks with a twin from `first` up to `end`, the run of v.
fn paired(walks: &[u8], first: usize, end: usize, v: usize) -> usize
    requires { Ascending 16 walks.now × (first ≡ arriving_below 16 walks.now v) × (end ≡ arriving_below 16 walks.now (v + 1)) }
    ensures { result ≡ arriving true walks.now v }
{
    let mut found = 0;
    for i in first..end {
        found = more(found, !alone(walks, i));
    }
    found
}

// Walks with a twin that arrive at v, if they are counted there. Where no walk is alone they are the whole run.
fn arriving_pairs(vertices: &[u8], walks: &[u8], alone: usize, pairs: bool, v: usize) -> usize
    requires ascending { Ascending 16 walks.now × (alone ≡ alone_in walks.now) }
    requires v_in_bounds { (v < length vertices.now / 12) × Run vertices.now walks.now v }
    ensures { result ≡ arriving pairs walks.now v }
{
    if !pairs {
        return 0;
    }
    let first = first_arriving(vertices, Kind::Walks, v);
    let end = end_arriving(vertices, Kind::Walks, v, walks.len() / 16);
    if alone == 0 {
        return end - first;
    }
    paired(walks, first, end, v)
}

// What v claims: its departing field less the walks with a twin that arrive. It is 65,536 where they are more, and 0 from `limit` on.
fn claim(vertices: &[u8], walks: &[u8], alone: usize, pairs: bool, limit: usize, v: usize) -> usize
    requires ascending { Ascending 16 walks.now × (alone ≡ alone_in walks.now) }
    requires limit_in_bounds { (limit ≤ length vertices.now / 12) × ((x : ℕ) → x < limit → Run vertices.now walks.now x) }
    ensures { result ≡ claim_of pairs vertices.now walks.now limit v }
{
    if limit <= v {
        return 0;
    }
    let departing = half_at(vertices, 12 * v + 8) as usize;
    let arriving = arriving_pairs(vertices, walks, alone, pairs, v);
    if departing < arriving {
        return UNCLAIMED;
    }
    departing - arriving
}

// The claims of 64 vertices from v on, in the list. False if one of them cannot be met.
fn claims(
    vertices: &[u8],
    walks: &[u8],
    alone: usize,
    pairs: bool,
    limit: usize,
    v: usize,
    scratch: &mut [u16],
) -> bool
    requires ascending { Ascending 16 walks.now × (alone ≡ alone_in walks.now) }
    requires limit_in_bounds { (limit ≤ length vertices.now / 12) × ((x : ℕ) → x < limit → Run vertices.now walks.now x) }
    requires v_bound { (v ≤ 65536) × (length scratch.old ≡ 2048) }
    ensures claims { result ≡ true → Claims (λ j. claim_of pairs vertices.now walks.now limit (v + j)) 64 scratch.new }
    ensures same { Same 0 1984 scratch.old scratch.new }
{
    for j in 0..64 {
        let claimed = claim(vertices, walks, alone, pairs, limit, v + j);
        if UNCLAIMED <= claimed {
            return false;
        }
        scratch[LIST + j] = claimed as u16;
    }
    true
}

// The groups that are laid, and the words that they take.
#[derive(Clone, Copy)]
struct Counters {
    groups: usize,
    words: usize,
}

// One group of claims more. Answers how many words are laid then: as many as before if a claim cannot be met or there is no room.
fn lay_group(
    vertices: &[u8],
    walks: &[u8],
    alone: usize,
    pairs: bool,
    limit: usize,
    base: usize,
    groups: usize,
    words: usize,
    scratch: &mut [u16],
) -> usize
    requires ascending { Ascending 16 walks.now × (alone ≡ alone_in walks.now) }
    requires limit_in_bounds { (limit ≤ length vertices.now / 12) × ((x : ℕ) → x < limit → Run vertices.now walks.now x) }
    requires groups_bound { (base + 64 * groups ≤ 65536) × (length scratch.old ≡ 2048) }
    requires claimed { Claimed (λ k. claim_of pairs vertices.now walks.now limit (base + k)) groups words scratch.old }
    ensures claimed_2 { result ≡ words → Claimed (λ k. claim_of pairs vertices.now walks.now limit (base + k)) groups words scratch.new }
    ensures claimed_3 { result ≢ words → Claimed (λ k. claim_of pairs vertices.now walks.now limit (base + k)) (groups + 1) result scratch.new }
{
    let v = base + 64 * groups;
    if !claims(vertices, walks, alone, pairs, limit, v, scratch) {
        return words;
    }
    lay(scratch, groups, words)
}

// The claims of the vertices from `base` up to `limit`, as many groups as can be met and have room.
fn lay_claims(
    vertices: &[u8],
    walks: &[u8],
    alone: usize,
    pairs: bool,
    limit: usize,
    base: usize,
    scratch: &mut [u16],
) -> Counters
    requires ascending { Ascending 16 walks.now × (alone ≡ alone_in walks.now) }
    requires limit_in_bounds { (limit ≤ length vertices.now / 12) × ((x : ℕ) → x < limit → Run vertices.now walks.now x) }
    requires base_le_limit { (base ≤ limit) × (limit ≤ 65536) × (length scratch.old ≡ 2048) }
    ensures { Claimed (λ k. claim_of pairs vertices.now walks.now limit (base + k)) result.groups result.words scratch.new }
{
    let most = (limit - base).div_ceil(64);
    let mut words = 0;
    for groups in 0..most {
        let laid = lay_group(
            vertices, walks, alone, pairs, limit, base, groups, words, scratch,
        );
        if laid == words {
            return Counters { groups, words };
        }
        words = laid;
    }
    Counters {
        groups: most,
        words,
    }
}

// Walks take off only where some are alone: all others are counted where they arrive.
fn drain_walks(
    walks: &[u8],
    alone: usize,
    pairs: bool,
    base: usize,
    groups: usize,
    scratch: &mut [u16],
) -> bool
    requires alone_value { (alone ≡ alone_in walks.now) × (alone ≡ 0 → pairs ≡ true) }
    requires base_bound { (base ≤ 65536) × (groups ≤ 116) × (length scratch.old ≡ 2048) }
    requires by_index { (k : ℕ) → k < 64 * groups → Placed scratch.old k }
    ensures { result ≡ true → Takes groups (λ k. counted pairs 16 walks.now (base + k)) scratch.old scratch.new }
{
    if alone != 0 {
        return drain_table(walks, WALK_SIZE, pairs, base, groups, scratch);
    }
    true
}

// How many vertices from `base` on are met by the records that are counted: 0 where one may not be.
fn stretch(
    vertices: &[u8],
    walks: &[u8],
    hops: &[u8],
    hop_size: usize,
    alone: usize,
    pairs: bool,
    limit: usize,
    base: usize,
    scratch: &mut [u16],
) -> usize
    requires ascending { Ascending 16 walks.now × (alone ≡ alone_in walks.now) × (alone ≡ 0 → pairs ≡ true) }
    requires limit_in_bounds { (limit ≤ length vertices.now / 12) × ((x : ℕ) → x < limit → Run vertices.now walks.now x) }
    requires base_le_limit { (base ≤ limit) × (limit ≤ 65536) × (length scratch.old ≡ 2048) × (16 ≤ hop_size) }
    ensures { (base + result ≤ limit) × ((k : ℕ) → k < result → Met pairs hop_size vertices.now walks.now hops.now limit (base + k)) }
{
    let laid = lay_claims(vertices, walks, alone, pairs, limit, base, scratch);
    let groups = laid.groups;
    if !drain_table(hops, hop_size, false, base, groups, scratch) {
        return 0;
    }
    if !drain_walks(walks, alone, pairs, base, groups, scratch) {
        return 0;
    }
    if !empty(scratch, laid.words) {
        return 0;
    }
    (64 * groups).min(limit - base)
}

// Whether the firsts and the zero field of v are right.
fn in_order(vertices: &[u8], walks: &[u8], hops: &[u8], hop_size: usize, v: u32) -> bool
    requires v_in_bounds { v < length vertices.now / 12 }
    requires ascending { Ascending 16 walks.now × Ascending hop_size hops.now × (16 ≤ hop_size) }
    ensures { result ≡ in_order hop_size vertices.now walks.now hops.now v }
{
    let x = vertex_at(vertices, v as usize);
    if !first_ok(walks, WALK_SIZE, x.first_walk, v) {
        return false;
    }
    if !first_ok(hops, hop_size, x.first_hop, v) {
        return false;
    }
    x.zeros == 0
}

// The last whole group of vertices whose runs have their ends where v is the first in no order. Stretches of whole groups meet no vertex behind them.
fn whole_before(v: usize) -> usize
    ensures { result ≡ (v - 1) / 64 * 64 }
{
    v.saturating_sub(1) / 64 * 64
}

// Up to which vertex all are in order, with the next one: its first is where the run ends.
fn ordered(vertices: &[u8], walks: &[u8], hops: &[u8], hop_size: usize) -> usize
    requires vertices_len_bound { length vertices.now / 12 ≤ 65536 }
    requires ascending { Ascending 16 walks.now × Ascending hop_size hops.now × (16 ≤ hop_size) }
    ensures { Ordered hop_size vertices.now walks.now hops.now result }
{
    let n = vertices.len() / 12;
    for v in 0..n {
        if !in_order(vertices, walks, hops, hop_size, v as u32) {
            return whole_before(v);
        }
    }
    n
}

// Up to which vertex from `start` on all are good, by stretches of at most `most` vertices.
fn advance(
    vertices: &[u8],
    walks: &[u8],
    hops: &[u8],
    hop_size: usize,
    alone: usize,
    limit: usize,
    most: usize,
    start: usize,
    scratch: &mut [u16],
) -> usize
    requires vertices_len_bound { (length vertices.now / 12 ≤ 65536) × (records_in 16 walks.now ≤ 262144) × (length scratch.old ≡ 2048) }
    requires ascending { Ascending 16 walks.now × (alone ≡ alone_in walks.now) }
    requires by_index { (i : ℕ) → i < records_in 16 walks.now → walk_ok (tables_of hop_size vertices.now walks.now hops.now) i ≡ true }
    requires ordered { Ordered hop_size vertices.now walks.now hops.now limit }
    requires start_le_limit { (start ≤ limit) × (most ≤ 65536) × (16 ≤ hop_size) }
    ensures { (start ≤ result) × (result ≤ limit) × ((v : ℕ) → start ≤ v → v < result → vertex_ok (tables_of hop_size vertices.now walks.now hops.now) v ≡ true) }
{
    let pairs = 2 * alone <= walks.len() / 16;
    let mut base = start;
    // A while: each stretch begins where the one before it ends.
    while base < limit {
        let end = (base + most).min(limit);
        let len = stretch(
            vertices, walks, hops, hop_size, alone, pairs, end, base, scratch,
        );
        if len == 0 {
            return base;
        }
        base += len;
    }
    base
}

// Every vertex below the answer is good. Of the others nothing is said. `alone` walks have no twin.
// Where a long stretch has a bad vertex, short ones come closer to it: the exact check then has less to do.
pub fn sure(
    vertices: &[u8],
    walks: &[u8],
    hops: &[u8],
    hop_size: usize,
    alone: usize,
    scratch: &mut [u16],
) -> usize
    requires vertices_len_bound { (length vertices.now / 12 ≤ 65536) × (records_in 16 walks.now ≤ 262144) × (length scratch.old ≡ 2048) }
    requires ascending { Ascending 16 walks.now × Ascending hop_size hops.now × (16 ≤ hop_size) }
    requires by_index { (i : ℕ) → i < records_in 16 walks.now → walk_ok (tables_of hop_size vertices.now walks.now hops.now) i ≡ true }
    requires alone_value { alone ≡ alone_in walks.now }
    ensures { (result ≤ length vertices.now / 12) × ((v : ℕ) → v < result → vertex_ok (tables_of hop_size vertices.now walks.now hops.now) v ≡ true) }
{
    let limit = ordered(vertices, walks, hops, hop_size);
    let far = advance(
        vertices, walks, hops, hop_size, alone, limit, LONG, 0, scratch,
    );
    advance(
        vertices, walks, hops, hop_size, alone, limit, SHORT, far, scratch,
    )
}
