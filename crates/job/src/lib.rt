// The job reader of the program `reach`.
// Promises: for every input the job or the number N of RULES 14.4, and the tables copied out of the 20-byte records.
// Rests on: bytes copied into a buffer (`copying`), the words and seconds of `words`, the query of `records`.
#![tactic(auto)]

ghost use Rattle.std.specs.Prelude.{◌≡◌, ◌+◌, ◌*◌, ◌/◌, ◌<◌, ◌≤◌, length};
ghost use Rattle.job.specs.Job.{be24, question_at, question, table_of, told, taken, job_of};
ghost use Rattle.job.specs.Steps.{item_of, ended_of, bodies, LaidOut};
ghost use Rattle.copying.specs.Write.{over, Wrote};

use copying::put;
use records::Query;
use words::{Offset, seconds_of, word, word_at};

// What one record of a job is.
#[derive(Clone, Copy)]
pub enum Item {
    Vertex,
    Walk,
    Hop,
    Query,
}

// So many records of each table.
#[derive(Clone, Copy)]
pub struct Counts {
    pub vertices: usize,
    pub walks: usize,
    pub hops: usize,
}

// A job: the numbers of its table records, and its query. A faulty one is the number N of RULES 14.4.
#[derive(Clone, Copy)]
pub struct Job {
    pub counts: Counts,
    pub asked: Query,
}

fn wide(x: u8) -> u32
    ensures { result ≡ x }
{
    x as u32
}

// The 24 bits at a place.
fn three_bytes(s: &[u8], at: usize) -> u32
    requires { at + 3 ≤ length s.now }
    ensures { result ≡ be24 s.now at }
{
    word(0, s[at], s[at + 1], s[at + 2])
}

// The query that stands in record i.
fn asked_at(s: &[u8], i: usize) -> Query
    requires { 20 * (i + 1) ≤ length s.now }
    ensures { question result ≡ question_at s.now i }
{
    let at = 20 * i;
    Query {
        walk: word_at(s, at + 4),
        offset: Offset(word_at(s, at + 8)),
        arrival: seconds_of(word_at(s, at + 12)),
        duration: three_bytes(s, at + 16),
        speed: wide(s[at + 19]),
    }
}

// What record i is, behind so many sound records, or its number where it is faulty. A kind may not fall: behind a walk no vertex is taken, behind a hop no walk.
fn item_at(s: &[u8], i: usize, passed: Counts) -> Result<Item, usize>
    requires { (20 * (i + 1) ≤ length s.now) × (i ≡ passed.vertices + passed.walks + passed.hops) }
    ensures { result ≡ item_of s.now i passed.vertices passed.walks passed.hops }
{
    let kind = word_at(s, 20 * i);
    match kind {
        1 => {
            let pad = word_at(s, 20 * i + 16);
            if (passed.walks + passed.hops == 0) & (passed.vertices < 512) & (pad == 0) {
                Ok(Item::Vertex)
            } else {
                Err(i)
            }
        }
        2 => {
            if (passed.hops == 0) & (passed.walks < 1024) {
                Ok(Item::Walk)
            } else {
                Err(i)
            }
        }
        3 => {
            if passed.hops < 1024 {
                Ok(Item::Hop)
            } else {
                Err(i)
            }
        }
        4 => Ok(Item::Query),
        _ => Err(i),
    }
}

// The job whose query is record i, where nothing follows it.
fn ended(s: &[u8], i: usize, counts: Counts) -> Result<Job, usize>
    requires { 20 * (i + 1) ≤ length s.now }
    ensures { told result ≡ ended_of s.now i counts.vertices counts.walks counts.hops }
{
    let end = 20 * (i + 1);
    if s.len() == end {
        let asked = asked_at(s, i);
        Ok(Job { counts, asked })
    } else {
        Err(i + 1)
    }
}

// Reads a job of any length. The second promise says where its tables lie, which a caller needs to copy them.
pub fn read(s: &[u8]) -> Result<Job, usize>
    ensures result_value { told result ≡ job_of s.now }
    ensures laid_out { LaidOut s.now result }
{
    let whole = s.len() / 20;
    let mut passed = Counts {
        vertices: 0,
        walks: 0,
        hops: 0,
    };
    for i in 0..whole {
        let item = item_at(s, i, passed)?;
        match item {
            Item::Vertex => passed.vertices += 1,
            Item::Walk => passed.walks += 1,
            Item::Hop => passed.hops += 1,
            Item::Query => return ended(s, i, passed),
        }
    }
    Err(whole)
}

// Copies the bodies of records to the front of a buffer.
fn copy_table(s: &[u8], from: usize, count: usize, size: usize, out: &mut [u8]) -> usize
    requires { (size ≤ 16) × (20 * (from + count) ≤ length s.now) × (size * count ≤ length out.old) }
    ensures { Wrote out.old 0 (bodies s.now size from count) out.new result }
{
    let mut at = 0;
    for j in 0..count {
        let a = 20 * (from + j) + 4;
        let e = a + size;
        at = put(out, at, &s[a..e]);
    }
    at
}

// Reads a job, and copies its tables to the front of the lent buffers. A faulty job leaves them untouched.
pub fn load(s: &[u8], vertices: &mut [u8], walks: &mut [u8], hops: &mut [u8]) -> Result<Job, usize>
    requires { (6144 ≤ length vertices.old) × (16384 ≤ length walks.old) × (16384 ≤ length hops.old) }
    ensures result_value { told result ≡ job_of s.now }
    ensures laid_out { LaidOut s.now result }
    ensures vertices_after { vertices.new ≡ over (taken (job_of s.now) (table_of s.now 1 12)) vertices.old }
    ensures walks_after { walks.new ≡ over (taken (job_of s.now) (table_of s.now 2 16)) walks.old }
    ensures hops_after { hops.new ≡ over (taken (job_of s.now) (table_of s.now 3 16)) hops.old }
{
    let job = read(s)?;
    let n = job.counts;
    copy_table(s, 0, n.vertices, 12, vertices);
    copy_table(s, n.vertices, n.walks, 16, walks);
    copy_table(s, n.vertices + n.walks, n.hops, 16, hops);
    Ok(job)
}
