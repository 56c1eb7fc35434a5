// The program `reach`: a job on standard input, its text on standard output, with room lent for all and no step limit.
// Promises: the text is that of RULES 14, for every input (`Says`).
// Rests on: the job reader (`job`), the run (`search`), the parts of its list (`covering`), the printed text (`report`), and std's reading and writing of the standard streams.
#![tactic(auto)]

ghost use Rattle.std.specs.Prelude.{◌≡◌, List, ℕ, true, IfSome, ◌<◌, ◌≤◌, length, take};
ghost use Rattle.std.specs.Io.KnownBytes.{Consumes, IsAtEnd};
ghost use Rattle.io.specs.Counts.{IsPrefixLen};
ghost use Rattle.records.specs.Asked.{query_of};
ghost use Rattle.reach.specs.Says.{RunTold, Answered};

use records::Query;
use std::io::{ErrorKind, Read, Write};

// The hops of a job have 16 bytes: it knows no trips.
const HOP_SIZE: usize = 16;

// The run over the tables of a job, the parts of its list, and the text of both. The list is what the run counts: the zero rest of its buffer would read as
// entries. That of a refused run is empty, and no parts of it are printed.
fn run_text<'a>(vertices: &[u8], walks: &'a [u8], hops: &'a [u8], q: Query, out: &mut [u8]) -> usize
    requires { 100548 ≤ length out.old }
    ensures run_told { RunTold vertices.now walks.now hops.now (query_of q) out.old out.new result }
    ensures prefix_len { IsPrefixLen result out.new }
{
    let mut held = [0u8; 8192];
    let mut settled = [0u8; 4096];
    let mut parts = [0u8; 12312];
    let mut a = search::run(
        vertices,
        walks,
        hops,
        HOP_SIZE,
        &mut held,
        &mut settled,
        q,
        4294967295,
    );
    let end = 8 * a.settled as usize;
    let p = covering::parts(
        vertices,
        walks,
        hops,
        HOP_SIZE,
        &settled[..end],
        &mut parts,
        q,
    );
    a.parts = p.unwrap_or(0);
    report::report(a, &settled, &parts, &held, out)
}

// The text of a job of any length.
fn answer(input: &[u8], out: &mut [u8]) -> usize
    requires { 100548 ≤ length out.old }
    ensures answered { Answered input.now out.old out.new result }
    ensures prefix_len { IsPrefixLen result out.new }
{
    let mut vertices = [0u8; 6144];
    let mut walks = [0u8; 16384];
    let mut hops = [0u8; 16384];
    match job::load(input, &mut vertices, &mut walks, &mut hops) {
        Ok(job) => {
            let n = job.counts;
            let a = 12 * n.vertices;
            let b = 16 * n.walks;
            let c = 16 * n.hops;
            run_text(&vertices[..a], &walks[..b], &hops[..c], job.asked, out)
        }
        Err(n) => report::fault_line(n, out),
    }
}

// The text of an input of any length, of which the first 51,221 bytes have been read, or all: one byte more than the largest job has, so that a longer input is seen to be longer.
fn answer_read(input: &[u8], n: usize, out: &mut [u8]) -> usize
    requires { (length input.now ≡ 51221) × (n ≤ 51221) × (100548 ≤ length out.old) }
    ensures by_index { (s : List ℕ) → take 51221 s ≡ take n input.now → Answered s out.old out.new result }
    ensures prefix_len { IsPrefixLen result out.new }
{
    answer(&input[..n], out)
}

// So many bytes at the front of a buffer, and whether every read was made without a failure.
// A flag beside the count: what stands before a failed read is answered all the same, so a Result would be taken apart where it comes in.
#[derive(Drop)]
struct Filled {
    count: usize,
    unfailing: bool,
}

// Reads until the buffer is full, the input ends or a read fails. What stands at the front of the buffer then is what the input has given; where no read failed, that is all
// of it or as much as there is room for.
fn read_full<R: Read>(input: &mut R, buf: &mut [u8]) -> Filled
    ensures prefix_len { IsPrefixLen result.count buf.new }
    ensures bytes { Consumes (R.remaining input.old) (R.remaining input.new) (take result.count buf.new) }
    ensures end { result.unfailing ≡ true → result.count < length buf.old → IsAtEnd (R.remaining input.new) }
{
    let mut done = 0;
    for _ in 0..u64::MAX {
        if done >= buf.len() {
            return Filled {
                count: done,
                unfailing: true,
            };
        }
        match input.read(&mut buf[done..]) {
            Ok(0) => {
                return Filled {
                    count: done,
                    unfailing: true,
                };
            }
            Ok(n) => done += n,
            Err(e) => {
                if e.kind() != ErrorKind::Interrupted {
                    break;
                }
            }
        }
    }
    Filled {
        count: done,
        unfailing: false,
    }
}

// The text of what an input gives: where no read fails, that of the whole input, however long it is.
fn answer_from<R: Read>(input: &mut R, out: &mut [u8]) -> Filled
    requires { 100548 ≤ length out.old }
    ensures answered { result.unfailing ≡ true → IfSome (R.remaining input.old) (λ s. Answered s out.old out.new result.count) }
    ensures prefix_len { IsPrefixLen result.count out.new }
{
    let mut buf = [0u8; 51221];
    let given = read_full(input, &mut buf);
    let count = answer_read(&buf, given.count, out);
    Filled {
        count,
        unfailing: given.unfailing,
    }
}

fn main(rt: HostRuntime) {
    let mut out = [0u8; 100548];
    let text = answer_from(&mut rt.stdin(), &mut out);
    if rt.stdout().write_all(&out[..text.count]).is_err() {
        let _ = rt
            .stderr()
            .write_all(b"reach: the answer cannot be written\n");
    }
}
