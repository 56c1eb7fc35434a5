// The 24 bytes of a query, and the 24 or 12 bytes of an answer, as callers in C lend them.
// Promises: the query and the step limit that the bytes name, and the bytes that name an answer.
// Rests on: the numbers of `words`, the query and the answer of `records`; a law of `frame` on six numbers in a row.
#![tactic(auto)]

ghost use Rattle.std.specs.Prelude.{◌≡◌, ◌++◌, ◌+◌, ◌≤◌, length};
ghost use Rattle.journeys.specs.Bytes.{word};
ghost use Rattle.calls.specs.CallBytes.{query_from, limit_in};

use records::{Answer, Query};
use words::{Offset, put_word, seconds_of, word_at};

// The query that stands at a place: record, offset, arrival, duration, speed. Its step limit stands behind it.
pub fn query_at(bytes: &[u8], at: usize) -> Query
    requires { at + 24 ≤ length bytes.now }
    ensures { result ≡ query_from bytes.now at }
{
    Query {
        walk: word_at(bytes, at),
        offset: Offset(word_at(bytes, at + 4)),
        arrival: seconds_of(word_at(bytes, at + 8)),
        duration: word_at(bytes, at + 12),
        speed: word_at(bytes, at + 16),
    }
}

pub fn limit_at(bytes: &[u8], at: usize) -> u32
    requires { at + 24 ≤ length bytes.now }
    ensures { result ≡ limit_in bytes.now at }
{
    word_at(bytes, at + 20)
}

// The six numbers of an answer, 4 bytes each.
pub fn put_answer(out: &mut [u8], a: Answer)
    requires { length out.old ≡ 24 }
    ensures { out.new ≡ word a.refusal ++ word a.place ++ word a.settled ++ word a.parts ++ word a.held ++ word a.finished }
{
    put_word(out, 0, a.refusal);
    put_word(out, 4, a.place);
    put_word(out, 8, a.settled);
    put_word(out, 12, a.parts);
    put_word(out, 16, a.held);
    put_word(out, 20, a.finished);
}

// Three numbers of an answer, 4 bytes each.
pub fn put_three(out: &mut [u8], first: u32, second: u32, third: u32)
    requires { length out.old ≡ 12 }
    ensures { out.new ≡ word first ++ word second ++ word third }
{
    put_word(out, 0, first);
    put_word(out, 4, second);
    put_word(out, 8, third);
}
