// Hop tables moved between records of 16 bytes and records of 20, which end in a trip number.
// Promises: every byte of the target, or a refusal that leaves the target as it was. What the hops say is not judged.
// Rests on: the test of a table's length (`audit`), numbers in bytes and refusals (`words`).
#![tactic(auto)]

ghost use Rattle.std.specs.Prelude.{◌≡◌, true, ◌+◌, ◌*◌, ◌/◌, ◌<◌, ◌≤◌, eqb, length};
ghost use Rattle.journeys.specs.Refusals.{first_bad};
ghost use Rattle.words.specs.Told.{told};
ghost use Rattle.words.specs.Written.{written};
ghost use Rattle.moves.specs.Moved.{common, trip, lengthened, shortened, move_lengths, forward_refusal, backward_refusal, leaves};

use records::hop_start;
use words::{Reason, Refusal, put_word, refused, word_at};

const WITHOUT_TRIP: usize = 16;

const WITH_TRIP: usize = 20;

// What both sizes of a hop have, 16 bytes, from record i of one table to record i of the other.
fn copy_hop(source: &[u8], from: usize, target: &mut [u8], to: usize, i: usize)
    requires le_from { (16 ≤ from) × (i < length source.now / from) }
    requires le_to { (16 ≤ to) × (i < length target.old / to) }
    ensures { target.new ≡ written target.old (to * i) (common from source.now i) }
{
    let at = hop_start(from, i);
    let place = hop_start(to, i);
    target[place..place + WITHOUT_TRIP].copy_from_slice(&source[at..at + WITHOUT_TRIP]);
}

// Every hop with the trip 0, for unknown. Two functions, this and `shorten`: one for both would ask for every hop whether a trip is to be written.
fn lengthen(source: &[u8], target: &mut [u8])
    requires { length target.old ≡ 20 * (length source.now / 16) }
    ensures { target.new ≡ lengthened source.now }
{
    let n = source.len() / WITHOUT_TRIP;
    for i in 0..n {
        copy_hop(source, WITHOUT_TRIP, target, WITH_TRIP, i);
        put_word(target, WITH_TRIP * i + 16, 0);
    }
}

// Every hop without its trip.
fn shorten(source: &[u8], target: &mut [u8])
    requires { length target.old ≡ 16 * (length source.now / 20) }
    ensures { target.new ≡ shortened source.now }
{
    let n = source.len() / WITH_TRIP;
    for i in 0..n {
        copy_hop(source, WITH_TRIP, target, WITHOUT_TRIP, i);
    }
}

// Refusal 1: place 2 for the source, place 6 for a target of another number of records.
fn lengths(source: &[u8], from: usize, target: &[u8], to: usize) -> Result<(), Refusal>
    requires { (0 < from) × (to ≤ 20) }
    ensures { told result ≡ move_lengths from to source.now target.now }
{
    if !audit::table_ok(source, from, 0, 262144) {
        return refused(Reason::Length, 2);
    }
    if target.len() != to * (source.len() / from) {
        return refused(Reason::Length, 6);
    }
    Ok(())
}

// Refusal 11: the first hop with a trip.
fn trips(source: &[u8]) -> Result<(), Refusal>
    requires { length source.now / 20 ≤ 262144 }
    ensures { told result ≡ first_bad 11 (λ i. eqb (trip source.now i) 0) (length source.now / 20) }
{
    let n = (source.len() / WITH_TRIP) as u32;
    for i in 0..n {
        if word_at(source, WITH_TRIP * (i as usize) + 16) != 0 {
            return refused(Reason::Trip, i);
        }
    }
    Ok(())
}

// Hops of 16 bytes to hops of 20.
pub fn forward(source: &[u8], target: &mut [u8]) -> Result<(), Refusal>
    ensures result_value { told result ≡ forward_refusal source.now target.old }
    ensures target_after { target.new ≡ leaves (forward_refusal source.now target.old) (lengthened source.now) target.old }
{
    lengths(source, WITHOUT_TRIP, target, WITH_TRIP)?;
    lengthen(source, target);
    Ok(())
}

// Hops of 20 bytes to hops of 16, if none has a trip.
pub fn backward(source: &[u8], target: &mut [u8]) -> Result<(), Refusal>
    ensures result_value { told result ≡ backward_refusal source.now target.old }
    ensures target_after { target.new ≡ leaves (backward_refusal source.now target.old) (shortened source.now) target.old }
{
    lengths(source, WITH_TRIP, target, WITHOUT_TRIP)?;
    trips(source)?;
    shorten(source, target);
    Ok(())
}
