// The end of a timetable's answer: the hops of all trips in the slice where their records stand, or a refusal and zeros.
// Promises: every byte of the slice, as the definitions of `feed` say; and, as laws, that stops judged by their records are judged as the definitions judge them.
// Rests on: the records sorted (`sorting`), their laws (`succession`, `connections`), the hops in order (`hoporder`) and written out (`hopbytes`), refusals (`words`).
#![tactic(auto)]

ghost use Rattle.std.specs.Prelude.{◌≡◌, Err, ◌*◌, ◌≤◌, length};
ghost use Rattle.journeys.specs.Counting.{joined};
ghost use Rattle.journeys.specs.Bytes.{filled, cleared};
ghost use Rattle.table_bytes.specs.Columns.{at};
ghost use Rattle.sorting.specs.Sorted.{recs, sorted};
ghost use Rattle.hoporder.specs.Hops.{hop_out};
ghost use Rattle.hopbytes.specs.Listing.{trip_at, OnTrips};
ghost use Rattle.words.specs.Told.{told_by};
ghost use Rattle.departures.specs.Answered.{hops_told};

use sorting::sort;
use words::{Numbered, Refusal};

// A slice that is nothing but the records of hops.
fn in_order(b: &mut [u8], k: usize, trips: &[u8])
    requires { (length b.old ≡ 20 * k) × OnTrips trips.now (recs k b.old) }
    ensures { b.new ≡ joined (λ i. hop_out (trip_at trips.now) (at (sorted (recs k b.old)) i)) k }
{
    sort(b, k);
    hopbytes::write_hops(b, k, trips);
}

// The records of k hops stand in front. Behind the hops the slice becomes zero.
pub fn finish(b: &mut [u8], k: usize, trips: &[u8])
    requires { (20 * k ≤ length b.old) × OnTrips trips.now (recs k b.old) }
    ensures { b.new ≡ filled b.old (joined (λ i. hop_out (trip_at trips.now) (at (sorted (recs k b.old)) i)) k) }
{
    let end = 20 * k;
    in_order(&mut b[..end], k, trips);
    b[end..].fill(0);
}

// A refusal, and zeros.
pub fn refuse<N: Numbered>(b: &mut [u8], reason: N, place: u32) -> Result<usize, Refusal<N>>
    ensures { (told_by N.number result ≡ record { number = N.number reason; place = place }) × (hops_told result ≡ 0) × (b.new ≡ cleared b.old) × (result ≡ Err (record { reason = reason; place = place })) }
{
    b.fill(0);
    Err(Refusal { reason, place })
}
