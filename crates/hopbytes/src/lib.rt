// The sorted records of hops become the bytes of hops, where they stand.
// Promises: 20 bytes for each hop, big-endian: "from", "to", departure, arrival and the number of its trip, which is read in the list of trips.
// Rests on: the records of `sorting` and what they say (`hoporder`), lines and their fields (`lines`, `rows`), numbers in bytes (`words`).
#![tactic(auto)]

ghost use Rattle.std.specs.Prelude.{◌≡◌, true, ℕ, ◌+◌, ◌*◌, ◌/◌, ◌%◌, ◌<◌, ◌≤◌, ◌^◌, length};
ghost use Rattle.journeys.specs.Counting.{none, joined};
ghost use Rattle.table_bytes.specs.Columns.{at};
ghost use Rattle.sorting.specs.Sorted.{recs};
ghost use Rattle.feed.specs.Fields.{row_of, field};
ghost use Rattle.feed.specs.Values.{value_of};
ghost use Rattle.feed.specs.Ids.{list_line};
ghost use Rattle.words.specs.Written.{written};
ghost use Rattle.hoporder.specs.Named.{line_from, number_at};
ghost use Rattle.hoporder.specs.Hops.{hop_out};
ghost use Rattle.hopbytes.specs.Listing.{trip_at, OnTrip, OnTrips};

use sorting::{high, low, middle};
use words::put_word;

// The number on a line of the list.
fn number_on(line: &[u8]) -> u32
    requires { list_line none line.now ≡ true }
    ensures { result ≡ value_of (field (row_of line.now) 1) }
{
    rows::number_in(line, 1, 4294967295).unwrap()
}

// The number of the trip whose line begins at a place.
fn trip_number(trips: &[u8], place: usize) -> u32
    requires { (place ≤ length trips.now) × (list_line none (line_from trips.now place) ≡ true) }
    ensures { result ≡ number_at trips.now place }
{
    let stop = lines::line_stop(trips, place);
    number_on(&trips[place..stop])
}

// Record i of n becomes a hop.
fn write_out(b: &mut [u8], n: usize, i: usize, trips: &[u8])
    requires { (length b.old ≡ 20 * n) × (i < n) × OnTrip trips.now (at (recs n b.old) i) }
    ensures { b.new ≡ written b.old (20 * i) (hop_out (trip_at trips.now) (at (recs n b.old) i)) }
{
    let first = low(b, n, i);
    let second = middle(b, n, i);
    let to = high(b, n, i);
    let trip = trip_number(trips, (second % 4294967296) as usize - 1);
    let p = 20 * i;
    put_word(b, p, (first / 68719476736) as u32);
    put_word(b, p + 4, to);
    put_word(b, p + 8, (first / 262144 % 262144) as u32);
    put_word(b, p + 12, (first % 262144) as u32);
    put_word(b, p + 16, trip);
}

pub fn write_hops(b: &mut [u8], n: usize, trips: &[u8])
    requires { (length b.old ≡ 20 * n) × OnTrips trips.now (recs n b.old) }
    ensures { b.new ≡ joined (λ i. hop_out (trip_at trips.now) (at (recs n b.old) i)) n }
{
    for i in 0..n {
        write_out(b, n, i, trips);
    }
}
