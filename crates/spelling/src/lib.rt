// A hop of 20 bytes, written; and the number of a trip by the place of its line in the list.
// Promises: every byte of the slice, as the definitions of `feed` write a hop.
// Rests on: the trip list by its places (`naming`), words (`words`).
#![tactic(auto)]

ghost use Rattle.std.specs.Prelude.{◌≡◌, true, ◌++◌, ◌+◌, ◌-◌, ◌<◌, ◌≤◌, length, take, drop};
ghost use Rattle.journeys.specs.Counting.{none};
ghost use Rattle.journeys.specs.Bytes.{word};
ghost use Rattle.words.specs.Written.{written};
ghost use Rattle.feed.specs.Ids.{list_line};
ghost use Rattle.feed.specs.Fields.{row_of, field};
ghost use Rattle.feed.specs.Values.{value_of};
ghost use Rattle.naming.specs.Named.{line_at};
ghost use Rattle.spelling.specs.Spelled.{number_at};

use words::put_word;

fn number_between(list: &[u8], place: usize, stop: usize) -> u32
    requires { (place ≤ stop) × (stop ≤ length list.now) × (list_line none (take (stop - place) (drop place list.now)) ≡ true) }
    ensures { result ≡ value_of (field (row_of (take (stop - place) (drop place list.now))) 1) }
{
    halts::number_of(&list[place..stop], 1)
}

// The number in the line of a list that begins at a place.
pub fn number_at(list: &[u8], place: usize) -> u32
    requires { (place < length list.now) × (list_line none (line_at list.now place) ≡ true) }
    ensures { result ≡ number_at list.now place }
{
    let stop = lines::line_stop(list, place);
    number_between(list, place, stop)
}

pub fn put_hop(out: &mut [u8], place: usize, from: u32, to: u32, left: u32, reached: u32, trip: u32)
    requires { place + 20 ≤ length out.old }
    ensures { out.new ≡ written out.old place (word from ++ word to ++ word left ++ word reached ++ word trip) }
{
    put_word(out, place, from);
    put_word(out, place + 4, to);
    put_word(out, place + 8, left);
    put_word(out, place + 12, reached);
    put_word(out, place + 16, trip);
}
