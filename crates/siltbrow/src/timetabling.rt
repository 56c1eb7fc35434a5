// What an operator's server calls to make hops of a timetable.
ghost use Rattle.timetable.specs.Lent.{feed_of, Called};

// The hops of stop_times.txt and of two lists of ids go into `hops`. The answer slice gets refusal, place and number of hops; 1 where it is not 12
// bytes, and then nothing is written.
pub fn siltbrow_timetable(
    stop_times: &[u8],
    stops: &[u8],
    trips: &[u8],
    hops: &mut [u8],
    answer: &mut [u8],
) -> u32
    ensures { Called (feed_of stop_times.now stops.now trips.now hops.old) answer.old hops.new answer.new result }
{
    timetable::call(stop_times, stops, trips, hops, answer)
}
