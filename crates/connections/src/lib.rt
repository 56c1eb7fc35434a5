// The hops between consecutive timed stops of a timetable, by the sorted records of its stops.
// Promises: laws alone. The hops that the records give, one behind the other, are those of the definitions of `feed`.
// Rests on: the sorted stops of `succession`, the records of `sorting`.

#![tactic(auto)]
