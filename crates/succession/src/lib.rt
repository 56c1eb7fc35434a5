// The stops of a timetable as records of 20 bytes, sorted by trip, sequence and line.
// Promises: laws alone. What repeats a sequence or has times that are not in order is told by the neighbours of each record, as the definitions of `feed` say it.
// Rests on: the records of `sorting`, the definitions of `feed`.

#![tactic(auto)]
