// The hops of a timetable in the order of the definitions, from the records that were gathered and sorted.
// Promises: laws alone. The sorted records of the hops are, one by one, the hops that `feed` tells of the stops in the order of their lines.
// Rests on: the definitions of `feed`, the records of `succession` and `connections`, the order of `sorting`, other names for trips (`relabelled`).

#![tactic(auto)]
