// What the hops of an accepted timetable are to whoever reads them as a hop table: laws alone.
// Promises: each hop has its pair of consecutive timed stops, each such pair has its hop, and refusals 5 and 3 never come from them.
// Rests on: the definitions of `feed` and of the tables in `journeys`.

#![tactic(auto)]
