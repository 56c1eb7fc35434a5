// What an operator's timetable means: lines, fields, times, lists of ids, trips by their ids, and the hops between timed stops. Definitions and laws alone; there is no code here.
// Promises: nothing by itself. Its definitions are what `lines` and `timetable` cite.
// Rests on: the refusals and the numbers in bytes of `journeys`.

#![tactic(auto)]
