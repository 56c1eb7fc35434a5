// The stops of the records and the stops of the definition say the same; laws alone.
// Promises: refusals 15 and 16 and consecutive stops are the same of both.
// Rests on: the records' stops (`entries`), the definitions of `feed`.

#![tactic(auto)]
