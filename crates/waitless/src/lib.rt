// The rules as they were before walks had waits, and tables without a wait under both.
// Promises: where no walk has a wait, the check, the run and the parts answer as before, in every byte: laws alone.
// Rests on: the definitions of `journeys`.

#![tactic(auto)]
