// Time to change: a run with a boarding time, in which hops of one trip are one ride. The definitions and what is proved of them; `riding` makes such a run.
// Promises: there is one answer for every input, its list is exactly who can be there in time, and with no boarding time it is the list of the ordinary run: laws alone.
// Rests on: the definitions and the theory of `journeys`.

#![tactic(auto)]
