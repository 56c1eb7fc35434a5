// Walks with a twin, counted: in good tables as many leave a vertex as arrive at it.
// Promises: laws alone.
// Rests on: the definitions of `journeys`.

#![tactic(auto)]
