// Stops of trips told with other names for their trips.
// Promises: laws alone. Which stops are refused and which hops there are goes by which stops share a trip, not by what the trip is called.
// Rests on: the definitions of `feed`.

#![tactic(auto)]
