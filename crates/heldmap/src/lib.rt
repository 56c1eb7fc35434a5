// The held map of the definitions, as the working table has it.
// Promises: laws alone. What a step of the code makes of the map is the map of one settled vertex more.
// Rests on: the definitions and the order of settling (`journeys`), the map of `worktable`, the row of `passing` and what it does to a map by `meeting`.

#![tactic(auto)]
