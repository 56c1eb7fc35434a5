// What the bytes of a completed call for a run say, over any network that is told by journeys, and those of a call for parts: the demands in either direction.
// Promises: refusals, room, counts, the settled and the held records, what stays dropped and forgotten, the parts. Laws alone.
// Rests on: the order and the held table over any network (`journeys`), records in bytes (`records`), the 24 bytes of an answer (`calls`).

#![tactic(auto)]
