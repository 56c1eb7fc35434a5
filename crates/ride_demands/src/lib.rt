// What the bytes of a completed call with a boarding time say: demands 1 and 2 with rides in place of hops, of one call and of two whose boarding times differ.
// Promises: refusals and room, counts, what is left in the settled list and in the scratch, who is listed and with which figure. Laws alone.
// Rests on: the definitions and the theory of `boarding`, records in bytes (`answered`).

#![tactic(auto)]
