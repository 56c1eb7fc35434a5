// Journeys: the definitions of the rules (docs/RULES.md), and what is proved of them. There is no code here.
// specs/ is what a reader must believe: tables as bytes, journeys, the order of settling, what is held, the parts, the refusals, the answers.
// proofs/ rests on nothing but these: the theory over any network of monotone offers, and the records of the rules as an instance of it.

#![tactic(auto)]
