// The records made from the lines of a timetable are those of its stops; laws alone.
// Promises: where nothing is refused before 15, the answer for these records is the timetable's answer.
// Rests on: the records of lines (`stoplist`), stops that are told alike (`alike`), the answer for records (`departures`).

#![tactic(auto)]
