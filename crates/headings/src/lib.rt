// Line 1 of a timetable: in which fields its five columns stand.
// Promises: the columns by their names, as the definitions of `feed` find them.
// Rests on: the names in line 1 (`header`).
#![tactic(auto)]

ghost use Rattle.headings.specs.Found.{Found};

use stoplist::Columns;

pub fn columns_of(line: &[u8]) -> Columns
    ensures { Found line.now result }
{
    let fields = header::count_fields(line);
    Columns {
        count: fields.count,
        trip: header::column_of(line, b"trip_id"),
        arrival: header::column_of(line, b"arrival_time"),
        departure: header::column_of(line, b"departure_time"),
        stop: header::column_of(line, b"stop_id"),
        sequence: header::column_of(line, b"stop_sequence"),
    }
}
