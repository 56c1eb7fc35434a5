// Numbers and times in the fields of a timetable.
// Promises: each reads a field exactly as the definitions of `feed` do.
// Rests on: `feed` alone.
#![tactic(auto)]

ghost use Rattle.std.specs.Prelude.{◌≡◌, length, ◌+◌, ◌*◌, ◌-◌, ◌≤◌};
ghost use Rattle.values.specs.Readings.{number_read, time_read};

// A number up to a greatest.
pub fn read_number(field: &[u8], most: u32) -> Option<u32>
    ensures { result ≡ number_read most field.now }
{
    if field.len() == 0 {
        return None;
    }
    let greatest = most as u64;
    let mut value: u64 = 0;
    for b in field {
        if !b.is_ascii_digit() {
            return None;
        }
        let longer = 10 * value + (u64::from(*b) - 48);
        if greatest < longer {
            return None;
        }
        value = longer;
    }
    Some(value as u32)
}

// A time whose hours have so many digits.
fn time_parts(field: &[u8], h: usize) -> Option<u32>
    requires { (length field.now ≡ h + 6) × (1 ≤ h) × (h ≤ 2) }
    ensures { result ≡ time_read field.now }
{
    let m = h + 1;
    let colon = h + 3;
    let s = h + 4;
    let end = h + 6;
    if (field[h] != 58) | (field[colon] != 58) {
        return None;
    }
    let hours = read_number(&field[..h], 47)?;
    let minutes = read_number(&field[m..colon], 59)?;
    let seconds = read_number(&field[s..end], 59)?;
    Some(3600 * hours + 60 * minutes + seconds)
}

// A time of the service day in seconds: H:MM:SS or HH:MM:SS, to 47:59:59.
pub fn read_time(field: &[u8]) -> Option<u32>
    ensures { result ≡ time_read field.now }
{
    let n = field.len();
    if n == 7 {
        return time_parts(field, 1);
    }
    if n == 8 {
        return time_parts(field, 2);
    }
    None
}
