// A list of records that name vertices: the first word of each is a vertex, the second a distance. No vertex may stand twice.
// Promises: the first bad entry is found as the definition says, in two passes over the list, and the lent marks are zero afterwards.
// Rests on: the numbers of `words` and the set of `marks`, one half of the vertices at a time.
#![tactic(auto)]

ghost use Rattle.std.specs.Prelude.{◌≡◌, true, ◌||◌, ◌&&◌, not, ℕ, ◌+◌, ◌*◌, ◌/◌, ◌%◌, ◌<◌, ◌≤◌, eqb, ltb, length, replicate};
ghost use Rattle.journeys.specs.Bytes.{be32};
ghost use Rattle.marks.specs.Marks.{bit};
ghost use Rattle.lists.specs.Lists.{told};
ghost use Rattle.journeys.specs.Lists.{allows, list_refusal};
ghost use Rattle.lists.specs.Passes.{in_half, half_ok, First};

fn allowed(v: u32, distance: u32, vertices: u32, most: u32) -> bool
    ensures { result ≡ (ltb v vertices && allows most distance) }
{
    (v < vertices) & ((most == 4294967295) | (distance <= most))
}

// The entry at a byte, judged by what is marked of a half. A good one of that half is marked.
fn entry_ok(
    list: &[u8],
    at: usize,
    vertices: u32,
    most: u32,
    half: usize,
    marks: &mut [u16],
) -> bool
    requires { (at + 8 ≤ length list.now) × (length marks.old ≡ 2048) }
    ensures value { result ≡ (ltb (be32 list.now at) vertices && allows most (be32 list.now (at + 4)) && not (in_half half (be32 list.now at) && bit marks.old (be32 list.now at % 32768))) }
    ensures i_after { result ≡ true → (i : ℕ) → i < 32768 → bit marks.new i ≡ (bit marks.old i || (in_half half (be32 list.now at) && eqb (be32 list.now at % 32768) i)) }
{
    let v = words::word_at(list, at);
    let distance = words::word_at(list, at + 4);
    if !allowed(v, distance, vertices, most) {
        return false;
    }
    let vertex = v as usize;
    if vertex / 32768 != half {
        return true;
    }
    marks::mark(marks, vertex % 32768) == 1
}

// The first of `end` entries that is not good as far as one half goes, or `end`. A place, and no Option: the pass over the other half ends there.
fn scan(
    list: &[u8],
    size: usize,
    vertices: u32,
    most: u32,
    half: usize,
    end: usize,
    marks: &mut [u16],
) -> usize
    requires le_size { (8 ≤ size) × (end ≤ length list.now / size) }
    requires marks_value { marks.old ≡ replicate 2048 0 }
    ensures { First (half_ok size vertices most list.now half) end result }
{
    for i in 0..end {
        if !entry_ok(list, size * i, vertices, most, half, marks) {
            return i;
        }
    }
    end
}

fn pass(
    list: &[u8],
    size: usize,
    vertices: u32,
    most: u32,
    half: usize,
    end: usize,
    marks: &mut [u16],
) -> usize
    requires le_size { (8 ≤ size) × (end ≤ length list.now / size) }
    requires marks_value { marks.old ≡ replicate 2048 0 }
    ensures first { First (half_ok size vertices most list.now half) end result }
    ensures marks_after { marks.new ≡ replicate 2048 0 }
{
    let found = scan(list, size, vertices, most, half, end, marks);
    marks::clear(marks);
    found
}

// The list as records of `size` bytes, for `vertices` vertices: every entry is good, or the first that is not. No distance may be above `most`; where that is FFFFFFFF they are not looked at.
pub fn judge(
    list: &[u8],
    size: usize,
    vertices: u32,
    most: u32,
    marks: &mut [u16],
) -> Result<(), u32>
    requires le_size { (8 ≤ size) × (vertices ≤ 65536) }
    requires marks_value { marks.old ≡ replicate 2048 0 }
    ensures result_value { told 21 result ≡ list_refusal size vertices most list.now }
    ensures marks_after { marks.new ≡ replicate 2048 0 }
{
    let n = list.len() / size;
    let lower = pass(list, size, vertices, most, 0, n, marks);
    let found = pass(list, size, vertices, most, 1, lower, marks);
    if found < n { Err(found as u32) } else { Ok(()) }
}
