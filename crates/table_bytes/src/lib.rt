// Numbers of 4 and of 8 bytes in a lent slice, little-endian; and a buffer of r slots of 16 bytes as four columns of numbers: words of 8 bytes (r), tree nodes of 2 (2 r), heads of 2 (r), nexts of 2 (r).
// Promises: a read gives the number at its place, a write changes that number and nothing else.
// Rests on: nothing.
#![tactic(auto)]

ghost use Rattle.std.specs.Prelude.{◌≡◌, ◌+◌, ◌*◌, ◌<◌, ◌≤◌, length};
ghost use Rattle.table_bytes.specs.Columns.{dec, enc, col, cols, at, put, set_w, set_t, set_h, set_n};

// It becomes one load, and a write one store.
pub fn read8(p: &[u8]) -> u64
    requires { length p.now ≡ 8 }
    ensures { result ≡ dec 8 p.now 0 }
{
    u64::from_le_bytes([p[0], p[1], p[2], p[3], p[4], p[5], p[6], p[7]])
}

pub fn read4(p: &[u8]) -> u32
    requires { length p.now ≡ 4 }
    ensures { result ≡ dec 4 p.now 0 }
{
    u32::from_le_bytes([p[0], p[1], p[2], p[3]])
}

fn read2(p: &[u8]) -> usize
    requires { length p.now ≡ 2 }
    ensures { result ≡ dec 2 p.now 0 }
{
    u16::from_le_bytes([p[0], p[1]]) as usize
}

pub fn write8(p: &mut [u8], w: u64)
    requires { length p.old ≡ 8 }
    ensures { p.new ≡ enc 8 w }
{
    p.copy_from_slice(&w.to_le_bytes());
}

pub fn write4(p: &mut [u8], x: u32)
    requires { length p.old ≡ 4 }
    ensures { p.new ≡ enc 4 x }
{
    p.copy_from_slice(&x.to_le_bytes());
}

fn write2(p: &mut [u8], x: usize)
    requires { length p.old ≡ 2 }
    ensures { p.new ≡ enc 2 x }
{
    p.copy_from_slice(&((x % 65536) as u16).to_le_bytes());
}

pub fn word(b: &[u8], r: usize, i: usize) -> u64
    requires { (length b.now ≡ 16 * r) × (i < r) }
    ensures { result ≡ at (cols r b.now).w i }
{
    let o = i * 8;
    read8(&b[o..o + 8])
}

// Number i of the column of n numbers that starts at o.
fn half_at(b: &[u8], o: usize, n: usize, i: usize) -> usize
    requires { (o + 2 * n ≤ length b.now) × (i < n) }
    ensures { result ≡ at (col 2 n b.now o) i }
{
    let p = o + i * 2;
    read2(&b[p..p + 2])
}

pub fn tree(b: &[u8], r: usize, i: usize) -> usize
    requires { (length b.now ≡ 16 * r) × (i < 2 * r) }
    ensures { result ≡ at (cols r b.now).t i }
{
    half_at(b, 8 * r, 2 * r, i)
}

pub fn head(b: &[u8], r: usize, i: usize) -> usize
    requires { (length b.now ≡ 16 * r) × (i < r) }
    ensures { result ≡ at (cols r b.now).h i }
{
    half_at(b, 12 * r, r, i)
}

pub fn next(b: &[u8], r: usize, i: usize) -> usize
    requires { (length b.now ≡ 16 * r) × (i < r) }
    ensures { result ≡ at (cols r b.now).n i }
{
    half_at(b, 14 * r, r, i)
}

pub fn set_word(b: &mut [u8], r: usize, i: usize, x: u64)
    requires { (length b.old ≡ 16 * r) × (i < r) }
    ensures { cols r b.new ≡ set_w (cols r b.old) i x }
{
    let o = i * 8;
    write8(&mut b[o..o + 8], x);
}

// Number i of the column that starts at o becomes x.
fn set_half(b: &mut [u8], o: usize, i: usize, x: usize)
    requires { o + i * 2 + 2 ≤ length b.old }
    ensures { b.new ≡ put b.old (o + i * 2) (enc 2 x) }
{
    let p = o + i * 2;
    write2(&mut b[p..p + 2], x);
}

pub fn set_tree(b: &mut [u8], r: usize, i: usize, x: usize)
    requires { (length b.old ≡ 16 * r) × (i < 2 * r) × (x < 65536) }
    ensures { cols r b.new ≡ set_t (cols r b.old) i x }
{
    set_half(b, 8 * r, i, x);
}

pub fn set_head(b: &mut [u8], r: usize, i: usize, x: usize)
    requires { (length b.old ≡ 16 * r) × (i < r) × (x < 65536) }
    ensures { cols r b.new ≡ set_h (cols r b.old) i x }
{
    set_half(b, 12 * r, i, x);
}

pub fn set_next(b: &mut [u8], r: usize, i: usize, x: usize)
    requires { (length b.old ≡ 16 * r) × (i < r) × (x < 65536) }
    ensures { cols r b.new ≡ set_n (cols r b.old) i x }
{
    set_half(b, 14 * r, i, x);
}
