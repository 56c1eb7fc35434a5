// Numbers in bytes, bytes written at a place, the three quantities of RULES 5.2, and refusals by reason and place.
// Promises: what is read is what `journeys` decodes, what is written reads back, and seconds, ticks and offsets meet in the named conversions alone.
// Rests on: the definitions of `journeys` alone.
#![tactic(auto)]

ghost use Rattle.std.specs.Prelude.{◌≡◌, ℕ, Err, ◌+◌, ◌*◌, ◌≤◌, leb, pos, nat_abs, ◌-ℤ◌, length, replicate, ◌≤ℤ◌};
ghost use Rattle.journeys.specs.Bytes as bytes;
ghost use Rattle.journeys.specs.Bytes.{be16, be32, clock, clocked};
ghost use Rattle.words.specs.Quantities.{seconds_of, DayTime, ticks_before};
ghost use Rattle.words.specs.Told.{number_of, told_by};
ghost use Rattle.words.specs.Written.{written};

// Seconds from midnight of the service day, ticks, and decimetres on a walk record: three quantities, joined by the conversions below alone.
#[derive(Clone, Copy, PartialEq, Eq, PartialOrd, Ord)]
pub struct Seconds(pub i32);

#[derive(Clone, Copy)]
pub struct Ticks(pub u32);

#[derive(Clone, Copy, PartialEq, Eq)]
pub struct Offset(pub u32);

// Why something is refused, in the order of the numbers of RULES 12, of which the first is 1.
#[derive(Clone, Copy)]
pub enum Reason {
    Length,
    Walk,
    Hop,
    WalkOrder,
    HopOrder,
    Vertex,
    Query,
    HeldRoom,
    SettledRoom,
    PartRoom,
    Trip,
    Columns,
    Line,
    UnknownId,
    Sequence,
    StopTimes,
    HopRoom,
    Scratch,
    Patients,
    Evening,
    Entry,
    RecordList,
    Coordinate,
    EmptyList,
    BoughtVertex,
    BoughtDistance,
    BoughtRecord,
    BoughtOffer,
    IdLine,
}

impl From<Reason> for u32 {
    ghost from_gives = { λ reason number. number ≡ number_of reason };

    fn from(reason: Reason) -> u32 {
        match reason {
            Reason::Length => 1,
            Reason::Walk => 2,
            Reason::Hop => 3,
            Reason::WalkOrder => 4,
            Reason::HopOrder => 5,
            Reason::Vertex => 6,
            Reason::Query => 7,
            Reason::HeldRoom => 8,
            Reason::SettledRoom => 9,
            Reason::PartRoom => 10,
            Reason::Trip => 11,
            Reason::Columns => 12,
            Reason::Line => 13,
            Reason::UnknownId => 14,
            Reason::Sequence => 15,
            Reason::StopTimes => 16,
            Reason::HopRoom => 17,
            Reason::Scratch => 18,
            Reason::Patients => 19,
            Reason::Evening => 20,
            Reason::Entry => 21,
            Reason::RecordList => 22,
            Reason::Coordinate => 23,
            Reason::EmptyList => 24,
            Reason::BoughtVertex => 25,
            Reason::BoughtDistance => 26,
            Reason::BoughtRecord => 27,
            Reason::BoughtOffer => 28,
            Reason::IdLine => 29,
        }
    }
}

// What stands in a refusal for its number: a reason, or a number as it is lent. Each reason has one in either form.
pub trait Numbered: Copy + From<Reason> {
    ghost number: { Self → ℕ };

    fn number(self) -> u32
        ensures { result ≡ number self };
}

impl Numbered for Reason {
    ghost number = { number_of };

    fn number(self) -> u32 {
        u32::from(self)
    }
}

impl Numbered for u32 {
    ghost number = { λ number. number };

    fn number(self) -> u32 {
        self
    }
}

// A reason and a place: what a refusal tells. A caller that knows a number alone has that in the reason's place.
#[derive(Clone, Copy)]
pub struct Refusal<N = Reason> {
    pub reason: N,
    pub place: u32,
}

pub const NONE: u32 = 0xFFFF_FFFF;

pub fn refused<N: Numbered>(reason: N, place: u32) -> Result<(), Refusal<N>>
    ensures told { told_by N.number result ≡ record { number = N.number reason; place = place } }
    ensures exactly { result ≡ Err (record { reason = reason; place = place }) }
{
    Err(Refusal { reason, place })
}

// Four bytes, the first the most significant.
pub fn word(a: u8, b: u8, c: u8, d: u8) -> u32
    ensures { result ≡ a * 16777216 + b * 65536 + c * 256 + d }
{
    u32::from_be_bytes([a, b, c, d])
}

// A number in the bytes at a place. A read compiles to one load and a byte swap, and a write to a byte swap and one store.
pub fn word_at(s: &[u8], at: usize) -> u32
    requires { at + 4 ≤ length s.now }
    ensures { result ≡ be32 s.now at }
{
    u32::from_be_bytes([s[at], s[at + 1], s[at + 2], s[at + 3]])
}

pub fn half_at(s: &[u8], at: usize) -> u32
    requires { at + 2 ≤ length s.now }
    ensures { result ≡ be16 s.now at }
{
    u16::from_be_bytes([s[at], s[at + 1]]) as u32
}

// A number's four bytes at a place of a buffer.
pub fn put_word(out: &mut [u8], at: usize, x: u32)
    requires { at + 4 ≤ length out.old }
    ensures { out.new ≡ written out.old at (bytes.word x) }
{
    out[at..at + 4].copy_from_slice(&x.to_be_bytes());
}

// Every byte becomes zero.
pub fn zero(out: &mut [u8])
    ensures { out.new ≡ replicate (length out.old) 0 }
{
    out.fill(0);
}

// The 32 bits of a signed number, which count from midnight.
pub fn seconds_of(bits: u32) -> Seconds
    ensures { result ≡ seconds_of (clock bits) }
{
    if bits < 2147483648 {
        Seconds(bits as i32)
    } else {
        Seconds(-1 - ((4294967295 - bits) as i32))
    }
}

pub fn not_after(a: Seconds, b: Seconds) -> bool
    ensures { result ≡ leb (clocked a.0) (clocked b.0) }
{
    a <= b
}

// The seconds from one time to another, below zero where the other is sooner.
pub fn since(later: Seconds, sooner: Seconds) -> Seconds
    requires day_time { DayTime (clocked later.0) }
    requires day_time_2 { DayTime (clocked sooner.0) }
    ensures { result.0 ≡ later.0 -ℤ sooner.0 }
{
    Seconds(later.0 - sooner.0)
}

// A span of seconds in ticks: walking one decimetre is one tick, and the speed is decimetres a second.
pub fn ticks_of(span: Seconds, speed: u32) -> Ticks
    requires pos_bound { (pos 0 ≤ℤ span.0) × (span.0 ≤ℤ pos 259200) }
    requires speed_bound { speed ≤ 100 }
    ensures { result.0 ≡ nat_abs span.0 * speed }
{
    Ticks((span.0 as u32) * speed)
}

// How many ticks before the arrival a second lies that is not after it.
pub fn ticks_before(arrival: Seconds, second: Seconds, speed: u32) -> Ticks
    requires day_time { DayTime (clocked arrival.0) }
    requires day_time_2 { DayTime (clocked second.0) }
    requires second_bound { (clocked second.0 ≤ clocked arrival.0) × (speed ≤ 100) }
    ensures { result.0 ≡ ticks_before (clocked arrival.0) (clocked second.0) speed }
{
    ticks_of(since(arrival, second), speed)
}

// The ticks that it takes to walk so far.
pub fn walked(way: Offset) -> Ticks
    ensures { result.0 ≡ way.0 }
{
    Ticks(way.0)
}
