// The ids of a list, found by a table of places in lent slots of 32 bits, as far as these hold the list, and line by line from there on.
// Promises: the place of the first line that has an id, as the definitions of `feed` say.
// Rests on: lines by their ids (`naming`). A slot is 0 where it is free, else the place of a line, counted from 1. A number mixed from an id tells the slot where it is looked for first: what the mixing is costs time alone.
#![tactic(auto)]

ghost use Rattle.std.specs.Prelude.{◌≡◌, false, List, ℕ, ◌-◌, ◌<◌, ◌≤◌, length, take, drop};
ghost use Rattle.feed.specs.Lines.{empty};
ghost use Rattle.naming.specs.Named.{stop_at, line_at, next_at, first_bytes, found_from};
ghost use Rattle.idtable.specs.Table.{mixed, start_of, next_of, Lying, Ended, Holds, Grafted, Grown};

use std::marker::Model;

fn mix(name: &[u8]) -> u64
    ensures { result ≡ mixed 1 name.now }
{
    let mut h: u64 = 1;
    for b in name {
        h = (h + u64::from(*b)) * 2654435761 % 4294967296;
    }
    h
}

// The slot where an id is looked for first: its mixed number, as a part of 2^32, of n.
fn first_slot(name: &[u8], n: usize) -> usize
    requires { (0 < n) × (n < 4294967296) }
    ensures { (result ≡ start_of n name.now) × (result < n) }
{
    let h = mix(name);
    (h * (n as u64) / 4294967296) as usize
}

fn next_slot(n: usize, k: usize) -> usize
    requires { k < n }
    ensures { (result ≡ next_of n k) × (result < n) }
{
    let next = k + 1;
    if next == n {
        return 0;
    }
    next
}

// Where the search for an id ends: at a slot that has it, with the place that this holds; at a slot that is free; or nowhere, where no slot is.
#[derive(Clone, Copy)]
enum End {
    Found(usize),
    Free(usize),
    Full,
}

fn probe(table: &[u32], text: &[u8], name: &[u8]) -> End
    requires { (0 < length table.now) × (length table.now < 4294967296) × Lying text.now (length table.now) table.now }
    ensures { Ended text.now (length table.now) table.now name.now result }
{
    let n = table.len();
    let mut k = first_slot(name, n);
    for _turn in 0..n {
        let x = table[k] as usize;
        if x == 0 {
            return End::Free(k);
        }
        if naming::names_at(text, x - 1, name) {
            return End::Found(x);
        }
        k = next_slot(n, k);
    }
    End::Full
}

// The line at a place, whose id is named, gets a slot unless one has its id: how many slots it takes, if one is free.
fn graft(table: &mut [u32], text: &[u8], place: usize, name: &[u8]) -> Option<usize>
    requires table_len { (0 < length table.old) × (length table.old < 4294967296) × (place < length text.now) × (place < 4294967295) }
    requires place_value { (empty (line_at text.now place) ≡ false) × (name.now ≡ first_bytes (line_at text.now place)) × Holds text.now place (length table.old) table.old }
    ensures { Grafted text.now place table.new result }
{
    match probe(table, text, name) {
        End::Found(_) => Some(0),
        End::Free(k) => {
            table[k] = (place + 1) as u32;
            Some(1)
        }
        End::Full => None,
    }
}

fn graft_line(table: &mut [u32], text: &[u8], place: usize, line: &[u8]) -> Option<usize>
    requires table_len { (0 < length table.old) × (length table.old < 4294967296) × (place < length text.now) × (place < 4294967295) }
    requires place_value { (empty (line_at text.now place) ≡ false) × (line.now ≡ line_at text.now place) × Holds text.now place (length table.old) table.old }
    ensures { Grafted text.now place table.new result }
{
    let span = lines::span_at(line, 0);
    graft(table, text, place, span.bytes(line))
}

fn graft_part(table: &mut [u32], text: &[u8], place: usize, stop: usize) -> Option<usize>
    requires table_len { (0 < length table.old) × (length table.old < 4294967296) × (place < stop) × (stop ≤ length text.now) × (place < 4294967295) }
    requires stop_value { (stop ≡ stop_at text.now place) × Holds text.now place (length table.old) table.old }
    ensures { Grafted text.now place table.new result }
{
    graft_line(table, text, place, &text[place..stop])
}

// The table of a list, as far as its slots and places of 32 bits reach: the place from which on the lines decide. An eighth of the slots stays free, so that a search ends soon.
pub fn build(table: &mut [u32], text: &[u8]) -> usize
    requires { (0 < length table.old) × (length table.old < 4294967296) }
    ensures { Grown text.now result table.new }
{
    table.fill(0);
    let mut at = 0;
    let mut left = table.len() - table.len() / 8;
    // A while: each turn goes on where the line ends, so there is no range to go over.
    while at < text.len() {
        let stop = lines::line_stop(text, at);
        let next = lines::line_next(text, stop);
        if at < stop {
            if left == 0 {
                return at;
            }
            if at > 4294967294 {
                return at;
            }
            let Some(taken) = graft_part(table, text, at, stop) else {
                return at;
            };
            left -= taken;
            at = next;
        } else {
            at = next;
        }
    }
    at
}

// The lines of a list by their ids: a table of slots holds those before a place, and from there on the lines decide.
#[derive(Drop)]
pub struct Ids<'a> {
    pub list: &'a [u8],
    pub table: &'a [u32],
    pub held: usize,
}

impl<'a> Model for Ids<'a> {
    ghost Value = { List ℕ };

    ghost view = { λ ids. ids.list.now };

    ghost invariant = { λ ids. Grown ids.list.now ids.held ids.table.now };
}

impl<'a> Ids<'a> {
    // The place, counted from 1, of the first line with an id; 0 where none has it, as the definitions count.
    pub fn find(&self, name: &[u8]) -> usize
        ensures { result ≡ found_from self.now 0 name.now }
    {
        match probe(self.table, self.list, name) {
            End::Found(place) => place,
            End::Free(_) => naming::seek(self.list, self.held, name),
            End::Full => naming::seek(self.list, self.held, name),
        }
    }
}
