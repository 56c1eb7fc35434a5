// The map of the mode with a boarding time: the working table with room for every vertex, in which entries count no records. An offer within D makes a vertex's figure the lesser of the two.
// Promises: the figures after an offer, and that the table is in order.
// Rests on: the working table (`worktable`), the figures that the search keeps (`boarding`).
#![tactic(auto)]

ghost use Rattle.std.specs.Prelude.{◌≡◌, ℕ, ◌<◌, ◌≤◌};
ghost use Rattle.worktable.specs.Map.{distance_limit};
ghost use Rattle.improving.specs.Figures.{Ready, Bettered, Lowered};

use worktable::{Passed, Table};

// The offer, which is less than what u has, takes its place. A spent entry at a slot is one above the offer: no records remain to any.
fn lower(b: &mut [u8], t: Table, u: usize, slot: usize, offer: u32) -> Table
    requires { Lowered t b.old u slot offer }
    ensures { (D : ℕ) → offer ≤ D → Bettered D u offer t result b.old b.new }
{
    let gone = worktable::drop(b, t, u, slot);
    worktable::insert(b, gone, u, offer, 0)
}

// u is offered a distance, and `allowed` is D.
pub fn improve(b: &mut [u8], t: Table, u: usize, offer: u32, allowed: u32) -> Table
    requires { Ready t b.old × (u < 65536) × (allowed < distance_limit) }
    ensures { Bettered allowed u offer t result b.old b.new }
{
    if allowed < offer {
        return t;
    }
    match worktable::look(b, t, u, offer) {
        Passed::Absent => worktable::insert(b, t, u, offer, 0),
        Passed::Kept => t,
        Passed::Spent(slot) => lower(b, t, u, slot, offer),
    }
}
