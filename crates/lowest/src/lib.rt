// Of two refusals the one at the lower line: a line that two tests judge is refused where the first of them fails.
// Promises: the refusal of both tests together, from those of each.
// Rests on: refusals (`words`).
#![tactic(auto)]

ghost use Rattle.std.specs.Prelude.{◌≡◌};
ghost use Rattle.words.specs.Told.{told_by};
ghost use Rattle.lowest.specs.Lower.{lower_of};

use words::{Numbered, Refusal};

pub fn lower<N: Numbered>(
    a: Result<(), Refusal<N>>,
    b: Result<(), Refusal<N>>,
) -> Result<(), Refusal<N>>
    ensures { told_by N.number result ≡ lower_of (told_by N.number a) (told_by N.number b) }
{
    let Err(first) = a else {
        return b;
    };
    if first.reason.number() == 0 {
        return b;
    }
    let Err(second) = b else {
        return Err(first);
    };
    if second.reason.number() == 0 {
        return Err(first);
    }
    if second.place < first.place {
        return Err(second);
    }
    Err(first)
}
