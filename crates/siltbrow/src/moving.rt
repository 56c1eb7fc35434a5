// What a server calls to move a hop table between its two record sizes: refusal times 2^32 plus place.
ghost use Rattle.std.specs.Prelude.{◌≡◌};
ghost use Rattle.moves.specs.Moved.{lengthened, shortened, forward_refusal, backward_refusal, leaves};
ghost use Rattle.siltbrow.specs.Packed.{packed};

use crate::pack;

// Hops of 16 bytes to hops of 20, each with the trip 0.
pub fn siltbrow_hops_forward(source: &[u8], target: &mut [u8]) -> u64
    ensures value { result ≡ packed (forward_refusal source.now target.old) }
    ensures target_after { target.new ≡ leaves (forward_refusal source.now target.old) (lengthened source.now) target.old }
{
    let refusal = moves::forward(source, target);
    pack(refusal)
}

// Hops of 20 bytes to hops of 16, if none has a trip.
pub fn siltbrow_hops_backward(source: &[u8], target: &mut [u8]) -> u64
    ensures value { result ≡ packed (backward_refusal source.now target.old) }
    ensures target_after { target.new ≡ leaves (backward_refusal source.now target.old) (shortened source.now) target.old }
{
    let refusal = moves::backward(source, target);
    pack(refusal)
}
