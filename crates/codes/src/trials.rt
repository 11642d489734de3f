// Trials of a range, as it is and with one bit put in or taken out: it is written into a buffer only if it has the hash v.
ghost use Rattle.std.specs.Prelude.{◌≡◌};
ghost use Rattle.std.proofs.Math.Option.{some};
ghost use Rattle.strings.specs.Bits.{Part};
ghost use Rattle.strings.specs.Ranges.{bits};
ghost use Rattle.codes.specs.Repair.{OneApart, repair_to};
ghost use Rattle.codes.specs.Trials.{agreeing, tried_at};

use crate::candidates::try_candidate;
use crate::edits::Edited;
use crate::rows::HashKey;
use strings::BitRange;

// The range as it is.
pub fn try_copy(s: BitRange, v: u32, k: HashKey, to: &mut [u8], at: usize) -> bool
    requires { Part to.old at s.len }
    ensures { record { settled = result; buffer = to.new }
        ≡ tried_at to.old at (agreeing k.h k.key v (some (bits s.entry))) }
{
    try_candidate(&s, v, k, to, at)
}

// The repair of the range to n bits, one more or one less, of syndrome a, if there is one. One value of n and a is no plainer: what holds
// of both, a at most n, is tested by the calls, and no repair requires it.
#[tactic(auto, unfolding(crate::specs::Trials::agreeing))]
pub fn try_repair(
    s: BitRange,
    n: usize,
    a: usize,
    v: u32,
    k: HashKey,
    to: &mut [u8],
    at: usize,
) -> bool
    requires part { Part to.old at n }
    requires one_apart { OneApart s.len n }
    ensures { record { settled = result; buffer = to.new }
        ≡ tried_at to.old at (agreeing k.h k.key v (repair_to n a (bits s.entry))) }
{
    match crate::places::find_repair(s, n, a) {
        None => false,
        Some(edit) => try_candidate(&Edited { piece: s, edit }, v, k, to, at),
    }
}
