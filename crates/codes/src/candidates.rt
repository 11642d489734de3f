// Candidates: bits that may be a piece are hashed where they stand, and written into a buffer only if they have the hash v. One that has
// another hash never gets into the buffer.
//
// Hash and copy pass the same parts (`hash_put` and `copy_put`, `hash_take` and `copy_take`, `hash_middle` and `copy_middle`): one walk
// over a trait of what takes the bits is no plainer, since the trait and its two impls would be longer than the walks.
ghost use Rattle.std.specs.Prelude.{◌≡◌, List, Bool, length};
ghost use Rattle.std.proofs.Math.Option.{some};
ghost use Rattle.strings.specs.Bits.{write_bits, Part};
ghost use Rattle.strings.specs.Ranges.{bits};
ghost use Rattle.codes.specs.Hash.{hash};
ghost use Rattle.codes.specs.Trials.{agreeing, tried_at};

use crate::rows::HashKey;
use strings::BitRange;

// Bits that may be a piece.
pub trait Candidate {
    ghost candidate: { Self → List Bool };

    // Their hash.
    fn hash(&self, k: HashKey) -> u32
        ensures { result ≡ hash k.h k.key (candidate self.now) };

    // They are written into `to` from place `at` on.
    fn copy(&self, to: &mut [u8], at: usize)
        requires { Part to.old at (length (candidate self.now)) }
        ensures { to.new ≡ write_bits to.old at (candidate self.now) };
}

// A range as it is.
impl Candidate for BitRange<'_> {
    ghost candidate = { bits };

    fn hash(&self, k: HashKey) -> u32 {
        k.hash(*self)
    }

    fn copy(&self, to: &mut [u8], at: usize) {
        strings::copy_bits(*self, to, at);
    }
}

// The candidate is written into `to` from place `at` on only if it has the hash v. One value of v and the key is no plainer: v is one
// piece's, and the key is the opening's and serves all trials.
#[tactic(auto, unfolding(crate::specs::Trials::agreeing))]
pub fn try_candidate<C: Candidate>(c: &C, v: u32, k: HashKey, to: &mut [u8], at: usize) -> bool
    requires { Part to.old at (length (C.candidate c.now)) }
    ensures { record { settled = result; buffer = to.new }
        ≡ tried_at to.old at (agreeing k.h k.key v (some (C.candidate c.now))) }
{
    if c.hash(k) != v {
        return false;
    }
    c.copy(to, at);
    true
}
