// A range with one bit put in or taken out: its hash and its copy. The hash is taken of the edited range in place, so that
// nothing is written before it is known that the edit is the answer.
ghost use Rattle.std.specs.Prelude.{◌≡◌, ◌+◌, ◌-◌, ◌≤◌, ◌<◌, length};
ghost use Rattle.strings.specs.Bits.{max_bits, write_bits, bytes_for, pack, at_front, Part};
ghost use Rattle.strings.specs.Ranges.{bits};
ghost use Rattle.codes.specs.Hash.{hash};
ghost use Rattle.codes.specs.Repair.{without, insert_at};
ghost use Rattle.codes.specs.code.Edits.{edited, Fits};
ghost use Rattle.codes.specs.laws.EditLaws.{Fits-prop};

use crate::candidates::Candidate;
use crate::rows::HashKey;
use strings::BitRange;

// What is done to a range: a bit is put in at a place, or the bit at a place is taken out.
#[derive(Clone, Copy, Debug, PartialEq, Eq)]
pub enum Edit {
    Put(usize, bool),
    Take(usize),
}

// A range and an edit that can be made to it: the edited range, of which nothing is stored. No equality is derived, as for `BitRange`.
#[derive(Clone, Copy, Debug)]
pub struct Edited<'a> {
    pub piece: BitRange<'a>,
    pub edit: Edit,
    ghost fits: { Fits edit piece.len } by { Fits-prop edit piece.len },
}

// The hash of the range with bit b put in at place i.
fn hash_put(s: BitRange, i: usize, b: bool, k: HashKey) -> u32
    requires { i ≤ s.len }
    ensures { result ≡ hash k.h k.key (insert_at i b (bits s.entry)) }
{
    let before = k.start().over(s.first(i));
    let here = before.bit(b);
    k.cut(here.over(s.skip(i)))
}

// The hash of the range with the bit at place i taken out.
fn hash_take(s: BitRange, i: usize, k: HashKey) -> u32
    requires { i < s.len }
    ensures { result ≡ hash k.h k.key (without i (bits s.entry)) }
{
    k.cut(k.start().over(s.first(i)).over(s.skip(i + 1)))
}

// The range with bit b put in at place i is written into `to` from place `at` on.
fn copy_put(s: BitRange, i: usize, b: bool, to: &mut [u8], at: usize)
    requires i_le_len { i ≤ s.len }
    requires part { Part to.old at (s.len + 1) }
    ensures { to.new ≡ write_bits to.old at (insert_at i b (bits s.entry)) }
{
    strings::copy_bits(s.first(i), to, at);
    strings::set_bit(to, at + i, b);
    strings::copy_bits(s.skip(i), to, at + i + 1);
}

// The range with the bit at place i taken out is written into `to` from place `at` on.
fn copy_take(s: BitRange, i: usize, to: &mut [u8], at: usize)
    requires i_lt_len { i < s.len }
    requires part { Part to.old at (s.len - 1) }
    ensures { to.new ≡ write_bits to.old at (without i (bits s.entry)) }
{
    strings::copy_bits(s.first(i), to, at);
    strings::copy_bits(s.skip(i + 1), to, at + i);
}

impl Candidate for Edited<'_> {
    ghost candidate = { λ c. edited c.edit (bits c.piece) };

    fn hash(&self, k: HashKey) -> u32 {
        let s = self.piece;
        match self.edit {
            Edit::Put(i, b) => hash_put(s, i, b, k),
            Edit::Take(i) => hash_take(s, i, k),
        }
    }

    fn copy(&self, to: &mut [u8], at: usize) {
        let s = self.piece;
        match self.edit {
            Edit::Put(i, b) => copy_put(s, i, b, to, at),
            Edit::Take(i) => copy_take(s, i, to, at),
        }
    }
}

impl Edited<'_> {
    // The first bytes of `out` become the edited range, which has n bits, as a string; later bytes stay.
    pub fn pack(&self, n: usize, out: &mut [u8])
        requires len_len { length (edited self.now.edit (bits self.now.piece)) ≡ n }
        requires n_le_max_bits { n ≤ max_bits }
        requires n_in_bounds { bytes_for n ≤ length out.old }
        ensures { out.new ≡ at_front (pack (edited self.now.edit (bits self.now.piece))) out.old }
    {
        strings::clear_bytes(out, 0, strings::bytes_for(n));
        self.copy(out, 0);
    }
}
