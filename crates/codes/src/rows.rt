// The xorshift rows and the hash of a range. Rows are stepped from bit to bit; none is stored.
ghost use Rattle.std.specs.Prelude.{◌≡◌, [], ◌∷◌, ◌*◌, ◌/◌, ◌%◌, ◌^◌, ◌≤◌};
ghost use Rattle.strings.specs.Bits.{range, byte_bits};
ghost use Rattle.strings.specs.Ranges.{bits};
ghost use Rattle.codes.specs.Hash.{xorshift as xorshift_of, hash};
ghost use Rattle.codes.specs.code.HashForms.{Went};

use strings::BitRange;

// One step.
#[tactic(auto, unfolding(crate::specs::Hash::xorshift, crate::specs::Hash::xor_left, crate::specs::Hash::xor_right))]
pub fn xorshift(v: u32) -> u32
    ensures { result ≡ xorshift_of v }
{
    let a = v ^ (v << 13);
    let b = a ^ (a >> 17);
    b ^ (b << 5)
}

// The key of a hash, and its bit count, which is at most 32 by the settings' limits.
#[derive(Clone, Copy, Debug, PartialEq, Eq)]
pub struct HashKey {
    pub key: u32,
    pub h: u32,
    ghost width: { h ≤ 32 },
}

// A hash under way: the whole rows of the set bits taken together, and the row of the last bit. It is cut once, at the end.
#[derive(Clone, Copy, Debug, PartialEq, Eq)]
pub struct Hashing {
    pub sum: u32,
    pub row: u32,
}

impl Hashing {
    // One bit more.
    #[tactic(auto, unfolding(crate::specs::code::HashForms::whole_hash, crate::specs::Hash::hash_row))]
    pub fn bit(self, b: bool) -> Hashing
        ensures { Went self.sum self.row (b ∷ []) result.sum result.row }
    {
        let next = xorshift(self.row);
        if b {
            return Hashing {
                sum: self.sum ^ next,
                row: next,
            };
        }
        Hashing {
            sum: self.sum,
            row: next,
        }
    }

    // The eight bits of a byte more.
    fn byte(self, v: u8) -> Hashing
        ensures { Went self.sum self.row (byte_bits v) result.sum result.row }
    {
        let mut all = self;
        for k in 0..8u32 {
            all = all.bit((v >> (7 - k)) % 2 == 1);
        }
        all
    }

    // The bits of the whole bytes of a range more.
    fn over_bytes(self, s: BitRange) -> Hashing
        ensures { Went self.sum self.row (range s.entry.bytes.now s.entry.start (8 * (s.entry.len / 8))) result.sum result.row }
    {
        let mut all = self;
        for i in 0..s.len / 8 {
            all = all.byte(s.byte(8 * i));
        }
        all
    }

    // The bits of a range more, one by one.
    fn over_bits(self, s: BitRange) -> Hashing
        ensures { Went self.sum self.row (bits s.entry) result.sum result.row }
    {
        let mut all = self;
        for i in 0..s.len {
            all = all.bit(s.get(i));
        }
        all
    }

    // The bits of a range more: by bytes, and those that are left.
    pub fn over(self, s: BitRange) -> Hashing
        ensures { Went self.sum self.row (bits s.entry) result.sum result.row }
    {
        self.over_bytes(s).over_bits(s.skip(8 * (s.len / 8)))
    }
}

impl HashKey {
    // The hash of no bits yet.
    pub(crate) fn start(self) -> Hashing
        ensures { result ≡ record { sum = 0; row = self.key } }
    {
        Hashing {
            sum: 0,
            row: self.key,
        }
    }

    // The hash that is at its end: its low h bits.
    pub(crate) fn cut(self, all: Hashing) -> u32
        ensures { result ≡ all.sum % 2 ^ self.h }
    {
        ((all.sum as u64) % (1u64 << self.h)) as u32
    }

    // The hash of a range.
    pub fn hash(self, s: BitRange) -> u32
        ensures { result ≡ hash self.h self.key (bits s.entry) }
    {
        self.cut(self.start().over(s))
    }
}
