// A range of a packed string, as a value: its bits are known to lie in the bytes, so that no function on a range requires it.
ghost use Rattle.std.specs.Prelude.{◌≡◌, ◌+◌, ◌-◌, ◌≤◌, ◌<◌};
ghost use Rattle.strings.specs.Bits.{bit_at, Part, Eight};

// The `len` bits of `bytes` from bit `start` on. No equality is derived: it would compare whole bytes, where equal bits may stand at other
// places of other bytes.
#[derive(Clone, Copy, Debug)]
pub struct BitRange<'a> {
    pub bytes: &'a [u8],
    pub start: usize,
    pub len: usize,
    ghost part: { Part bytes.now start len },
}

impl<'a> BitRange<'a> {
    ghost use Rattle.strings.specs.Bits.{range};
    ghost use Rattle.strings.specs.Ranges.{bits};

    // Bit i.
    pub fn get(self, i: usize) -> bool
        requires { i < self.len }
        ensures { result ≡ bit_at self.entry.bytes.now (self.entry.start + i) }
    {
        crate::get_bit(self.bytes, self.start + i)
    }

    // The eight bits from bit i on, as a byte.
    pub fn byte(self, i: usize) -> u8
        requires { i + 8 ≤ self.len }
        ensures { Eight self.entry.bytes.now (self.entry.start + i) result }
    {
        crate::eight_bits(self.bytes, self.start + i)
    }

    // The first n bits.
    pub fn first(self, n: usize) -> BitRange<'a>
        requires { n ≤ self.len }
        ensures taken { bits result ≡ range self.entry.bytes.now self.entry.start n }
        ensures bytes { result.bytes ≡ self.entry.bytes }
        ensures start { result.start ≡ self.entry.start }
        ensures len { result.len ≡ n }
    {
        BitRange {
            bytes: self.bytes,
            start: self.start,
            len: n,
        }
    }

    // The bits from bit n on.
    pub fn skip(self, n: usize) -> BitRange<'a>
        requires { n ≤ self.len }
        ensures left { bits result ≡ range self.entry.bytes.now (self.entry.start + n) (self.entry.len - n) }
        ensures bytes { result.bytes ≡ self.entry.bytes }
        ensures start { result.start ≡ self.entry.start + n }
        ensures len { result.len ≡ self.entry.len - n }
    {
        BitRange {
            bytes: self.bytes,
            start: self.start + n,
            len: self.len - n,
        }
    }
}
