// Bits of a string at equal distances, as a column has them, copied by bytes.
ghost use Rattle.std.specs.Prelude.{◌≡◌, ◌+◌, ◌-◌, ◌*◌, ◌/◌, ◌≤◌, ◌<◌, length};
ghost use Rattle.strings.specs.Bits.{bit_at, byte_bits, write_bits};
ghost use Rattle.codes.specs.code.Strides.{strided, StridedPart};

// The `len` bits of `bytes` from bit `start` on, each `step` bits behind the one before. `strings` has get, skip, copy_bytes and
// copy_singly for steps of one: a step in each range is no plainer. No equality is derived, as for `BitRange`.
#[derive(Clone, Copy, Debug)]
pub struct Strided<'a> {
    pub bytes: &'a [u8],
    pub start: usize,
    pub step: usize,
    pub len: usize,
    ghost part: { StridedPart bytes.now start step len },
}

impl<'a> Strided<'a> {
    // Bit i.
    #[tactic(auto, using(crate::specs::laws::StrideLaws::part_from))]
    fn get(self, i: usize) -> bool
        requires { i < self.len }
        ensures { result ≡ bit_at self.entry.bytes.now (self.entry.start + i * self.entry.step) }
    {
        strings::get_bit(self.bytes, self.start + i * self.step)
    }

    // The bits from bit n on, at least one: a place one step behind the last could be too large a number.
    #[tactic(auto, using(crate::specs::laws::StrideLaws::part_from))]
    fn skip(self, n: usize) -> Strided<'a>
        requires { n < self.len }
        ensures bytes { result.bytes ≡ self.entry.bytes }
        ensures start { result.start ≡ self.entry.start + n * self.entry.step }
        ensures step { result.step ≡ self.entry.step }
        ensures len { result.len ≡ self.entry.len - n }
    {
        Strided {
            bytes: self.bytes,
            start: self.start + n * self.step,
            step: self.step,
            len: self.len - n,
        }
    }

    // The first eight bits as a byte, the first as its highest digit. There is no branch, because the bits of a string are hard to
    // foretell.
    fn eight(self) -> u8
        requires { 8 ≤ self.len }
        ensures { byte_bits result ≡ strided self.entry.bytes.now self.entry.start self.entry.step 8 }
    {
        let mut v: u8 = 0;
        for i in 0..8 {
            v = 2 * v + self.get(i) as u8;
        }
        v
    }

    // The whole bytes of them become the first bytes of `to`; the bits behind the last are left.
    #[tactic(auto, using(crate::specs::laws::StrideLaws::strides_first))]
    fn copy_bytes(self, to: &mut [u8])
        requires { self.len / 8 ≤ length to.old }
        ensures { to.new
            ≡ write_bits to.old 0 (strided self.entry.bytes.now self.entry.start self.entry.step (8 * (self.entry.len / 8))) }
    {
        for i in 0..self.len / 8 {
            to[i] = self.skip(8 * i).eight();
        }
    }

    // The bits from bit `from` on are written into `to` from that place on, one by one.
    fn copy_singly(self, from: usize, to: &mut [u8])
        requires from_in_bounds { from ≤ self.len }
        requires len_in_bounds { self.len ≤ 8 * length to.old }
        ensures { to.new
            ≡ write_bits to.old from (strided self.entry.bytes.now (self.entry.start + from * self.entry.step) self.entry.step (self.entry.len - from)) }
    {
        for i in from..self.len {
            strings::set_bit(to, i, self.get(i));
        }
    }

    // The bits become the first bits of `to`: whole bytes as long as there are eight bits more, and the bits that are left.
    pub fn copy(self, to: &mut [u8])
        requires { self.len ≤ 8 * length to.old }
        ensures { to.new ≡ write_bits to.old 0 (strided self.entry.bytes.now self.entry.start self.entry.step self.entry.len) }
    {
        self.copy_bytes(to);
        self.copy_singly(8 * (self.len / 8), to);
    }
}
