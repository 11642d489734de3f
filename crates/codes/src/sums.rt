// The weighted sum of a range modulo m, kept below m after each bit by compare and subtract; the syndrome; and the count of ones.
ghost use Rattle.std.specs.Prelude.{◌≡◌, [], ◌∷◌, ◌+◌, ◌-◌, ◌*◌, ◌/◌, ◌≤◌, ◌<◌};
ghost use Rattle.strings.specs.Bits.{range, byte_bits};
ghost use Rattle.strings.specs.Ranges.{bits};
ghost use Rattle.codes.specs.Syndrome.{weighted_sum, syndrome};
ghost use Rattle.codes.specs.code.Place.{ones};
ghost use Rattle.codes.specs.code.Sums.{Residue, EachLess, total};

use crate::modulus::Modulus;
use strings::BitRange;

// All of the sums as one.
fn join(sums: &[u32], m: Modulus) -> u32
    requires { EachLess m.m sums.now }
    ensures { Residue m.m (total sums.now) result }
{
    let mut all: u32 = 0;
    for sum in sums {
        all = m.add(all, *sum);
    }
    all
}

// The sum over the whole bytes of a range: bit k of each byte goes to sum k. A sum waits only for its own last bit, so that the eight of a
// byte are added at the same time. That m is not below the range's length stays a clause, here and below: a value of range and modulus
// would be made for one sum, and is no plainer.
fn sum_bytes(s: BitRange, m: Modulus) -> u32
    requires { s.len ≤ m.m }
    ensures { Residue m.m (weighted_sum 1 (range s.entry.bytes.now s.entry.start (8 * (s.entry.len / 8)))) result }
{
    let mut sums: [u32; 8] = [0; 8];
    for i in 0..s.len / 8 {
        let v = s.byte(8 * i);
        for (k, sum) in sums.iter_mut().enumerate() {
            *sum = m.add_bit(*sum, (8 * i + k + 1) as u32, (v >> (7 - k)) % 2 == 1);
        }
    }
    join(&sums, m)
}

// The bits from bit `from` on more, one by one.
fn sum_singly(s: BitRange, from: usize, sum: u32, m: Modulus) -> u32
    requires from_le_len { from ≤ s.len }
    requires len_le_m { s.len ≤ m.m }
    requires residue { Residue m.m (weighted_sum 1 (range s.bytes.now s.start from)) sum }
    ensures { Residue m.m (weighted_sum 1 (bits s.entry)) result }
{
    let mut all = sum;
    for i in from..s.len {
        all = m.add_bit(all, (i + 1) as u32, s.get(i));
    }
    all
}

// The sum of the places of the ones modulo m, the first place being 1.
pub fn sum_modulo(s: BitRange, m: Modulus) -> usize
    requires { s.len ≤ m.m }
    ensures { Residue m.m (weighted_sum 1 (bits s.entry)) result }
{
    let bytes = sum_bytes(s, m);
    sum_singly(s, 8 * (s.len / 8), bytes, m) as usize
}

// The syndrome.
pub fn syndrome_of(s: BitRange) -> usize
    ensures { result ≡ syndrome (bits s.entry) }
{
    sum_modulo(s, Modulus::new(s.len + 1))
}

// The ones of a byte.
pub fn ones_byte(v: u8) -> u32
    ensures { result ≡ ones (byte_bits v) }
{
    v.count_ones()
}

// The ones of the whole bytes of a range. Numbers of 32 bits are added four at a time, where those of 64 are two.
fn ones_bytes(s: BitRange) -> u32
    ensures { result ≡ ones (range s.entry.bytes.now s.entry.start (8 * (s.entry.len / 8))) }
{
    let mut n: u32 = 0;
    for i in 0..s.len / 8 {
        n += ones_byte(s.byte(8 * i));
    }
    n
}

// The ones of a range: those of its bytes, and of the bits behind them.
pub fn ones_of(s: BitRange) -> usize
    ensures { result ≡ ones (bits s.entry) }
{
    let mut n = ones_bytes(s) as usize;
    for i in 8 * (s.len / 8)..s.len {
        n += s.get(i) as usize;
    }
    n
}
