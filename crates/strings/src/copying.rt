// The bits of a range written into a buffer. Buffer and place stay two parameters, here, in `codes` and in `messages`: the room that is
// required differs from function to function, and a struct with a lent buffer would say in each clause that it keeps it.
ghost use Rattle.std.specs.Prelude.{◌≡◌, ◌+◌, ◌*◌, ◌/◌, ◌≤◌, length};
ghost use Rattle.strings.specs.Bits.{range, write_bits, Part};
ghost use Rattle.strings.specs.Ranges.{bits};

use crate::{BitRange, set_bit};

// The bits are written into `to` from place `at` on, one by one.
fn copy_singly(from: BitRange, to: &mut [u8], at: usize)
    requires { Part to.old at from.len }
    ensures { to.new ≡ write_bits to.old at (bits from.entry) }
{
    for i in 0..from.len {
        set_bit(to, at + i, from.get(i));
    }
}

// The whole bytes of a range become bytes of `to` from index `at` on; the bits behind the last are left.
fn copy_bytes(from: BitRange, to: &mut [u8], at: usize)
    requires { at + from.len / 8 ≤ length to.old }
    ensures { to.new ≡ write_bits to.old (8 * at) (range from.entry.bytes.now from.entry.start (8 * (from.entry.len / 8))) }
{
    for i in 0..from.len / 8 {
        to[at + i] = from.byte(8 * i);
    }
}

// The bits are written into `to` from place `at` on: bits up to the first edge of a byte of `to`, whole bytes as long as there are eight
// bits more, and the bits that are left.
pub fn copy_bits(from: BitRange, to: &mut [u8], at: usize)
    requires { Part to.old at from.len }
    ensures { to.new ≡ write_bits to.old at (bits from.entry) }
{
    let head = (8 - at % 8) % 8;
    if from.len < head {
        copy_singly(from, to, at);
        return;
    }
    let rest = from.skip(head);
    let done = head + 8 * (rest.len / 8);
    copy_singly(from.first(head), to, at);
    copy_bytes(rest, to, (at + head) / 8);
    copy_singly(from.skip(done), to, at + done);
}
