// Bit strings packed in bytes, and the settings: the lowest of the four layers. First bit in the most significant place. A function on a
// bit requires that it lies in the string: the layers above know this, and a test at each bit would be for nothing. Of a `BitRange` it is
// known.
#![tactic(auto)]

ghost use Rattle.std.specs.Prelude.{◌≡◌, ◌+◌, ◌*◌, ◌≤◌, ◌<◌, length, leb};
ghost use Rattle.strings.specs.Bits.{bit_at, bytes_for, set_bit, cleared, Eight};
ghost use Rattle.strings.specs.StringRule.{string_rule};
ghost use Rattle.strings.specs.Refusals.{refusal_number};

mod bit_range;
mod copying;
mod settings;

pub use bit_range::BitRange;
pub use copying::copy_bits;
pub use settings::{
    Settings, is_anchor_length, is_between, is_hash_width, is_key, is_window_factor,
};

// The most bits that a string has (specs/Bits.antt: max_bits).
pub const MAX_BITS: usize = 65536;

// The same, as the states have numbers.
pub const MOST_BITS: u32 = MAX_BITS as u32;

// Why a call is turned down (01, "Why a call is turned down", and 02). specs/Refusals.antt has the numbers; they rise in this order.
#[derive(Clone, Copy, Debug, PartialEq, Eq)]
pub enum Refusal {
    // A setting handed in is outside its limits.
    BadSetting,
    // A lent string breaks the string rule, or has another bit count than at opening.
    BadString,
    // The call is out of turn, or the state is unsound.
    OutOfTurn,
    // The message ends inside its kind, a field or its bits.
    Truncated,
    // A number is not in its shortest form, or is 2^32 or more.
    BadNumber,
    // The kind is unknown, or is not the one that is awaited.
    BadKind,
    // Bytes follow the last field or its bits.
    TrailingBytes,
    // A value is outside its range.
    OutOfRange,
    // A lent buffer or sheet is too short.
    BufferTooShort,
    // The number B of a burst question is outside 2 to 32.
    BadBurst,
    // A list buffer has fewer entries than there are strings.
    ListTooShort,
    // A marker's message has another bit count than n - t.
    MessageLength,
}

// The number of a refusal.
impl From<Refusal> for u32 {
    ghost from_gives = { λ e r. r ≡ refusal_number e };

    fn from(e: Refusal) -> u32 {
        match e {
            Refusal::BadSetting => 1,
            Refusal::BadString => 2,
            Refusal::OutOfTurn => 3,
            Refusal::Truncated => 4,
            Refusal::BadNumber => 5,
            Refusal::BadKind => 6,
            Refusal::TrailingBytes => 7,
            Refusal::OutOfRange => 8,
            Refusal::BufferTooShort => 9,
            Refusal::BadBurst => 10,
            Refusal::ListTooShort => 14,
            Refusal::MessageLength => 15,
        }
    }
}

// A byte as a number of 32 bits. Beside std's conversion, which says the value alone, it says the bound that keeps sums and products of
// bytes in range: without it each of the proofs that add them up would show it again.
pub fn wide(b: u8) -> u32
    ensures { (result ≡ b) × (result ≤ 255) }
{
    b as u32
}

// How many bytes that many bits take.
pub fn bytes_for(bits: usize) -> usize
    ensures { result ≡ bytes_for bits }
{
    bits.div_ceil(8)
}

// Whether the bytes are a string of that many bits. Only the length and the last byte are looked at.
pub fn keeps_string_rule(s: &[u8], bits: usize) -> bool
    ensures { result ≡ string_rule s.now bits }
{
    if MAX_BITS < bits {
        return false;
    }
    if s.len() != bytes_for(bits) {
        return false;
    }
    let used = bits % 8;
    if used == 0 {
        return true;
    }
    s[bits / 8] % (1u8 << (8 - used)) == 0
}

// Whether start + len is at most end; the sum itself may not fit.
pub fn ends_by(start: usize, len: usize, end: usize) -> bool
    ensures { result ≡ leb (start + len) end }
{
    len <= end && start <= end - len
}

// Bit i.
pub fn get_bit(s: &[u8], i: usize) -> bool
    requires { i < 8 * length s.now }
    ensures { result ≡ bit_at s.now i }
{
    (s[i / 8] >> (7 - i % 8)) % 2 == 1
}

// Bit i is set to b: its byte is changed by an exclusive or, with nothing where the bit is b already. There is no branch, because the
// bits of a string are hard to foretell.
pub fn set_bit(s: &mut [u8], i: usize, b: bool)
    requires { i < 8 * length s.old }
    ensures { s.new ≡ set_bit s.old i b }
{
    let turned = get_bit(s, i) != b;
    let j = i / 8;
    s[j] = s[j] ^ ((turned as u8) << (7 - i % 8));
}

// The eight bits from bit p on, as a byte.
pub fn eight_bits(s: &[u8], p: usize) -> u8
    requires { p + 8 ≤ 8 * length s.now }
    ensures { Eight s.now p result }
{
    let j = p / 8;
    let k = p % 8;
    if k == 0 {
        return s[j];
    }
    (s[j] << k) ^ (s[j + 1] >> (8 - k))
}

// The count bytes from index `at` on become 0.
pub fn clear_bytes(s: &mut [u8], at: usize, count: usize)
    requires { at + count ≤ length s.old }
    ensures { s.new ≡ cleared s.old at count }
{
    s[at..at + count].fill(0);
}
