// Markers: words of n bits with a wanted syndrome that carry a message. The message stands at the places that are no powers of two; at the
// powers stands a number that gives the word its syndrome. A word is passed by blocks, a power of two and the places behind it up to the
// next, so that the bits of the message are copied by bytes.
ghost use Rattle.std.specs.Prelude.{◌≡◌, true, ◌+◌, ◌-◌, ◌*◌, ◌≤◌, ◌<◌, length, MatchOption};
ghost use Rattle.std.specs.Iterator.{at_most};
ghost use Rattle.std.proofs.Math.Option.{some};
ghost use Rattle.strings.specs.Bits.{max_bits, range, write_bits, bytes_for, pack, at_front, Part};
ghost use Rattle.strings.specs.Ranges.{bits};
ghost use Rattle.strings.specs.Results.{value};
ghost use Rattle.codes.specs.Repair.{OneApart};
ghost use Rattle.codes.specs.Entries.{said_repair, repair_left};
ghost use Rattle.codes.specs.Markers.{is_power, max_marker_bits, message_bits, merged, marker, check_number, message, built_message, read_marker, marker_range, received_range, said_build, build_outcome, read_outcome};
ghost use Rattle.codes.specs.code.Edits.{edited};
ghost use Rattle.codes.specs.code.MarkerBlocks.{Block};

use crate::edits::Edited;
use crate::modulus::Modulus;
use strings::{BitRange, Refusal};

// The most bits of a word (specs/Markers.antt: max_marker_bits).
const MAX_MARKER_BITS: usize = 4096;

// The bytes that they take.
const MAX_MARKER_BYTES: usize = MAX_MARKER_BITS / 8;

// The bit count of a word.
#[derive(Clone, Copy, Debug, PartialEq, Eq)]
struct WordLength {
    n: usize,
    ghost few: { n ≤ max_marker_bits },
}

// The powers of two from p on up to n: places of a word of n bits at which its number stands. Nothing more is derived: a loop uses them up,
// and nothing compares or prints them.
#[derive(Drop)]
struct Powers {
    p: usize,
    n: usize,
    ghost power: { is_power p ≡ true },
    ghost few: { n ≤ max_bits },
}

impl Powers {
    // All powers in a word of n bits.
    fn of_word(n: usize) -> Powers
        requires { n ≤ max_bits }
        ensures first { result.p ≡ 1 }
        ensures n { result.n ≡ n }
    {
        Powers { p: 1, n }
    }
}

impl Iterator for Powers {
    type Item = usize;

    ghost next_gives = { λ s out t. (t.n ≡ s.n) × MatchOption out (s.n < s.p) (λ p. (p ≡ s.p) × (p ≤ s.n) × (t.p ≡ 2 * p)) };

    ghost remaining = { λ s. at_most (s.n + 1 - s.p) };

    fn next(&mut self) -> Option<usize> {
        if self.n < self.p {
            return None;
        }
        let p = self.p;
        self.p = 2 * p;
        Some(p)
    }
}

// How many places of a word of n bits stand between the power p and the next power, or the word's end.
fn block_length(n: usize, p: usize) -> usize
    requires { (1 ≤ p) × (p ≤ n) }
    ensures { Block n p result }
{
    (p - 1).min(n - p)
}

// The bits of the message in a word of n bits.
fn message_bits(n: usize) -> usize
    ensures { result ≡ message_bits n }
{
    if n == 0 {
        return 0;
    }
    n - (n.ilog2() as usize + 1)
}

// The message is written to its places in a word of n bits, with the number 0 at the powers.
fn spread_message(m: BitRange, w: WordLength, out: &mut [u8])
    requires m_len { m.len ≡ message_bits w.n }
    requires part { Part out.old 0 w.n }
    ensures { out.new ≡ write_bits out.old 0 (merged w.n 1 0 (bits m.entry)) }
{
    let mut at: usize = 0;
    for p in Powers::of_word(w.n) {
        strings::set_bit(out, p - 1, false);
        let len = block_length(w.n, p);
        strings::copy_bits(m.skip(at).first(len), out, p);
        at += len;
    }
}

// The digits of v are written to the powers of a word of n bits, the lowest first; the message stays.
fn write_number(w: WordLength, v: usize, out: &mut [u8])
    requires { Part out.old 0 w.n }
    ensures { out.new ≡ write_bits out.old 0 (merged w.n 1 v (message 1 (range out.old 0 w.n))) }
{
    let mut left = v;
    for p in Powers::of_word(w.n) {
        strings::set_bit(out, p - 1, left % 2 == 1);
        left = left / 2;
    }
}

// The first bytes of `out` become the word for the message and the syndrome a, as a string; later bytes stay. The syndrome of the word with
// the number 0 tells the number.
fn pack_marker(m: BitRange, w: WordLength, a: usize, out: &mut [u8])
    requires a_le_n { a ≤ w.n }
    requires m_len { m.len ≡ message_bits w.n }
    requires n_in_bounds { bytes_for w.n ≤ length out.old }
    ensures { out.new ≡ at_front (pack (marker w.n a (bits m.entry))) out.old }
{
    let n = w.n;
    strings::clear_bytes(out, 0, strings::bytes_for(n));
    spread_message(m, w, out);
    let sum = crate::sums::syndrome_of(BitRange {
        bytes: out,
        start: 0,
        len: n,
    });
    let v = Modulus::new(n + 1).subtract(a, sum);
    write_number(w, v, out);
}

// The number at the powers of a word.
fn number_of(s: BitRange) -> usize
    ensures { result ≡ check_number 1 (bits s.entry) }
{
    let mut v: usize = 0;
    for p in Powers::of_word(s.len) {
        v += p * s.get(p - 1) as usize;
    }
    v
}

// The message of a word is written from the first bit of `out` on.
fn gather_message(s: BitRange, out: &mut [u8])
    requires { Part out.old 0 (message_bits s.len) }
    ensures { out.new ≡ write_bits out.old 0 (message 1 (bits s.entry)) }
{
    let mut at: usize = 0;
    for p in Powers::of_word(s.len) {
        let len = block_length(s.len, p);
        strings::copy_bits(s.skip(p).first(len), out, at);
        at += len;
    }
}

// The first bytes of `out` become the message, as a string; later bytes stay. The room that this and the next functions require depends on
// word and buffer together: a struct with a lent buffer would say in each clause that it keeps the buffer.
fn pack_message(s: BitRange, out: &mut [u8])
    requires { bytes_for (message_bits s.len) ≤ length out.old }
    ensures { out.new ≡ at_front (pack (message 1 (bits s.entry))) out.old }
{
    strings::clear_bytes(out, 0, strings::bytes_for(message_bits(s.len)));
    gather_message(s, out);
}

// The message of a word of the wanted syndrome, if the builder makes that word.
fn read_word(s: BitRange, out: &mut [u8]) -> bool
    requires { bytes_for (message_bits s.len) ≤ length out.old }
    ensures { said_repair (Ok result) out.new ≡ repair_left out.old (value (built_message s.entry.len (some (bits s.entry)))) }
{
    if s.len < number_of(s) {
        return false;
    }
    pack_message(s, out);
    true
}

// What is received with as many bits as the word.
fn read_same(s: BitRange, a: usize, out: &mut [u8]) -> bool
    requires { bytes_for (message_bits s.len) ≤ length out.old }
    ensures { said_repair (Ok result) out.new ≡ repair_left out.old (value (read_marker s.entry.len a (bits s.entry))) }
{
    crate::sums::syndrome_of(s) == a && read_word(s, out)
}

// The edited string. It is made in a place of its own, so that the buffer stays as it was where the builder does not make it.
fn read_edited(e: Edited, w: WordLength, out: &mut [u8]) -> bool
    requires bits_len { length (edited e.edit (bits e.piece)) ≡ w.n }
    requires n_in_bounds { bytes_for (message_bits w.n) ≤ length out.old }
    ensures { said_repair (Ok result) out.new ≡ repair_left out.old (value (built_message w.n (some (edited e.entry.edit (bits e.entry.piece))))) }
{
    let mut bytes = [0; MAX_MARKER_BYTES];
    e.pack(w.n, &mut bytes);
    let word = BitRange {
        bytes: &bytes,
        start: 0,
        len: w.n,
    };
    read_word(word, out)
}

// What is received with one bit less or one bit more.
fn read_repaired(s: BitRange, w: WordLength, a: usize, out: &mut [u8]) -> bool
    requires one_apart { OneApart s.len w.n }
    requires n_in_bounds { bytes_for (message_bits w.n) ≤ length out.old }
    ensures { said_repair (Ok result) out.new ≡ repair_left out.old (value (read_marker w.n a (bits s.entry))) }
{
    match crate::places::find_repair(s, w.n, a) {
        None => false,
        Some(edit) => read_edited(Edited { piece: s, edit }, w, out),
    }
}

// Whether there are words of n bits and syndrome a. Strings are bytes and bit counts below, as in `entries`, and a stands beside n: it is
// at most n only where this was tested.
#[tactic(auto, unfolding(crate::specs::Markers::marker_range))]
fn keeps_marker_range(n: usize, a: usize) -> bool
    ensures { result ≡ marker_range n a }
{
    1 <= n && n <= MAX_MARKER_BITS && a <= n
}

// Whether one of them can be received with that many bits.
#[tactic(auto, unfolding(crate::specs::Markers::received_range))]
fn keeps_received_range(bits: usize, n: usize, a: usize) -> bool
    ensures { result ≡ received_range bits n a }
{
    keeps_marker_range(n, a) && bits.abs_diff(n) <= 1
}

// The word of n bits and syndrome a for a message: the first bytes of `out`. Where the call is turned down, `out` is as it was.
pub fn build_marker(
    m: &[u8],
    bits: usize,
    n: usize,
    a: usize,
    out: &mut [u8],
) -> Result<(), Refusal>
    ensures { said_build result out.new ≡ build_outcome m.now bits n a out.old }
{
    if !strings::keeps_string_rule(m, bits) {
        return Err(Refusal::BadString);
    }
    if !keeps_marker_range(n, a) {
        return Err(Refusal::OutOfRange);
    }
    if bits != message_bits(n) {
        return Err(Refusal::MessageLength);
    }
    if out.len() < strings::bytes_for(n) {
        return Err(Refusal::BufferTooShort);
    }
    let message = BitRange {
        bytes: m,
        start: 0,
        len: bits,
    };
    pack_marker(message, WordLength { n }, a, out);
    Ok(())
}

// The message of the word of n bits and syndrome a for which a string is received: the word itself, or the word with one bit lost or added.
// True: the first bytes of `out` are the message. False: the builder makes no such word. Then, and where the call is turned down, `out` is
// as it was.
pub fn read_marker(
    s: &[u8],
    bits: usize,
    n: usize,
    a: usize,
    out: &mut [u8],
) -> Result<bool, Refusal>
    ensures { said_repair result out.new ≡ read_outcome s.now bits n a out.old }
{
    if !strings::keeps_string_rule(s, bits) {
        return Err(Refusal::BadString);
    }
    if !keeps_received_range(bits, n, a) {
        return Err(Refusal::OutOfRange);
    }
    if out.len() < strings::bytes_for(message_bits(n)) {
        return Err(Refusal::BufferTooShort);
    }
    let received = BitRange {
        bytes: s,
        start: 0,
        len: bits,
    };
    if bits == n {
        return Ok(read_same(received, a, out));
    }
    Ok(read_repaired(received, WordLength { n }, a, out))
}
