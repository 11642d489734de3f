// What the writers of questions and answers share: a kind with numbers, numbers one behind the other, and bits.
ghost use Rattle.std.specs.Prelude.{◌≡◌, ◌++◌, ◌+◌, ◌≤◌, length};
ghost use Rattle.std.proofs.lemmas.List.Edits.{sets};
ghost use Rattle.strings.specs.Bits.{bytes_for, pack};
ghost use Rattle.strings.specs.Ranges.{bits};
ghost use Rattle.messages.specs.Numbers.{number, all_numbers};
ghost use Rattle.messages.specs.Kinds.{kind_number};
ghost use Rattle.messages.specs.Writing.{said_write, put_front};

use crate::Kind;
use crate::numbers::{number_size, put_number};
use strings::{BitRange, Refusal};

// The bits of the piece, packed as a string, are written at the front.
fn put_bits_first(piece: BitRange, buf: &mut [u8])
    requires { bytes_for piece.len ≤ length buf.old }
    ensures { buf.new ≡ sets buf.old 0 (pack (bits piece.entry)) }
{
    strings::clear_bytes(buf, 0, strings::bytes_for(piece.len));
    strings::copy_bits(piece, buf, 0);
}

// The same from index `at` on. It requires that the buffer is long enough: the writer of an answer has tested that.
pub fn put_bits(piece: BitRange, buf: &mut [u8], at: usize)
    requires { at + bytes_for piece.len ≤ length buf.old }
    ensures { buf.new ≡ sets buf.old at (pack (bits piece.entry)) }
{
    put_bits_first(piece, &mut buf[at..]);
}

// How many bytes numbers take. At most 32 are asked for here, by the callers and where numbers are read: the bound only keeps sums and the
// lengths of columns in range, and a slice with a fact beside it is no plainer.
pub fn numbers_size(numbers: &[u32]) -> usize
    requires { length numbers.now ≤ 32 }
    ensures { result ≡ length (all_numbers numbers.now) }
{
    numbers.iter().copied().map(number_size).sum()
}

// Numbers are written from index `at` on, one behind the other; the answer is the index behind them. The length that it requires was tested
// for the whole message.
#[tactic(auto, using(crate::specs::code::Reading::put_turns))]
pub fn put_numbers(buf: &mut [u8], at: usize, numbers: &[u32]) -> usize
    requires { at + length (all_numbers numbers.now) ≤ length buf.old }
    ensures { (result ≡ at + length (all_numbers numbers.now)) × (buf.new ≡ sets buf.old at (all_numbers numbers.now)) }
{
    let mut end = at;
    for v in numbers {
        end = put_number(buf, end, *v);
    }
    end
}

// A message of a kind and numbers.
#[tactic(auto, using(crate::specs::laws::WritingLaws::writing_laws))]
pub fn write_numbers(kind: Kind, numbers: &[u32], buf: &mut [u8]) -> Result<usize, Refusal>
    requires { length numbers.now ≤ 32 }
    ensures { said_write result buf.new ≡ put_front (number (kind_number kind) ++ all_numbers numbers.now) buf.old }
{
    let k = u32::from(kind);
    if buf.len() < number_size(k) + numbers_size(numbers) {
        return Err(Refusal::BufferTooShort);
    }
    let at = put_number(buf, 0, k);
    let end = put_numbers(buf, at, numbers);
    Ok(end)
}
