// Numbers of messages: written and read as groups of seven bits, the lowest first.
ghost use Rattle.std.specs.Prelude.{◌≡◌, ◌+◌, ◌≤◌, ◌<◌, length};
ghost use Rattle.std.proofs.lemmas.List.Edits.{sets};
ghost use Rattle.strings.specs.Results.{said};
ghost use Rattle.messages.specs.Numbers.{number, next_byte, number_at};

use strings::{Refusal, wide};

// The fifth byte of a number, at index i, after four that gave v below 2^28: it is the last, and counts 2^28-fold.
#[tactic(auto, using(crate::specs::laws::NumberLaws::fifth_laws))]
fn read_fifth(s: &[u8], i: usize, v: u32) -> Result<(u32, usize), Refusal>
    requires { v < 268435456 }
    ensures { said result ≡ next_byte 0 s.now i 268435456 v }
{
    let Some(&last) = s.get(i) else {
        return Err(Refusal::Truncated);
    };
    if last == 0 || 15 < last {
        return Err(Refusal::BadNumber);
    }
    Ok((v + 268435456 * wide(last), i + 1))
}

// The number at position `at`, byte by byte: v so far, and the next byte, at index i, counts w-fold. The loop stops behind the fourth byte
// or where the message ends: a fifth is next, or none is there, and `read_fifth` finds which. The compiler does not unroll a loop whose
// number of turns it can't know, so that this function stays small enough to be inlined.
pub fn read_number(s: &[u8], at: usize) -> Result<(u32, usize), Refusal>
    ensures { said result ≡ number_at s.now at }
{
    let Some(&first) = s.get(at) else {
        return Err(Refusal::Truncated);
    };
    if first < 128 {
        return Ok((wide(first), at + 1));
    }
    let end = (at + 4).min(s.len());
    let mut v = wide(first - 128);
    let mut w: u32 = 128;
    // An iterator over the bytes is no plainer: the answer is the position behind the last one.
    for i in at + 1..end {
        let b = s[i];
        if b == 0 {
            return Err(Refusal::BadNumber);
        }
        if b < 128 {
            return Ok((v + w * wide(b), i + 1));
        }
        v += w * wide(b - 128);
        w *= 128;
    }
    read_fifth(s, end, v)
}

// How many bytes a number takes.
#[tactic(auto, using(crate::specs::laws::NumberLaws::size_laws))]
pub fn number_size(v: u32) -> usize
    ensures { result ≡ length (number v) }
{
    match v {
        0..128 => 1,
        128..16384 => 2,
        16384..2097152 => 3,
        2097152..268435456 => 4,
        _ => 5,
    }
}

// A number is written from index `at` on; the answer is the index behind it. The length that it requires was tested for the whole message,
// so that a buffer that is too short is left alone.
pub fn put_number(buf: &mut [u8], at: usize, v: u32) -> usize
    requires { at + length (number v) ≤ length buf.old }
    ensures { (result ≡ at + length (number v)) × (buf.new ≡ sets buf.old at (number v)) }
{
    let mut i = at;
    let mut w = v;
    // A `for` is no plainer: only what is left of v says whether a byte is the last.
    while 128 <= w {
        buf[i] = (w % 128 + 128) as u8;
        w /= 128;
        i += 1;
    }
    buf[i] = w as u8;
    i + 1
}
