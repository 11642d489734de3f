// The place of the bit to put in or take out, found from the weighted sum and the count of ones.
ghost use Rattle.std.specs.Prelude.{◌≡◌, true, false, ◌+◌, ◌-◌, ◌≤◌, ◌<◌, IfSome, unwrap_or};
ghost use Rattle.std.proofs.Math.Option.{some};
ghost use Rattle.strings.specs.Bits.{max_bits, range, byte_bits};
ghost use Rattle.strings.specs.Ranges.{bits};
ghost use Rattle.codes.specs.Repair.{put_in, take_out, repair_to};
ghost use Rattle.codes.specs.code.Place.{count_of, place_after, other_after, one_fall, take_place};
ghost use Rattle.codes.specs.code.Edits.{edited, Fits, repaired, RepairFits};

use crate::edits::Edit;
use crate::modulus::Modulus;
use strings::BitRange;

// How many bits BIT a byte has.
fn count_byte<const BIT: bool>(v: u8) -> usize
    ensures { result ≡ count_of BIT (byte_bits v) }
{
    let ones = crate::sums::ones_byte(v) as usize;
    if BIT { ones } else { 8 - ones }
}

// The first place from bit `from` on with k bits BIT between, bit by bit.
fn place_singly<const BIT: bool>(s: BitRange, from: usize, k: usize) -> usize
    requires { from ≤ s.len }
    ensures { result ≡ from + place_after BIT k (range s.entry.bytes.now (s.entry.start + from) (s.entry.len - from)) }
{
    let mut left = k;
    for i in from..s.len {
        if left == 0 {
            return i;
        }
        left -= (s.get(i) == BIT) as usize;
    }
    s.len
}

// The first place with k bits BIT before it. A byte with fewer of them than are left to pass is passed whole.
fn place_after<const BIT: bool>(s: BitRange, k: usize) -> usize
    ensures { result ≡ place_after BIT k (bits s.entry) }
{
    let mut left = k;
    for i in 0..s.len / 8 {
        let passed = count_byte::<BIT>(s.byte(8 * i));
        if left <= passed {
            return place_singly::<BIT>(s, 8 * i, left);
        }
        left -= passed;
    }
    place_singly::<BIT>(s, 8 * (s.len / 8), left)
}

// The bit and the place that raise the sum to the syndrome a.
fn put_edit(s: BitRange, a: usize) -> Edit
    requires { a ≤ s.len + 1 }
    ensures len_value { some (edited result (bits s.entry)) ≡ put_in a (bits s.entry) }
    ensures fits { Fits result s.entry.len }
{
    let m = Modulus::new(s.len + 2);
    let w = crate::sums::ones_of(s);
    let sum = crate::sums::sum_modulo(s, m);
    let d = m.subtract(a, sum);
    if d <= w {
        return Edit::Put(place_after::<true>(s, w - d), false);
    }
    Edit::Put(place_after::<false>(s, d - w - 1), true)
}

// The bit put in that gives the syndrome a. There is one for each a up to len + 1.
fn find_put(s: BitRange, a: usize) -> Option<Edit>
    ensures len_value { repaired result (bits s.entry) ≡ put_in a (bits s.entry) }
    ensures repair_fits { RepairFits result s.entry.len }
{
    if s.len + 1 < a {
        return None;
    }
    Some(put_edit(s, a))
}

// The fall of the sum that leaves the syndrome a of a range with a bit less: what is known as a number from 0 to len - 1, as one from 1 to
// len.
fn one_fall(len: usize, fall: usize) -> usize
    ensures { result ≡ one_fall len fall }
{
    if fall == 0 { len } else { fall }
}

// The first place with k bits BIT before it, if the other bit stands there. None where there is no k.
fn other_after<const BIT: bool>(s: BitRange, k: Option<usize>) -> Option<usize>
    ensures { result ≡ other_after BIT k (bits s.entry) }
{
    let p = place_after::<BIT>(s, k?);
    (p < s.len && s.get(p) != BIT).then_some(p)
}

// The first bit that can be taken out so that the syndrome is a. A 0 lowers the sum by the ones behind it, 0 to len - 1; the rest of the
// ones stand before it. A 1 lowers it by its place and the ones behind it, 1 to len; as many zeros stand before it as that is above the
// count of ones. Nearly always only one of the two is looked for: a 0 for a fall up to the count of ones, a 1 for one from there on.
fn take_place(s: BitRange, a: usize) -> Option<usize>
    ensures first { unwrap_or result s.entry.len ≡ take_place a (bits s.entry) }
    ensures within { IfSome result (λ i. i < s.entry.len) }
{
    if s.len <= a {
        return None;
    }
    let m = Modulus::new(s.len);
    let sum = crate::sums::sum_modulo(s, m);
    let for_zero = m.subtract(sum, a);
    let for_one = one_fall(s.len, for_zero);
    let w = crate::sums::ones_of(s);
    if let Some(zero) = other_after::<true>(s, w.checked_sub(for_zero)) {
        return Some(zero);
    }
    other_after::<false>(s, for_one.checked_sub(w))
}

// The bit taken out that gives the syndrome a, if there is one.
fn find_take(s: BitRange, a: usize) -> Option<Edit>
    ensures len_value { repaired result (bits s.entry) ≡ take_out a (bits s.entry) }
    ensures repair_fits { RepairFits result s.entry.len }
{
    let i = take_place(s, a)?;
    Some(Edit::Take(i))
}

// The repair of a range to n bits, one more or one less, of syndrome a.
pub fn find_repair(s: BitRange, n: usize, a: usize) -> Option<Edit>
    ensures len_value { repaired result (bits s.entry) ≡ repair_to n a (bits s.entry) }
    ensures repair_fits { RepairFits result s.entry.len }
{
    if s.len + 1 == n {
        return find_put(s, a);
    }
    find_take(s, a)
}
