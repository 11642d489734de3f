// All strings of one syndrome, as numbers with the first bit highest. The digits of a number are parted into a low and a high half, and the
// low numbers with the same residue are linked to lists once. Behind each high number stands one of these lists, so that nothing is looked
// at that is not in the answer, and the count is one addition for each high number.
ghost use Rattle.std.specs.Prelude.{◌≡◌, ◌+◌, ◌^◌, ◌≤◌, ◌<◌, length};
ghost use Rattle.std.proofs.lemmas.List.Edits.{sets};
ghost use Rattle.codes.specs.Listing.{listing, said_list, list_outcome};
ghost use Rattle.codes.specs.code.Linking.{low_digits, high_digits, residue, low_residue, wanted, lows, behind, Linked, Counted};

use crate::modulus::Modulus;
use strings::Refusal;

// The most bits of a string that is listed.
const MAX_LIST_BITS: usize = 20;

// What is listed: the strings of n bits that have the syndrome a.
#[derive(Clone, Copy, Debug, PartialEq, Eq)]
struct Listed {
    n: usize,
    a: usize,
    ghost few: { n ≤ 20 },
    ghost a_le_n: { a ≤ n },
}

impl Listed {
    // The residue of the low number j.
    fn low_residue(self, j: usize) -> usize
        ensures { (result ≡ low_residue self.n j) × (result ≤ self.n) }
    {
        residue_of(
            self.n - self.n / 2 + 1,
            self.n / 2,
            Modulus::new(self.n + 1),
            j,
        )
    }

    // The residue that the low digits must have behind the high number h.
    fn wanted_residue(self, h: usize) -> usize
        ensures { (result ≡ wanted self.n self.a h) × (result ≤ self.n) }
    {
        let m = Modulus::new(self.n + 1);
        let high = residue_of(1, self.n - self.n / 2, m, h);
        m.subtract(self.a, high)
    }
}

// The sum of the places of the ones of the count low digits of v, modulo m: the highest of them has place k, the lowest k + count - 1.
fn residue_of(k: usize, count: usize, m: Modulus, v: usize) -> usize
    requires { k + count ≤ m.m }
    ensures { (result ≡ residue k count m.m v) × (result < m.m) }
{
    let mut sum: u32 = 0;
    let mut left = v;
    for i in (0..count).rev() {
        sum = m.add_bit(sum, (k + i) as u32, left % 2 == 1);
        left = left / 2;
    }
    sum as usize
}

// How many numbers have that many digits.
fn power(digits: usize) -> usize
    requires { digits ≤ 20 }
    ensures { result ≡ 2 ^ digits }
{
    1usize << digits
}

// The low numbers are linked and counted, from the last to the first: where none is so far, `first` has their count and `counts` zeros.
fn link_lows(
    list: Listed,
    first: &mut [usize; 21],
    next: &mut [usize; 1024],
    counts: &mut [usize; 21],
)
    requires linked { Linked list.n (2 ^ low_digits list.n) first.old next.old }
    requires counted { Counted list.n (2 ^ low_digits list.n) counts.old }
    ensures linked { Linked list.n 0 first.new next.new }
    ensures counted { Counted list.n 0 counts.new }
{
    let size = power(list.n / 2);
    for j in (0..size).rev() {
        let r = list.low_residue(j);
        next[j] = first[r];
        first[r] = j;
        counts[r] += 1;
    }
}

// The low numbers as linked lists, one for each residue: its first number, behind each number the next, and how many there are. Behind the
// last stands the count of the low numbers, which is none of them: an Option would be no plainer, because it does not bound the index, and
// each step would test twice. As no heap is used, the arrays have room for the most bits that are listed. They are lent: as a part of the
// value their 8 KB would be copied when it is made, which takes longer than a short list.
#[derive(Clone, Copy)]
struct Links<'a> {
    list: Listed,
    first: &'a [usize; 21],
    next: &'a [usize; 1024],
    counts: &'a [usize; 21],
    ghost linked: { Linked list.n 0 first.now next.now },
    ghost counted: { Counted list.n 0 counts.now },
}

impl Links<'_> {
    // How many strings are listed.
    fn count(&self) -> usize
        ensures { result ≡ length (listing self.now.list.n self.now.list.a) }
    {
        let end = power(self.list.n - self.list.n / 2);
        let mut total: usize = 0;
        for h in 0..end {
            total += self.counts[self.list.wanted_residue(h)];
        }
        total
    }

    // The low numbers with the residue r are stored from index k on, each behind the high number h; the answer is the index after them.
    fn write_block(&self, h: usize, r: usize, out: &mut [u32], k: usize) -> usize
        requires h_high { h < 2 ^ high_digits self.now.list.n }
        requires r_le_n { r ≤ self.now.list.n }
        requires r_in_bounds { k + length (lows self.now.list.n r 0) ≤ length out.old }
        ensures out_after { out.new ≡ sets out.old k (behind self.now.list.n h (lows self.now.list.n r 0)) }
        ensures value { result ≡ k + length (lows self.now.list.n r 0) }
    {
        let size = power(self.list.n / 2);
        let base = h * size;
        let mut at = k;
        let mut j = self.first[r];
        // The next number is read, so that no range stands for the loop, and an iterator over the list would be this loop once more.
        while j < size {
            out[at] = (base + j) as u32;
            at += 1;
            j = self.next[j];
        }
        at
    }

    // The list is stored from the buffer's first entry on.
    fn write(&self, out: &mut [u32])
        requires { length (listing self.now.list.n self.now.list.a) ≤ length out.old }
        ensures { out.new ≡ sets out.old 0 (listing self.now.list.n self.now.list.a) }
    {
        let end = power(self.list.n - self.list.n / 2);
        let mut k: usize = 0;
        for h in 0..end {
            k = self.write_block(h, self.list.wanted_residue(h), out, k);
        }
    }
}

// Every string of n bits and syndrome a as a number with the first bit highest, rising; the answer is their count.
pub fn list_syndrome(n: usize, a: usize, out: &mut [u32]) -> Result<u32, Refusal>
    ensures { said_list result out.new ≡ list_outcome n a out.old }
{
    if MAX_LIST_BITS < n || n < a {
        return Err(Refusal::OutOfRange);
    }
    let list = Listed { n, a };
    let mut first = [power(n / 2); 21];
    let mut next = [0; 1024];
    let mut counts = [0; 21];
    link_lows(list, &mut first, &mut next, &mut counts);
    let links = Links {
        list,
        first: &first,
        next: &next,
        counts: &counts,
    };
    let count = links.count();
    if out.len() < count {
        return Err(Refusal::ListTooShort);
    }
    links.write(out);
    Ok(count as u32)
}
