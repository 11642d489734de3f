// The repaired columns of a range woven to one piece, read bit by bit from the range: its hash and its copy. Nothing of it is stored before
// it is known that it is the answer.
ghost use Rattle.std.specs.Prelude.{◌≡◌, ◌+◌, ◌-◌, ◌≤◌, ◌<◌};
ghost use Rattle.strings.specs.Bits.{range, write_bits, Part};
ghost use Rattle.strings.specs.Ranges.{bits};
ghost use Rattle.codes.specs.code.HashForms.{Went};
ghost use Rattle.codes.specs.code.Weaving.{bit_put, bit_taken, woven_bit, woven_from, woven, Placed, Spans, Around, behind_place};
ghost use Rattle.codes.specs.code.Runs.{places, put_bits};

use crate::candidates::Candidate;
use crate::rows::{HashKey, Hashing};
use crate::shape::{Run, column_of, next_column};
use strings::BitRange;

// The repair of one column: the place of its edit in the piece, and the bit that is put in. Where a bit is taken out, `bit` says nothing:
// an `Option` in its place is no plainer, since it would be told apart at each bit, and the run's two lengths say already which it is.
#[derive(Clone, Copy, Debug, Default, PartialEq, Eq)]
pub struct ColumnRepair {
    pub place: usize,
    pub bit: bool,
}

// The repaired columns as one piece, with the repairs of all of them, the first b of the array: there is no heap for b of them. No equality
// is derived, as for `BitRange`.
#[derive(Clone, Copy, Debug)]
pub struct Woven<'a> {
    pub run: Run<'a>,
    pub repairs: [ColumnRepair; 32],
    ghost placed: { Placed run.b run.piece.len (places repairs) },
}

// The least and the greatest of the places of the edits.
#[derive(Clone, Copy, Debug, PartialEq, Eq)]
struct Span {
    low: usize,
    high: usize,
}

// The bits of the repaired range from bit `from` to bit `behind`. Those before and behind are the range's, all of them the same number of
// bits away, so that they are hashed and copied by bytes. After one run lost or gained there is little between. Its bounds stay clauses:
// they are of the woven range, which a Middle would have to hold.
#[derive(Clone, Copy, Debug, PartialEq, Eq)]
struct Middle {
    from: usize,
    behind: usize,
}

// Bit i of the range with one bit put into each column, of which that of bit i has x put in at bit p. Place and bit stand apart, here and
// below, and b beside the range, as in the definitions: a `ColumnRepair` would be taken apart again in each clause, and is no plainer.
#[tactic(auto, using(strings::proofs::laws::RangeLaws::range_at))]
fn bit_put(s: BitRange, b: usize, i: usize, p: usize, x: bool) -> bool
    requires b_bound { b ≤ 32 }
    requires i_bound { i < s.len + b }
    requires p_bound { p < s.len + b }
    ensures { result ≡ bit_put (bits s.entry) b i p x }
{
    if i + b <= p {
        return s.get(i);
    }
    if p + b <= i {
        return s.get(i - b);
    }
    x
}

// Bit i of the range with one bit taken out of each column, of which that of bit i loses bit p.
#[tactic(auto, using(strings::proofs::laws::RangeLaws::range_at))]
fn bit_taken(s: BitRange, b: usize, i: usize, p: usize) -> bool
    requires { i + b < s.len }
    ensures { result ≡ bit_taken (bits s.entry) b i p }
{
    if i < p {
        return s.get(i);
    }
    s.get(i + b)
}

// Bit i of the repaired range.
#[tactic(auto, using(strings::proofs::laws::RangeLaws::range_length))]
fn woven_bit(run: Run, i: usize, p: usize, x: bool) -> bool
    requires i_lt_n { i < run.n }
    requires p_bound { p < run.piece.len + run.b }
    ensures { result ≡ woven_bit (bits run.entry.piece) run.entry.n run.entry.b i p x }
{
    if run.piece.len < run.n {
        return bit_put(run.piece, run.b, i, p, x);
    }
    bit_taken(run.piece, run.b, i, p)
}

// Where bit i of the repaired range, behind its column's edit, stands in the range.
fn behind_place(run: Run, i: usize) -> usize
    requires i_le_n { i ≤ run.n }
    requires b_le_i { (run.piece.len < run.n) → run.b ≤ i }
    ensures { result ≡ behind_place run.entry.piece.len run.entry.n run.entry.b i }
{
    if run.piece.len < run.n {
        return i - run.b;
    }
    i + run.b
}

impl<'a> Woven<'a> {
    fn span(&self) -> Span
        ensures spans { Spans self.now.run.b result.low result.high (places self.now.repairs) }
        ensures high_bound { result.high < self.now.run.piece.len + self.now.run.b }
    {
        let mut low = self.repairs[0].place;
        let mut high = low;
        for one in &self.repairs[1..self.run.b] {
            low = low.min(one.place);
            high = high.max(one.place);
        }
        Span { low, high }
    }

    fn middle(&self) -> Middle
        ensures { Around self.now.run.b self.now.run.n (places self.now.repairs) result.from result.behind }
    {
        let span = self.span();
        let b = self.run.b;
        let behind = self.run.n.min(span.high + b);
        Middle {
            from: span.low.saturating_sub(b).min(behind),
            behind,
        }
    }

    // The bits of the range behind the middle.
    fn behind(&self, m: Middle) -> BitRange<'a>
        requires { Around self.now.run.b self.now.run.n (places self.now.repairs) m.from m.behind }
        ensures taken { bits result
            ≡ range self.now.run.piece.bytes.now (self.now.run.piece.start + behind_place self.now.run.piece.len self.now.run.n self.now.run.b m.behind) (self.now.run.n - m.behind) }
        ensures len { result.len ≡ self.now.run.n - m.behind }
    {
        let Run { piece, n, .. } = self.run;
        piece
            .skip(behind_place(self.run, m.behind))
            .first(n - m.behind)
    }

    // The bits of the middle more, in a hash under way.
    fn hash_middle(&self, m: Middle, before: Hashing) -> Hashing
        requires { (m.from ≤ m.behind) × (m.behind ≤ self.now.run.n) }
        ensures { Went before.sum before.row (woven_from (bits self.now.run.piece) self.now.run.n self.now.run.b (places self.now.repairs) (put_bits self.now.repairs) m.from (m.behind - m.from)) result.sum result.row }
    {
        let run = self.run;
        let mut all = before;
        // A counter beside the loop, as `next_column` says.
        let mut j = column_of(run.b, m.from);
        for i in m.from..m.behind {
            let one = self.repairs[j];
            all = all.bit(woven_bit(run, i, one.place, one.bit));
            j = next_column(run.b, j);
        }
        all
    }

    // The bits of the middle are written into `to` from place `at` on.
    fn copy_middle(&self, m: Middle, to: &mut [u8], at: usize)
        requires part { Part to.old at (m.behind - m.from) }
        requires from_le_behind { (m.from ≤ m.behind) × (m.behind ≤ self.now.run.n) }
        ensures { to.new
            ≡ write_bits to.old at (woven_from (bits self.now.run.piece) self.now.run.n self.now.run.b (places self.now.repairs) (put_bits self.now.repairs) m.from (m.behind - m.from)) }
    {
        let run = self.run;
        // A counter beside the loop, as `next_column` says.
        let mut j = column_of(run.b, m.from);
        for i in m.from..m.behind {
            let one = self.repairs[j];
            let x = woven_bit(run, i, one.place, one.bit);
            strings::set_bit(to, at + (i - m.from), x);
            j = next_column(run.b, j);
        }
    }
}

// The repaired range.
impl Candidate for Woven<'_> {
    ghost candidate = { λ w. woven (bits w.run.piece) w.run.n w.run.b (places w.repairs) (put_bits w.repairs) };

    fn hash(&self, k: HashKey) -> u32 {
        let m = self.middle();
        let before = k.start().over(self.run.piece.first(m.from));
        let here = self.hash_middle(m, before);
        let all = here.over(self.behind(m));
        k.cut(all)
    }

    fn copy(&self, to: &mut [u8], at: usize) {
        let m = self.middle();
        strings::copy_bits(self.run.piece.first(m.from), to, at);
        self.copy_middle(m, to, at + m.from);
        strings::copy_bits(self.behind(m), to, at + m.behind);
    }
}
