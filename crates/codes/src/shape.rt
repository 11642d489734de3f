// Which bits of a string a column has: how many columns there can be, how long one is, and which one a bit is in. What is divided here is a
// number of bits by the number of columns; sums and repairs divide by nothing but 2 and 8.
ghost use Rattle.std.specs.Prelude.{◌≡◌, ◌%◌, ◌≤◌, ◌<◌};
ghost use Rattle.strings.specs.Bits.{max_bits};
ghost use Rattle.codes.specs.Columns.{column_length, column_limits, RunApart};
ghost use Rattle.codes.specs.code.Weaving.{next_column};
ghost use Rattle.codes.specs.laws.RunLaws.{RunApart-prop};

use strings::BitRange;

// Whether so many columns are asked about.
pub fn is_column_count(b: u32) -> bool
    ensures { result ≡ column_limits b }
{
    strings::is_between(2, b, 32)
}

// How many bits column j of n bits has.
pub fn column_length(b: usize, j: usize, n: usize) -> usize
    requires j_lt_b { j < b }
    requires b_bound { b ≤ 32 }
    ensures { result ≡ column_length b j n }
{
    n.saturating_sub(j).div_ceil(b)
}

// The column of bit i.
pub fn column_of(b: usize, i: usize) -> usize
    requires { 2 ≤ b }
    ensures value { result ≡ i % b }
    ensures upper_bound { result < b }
{
    i % b
}

// The next column: behind the last comes the first again. Loops over bits step the column so, without a division at each bit; the repairs
// gone through again and again (`cycle`) would have to be begun at a column and go beside the bits, which is no plainer.
pub fn next_column(b: usize, j: usize) -> usize
    requires { j < b }
    ensures { result ≡ next_column b j }
{
    if j + 1 < b {
        return j + 1;
    }
    0
}

// Column j of the b columns of a range: every b-th bit from bit j on. No equality is derived, as for `BitRange`: it would compare whole
// bytes, where equal bits may stand at other places of other bytes. That b is 2 to 32 is said here and in `Run`, and b is no type of its
// own: questions, states and hosts have it as a number.
#[derive(Clone, Copy, Debug)]
pub struct Column<'a> {
    pub piece: BitRange<'a>,
    pub b: usize,
    pub j: usize,
    ghost least: { 2 ≤ b },
    ghost most: { b ≤ 32 },
    ghost inside: { j < b },
}

impl Column<'_> {
    // How many bits it has.
    pub(crate) fn len(self) -> usize
        ensures { result ≡ column_length self.entry.b self.entry.j self.entry.piece.len }
    {
        column_length(self.b, self.j, self.piece.len)
    }
}

// A range that is to become one of n bits by a run of b bits put in or taken out, one in each column. No equality is derived, as for
// `Column`.
#[derive(Clone, Copy, Debug)]
pub struct Run<'a> {
    pub piece: BitRange<'a>,
    pub n: usize,
    pub b: usize,
    ghost least: { 2 ≤ b },
    ghost most: { b ≤ 32 },
    ghost apart: { RunApart b piece.len n } by { RunApart-prop b piece.len n least },
    ghost few: { n ≤ max_bits },
}
