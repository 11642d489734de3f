// The columns of a range: column j of b takes every b-th bit from bit j on, j from 0. A run of b bits lost or gained is one bit lost or
// gained in each column, so that each is repaired by the repair of one bit with its own syndrome.
ghost use Rattle.std.specs.Prelude.{◌≡◌, true, ◌≤◌, ◌<◌, length, take};
ghost use Rattle.strings.specs.Bits.{write_bits, Part};
ghost use Rattle.strings.specs.Ranges.{bits};
ghost use Rattle.codes.specs.Syndrome.{syndrome};
ghost use Rattle.codes.specs.Columns.{column, column_length, repair_run};
ghost use Rattle.codes.specs.Trials.{agreeing, tried_at};
ghost use Rattle.codes.specs.code.Edits.{Fits};
ghost use Rattle.codes.specs.code.Weaving.{Located, ColumnFound};
ghost use Rattle.codes.specs.code.Runs.{is_found, place_found, bit_found, run_repaired, RepairPlaced};

use crate::candidates::try_candidate;
use crate::edits::Edit;
use crate::rows::HashKey;
use crate::shape::{Column, Run};
use crate::strides::Strided;
use crate::weaving::{ColumnRepair, Woven};
use strings::BitRange;

// The column becomes the first bits of `to`.
fn copy_column(c: Column, to: &mut [u8])
    requires { Part to.old 0 (column_length c.b c.j c.piece.len) }
    ensures { to.new ≡ write_bits to.old 0 (column c.entry.b c.entry.j (bits c.entry.piece)) }
{
    let s = c.piece;
    let all = Strided {
        bytes: s.bytes,
        start: s.start + c.j,
        step: c.b,
        len: c.len(),
    };
    all.copy(to);
}

// The syndrome of the column. It is copied to the front of `to`.
fn syndrome_in_copy(c: Column, to: &mut [u8]) -> usize
    requires { Part to.old 0 (column_length c.b c.j c.piece.len) }
    ensures { result ≡ syndrome (column c.entry.b c.entry.j (bits c.entry.piece)) }
{
    copy_column(c, to);
    crate::sums::syndrome_of(BitRange {
        bytes: to,
        start: 0,
        len: c.len(),
    })
}

// The same, in a buffer of its own. Most columns are short, and a short buffer is made in less time.
pub fn syndrome_of_column(c: Column) -> usize
    ensures { result ≡ syndrome (column c.entry.b c.entry.j (bits c.entry.piece)) }
{
    if c.len() <= 512 {
        return syndrome_in_copy(c, &mut [0u8; 64]);
    }
    syndrome_in_copy(c, &mut [0u8; 4096])
}

// An edit of the column, by its place in the piece.
fn column_repair(c: Column, e: Edit) -> ColumnRepair
    requires { Fits e (column_length c.b c.j c.piece.len) }
    ensures { Located e c.entry.b c.entry.j true result.place result.bit }
{
    match e {
        Edit::Put(k, x) => ColumnRepair {
            place: c.j + k * c.b,
            bit: x,
        },
        Edit::Take(k) => ColumnRepair {
            place: c.j + k * c.b,
            bit: false,
        },
    }
}

// The repair of column j with the syndrome a. The column is copied to the front of `to`.
fn find_in_copy(run: Run, j: usize, a: usize, to: &mut [u8]) -> Option<ColumnRepair>
    requires j_lt_b { j < run.b }
    requires part { Part to.old 0 (column_length run.b j run.piece.len) }
    ensures { ColumnFound run.entry.b run.entry.n a (bits run.entry.piece) j (is_found result) (place_found result) (bit_found result) }
{
    let Run { piece, n, b } = run;
    let c = Column { piece, b, j };
    copy_column(c, to);
    let copy = BitRange {
        bytes: to,
        start: 0,
        len: c.len(),
    };
    let e = crate::places::find_repair(copy, crate::shape::column_length(b, j, n), a)?;
    Some(column_repair(c, e))
}

// The same, in a buffer of its own. Most columns are short, and a short buffer is made in less time. That a column's syndrome and its
// repair choose the buffer alike is left: one function for both would take a closure over a lent buffer, which is no plainer.
fn find_column(run: Run, j: usize, a: usize) -> Option<ColumnRepair>
    requires { j < run.b }
    ensures { ColumnFound run.entry.b run.entry.n a (bits run.entry.piece) j (is_found result) (place_found result) (bit_found result) }
{
    let Run { piece, b, .. } = run;
    let len = Column { piece, b, j }.len();
    if len <= 512 {
        return find_in_copy(run, j, a, &mut [0u8; 64]);
    }
    find_in_copy(run, j, a, &mut [0u8; 4096])
}

// The repairs of all columns, with the first b of the syndromes a, if every column has one.
fn find_columns(run: Run, a: &[u32]) -> Option<[ColumnRepair; 32]>
    requires { run.b ≤ length a.now }
    ensures bits_value { run_repaired (bits run.entry.piece) run.entry.n run.entry.b result
        ≡ repair_run run.entry.b run.entry.n (take run.entry.b a.now) (bits run.entry.piece) }
    ensures placed { RepairPlaced run.entry.b run.entry.piece.len result }
{
    let mut repairs = [ColumnRepair::default(); 32];
    for (j, &v) in a[..run.b].iter().enumerate() {
        repairs[j] = find_column(run, j, v as usize)?;
    }
    Some(repairs)
}

// The repair of all columns, with the first b of the syndromes a, to n bits, if every column has one. It is written into `to` from place
// `at` on only if it has the hash v.
pub fn try_run(run: Run, a: &[u32], v: u32, k: HashKey, to: &mut [u8], at: usize) -> bool
    requires enough { run.b ≤ length a.now }
    requires part { Part to.old at run.n }
    ensures { record { settled = result; buffer = to.new }
        ≡ tried_at to.old at (agreeing k.h k.key v (repair_run run.entry.b run.entry.n (take run.entry.b a.now) (bits run.entry.piece))) }
{
    let Some(repairs) = find_columns(run, a) else {
        return false;
    };
    try_candidate(&Woven { run, repairs }, v, k, to, at)
}
