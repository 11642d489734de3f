// The sheet as bytes: rows of 12 bytes. The call has tested the sheet's length before a row is written, so that these functions may
// require it. All three have twins in `ends`, on rows: a trait of both kinds of sheet would promise the rows alone, where these promise
// every byte, also those behind the last row.
ghost use Rattle.std.specs.Prelude.{◌≡◌, ◌+◌, ◌-◌, ◌*◌, ◌≤◌, length, replicate};
ghost use Rattle.std.proofs.lemmas.List.Edits.{sets};
ghost use Rattle.ends.specs.RebuilderCall.{no_row, rows_needed};
ghost use Rattle.layout.specs.Sheet.{row_size, row_bytes, rows_bytes, sheet_bytes_after};

use crate::ROW_BYTES;
use crate::numbers::write_words;
use ends::{Row, SheetChange};

// A row is written at its index.
#[tactic(auto, unfolding(crate::specs::Sheet::row_bytes))]
pub fn write_row(sheet: &mut [u8], index: usize, row: Row)
    requires { row_size * index + row_size ≤ length sheet.old }
    ensures { sheet.new ≡ sets sheet.old (row_size * index) (row_bytes row) }
{
    write_words(sheet, ROW_BYTES * index, &[row.start, row.len, row.how]);
}

// The rows `from` to to - 1 become zeros.
pub fn clear_rows(sheet: &mut [u8], from: usize, to: usize)
    requires { row_size * to ≤ length sheet.old }
    ensures { sheet.new ≡ sets sheet.old (row_size * from) (rows_bytes (replicate (to - from) no_row)) }
{
    if from < to {
        sheet[ROW_BYTES * from..ROW_BYTES * to].fill(0);
    }
}

// What a call of the rebuilder does to the sheet is done to its bytes.
pub fn apply_change(sheet: &mut [u8], change: SheetChange)
    requires { row_size * rows_needed change ≤ length sheet.old }
    ensures { sheet.new ≡ sheet_bytes_after sheet.old change }
{
    match change {
        SheetChange::NoRow => {}
        SheetChange::AddRow(index, row) => write_row(sheet, index as usize, row),
        SheetChange::OneRow(used, row) => {
            write_row(sheet, 0, row);
            clear_rows(sheet, 1, used as usize);
        }
    }
}
