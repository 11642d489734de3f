// The sheet as a lent slice of rows, and the rebuilder's call over it. The functions on rows require that the sheet has them; the call
// has tested the sheet's length when it comes to them, and requires nothing. `layout` has the same three on the sheet's bytes, and why.
ghost use Rattle.std.specs.Prelude.{◌≡◌, [], ◌∷◌, ◌-◌, ◌≤◌, ◌<◌, length, replicate};
ghost use Rattle.std.proofs.lemmas.List.Edits.{sets};
ghost use Rattle.ends.specs.RebuilderCall.{no_row, sheet_after, rows_needed};
ghost use Rattle.ends.specs.SheetCall.{said_on_sheet, sheet_outcome};

use crate::rebuilding::{RebuilderOut, rebuilder_call};
use crate::{Rebuilder, Row, SheetChange};

// A row is written at its index.
pub fn write_row(sheet: &mut [Row], at: usize, row: Row)
    requires { at < length sheet.old }
    ensures { sheet.new ≡ sets sheet.old at (row ∷ []) }
{
    sheet[at] = row;
}

// The rows `from` to to - 1 become zeros.
pub fn clear_rows(sheet: &mut [Row], from: usize, to: usize)
    requires { to ≤ length sheet.old }
    ensures { sheet.new ≡ sets sheet.old from (replicate (to - from) no_row) }
{
    if from < to {
        sheet[from..to].fill(Row::default());
    }
}

// What a call of the rebuilder does to the sheet is done to its rows.
pub fn apply_change(sheet: &mut [Row], change: SheetChange)
    requires { rows_needed change ≤ length sheet.old }
    ensures { sheet.new ≡ sheet_after sheet.old change }
{
    match change {
        SheetChange::NoRow => {}
        SheetChange::AddRow(index, row) => write_row(sheet, index as usize, row),
        SheetChange::OneRow(used, row) => {
            write_row(sheet, 0, row);
            clear_rows(sheet, 1, used as usize);
        }
    }
}

// The rebuilder's call over a lent sheet of rows.
pub fn rebuilder_call_on_sheet(
    st: Rebuilder,
    y: &[u8],
    bits: usize,
    msg: &[u8],
    sheet: &mut [Row],
    string: &mut [u8],
    question: &mut [u8],
) -> RebuilderOut
    ensures { said_on_sheet result sheet.new string.new question.new
        ≡ sheet_outcome st y.now bits msg.now sheet.old string.old question.old }
{
    let out = rebuilder_call(st, y, bits, msg, sheet.len(), string, question);
    apply_change(sheet, out.sheet);
    out
}
