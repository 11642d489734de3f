// States and sheet as bytes (docs/LAYOUT.md), for the C interface. Reading and writing require that the slice is long enough: an entry
// point tests it first.
#![tactic(auto)]

mod cases;
mod numbers;
mod sheet;
mod state;

pub use sheet::apply_change;
pub use state::{
    holds_holder, holds_rebuilder, read_holder, read_rebuilder, write_holder, write_rebuilder,
};

// The bytes of a holder's state (specs/Layout.antt: holder_size).
pub const HOLDER_BYTES: usize = 20;

// The bytes of a rebuilder's state (specs/Layout.antt: rebuilder_size).
pub const REBUILDER_BYTES: usize = 564;

// The bytes of a row of the sheet (specs/Sheet.antt: row_size).
pub const ROW_BYTES: usize = 12;
