// The two ends: the highest of the four layers. Here are the states and the sheet's rows; below, by file: the anchor search,
// the states' steps and soundness, the holder's call, the rebuilder's start and call, and its call over a lent sheet.
#![tactic(auto)]

ghost use Rattle.std.specs.Prelude.{◌≡◌};
ghost use Rattle.ends.specs.Segments.{how_number};

use strings::Settings;

mod anchors;
mod answering;
mod rebuilding;
mod sheet;
mod sound;
mod state;
mod steps;

pub use anchors::find_anchor;
pub use answering::{HolderOut, fresh_holder, holder_call};
pub use rebuilding::{RebuilderOut, Started, rebuilder_call, rebuilder_start};
pub use sheet::rebuilder_call_on_sheet;

// The most answers that a holder gives (specs/Soundness.antt: most_answers).
const MOST_ANSWERS: u32 = 1000000;

// The most bytes of an answer of numbers (messages specs/Answers.antt: longest_numbers).
const LONGEST_NUMBERS: u32 = 102;

// How a row's piece was settled; specs/Segments.antt has the numbers, 1 to 6 in this order.
#[derive(Clone, Copy, Debug, PartialEq, Eq)]
pub enum How {
    ByHash,
    ByPutIn,
    ByTakeOut,
    ByAnchor,
    ByBits,
    // Its columns were repaired (02, CR 1).
    ByBurst,
}

// The number of how.
impl From<How> for u32 {
    ghost from_gives = { λ how v. v ≡ how_number how };

    fn from(how: How) -> u32 {
        match how {
            How::ByHash => 1,
            How::ByPutIn => 2,
            How::ByTakeOut => 3,
            How::ByAnchor => 4,
            How::ByBits => 5,
            How::ByBurst => 6,
        }
    }
}

// A row of the sheet: start and length in X, and the number of how. The number of a row of zeros is 0, which is no How: a sheet is
// lent with such rows behind the used ones, as the C interface has them in bytes.
#[derive(Clone, Copy, Debug, Default, PartialEq, Eq)]
pub struct Row {
    pub start: u32,
    pub len: u32,
    pub how: u32,
}

// A waiting piece: p bits of X from x on, paired with q bits of Y from y on.
#[derive(Clone, Copy, Debug, Default, PartialEq, Eq)]
pub struct Piece {
    pub x: u32,
    pub p: u32,
    pub y: u32,
    pub q: u32,
}

// Step 4's anchors, in the order in which they are tried.
#[derive(Clone, Copy, Debug, PartialEq, Eq)]
pub enum Attempt {
    First,
    Second,
    Third,
}

// What is asked of a waiting piece: its hash (step 2); its syndrome, to put a bit in or to take one out (step 3); the bits of an anchor,
// or all its bits (step 4).
#[derive(Clone, Copy, Debug, PartialEq, Eq)]
pub enum Stage {
    Hashing,
    PuttingIn,
    TakingOut,
    Anchor(Attempt),
    AllBits,
    // The syndromes of its columns, and its hash, where the copy is 2 to 32 bits shorter or longer (02, CR 1).
    Columns,
}

// What is awaited: the opening's answer; one for the leftmost waiting piece, or nothing if none waits; bits 0, n.
#[derive(Clone, Copy, Debug, PartialEq, Eq)]
pub enum Phase {
    AtOpening,
    AtPieces,
    AtWhole,
}

// The rebuilder's state (docs/STATE.md).
#[derive(Clone, Copy, Debug, PartialEq, Eq)]
pub struct Rebuilder {
    pub settings: Settings,
    // Y's bit count.
    pub ybits: u32,
    pub phase: Phase,
    pub n: u32,
    // Questions answered, and the bytes of their answers but the opening's.
    pub answered: u32,
    pub counted: u32,
    // Used rows of the sheet.
    pub rows: u32,
    // The leftmost piece's; Hashing if none waits.
    pub stage: Stage,
    // The waiting pieces, the leftmost last, zeros behind it: an array and a count, since memory is fixed.
    pub waiting: u32,
    pub pieces: [Piece; 32],
}

// What a call of the rebuilder does to the sheet: nothing; a row at an index; or one row in place of the used ones.
#[derive(Clone, Copy, Debug, PartialEq, Eq)]
pub enum SheetChange {
    NoRow,
    AddRow(u32, Row),
    OneRow(u32, Row),
}

// The holder's state: whether it is opened, and from the opening on X's bit count, h, key and the answers given. The C interface keeps a
// flag beside the numbers: a host's bytes may say both not opened and numbers, which is a state to be told apart and turned down.
#[derive(Clone, Copy, Debug, Default, PartialEq, Eq)]
pub struct Holder {
    pub opened: bool,
    pub bits: u32,
    pub h: u32,
    pub key: u32,
    pub answers: u32,
}
