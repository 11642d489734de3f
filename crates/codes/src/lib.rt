// Codes and hash: the second of the four layers. The syndrome of a string, one bit put in or taken out so that the syndrome is a given
// number, and the keyed hash; both for each column of a string, where a run of bits was lost or gained; all strings of one syndrome; and
// markers, words with a wanted syndrome that carry a message. `entries`, `lists` and `markers` have what a host calls, on any bytes and
// numbers; the other modules work on a `BitRange`, which is known to lie in its string. Of these the layers above call
// `syndrome_of`, `syndrome_of_column`, the hash of a `HashKey`, and the trials.
#![tactic(auto)]

mod candidates;
mod columns;
mod edits;
mod entries;
mod lists;
mod markers;
mod modulus;
mod places;
mod rows;
mod shape;
mod strides;
mod sums;
mod trials;
mod weaving;

pub use columns::{syndrome_of_column, try_run};
pub use entries::{hash, repair, syndrome};
pub use lists::list_syndrome;
pub use markers::{build_marker, read_marker};
pub use rows::{HashKey, xorshift};
pub use shape::{Column, Run, column_length, is_column_count};
pub use sums::syndrome_of;
pub use trials::{try_copy, try_repair};
