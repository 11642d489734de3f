// Messages: the third layer. Numbers, questions and answers as bytes.
// Refusals 4 to 7 are all met here. Of 8, what a message decides together with n, h and the length awaited is tested here, behind 7:
// version, h, key, n above MAX_BITS, a range empty or past n, a syndrome above the length (of its column), a hash of 2^h or more, spare
// bits set. 10, the number B of a burst question outside 2 to 32, is tested between 7 and 8.
#![tactic(auto)]

mod answers;
mod kinds;
mod numbers;
mod questions;
mod reading;
mod writing;

pub use answers::{
    burst_syndromes, read_answer, write_bits, write_burst, write_hash, write_size, write_syndrome,
};
pub use kinds::read_kind;
pub use questions::{read_fields, write_question};

// The kinds of 01, "Messages", and 02, CR 1; specs/Kinds.antt has their numbers, 0 to 4.
#[derive(Clone, Copy, Debug, PartialEq, Eq)]
pub enum Kind {
    Open,
    Hash,
    Syndrome,
    Bits,
    Burst,
}

// A question: of an opening h and key (its version is 1), of the others start and length, of a burst also the number B of columns.
#[derive(Clone, Copy, Debug, PartialEq, Eq)]
pub enum Question {
    AskOpen(u32, u32),
    AskHash(u32, u32),
    AskSyndrome(u32, u32),
    AskBits(u32, u32),
    AskBurst(u32, u32, u32),
}

// An answer as it was read: n; the hash; syndrome and hash; the index of the byte at which the bits begin; of a burst's answer the hash,
// whose syndromes `burst_syndromes` gives.
#[derive(Clone, Copy, Debug, PartialEq, Eq)]
pub enum Found {
    IsSize(u32),
    IsHash(u32),
    IsSyndrome(u32, u32),
    IsBits(usize),
    IsBurst(u32),
}
