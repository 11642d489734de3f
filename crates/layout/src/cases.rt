// The cases of a state as numbers: they are numbers in its bytes alone. A number that is no case's is read as the last case.
// Functions, and no From: the numbers are those of a state's bytes alone, so that `ends` has none, and here type and trait are of other
// crates.
ghost use Rattle.std.specs.Prelude.{◌≡◌};
ghost use Rattle.layout.specs.Layout.{phase_number, phase_of, stage_number, stage_of};

use ends::{Attempt, Phase, Stage};

// The number of a phase.
pub fn phase_number(p: Phase) -> u32
    ensures { result ≡ phase_number p }
{
    match p {
        Phase::AtOpening => 0,
        Phase::AtPieces => 1,
        Phase::AtWhole => 2,
    }
}

// The phase of a number.
#[tactic(auto, unfolding(crate::specs::Layout::phase_of))]
pub fn phase_of(v: u32) -> Phase
    ensures { result ≡ phase_of v }
{
    match v {
        0 => Phase::AtOpening,
        1 => Phase::AtPieces,
        _ => Phase::AtWhole,
    }
}

// The number of a stage.
pub fn stage_number(t: Stage) -> u32
    ensures { result ≡ stage_number t }
{
    match t {
        Stage::Hashing => 0,
        Stage::PuttingIn => 1,
        Stage::TakingOut => 2,
        Stage::Anchor(Attempt::First) => 3,
        Stage::Anchor(Attempt::Second) => 4,
        Stage::Anchor(Attempt::Third) => 5,
        Stage::AllBits => 6,
        Stage::Columns => 7,
    }
}

// The stage of a number.
#[tactic(auto, unfolding(crate::specs::Layout::stage_of))]
pub fn stage_of(v: u32) -> Stage
    ensures { result ≡ stage_of v }
{
    match v {
        0 => Stage::Hashing,
        1 => Stage::PuttingIn,
        2 => Stage::TakingOut,
        3 => Stage::Anchor(Attempt::First),
        4 => Stage::Anchor(Attempt::Second),
        5 => Stage::Anchor(Attempt::Third),
        6 => Stage::AllBits,
        _ => Stage::Columns,
    }
}
