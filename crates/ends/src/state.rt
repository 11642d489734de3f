// The rebuilder's state by value: the stack of waiting pieces, stages, counts, and the question that a state asks.
// A step requires what every sound state of its phase has: the rebuilder tests a state once, at the start of its call.
// Functions and no methods, here and in sound, answering and steps: `st.top()` would say no more than `top(st)`. What a step requires is
// named (Holds, Counts, ..) and said once in StateCode.
ghost use Rattle.std.specs.Prelude.{◌≡◌, true, cond, ◌&&◌, ◌+◌, ◌-◌, ◌*◌, ◌/◌, ◌≤◌, ◌<◌};
ghost use Rattle.ends.specs.Anchors.{distance};
ghost use Rattle.ends.specs.Segments.{too_small, is_burst, later_stage, first_stage, next_stage, after_anchor, offset, asks};
ghost use Rattle.ends.specs.States.{top, popped, pushed, restaged, retried, split_at, planned};
ghost use Rattle.ends.specs.RebuilderCall.{tallied, opening_step, whole_state, fresh_rebuilder};
ghost use Rattle.ends.specs.declared.Phase.TheVariants.{AtPieces, AtWhole};
ghost use Rattle.ends.specs.code.StateCode.{plan_of, Usable, Holds, Stages, Retries, Offsets, Splits, Counts, Asks, Plans};

use crate::{Attempt, Phase, Piece, Rebuilder, Stage};
use messages::Question;
use strings::Settings;

// The leftmost waiting piece.
#[tactic(auto, unfolding(crate::specs::States::top))]
pub fn top(st: Rebuilder) -> Piece
    requires { Holds st }
    ensures { result ≡ top st }
{
    st.pieces[(st.waiting - 1) as usize]
}

// The state without the leftmost waiting piece.
#[tactic(auto, unfolding(crate::specs::States::popped))]
pub fn pop(st: Rebuilder) -> Rebuilder
    requires { Holds st }
    ensures { result ≡ popped st }
{
    let mut s = st;
    s.waiting -= 1;
    s.pieces[s.waiting as usize] = Piece::default();
    s
}

// The state with one more piece, unless this is empty.
#[tactic(auto, unfolding(crate::specs::States::pushed))]
fn push(st: Rebuilder, pc: Piece) -> Rebuilder
    requires { st.waiting < 32 }
    ensures { result ≡ pushed st pc }
{
    if pc.p == 0 {
        return st;
    }
    let mut s = st;
    s.pieces[s.waiting as usize] = pc;
    s.waiting += 1;
    s
}

// The same number, wider: a sum of two such numbers can't overflow. Tried without: std's conversion says the value alone, and of a field of
// a piece in an array no bound was proved.
pub fn wide(v: u32) -> u64
    ensures { (result ≡ v) × (result ≤ 4294967295) }
{
    v as u64
}

// That the settings are within their limits (Usable) stays a clause here, below and in `stage_fits`: the states keep settings of any
// numbers, as a host's bytes say them, and a checked copy made at each call would be no plainer.

// Whether a piece is too small for anchors.
#[tactic(auto, unfolding(crate::specs::Segments::too_small))]
pub fn too_small(s: Settings, pc: Piece) -> bool
    requires { Usable s }
    ensures { result ≡ too_small s pc.p pc.q }
{
    pc.p < 4 * (s.m + s.h) || pc.q < s.m
}

// The stage of step 4.
#[tactic(auto, unfolding(crate::specs::Segments::later_stage))]
fn later_stage(s: Settings, pc: Piece) -> Stage
    requires { Usable s }
    ensures { result ≡ later_stage s pc.p pc.q }
{
    if too_small(s, pc) {
        return Stage::AllBits;
    }
    Stage::Anchor(Attempt::First)
}

// By how many bits a piece's lengths p and q differ.
pub fn length_distance(pc: Piece) -> u32
    ensures { result ≡ distance pc.p pc.q }
{
    pc.p.abs_diff(pc.q)
}

// Whether they differ by 2 to 32 (02, CR 1).
pub fn is_burst(pc: Piece) -> bool
    ensures { result ≡ is_burst pc.p pc.q }
{
    codes::is_column_count(length_distance(pc))
}

// The stage at which a piece begins.
fn first_stage(s: Settings, pc: Piece) -> Stage
    requires { Usable s }
    ensures { result ≡ first_stage s pc.p pc.q }
{
    let a = wide(pc.p);
    let b = wide(pc.q);
    if b == a {
        return Stage::Hashing;
    }
    if b + 1 == a {
        return Stage::PuttingIn;
    }
    if b == a + 1 {
        return Stage::TakingOut;
    }
    if is_burst(pc) {
        return Stage::Columns;
    }
    later_stage(s, pc)
}

// The stage after an anchor that can't be placed.
fn after_anchor(i: Attempt) -> Stage
    ensures { result ≡ after_anchor i }
{
    match i {
        Attempt::First => Stage::Anchor(Attempt::Second),
        Attempt::Second => Stage::Anchor(Attempt::Third),
        Attempt::Third => Stage::AllBits,
    }
}

// The stage of a piece after stage t.
fn next_stage(s: Settings, pc: Piece, t: Stage) -> Stage
    requires { Usable s }
    ensures { result ≡ next_stage s pc.p pc.q t }
{
    match t {
        Stage::Hashing | Stage::PuttingIn | Stage::TakingOut | Stage::Columns => later_stage(s, pc),
        Stage::Anchor(i) => after_anchor(i),
        Stage::AllBits => Stage::AllBits,
    }
}

// The leftmost piece is at its first stage.
#[tactic(auto, unfolding(crate::specs::States::restaged, crate::specs::States::top))]
pub fn restage(st: Rebuilder) -> Rebuilder
    requires { Stages st }
    ensures { result ≡ restaged st }
{
    if st.waiting == 0 {
        return Rebuilder {
            stage: Stage::Hashing,
            ..st
        };
    }
    // Not by `top`, which would copy the state once more: this is done at each answer that settles a piece.
    let pc = st.pieces[(st.waiting - 1) as usize];
    let stage = first_stage(st.settings, pc);
    Rebuilder { stage, ..st }
}

// The leftmost piece is at the stage after its own.
#[tactic(auto, unfolding(crate::specs::States::retried))]
pub fn retry(st: Rebuilder) -> Rebuilder
    requires { Retries st }
    ensures { result ≡ retried st }
{
    let stage = next_stage(st.settings, top(st), st.stage);
    Rebuilder { stage, ..st }
}

// The offset of an anchor.
pub fn anchor_offset(m: u32, p: u32, i: Attempt) -> u32
    requires { Offsets m p }
    ensures { result ≡ offset m p i }
{
    let c = (p - m) / 2;
    match i {
        Attempt::First => c,
        Attempt::Second => c + m,
        Attempt::Third => c - m,
    }
}

// The leftmost piece is split by an anchor at offset s, placed at r.
pub fn split_at(st: Rebuilder, s: u32, r: u32) -> Rebuilder
    requires { Splits st s r }
    ensures { result ≡ split_at st s r }
{
    let t = top(st);
    let m = st.settings.m;
    let rest = pop(st);
    let right = Piece {
        x: t.x + s + m,
        p: t.p - (s + m),
        y: t.y + r + m,
        q: t.q - (r + m),
    };
    let left = Piece {
        x: t.x,
        p: s,
        y: t.y,
        q: r,
    };
    restage(push(push(rest, right), left))
}

// Past the ceiling, if pieces wait, all bits are awaited.
fn phase_after(past: bool, waits: bool) -> Phase
    ensures { result ≡ cond (past && waits) AtWhole AtPieces }
{
    if past && waits {
        return Phase::AtWhole;
    }
    Phase::AtPieces
}

// An answer of size bytes and the rows that it brought are counted; past the ceiling, if pieces wait, all bits are asked for.
#[tactic(auto, unfolding(crate::specs::RebuilderCall::tallied))]
pub fn tally(st: Rebuilder, size: u32, rows: u32) -> Rebuilder
    requires { Counts st size rows }
    ensures { result ≡ tallied st size rows }
{
    let counted = st.counted + size;
    let phase = phase_after(st.settings.ceiling < counted, 0 < st.waiting);
    Rebuilder {
        phase,
        answered: st.answered + 1,
        counted,
        rows: st.rows + rows,
        ..st
    }
}

// The state after the opening's answer n: the first piece is all of both strings.
pub fn open_state(st: Rebuilder, n: u32) -> Rebuilder
    requires { Usable st.settings × (st.answered < 4294967295) }
    ensures { result ≡ (opening_step st n).state }
{
    let answered = st.answered + 1;
    let opened = Rebuilder {
        phase: Phase::AtPieces,
        n,
        answered,
        counted: 0,
        rows: 0,
        stage: Stage::Hashing,
        waiting: 0,
        ..st
    };
    restage(push(
        opened,
        Piece {
            x: 0,
            p: n,
            y: 0,
            q: st.ybits,
        },
    ))
}

// The state after an answer of size bytes with all bits.
#[tactic(auto, unfolding(crate::specs::RebuilderCall::whole_state))]
pub fn whole_state(st: Rebuilder, size: u32) -> Rebuilder
    requires { Counts st size 0 }
    ensures { result ≡ whole_state st size }
{
    Rebuilder {
        phase: Phase::AtPieces,
        answered: st.answered + 1,
        counted: st.counted + size,
        rows: 1,
        stage: Stage::Hashing,
        waiting: 0,
        pieces: [Piece::default(); 32],
        ..st
    }
}

// The state at the start, for a copy of that many bits.
pub fn fresh_rebuilder(settings: Settings, bits: u32) -> Rebuilder
    ensures { result ≡ fresh_rebuilder settings bits }
{
    Rebuilder {
        settings,
        ybits: bits,
        phase: Phase::AtOpening,
        n: 0,
        answered: 0,
        counted: 0,
        rows: 0,
        stage: Stage::Hashing,
        waiting: 0,
        pieces: [Piece::default(); 32],
    }
}

// The question for the piece t at its stage.
fn ask_for(s: Settings, t: Piece, stage: Stage) -> Question
    requires { Asks s.m t stage }
    ensures { result ≡ asks s t.x t.p t.q stage }
{
    match stage {
        Stage::Hashing => Question::AskHash(t.x, t.p),
        Stage::PuttingIn => Question::AskSyndrome(t.x, t.p),
        Stage::TakingOut => Question::AskSyndrome(t.x, t.p),
        Stage::Anchor(i) => Question::AskBits(t.x + anchor_offset(s.m, t.p, i), s.m),
        Stage::AllBits => Question::AskBits(t.x, t.p),
        Stage::Columns => Question::AskBurst(t.x, t.p, length_distance(t)),
    }
}

// What the state asks next: nothing after the finish.
pub fn plan_next(st: Rebuilder) -> Option<Question>
    requires { Plans st }
    ensures { result ≡ plan_of (planned st) }
{
    match st.phase {
        Phase::AtOpening => Some(Question::AskOpen(st.settings.h, st.settings.key)),
        Phase::AtWhole => Some(Question::AskBits(0, st.n)),
        Phase::AtPieces => {
            if st.waiting == 0 {
                return None;
            }
            Some(ask_for(st.settings, top(st), st.stage))
        }
    }
}
