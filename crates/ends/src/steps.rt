// What an answer that was read makes of state, string, sheet and question: steps 1 to 4 of 01, "The rebuilder", and the whole string.
// The functions require what the call has tested before it comes to them: a sound state that asks this question, and buffers that are long
// enough. The latter stays a clause of each function, and the buffers two parameters: a struct with lent buffers would say in each clause
// that it keeps what was lent, and an array of 8 bytes would leave the question's bytes behind it out of what is promised. How many of an
// answer's bits count is what the state asks for, so that they stay bytes with a clause: a range would need a clause for its length.
ghost use Rattle.std.specs.Prelude.{◌≡◌, true, List, ℕ, ◌+◌, ◌*◌, ◌≤◌, ◌<◌, length, take};
ghost use Rattle.strings.specs.Bits.{range, bytes_for, max_bits, at_front};
ghost use Rattle.strings.specs.Ranges.{bits};
ghost use Rattle.messages.specs.Answers.{size_answer, hash_answer, syndrome_answer, bits_answer, burst_answer};
ghost use Rattle.ends.specs.Segments.{row};
ghost use Rattle.ends.specs.States.{top, popped, restaged, retried, split_at, planned};
ghost use Rattle.ends.specs.Soundness.{sound};
ghost use Rattle.ends.specs.declared.Rebuilder.{Rebuilder};
ghost use Rattle.ends.specs.declared.SheetChange.TheVariants.{NoRow, AddRow};
ghost use Rattle.ends.specs.declared.How.TheVariants.{ByAnchor};
ghost use Rattle.ends.specs.declared.Stage.TheVariants.{Hashing, Anchor, AllBits};
ghost use Rattle.ends.specs.RebuilderCall.{tallied, written_question};
ghost use Rattle.ends.specs.RebuilderOutcome.{said_rebuilder};
ghost use Rattle.ends.specs.code.StateCode.{plan_of, Counts};
ghost use Rattle.ends.specs.code.RebuilderParts.{next_answer, OutIs, Acting, Splitting, Lending, Retriable, RepairDue, BurstDue, burst_of, AsksBits, bits_of_stage, repair_how, step_outcome, WholeDue, Opening, BitsDue, due_length};

use crate::rebuilding::RebuilderOut;
use crate::{Attempt, How, Phase, Piece, Rebuilder, Row, SheetChange, Stage, anchors, state};
use codes::{HashKey, Run};
use messages::Question;
use strings::{BitRange, Refusal};

// What a call gives: beside its answer and the state, the counts of that state.
pub fn give(
    answer: Result<Option<usize>, Refusal>,
    state: Rebuilder,
    sheet: SheetChange,
) -> RebuilderOut
    ensures { result ≡ record { answer = answer; state = state; sheet = sheet; answered = state.answered; counted = state.counted } }
{
    RebuilderOut {
        answer,
        state,
        sheet,
        answered: state.answered,
        counted: state.counted,
    }
}

// What is planned is written as the next question. The state stays with `finish`, where it is copied once, and not in each case here.
fn ask(plan: Option<Question>, question: &mut [u8]) -> Result<Option<usize>, Refusal>
    requires { 8 ≤ length question.old }
    ensures { (s : Rebuilder) → sound s ≡ true → plan ≡ plan_of (planned s) → (result ≡ next_answer (written_question (planned s)))
        × (question.new ≡ at_front (written_question (planned s)) question.old) }
{
    match plan {
        None => Ok(None),
        Some(q) => {
            // Never turned down: no question is longer than the 8 bytes that are required here.
            let size = messages::write_question(q, question)?;
            Ok(Some(size))
        }
    }
}

// The next question of the state s is written.
fn finish(s: Rebuilder, change: SheetChange, question: &mut [u8]) -> RebuilderOut
    requires { (sound s ≡ true) × (8 ≤ length question.old) }
    ensures { OutIs result s change question.old question.new }
{
    let answer = ask(state::plan_next(s), question);
    give(answer, s, change)
}

// An answer of `size` bytes to what a sound state asks of its leftmost piece, and the copy Y. No equality is derived: it would compare all
// of Y.
#[derive(Clone, Copy, Debug)]
pub struct Turn<'a> {
    pub st: Rebuilder,
    // The leftmost piece, which nearly every step looks at: `state::top` copies the state.
    pub piece: Piece,
    pub y: &'a [u8],
    pub size: u32,
    ghost acting: { Acting st size 8 },
    ghost leftmost: { piece ≡ top st },
    ghost copy: { st.ybits ≤ 8 * length y.now },
}

impl<'a> Turn<'a> {
    // The answer that stands in a message.
    pub fn new(st: Rebuilder, y: &'a [u8], msg: &[u8]) -> Turn<'a>
        requires acting { Acting st (length msg.now) 8 }
        requires copy { st.ybits ≤ 8 * length y.now }
        ensures st { result.st ≡ st }
        ensures y { result.y.now ≡ y.now }
        ensures size { result.size ≡ length msg.now }
    {
        Turn::of_size(st, y, msg.len() as u32)
    }

    // An answer of that many bytes.
    fn of_size(st: Rebuilder, y: &'a [u8], size: u32) -> Turn<'a>
        requires acting { Acting st size 8 }
        requires copy { st.ybits ≤ 8 * length y.now }
        ensures st { result.st ≡ st }
        ensures y { result.y.now ≡ y.now }
        ensures size { result.size ≡ size }
    {
        Turn {
            st,
            piece: state::top(st),
            y,
            size,
        }
    }

    // The leftmost piece's copy: the q bits of Y that it is paired with.
    fn copy(self) -> BitRange<'a>
        ensures bits { bits result ≡ range self.entry.y.now (top self.entry.st).y (top self.entry.st).q }
        ensures len { result.len ≡ (top self.entry.st).q }
    {
        let t = self.piece;
        BitRange {
            bytes: self.y,
            start: t.y as usize,
            len: t.q as usize,
        }
    }

    // The settings' hash.
    fn hash_key(self) -> HashKey
        ensures { (result.key ≡ self.entry.st.settings.key) × (result.h ≡ self.entry.st.settings.h) }
    {
        HashKey {
            key: self.st.settings.key,
            h: self.st.settings.h,
        }
    }
}

// An answer of `size` bytes, which made the state `next` and brings a row, is counted. The row goes behind the used ones.
fn add_row(next: Rebuilder, size: u32, line: Row, question: &mut [u8]) -> RebuilderOut
    requires question_room { 8 ≤ length question.old }
    requires counts { Counts next size 1 }
    requires sound_next { sound (tallied next size 1) ≡ true }
    ensures { OutIs result (tallied next size 1) (AddRow next.rows line) question.old question.new }
{
    let s = state::tally(next, size, 1);
    finish(s, SheetChange::AddRow(next.rows, line), question)
}

// The leftmost piece is settled.
fn settle(turn: Turn, how: How, question: &mut [u8]) -> RebuilderOut
    requires { 8 ≤ length question.old }
    ensures { OutIs result (tallied (restaged (popped turn.entry.st)) turn.entry.size 1) (AddRow turn.entry.st.rows (row (top turn.entry.st).x (top turn.entry.st).p how)) question.old question.new }
{
    let t = turn.piece;
    let rest = state::pop(turn.st);
    let line = Row {
        start: t.x,
        len: t.p,
        how: u32::from(how),
    };
    add_row(state::restage(rest), turn.size, line, question)
}

// The leftmost piece is not settled, and goes to its next stage.
fn leave_waiting(turn: Turn, question: &mut [u8]) -> RebuilderOut
    requires question_room { 8 ≤ length question.old }
    requires retriable { Retriable turn.st.stage }
    ensures { OutIs result (tallied (retried turn.entry.st) turn.entry.size 0) NoRow question.old question.new }
{
    let one = state::retry(turn.st);
    let s = state::tally(one, turn.size, 0);
    finish(s, SheetChange::NoRow, question)
}

// The leftmost piece is split by the anchor of its stage, at offset s, placed at r.
fn split(turn: Turn, s: u32, r: u32, question: &mut [u8]) -> RebuilderOut
    requires question_room { 8 ≤ length question.old }
    requires splitting { Splitting turn.st s r }
    ensures { OutIs result (tallied (split_at turn.entry.st s r) turn.entry.size 1) (AddRow turn.entry.st.rows (row ((top turn.entry.st).x + s) turn.entry.st.settings.m ByAnchor)) question.old question.new }
{
    let t = turn.piece;
    let line = Row {
        start: t.x + s,
        len: turn.st.settings.m,
        how: u32::from(How::ByAnchor),
    };
    add_row(state::split_at(turn.st, s, r), turn.size, line, question)
}

// The hash v of a piece whose copy has its length: the copy is written if its hash is v.
pub fn take_hash(turn: Turn, v: u32, string: &mut [u8], question: &mut [u8]) -> RebuilderOut
    requires question_room { 8 ≤ length question.old }
    requires string_room { turn.st.n ≤ 8 * length string.old }
    requires stage_value { (turn.st.stage ≡ Hashing) × ((top turn.st).q ≡ (top turn.st).p) }
    ensures { said_rebuilder result string.new question.new
        ≡ step_outcome turn.entry.st turn.entry.y.now turn.entry.size (hash_answer v) string.old question.old }
{
    let t = turn.piece;
    let k = turn.hash_key();
    if codes::try_copy(turn.copy(), v, k, string, t.x as usize) {
        return settle(turn, How::ByHash, question);
    }
    leave_waiting(turn, question)
}

// How the piece t is repaired from its copy.
#[tactic(auto, unfolding(crate::specs::code::RebuilderParts::repair_how))]
fn repair_how(t: Piece) -> How
    requires { t.q ≤ max_bits }
    ensures { result ≡ repair_how t.p t.q }
{
    if t.q + 1 == t.p {
        return How::ByPutIn;
    }
    How::ByTakeOut
}

// The syndrome a and hash v of a piece whose copy is one bit shorter or longer.
pub fn take_syndrome(
    turn: Turn,
    a: u32,
    v: u32,
    string: &mut [u8],
    question: &mut [u8],
) -> RebuilderOut
    requires question_room { 8 ≤ length question.old }
    requires string_room { turn.st.n ≤ 8 * length string.old }
    requires repair_due { RepairDue turn.st }
    ensures { said_rebuilder result string.new question.new
        ≡ step_outcome turn.entry.st turn.entry.y.now turn.entry.size (syndrome_answer a v) string.old question.old }
{
    let t = turn.piece;
    let k = turn.hash_key();
    let copy = turn.copy();
    if codes::try_repair(copy, t.p as usize, a as usize, v, k, string, t.x as usize) {
        return settle(turn, repair_how(t), question);
    }
    leave_waiting(turn, question)
}

// The syndromes a of the columns, at the front of the slice, and the hash v of a piece whose copy is 2 to 32 bits shorter or longer.
pub fn take_burst(
    turn: Turn,
    a: &[u32],
    v: u32,
    string: &mut [u8],
    question: &mut [u8],
) -> RebuilderOut
    requires question_room { 8 ≤ length question.old }
    requires string_room { turn.st.n ≤ 8 * length string.old }
    requires burst_due { BurstDue turn.st }
    requires enough { burst_of turn.st ≤ length a.now }
    ensures { said_rebuilder result string.new question.new
        ≡ step_outcome turn.entry.st turn.entry.y.now turn.entry.size (burst_answer (take (burst_of turn.entry.st) a.now) v) string.old question.old }
{
    let t = turn.piece;
    let b = state::length_distance(t);
    let k = turn.hash_key();
    let run = Run {
        piece: turn.copy(),
        n: t.p as usize,
        b: b as usize,
    };
    if codes::try_run(run, a, v, k, string, t.x as usize) {
        return settle(turn, How::ByBurst, question);
    }
    leave_waiting(turn, question)
}

// All bits of a piece.
fn take_piece(turn: Turn, bits: &[u8], string: &mut [u8], question: &mut [u8]) -> RebuilderOut
    requires question_room { 8 ≤ length question.old }
    requires string_room { turn.st.n ≤ 8 * length string.old }
    requires stage_value { turn.st.stage ≡ AllBits }
    requires st_bound { (top turn.st).p ≤ 8 * length bits.now }
    ensures { (y : List ℕ) → said_rebuilder result string.new question.new
        ≡ step_outcome turn.entry.st y turn.entry.size (bits_answer (range bits.now 0 (top turn.entry.st).p)) string.old question.old }
{
    let t = turn.piece;
    strings::copy_bits(
        BitRange {
            bytes: bits,
            start: 0,
            len: t.p as usize,
        },
        string,
        t.x as usize,
    );
    settle(turn, How::ByBits, question)
}

// The m bits of an anchor.
fn take_anchor(
    turn: Turn,
    i: Attempt,
    bits: &[u8],
    string: &mut [u8],
    question: &mut [u8],
) -> RebuilderOut
    requires question_room { 8 ≤ length question.old }
    requires string_room { turn.st.n ≤ 8 * length string.old }
    requires stage_value { turn.st.stage ≡ Anchor i }
    requires m_bound { turn.st.settings.m ≤ 8 * length bits.now }
    ensures { said_rebuilder result string.new question.new
        ≡ step_outcome turn.entry.st turn.entry.y.now turn.entry.size (bits_answer (range bits.now 0 turn.entry.st.settings.m)) string.old question.old }
{
    let t = turn.piece;
    let m = turn.st.settings.m as usize;
    let k = turn.st.settings.k as usize;
    let s = state::anchor_offset(turn.st.settings.m, t.p, i);
    let anchor = BitRange {
        bytes: bits,
        start: 0,
        len: m,
    };
    match anchors::place_anchor(turn.copy(), t.p as usize, s as usize, k, anchor) {
        None => leave_waiting(turn, question),
        Some(r) => {
            let x = (t.x + s) as usize;
            strings::copy_bits(anchor, string, x);
            split(turn, s, r as u32, question)
        }
    }
}

// All bits of the string.
fn take_whole(
    st: Rebuilder,
    bits: &[u8],
    size: u32,
    string: &mut [u8],
    question: &mut [u8],
) -> RebuilderOut
    requires whole_due { WholeDue st size (length question.old) }
    requires n_bound { (st.n ≤ 8 * length string.old) × (st.n ≤ 8 * length bits.now) }
    ensures { (y : List ℕ) → said_rebuilder result string.new question.new
        ≡ step_outcome st y size (bits_answer (range bits.now 0 st.n)) string.old question.old }
{
    let s = state::whole_state(st, size);
    strings::copy_bits(
        BitRange {
            bytes: bits,
            start: 0,
            len: st.n as usize,
        },
        string,
        0,
    );
    let line = Row {
        start: 0,
        len: st.n,
        how: u32::from(How::ByBits),
    };
    finish(s, SheetChange::OneRow(st.rows, line), question)
}

// The length n of the string.
pub fn take_size(st: Rebuilder, n: u32, string: &mut [u8], question: &mut [u8]) -> RebuilderOut
    requires opening { Opening st n (length question.old) }
    requires n_in_bounds { bytes_for n ≤ length string.old }
    ensures { (y : List ℕ) (size : ℕ) → said_rebuilder result string.new question.new
        ≡ step_outcome st y size (size_answer n) string.old question.old }
{
    let s = state::open_state(st, n);
    strings::clear_bytes(string, 0, strings::bytes_for(n as usize));
    finish(s, SheetChange::NoRow, question)
}

// The bits of the leftmost piece that are awaited: an anchor's, or all.
fn take_piece_bits(turn: Turn, bits: &[u8], string: &mut [u8], question: &mut [u8]) -> RebuilderOut
    requires question_room { 8 ≤ length question.old }
    requires string_room { turn.st.n ≤ 8 * length string.old }
    requires asks_bits { AsksBits turn.st.stage × (bits_of_stage turn.st turn.st.stage ≤ 8 * length bits.now) }
    ensures { said_rebuilder result string.new question.new
        ≡ step_outcome turn.entry.st turn.entry.y.now turn.entry.size (bits_answer (range bits.now 0 (bits_of_stage turn.entry.st turn.entry.st.stage))) string.old question.old }
{
    match turn.st.stage {
        Stage::Anchor(i) => take_anchor(turn, i, bits, string, question),
        Stage::AllBits => take_piece(turn, bits, string, question),
        // A hash or a syndrome is awaited, so that these are never come to.
        Stage::Hashing | Stage::PuttingIn | Stage::TakingOut | Stage::Columns => give(
            Ok(None),
            turn.st,
            SheetChange::NoRow,
        ),
    }
}

// The bits that are awaited.
pub fn take_bits(
    st: Rebuilder,
    y: &[u8],
    bits: &[u8],
    size: u32,
    string: &mut [u8],
    question: &mut [u8],
) -> RebuilderOut
    requires bits_due { BitsDue st size (length question.old) }
    requires lending { Lending st y.now string.old }
    requires st_bound { due_length st ≤ 8 * length bits.now }
    ensures { said_rebuilder result string.new question.new
        ≡ step_outcome st y.now size (bits_answer (range bits.now 0 (due_length st))) string.old question.old }
{
    match st.phase {
        Phase::AtWhole => take_whole(st, bits, size, string, question),
        Phase::AtPieces => {
            let turn = Turn::of_size(st, y, size);
            take_piece_bits(turn, bits, string, question)
        }
        // The opening's answer is no bits, so that this is never come to.
        Phase::AtOpening => give(Ok(None), st, SheetChange::NoRow),
    }
}
