// The rebuilder: its start, and its call, which takes one answer and gives the next question.
ghost use Rattle.std.specs.Prelude.{◌≡◌, true, ◌&&◌, leb, ℕ, ◌+◌, ◌*◌, ◌/◌, ◌≤◌, ◌<◌, length};
ghost use Rattle.std.proofs.Math.Option.{some};
ghost use Rattle.strings.specs.Bits.{bytes_for};
ghost use Rattle.messages.specs.Questions.{question_length, question_burst};
ghost use Rattle.ends.specs.States.{planned};
ghost use Rattle.ends.specs.Soundness.{sound};
ghost use Rattle.ends.specs.RebuilderOutcome.{said_rebuilder, rebuilder_outcome, capacities, said_start, start_outcome};
ghost use Rattle.ends.specs.code.RebuilderParts.{turned_down, Due, enough_for_answer, heard_outcome, asked_outcome};

use crate::sound::rebuilder_is_sound;
use crate::steps::Turn;
use crate::{Rebuilder, SheetChange, state, steps};
use messages::{Found, Question};
use strings::{Refusal, Settings};

// The bytes of a question's buffer: no question takes more.
const QUESTION_BYTES: usize = 8;

// What a start gives: the length of the opening question, and the first state.
#[derive(Clone, Copy, Debug, PartialEq, Eq)]
pub struct Started {
    pub size: usize,
    pub state: Rebuilder,
}

// What a call gives: the length of the next question, none at the finish, or why it is turned down; the next state, what happens to the
// sheet, the questions answered and the counted bytes. The state stands beside the Result, as in `HolderOut`.
#[derive(Clone, Copy, Debug, PartialEq, Eq)]
pub struct RebuilderOut {
    pub answer: Result<Option<usize>, Refusal>,
    pub state: Rebuilder,
    pub sheet: SheetChange,
    pub answered: u32,
    pub counted: u32,
}

// A call that is turned down.
fn refuse(st: Rebuilder, e: Refusal) -> RebuilderOut
    ensures { result ≡ turned_down e st }
{
    steps::give(Err(e), st, SheetChange::NoRow)
}

// How many columns a question asks about. 0 of a question that is no burst, and no Option: it is `question_burst`, of which the clauses of
// `read_answer` and `take` speak.
fn columns(q: Question) -> u32
    ensures { result ≡ question_burst q }
{
    match q {
        Question::AskBurst(_, _, b) => b,
        Question::AskOpen(_, _)
        | Question::AskHash(_, _)
        | Question::AskSyndrome(_, _)
        | Question::AskBits(_, _) => 0,
    }
}

// What was read as the answer to the question q is taken. That Y has its bits (ybits) is kept by `Turn`; before one is made it is a clause.
fn take(
    st: Rebuilder,
    y: &[u8],
    msg: &[u8],
    q: Question,
    found: Found,
    string: &mut [u8],
    question: &mut [u8],
) -> RebuilderOut
    requires due { Due st msg.now (question_length q) (question_burst q) found }
    requires by_index { (rows : ℕ) × (enough_for_answer st (capacities (length string.old) rows (length question.old)) found ≡ true) }
    requires ybits_bound { st.ybits ≤ 8 * length y.now }
    ensures { said_rebuilder result string.new question.new
        ≡ heard_outcome st y.now msg.now (question_length q) (question_burst q) found string.old question.old }
{
    match found {
        Found::IsSize(n) => steps::take_size(st, n, string, question),
        Found::IsHash(v) => steps::take_hash(Turn::new(st, y, msg), v, string, question),
        Found::IsSyndrome(a, v) => steps::take_syndrome(
            Turn::new(st, y, msg),
            a,
            v,
            string,
            question,
        ),
        Found::IsBits(at) => steps::take_bits(
            st,
            y,
            &msg[at..],
            msg.len() as u32,
            string,
            question,
        ),
        Found::IsBurst(v) => steps::take_burst(
            Turn::new(st, y, msg),
            &messages::burst_syndromes(msg, columns(q)),
            v,
            string,
            question,
        ),
    }
}

// Whether the lent buffers are enough for n bits under m. Three numbers and no struct: the lengths of what is lent, taken for this test.
fn is_enough(m: u32, n: u32, string: usize, rows: usize, question: usize) -> bool
    requires { 0 < m }
    ensures { result ≡ (leb (bytes_for n) string && (leb (2 * (n / m) + 1) rows && leb 8 question)) }
{
    let most = 2 * (n as usize / m as usize) + 1;
    strings::bytes_for(n as usize) <= string && most <= rows && QUESTION_BYTES <= question
}

// Whether it is enough for the answer that was read.
fn is_enough_for_answer(
    st: Rebuilder,
    found: Found,
    string: usize,
    rows: usize,
    question: usize,
) -> bool
    requires { 0 < st.settings.m }
    ensures { result ≡ enough_for_answer st (capacities string rows question) found }
{
    match found {
        Found::IsSize(n) => is_enough(st.settings.m, n, string, rows, question),
        Found::IsHash(_) | Found::IsSyndrome(_, _) | Found::IsBits(_) | Found::IsBurst(_) =>
            is_enough(st.settings.m, st.n, string, rows, question),
    }
}

// A message for the question q that waits.
fn hear(
    st: Rebuilder,
    y: &[u8],
    msg: &[u8],
    rows: usize,
    q: Question,
    string: &mut [u8],
    question: &mut [u8],
) -> RebuilderOut
    requires { (sound st ≡ true) × (planned st ≡ some q) × (st.ybits ≤ 8 * length y.now) }
    ensures { said_rebuilder result string.new question.new
        ≡ asked_outcome st y.now msg.now rows q string.old question.old }
{
    let found = match messages::read_answer(q, st.settings.h, msg) {
        Err(e) => return refuse(st, e),
        Ok(found) => found,
    };
    if !is_enough_for_answer(st, found, string.len(), rows, question.len()) {
        return refuse(st, Refusal::BufferTooShort);
    }
    take(st, y, msg, q, found, string, question)
}

// The rebuilder's call on Y, its bit count, a message, the number of lent rows, and the buffers for the string and the question. Y and its
// bit count stay two parameters, here and at the start: a host hands in both, and the call turns them down if they don't belong together. A
// type that says that they do would have to turn them down before the call.
pub fn rebuilder_call(
    st: Rebuilder,
    y: &[u8],
    bits: usize,
    msg: &[u8],
    rows: usize,
    string: &mut [u8],
    question: &mut [u8],
) -> RebuilderOut
    ensures { said_rebuilder result string.new question.new
        ≡ rebuilder_outcome st y.now bits msg.now rows string.old question.old }
{
    if !strings::keeps_string_rule(y, bits) || st.ybits as usize != bits {
        return refuse(st, Refusal::BadString);
    }
    if !rebuilder_is_sound(st) {
        return refuse(st, Refusal::OutOfTurn);
    }
    match state::plan_next(st) {
        None => refuse(st, Refusal::OutOfTurn),
        Some(q) => hear(st, y, msg, rows, q, string, question),
    }
}

// The rebuilder's start with settings on Y and its bit count, and the buffer for the opening question.
pub fn rebuilder_start(
    settings: Settings,
    y: &[u8],
    bits: usize,
    question: &mut [u8],
) -> Result<Started, Refusal>
    ensures { said_start result question.new ≡ start_outcome settings y.now bits question.old }
{
    if !settings.is_within_limits() {
        return Err(Refusal::BadSetting);
    }
    if !strings::keeps_string_rule(y, bits) {
        return Err(Refusal::BadString);
    }
    if question.len() < QUESTION_BYTES {
        return Err(Refusal::BufferTooShort);
    }
    // Never turned down: the opening takes at most QUESTION_BYTES, kind, version, h and key of 1, 1, 1 and up to 5 bytes.
    let size = messages::write_question(Question::AskOpen(settings.h, settings.key), question)?;
    let state = state::fresh_rebuilder(settings, bits as u32);
    Ok(Started { size, state })
}
