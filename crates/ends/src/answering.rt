// The holder: its call, which takes one question and gives the answer.
ghost use Rattle.std.specs.Prelude.{true, ◌≡◌, ◌&&◌, ◌≤◌, ◌<◌, length, take, ltb};
ghost use Rattle.strings.specs.Bits.{range, Part};
ghost use Rattle.strings.specs.Ranges.{bits};
ghost use Rattle.strings.specs.StringRule.{string_rule};
ghost use Rattle.codes.specs.Columns.{syndromes};
ghost use Rattle.codes.specs.Hash.{hash};
ghost use Rattle.codes.specs.Syndrome.{syndrome};
ghost use Rattle.messages.specs.Answers.{answer_bytes, syndrome_answer, burst_answer};
ghost use Rattle.messages.specs.Writing.{said_write, put_front};
ghost use Rattle.messages.specs.laws.QuestionLaws.{Within};
ghost use Rattle.ends.specs.HolderCall.{fresh_holder, same_bit_count, in_turn, after_answer, answers_to, of_kind};
ghost use Rattle.ends.specs.Runs.{answer};
ghost use Rattle.ends.specs.Soundness.{holder_sound, most_answers};
ghost use Rattle.ends.specs.HolderOutcome.{said_holder, leaves_holder, holder_outcome};
ghost use Rattle.ends.specs.code.HolderParts.{refused, written, one_more, Able, Ready};

use crate::sound::holder_is_sound;
use crate::{Holder, MOST_ANSWERS};
use codes::{Column, HashKey};
use messages::{Kind, Question};
use strings::{BitRange, Refusal};

// The length of the answer, with which the reply begins, and the state for the next call. Where the call is turned down, state and reply
// are as they were. The state stands beside the Result and not in its Ok: what a refused call leaves is a promise of its own.
#[derive(Clone, Copy, Debug, PartialEq, Eq)]
pub struct HolderOut {
    pub answer: Result<usize, Refusal>,
    pub state: Holder,
}

// The state before the opening.
pub fn fresh_holder() -> Holder
    ensures { result ≡ fresh_holder }
{
    Holder::default()
}

// The call is turned down.
fn refuse(st: Holder, e: Refusal) -> HolderOut
    ensures { result ≡ refused st e }
{
    HolderOut {
        answer: Err(e),
        state: st,
    }
}

// What the writer of the reply gave: the state becomes `next` if the buffer was long enough.
fn reply_written(st: Holder, next: Holder, w: Result<usize, Refusal>) -> HolderOut
    ensures { result ≡ written st next w }
{
    let state = if w.is_ok() { next } else { st };
    HolderOut { answer: w, state }
}

// The state after an answer other than the opening's.
fn one_more(st: Holder) -> Holder
    requires { st.answers < most_answers }
    ensures { result ≡ one_more st }
{
    Holder {
        answers: st.answers + 1,
        ..st
    }
}

// The state after an answer to a question that was read.
fn state_after(st: Holder, n: u32, q: Question) -> Holder
    requires { st.answers < most_answers }
    ensures { result ≡ after_answer st n q }
{
    match q {
        Question::AskOpen(h, key) => Holder {
            opened: true,
            bits: n,
            h,
            key,
            answers: 1,
        },
        _ => one_more(st),
    }
}

// The reply to a syndrome question on a piece: its syndrome, then its hash.
fn write_syndrome_reply(key: HashKey, piece: BitRange, reply: &mut [u8]) -> Result<usize, Refusal>
    ensures { said_write result reply.new
        ≡ put_front (answer_bytes (syndrome_answer (syndrome (bits piece.entry)) (hash key.h key.key (bits piece.entry)))) reply.old }
{
    let a = codes::syndrome_of(piece);
    messages::write_syndrome(a as u32, key.hash(piece), reply)
}

// The syndromes of the b columns of a range, at the front of an array, since memory is fixed.
fn column_syndromes(piece: BitRange, b: usize) -> [u32; 32]
    requires { (2 ≤ b) × (b ≤ 32) }
    ensures { take b result ≡ syndromes b (bits piece.entry) }
{
    let mut a = [0u32; 32];
    for (j, v) in a[..b].iter_mut().enumerate() {
        *v = codes::syndrome_of_column(Column { piece, b, j }) as u32;
    }
    a
}

// The reply to a burst question on a piece: the syndromes of its b columns, then its hash.
fn write_burst_reply(
    key: HashKey,
    piece: BitRange,
    b: u32,
    reply: &mut [u8],
) -> Result<usize, Refusal>
    requires { (2 ≤ b) × (b ≤ 32) }
    ensures { said_write result reply.new
        ≡ put_front (answer_bytes (burst_answer (syndromes b (bits piece.entry)) (hash key.h key.key (bits piece.entry)))) reply.old }
{
    let a = column_syndromes(piece, b as usize);
    messages::write_burst(&a[..b as usize], key.hash(piece), reply)
}

// The piece of X that a question names.
fn piece_of<'a>(x: &'a [u8], start: u32, len: u32) -> BitRange<'a>
    requires { Part x.now start len }
    ensures { bits result ≡ range x.now start len }
{
    BitRange {
        bytes: x,
        start: start as usize,
        len: len as usize,
    }
}

// The reply to a question that was read, for X of n bits. X and n stay apart behind the test too: `Able` and `Ready` speak of both, and
// `piece_of` alone makes a range of them.
fn write_reply(
    key: HashKey,
    x: &[u8],
    n: u32,
    q: Question,
    reply: &mut [u8],
) -> Result<usize, Refusal>
    requires string { string_rule x.now n ≡ true }
    requires within { Within n q }
    ensures { said_write result reply.new
        ≡ put_front (answer_bytes (answer key.h key.key (range x.now 0 n) q)) reply.old }
{
    match q {
        Question::AskOpen(_, _) => messages::write_size(n, reply),
        Question::AskHash(start, len) => messages::write_hash(
            key.hash(piece_of(x, start, len)),
            reply,
        ),
        Question::AskSyndrome(start, len) => write_syndrome_reply(
            key,
            piece_of(x, start, len),
            reply,
        ),
        Question::AskBits(start, len) => messages::write_bits(piece_of(x, start, len), reply),
        Question::AskBurst(start, len, b) => write_burst_reply(
            key,
            piece_of(x, start, len),
            b,
            reply,
        ),
    }
}

// The answer to a question that was read, for X of n bits.
fn answer_question(st: Holder, x: &[u8], n: u32, q: Question, reply: &mut [u8]) -> HolderOut
    requires { Ready st x.now n q }
    ensures { said_holder result reply.new
        ≡ leaves_holder st reply.old (answers_to st x.now n (length reply.old) q) }
{
    let key = HashKey {
        key: st.key,
        h: st.h,
    };
    let w = write_reply(key, x, n, q, reply);
    reply_written(st, state_after(st, n, q), w)
}

// Whether a known kind is in turn: kind 0 before the opening, the others after it.
fn is_in_turn(opened: bool, kind: Kind) -> bool
    ensures { result ≡ in_turn opened kind }
{
    (kind == Kind::Open) != opened
}

// The answer to a message of a known kind, whose fields begin at position `at`. Kind, message and position stay apart, as `read_kind` gives
// them and `read_fields` takes them: messages keeps the reader that holds message and position to itself.
fn answer_kind(
    st: Holder,
    x: &[u8],
    n: u32,
    kind: Kind,
    msg: &[u8],
    at: usize,
    reply: &mut [u8],
) -> HolderOut
    requires { Able st x.now n }
    ensures { said_holder result reply.new
        ≡ leaves_holder st reply.old (of_kind st x.now n msg.now (length reply.old) kind at) }
{
    if !is_in_turn(st.opened, kind) {
        return refuse(st, Refusal::OutOfTurn);
    }
    match messages::read_fields(kind, msg, at, n) {
        Err(e) => refuse(st, e),
        Ok(q) => answer_question(st, x, n, q, reply),
    }
}

// Whether X keeps the string rule, and has as many bits as at the opening if there was one.
#[tactic(auto, unfolding(crate::specs::HolderCall::same_bit_count))]
fn is_same_string(st: Holder, x: &[u8], bits: usize) -> bool
    ensures { result ≡ (string_rule x.now bits && same_bit_count st bits) }
{
    strings::keeps_string_rule(x, bits) && (!st.opened || (st.bits as usize) == bits)
}

// Whether the state is sound and an answer is left.
fn has_answer_left(st: Holder) -> bool
    ensures { result ≡ (holder_sound st && ltb st.answers most_answers) }
{
    holder_is_sound(st) && st.answers < MOST_ANSWERS
}

// The holder's call on X, its bit count, a message and the buffer for the reply. X and its bit count stay two parameters: a host hands in
// both, and the call turns them down if they don't belong together. A type that says that they do would have to turn them down before the
// call.
pub fn holder_call(st: Holder, x: &[u8], bits: usize, msg: &[u8], reply: &mut [u8]) -> HolderOut
    ensures { said_holder result reply.new ≡ holder_outcome st x.now bits msg.now reply.old }
{
    if !is_same_string(st, x, bits) {
        return refuse(st, Refusal::BadString);
    }
    if !has_answer_left(st) {
        return refuse(st, Refusal::OutOfTurn);
    }
    match messages::read_kind(msg) {
        Err(e) => refuse(st, e),
        Ok((kind, at)) => answer_kind(st, x, bits as u32, kind, msg, at, reply),
    }
}
