// Answers: written by a holder, read by a rebuilder that awaits one.
ghost use Rattle.std.specs.Prelude.{◌≡◌, ℕ, ◌^◌, ◌≤◌, length, take, ltb};
ghost use Rattle.strings.specs.Ranges.{bits};
ghost use Rattle.messages.specs.Numbers.{numbers_at};
ghost use Rattle.messages.specs.Questions.{question_kind, question_length, question_burst};
ghost use Rattle.messages.specs.Answers.{size_answer, hash_answer, syndrome_answer, bits_answer, burst_answer, answer_bytes, size_at, hash_at, syndrome_at, bits_at, within_columns, burst_at, answer_fields, read_answer, the_numbers, burst_syndromes, said_answer, BitsThere, BurstAnswered};
ghost use Rattle.messages.specs.code.Reading.{said_burst};
ghost use Rattle.messages.specs.Writing.{said_write, put_front};

use crate::numbers::{number_size, put_number};
use crate::reading::Reader;
use crate::writing::{numbers_size, put_bits, put_numbers, write_numbers};
use crate::{Found, Kind, Question};
use strings::{BitRange, Refusal};

// The answer to an opening: n.
#[tactic(auto, using(crate::specs::laws::NumberLaws::one_number), unfolding(crate::specs::Answers::answer_bytes))]
pub fn write_size(n: u32, buf: &mut [u8]) -> Result<usize, Refusal>
    ensures { said_write result buf.new ≡ put_front (answer_bytes (size_answer n)) buf.old }
{
    write_numbers(Kind::Open, &[n], buf)
}

// The answer to a hash question.
#[tactic(auto, using(crate::specs::laws::NumberLaws::one_number), unfolding(crate::specs::Answers::answer_bytes))]
pub fn write_hash(v: u32, buf: &mut [u8]) -> Result<usize, Refusal>
    ensures { said_write result buf.new ≡ put_front (answer_bytes (hash_answer v)) buf.old }
{
    write_numbers(Kind::Hash, &[v], buf)
}

// The answer to a syndrome question: syndrome and hash.
#[tactic(auto, using(crate::specs::laws::NumberLaws::two_numbers), unfolding(crate::specs::Answers::answer_bytes))]
pub fn write_syndrome(a: u32, v: u32, buf: &mut [u8]) -> Result<usize, Refusal>
    ensures { said_write result buf.new ≡ put_front (answer_bytes (syndrome_answer a v)) buf.old }
{
    write_numbers(Kind::Syndrome, &[a, v], buf)
}

// The answer to a bits question: the bits of the piece.
pub fn write_bits(piece: BitRange, buf: &mut [u8]) -> Result<usize, Refusal>
    ensures { said_write result buf.new ≡ put_front (answer_bytes (bits_answer (bits piece.entry))) buf.old }
{
    let size = 1 + strings::bytes_for(piece.len);
    if buf.len() < size {
        return Err(Refusal::BufferTooShort);
    }
    let k = u32::from(Kind::Bits);
    let at = put_number(buf, 0, k);
    put_bits(piece, buf, at);
    Ok(size)
}

// The answer to a burst question: the syndromes a of its columns, and the hash. `write_numbers` would take one slice of both, which is a
// copy of the syndromes and no plainer.
#[tactic(auto, using(crate::specs::laws::WritingLaws::writing_laws), unfolding(crate::specs::Answers::answer_bytes))]
pub fn write_burst(a: &[u32], v: u32, buf: &mut [u8]) -> Result<usize, Refusal>
    requires { length a.now ≤ 32 }
    ensures { said_write result buf.new ≡ put_front (answer_bytes (burst_answer a.now v)) buf.old }
{
    if buf.len() < 1 + numbers_size(a) + number_size(v) {
        return Err(Refusal::BufferTooShort);
    }
    let k = u32::from(Kind::Burst);
    let at = put_number(buf, 0, k);
    let next = put_numbers(buf, at, a);
    let end = put_number(buf, next, v);
    Ok(end)
}

// Whether v can be a hash of h bits: it is below 2^h.
fn is_hash(v: u32, h: u32) -> bool
    ensures { result ≡ ltb v (2 ^ h) }
{
    if 32 <= h {
        return true;
    }
    v < (1u32 << h)
}

// The field of an opening's answer, at which the reader stands. It is read alike whatever the length awaited.
#[tactic(auto, using(crate::specs::code::Reading::size_read))]
fn read_size(r: Reader) -> Result<Found, Refusal>
    ensures { (len b : ℕ) → said_answer r.entry.src.now len b result ≡ size_at r.entry.src.now r.entry.at }
{
    let n = r.last()?;
    if strings::MAX_BITS < n as usize {
        return Err(Refusal::OutOfRange);
    }
    Ok(Found::IsSize(n))
}

// The field of a hash question's answer.
#[tactic(auto, using(crate::specs::code::Reading::hash_read))]
fn read_hash(h: u32, r: Reader) -> Result<Found, Refusal>
    ensures { (len b : ℕ) → said_answer r.entry.src.now len b result ≡ hash_at h r.entry.src.now r.entry.at }
{
    let v = r.last()?;
    if !is_hash(v, h) {
        return Err(Refusal::OutOfRange);
    }
    Ok(Found::IsHash(v))
}

// The fields of a syndrome question's answer, where the range asked for has len bits.
#[tactic(auto, using(crate::specs::code::Reading::syndrome_read))]
fn read_syndrome(len: u32, h: u32, mut r: Reader) -> Result<Found, Refusal>
    ensures { (b : ℕ) → said_answer r.entry.src.now len b result ≡ syndrome_at len h r.entry.src.now r.entry.at }
{
    let a = r.next()?;
    let hash = r.last()?;
    if len < a {
        return Err(Refusal::OutOfRange);
    }
    if !is_hash(hash, h) {
        return Err(Refusal::OutOfRange);
    }
    Ok(Found::IsSyndrome(a, hash))
}

// The len bits of a bits question's answer, from byte `at` on: they are tested where they lie.
#[tactic(auto, using(crate::specs::laws::AnswerLaws::bits_laws))]
fn read_bits(len: u32, s: &[u8], at: usize) -> Result<Found, Refusal>
    requires { at ≤ length s.now }
    ensures by_index { (b : ℕ) → said_answer s.now len b result ≡ bits_at len s.now at }
    ensures bits_there { BitsThere s.now len result }
{
    let bits = len as usize;
    let bytes = strings::bytes_for(bits);
    let end = s.len();
    let rest = end - at;
    if rest < bytes {
        return Err(Refusal::Truncated);
    }
    if bytes < rest {
        return Err(Refusal::TrailingBytes);
    }
    if !strings::keeps_string_rule(&s[at..end], bits) {
        return Err(Refusal::OutOfRange);
    }
    Ok(Found::IsBits(at))
}

// Whether each syndrome is at most the length of its column in a range of len bits.
#[tactic(auto, using(crate::specs::code::Reading::within_turns))]
fn are_within_columns(a: &[u32], len: u32) -> bool
    requires { length a.now ≤ 32 }
    ensures { result ≡ within_columns (length a.now) len 0 a.now }
{
    for (j, v) in a.iter().enumerate() {
        if codes::column_length(a.len(), j, len as usize) < *v as usize {
            return false;
        }
    }
    true
}

// The fields of a burst's answer: a syndrome for each place of the list, which is filled, then the hash, which is given.
#[tactic(auto, using(crate::specs::code::Reading::columns_read))]
fn read_columns(len: u32, h: u32, mut r: Reader, list: &mut [u32]) -> Result<u32, Refusal>
    requires { length list.old ≤ 32 }
    ensures { said_burst result list.new ≡ burst_at len (length list.old) h r.entry.src.now r.entry.at }
{
    r.fill(list)?;
    let v = r.last()?;
    if !are_within_columns(list, len) {
        return Err(Refusal::OutOfRange);
    }
    if !is_hash(v, h) {
        return Err(Refusal::OutOfRange);
    }
    Ok(v)
}

// The fields of a burst's answer in b columns: the hash behind the syndromes that stand where the reader stands.
fn read_burst(len: u32, b: u32, h: u32, r: Reader) -> Result<u32, Refusal>
    requires { b ≤ 32 }
    ensures { said_burst result (the_numbers (numbers_at b r.entry.src.now r.entry.at)) ≡ burst_at len b h r.entry.src.now r.entry.at }
{
    let mut numbers = [0u32; 32];
    read_columns(len, h, r, &mut numbers[..b as usize])
}

// The syndromes of a message that was read to a burst's answer fill a list. That they are read again, in place of being kept, leaves no
// array in what `read_answer` gives.
fn fill_syndromes(s: &[u8], list: &mut [u32])
    requires { BurstAnswered (length list.old) s.now }
    ensures { list.new ≡ burst_syndromes (length list.old) s.now }
{
    let mut r = Reader::new(s, 0);
    let _kind = r.next();
    let _read = r.fill(list);
}

// The b syndromes of a message that was read to a burst's answer: the first b of the array. An array and a count, since memory is fixed.
pub fn burst_syndromes(s: &[u8], b: u32) -> [u32; 32]
    requires b_bound { b ≤ 32 }
    requires burst_answered { BurstAnswered b s.now }
    ensures { take b result ≡ burst_syndromes b s.now }
{
    let mut numbers = [0u32; 32];
    fill_syndromes(s, &mut numbers[..b as usize]);
    numbers
}

impl Question {
    // The kind of the question, which is that of its answer.
    fn kind(self) -> Kind
        ensures { result ≡ question_kind self }
    {
        match self {
            Question::AskOpen(_, _) => Kind::Open,
            Question::AskHash(_, _) => Kind::Hash,
            Question::AskSyndrome(_, _) => Kind::Syndrome,
            Question::AskBits(_, _) => Kind::Bits,
            Question::AskBurst(_, _, _) => Kind::Burst,
        }
    }
}

// The answer to the question q under h: one of another kind is turned down. Bits are handed on as the position at which they begin, since a
// slice would need the clause that it is the message from there on, which the position says, and would give each `Found` a lifetime;
// `burst_syndromes` gives the syndromes of a burst.
pub fn read_answer(q: Question, h: u32, s: &[u8]) -> Result<Found, Refusal>
    requires { question_burst q ≤ 32 }
    ensures result_value { said_answer s.now (question_length q) (question_burst q) result
        ≡ read_answer (question_kind q) (question_length q) (question_burst q) h s.now }
    ensures bits_there { BitsThere s.now (question_length q) result }
{
    let mut r = Reader::new(s, 0);
    let v = r.next()?;
    if v != u32::from(q.kind()) {
        return Err(Refusal::BadKind);
    }
    match q {
        Question::AskOpen(_, _) => read_size(r),
        Question::AskHash(_, _) => read_hash(h, r),
        Question::AskSyndrome(_, len) => read_syndrome(len, h, r),
        Question::AskBits(_, len) => read_bits(len, s, r.at),
        Question::AskBurst(_, len, b) => Ok(Found::IsBurst(read_burst(len, b, h, r)?)),
    }
}
