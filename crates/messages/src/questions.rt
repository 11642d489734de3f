// Questions: written by a rebuilder, read by a holder.
ghost use Rattle.std.specs.Prelude.{◌≡◌, ℕ};
ghost use Rattle.strings.specs.Results.{said};
ghost use Rattle.messages.specs.Questions.{question_bytes, opening_at, range_question, burst_range_at, fields_at};
ghost use Rattle.messages.specs.code.Reading.{opening_of, Asks, range_of, burst_of};
ghost use Rattle.messages.specs.Writing.{said_write, put_front};

use crate::reading::Reader;
use crate::writing::write_numbers;
use crate::{Kind, Question};
use strings::Refusal;

// An opening of these fields.
fn opening_of(version: u32, h: u32, key: u32) -> Result<Question, Refusal>
    ensures { said result ≡ opening_of version h key }
{
    if version != 1 || !strings::is_hash_width(h) || !strings::is_key(key) {
        return Err(Refusal::OutOfRange);
    }
    Ok(Question::AskOpen(h, key))
}

// The fields of an opening, at which the reader stands: version, h, key.
#[tactic(auto, using(crate::specs::code::Reading::opening_read))]
fn read_opening(mut r: Reader) -> Result<Question, Refusal>
    ensures { said result ≡ opening_at r.entry.src.now r.entry.at }
{
    let version = r.next()?;
    let h = r.next()?;
    let key = r.last()?;
    opening_of(version, h, key)
}

// A question for a range of n bits, which `ask` makes of start and length.
fn range_of<F: FnOnce(u32, u32) -> Question>(
    ask: F,
    n: u32,
    start: u32,
    len: u32,
) -> Result<Question, Refusal>
    requires { F.pre ask start len }
    ensures { (asked : ℕ → ℕ → Question) → Asks (F.post ask) asked → said result ≡ range_of asked n start len }
{
    if len < 1 || !strings::ends_by(start as usize, len as usize, n as usize) {
        return Err(Refusal::OutOfRange);
    }
    Ok(ask(start, len))
}

// The fields of a question for a range of n bits: start, length, of which `ask` makes it.
#[tactic(auto, using(crate::specs::code::Reading::range_read))]
fn read_range<F: FnOnce(u32, u32) -> Question>(
    ask: F,
    mut r: Reader,
    n: u32,
) -> Result<Question, Refusal>
    requires { F.IsAlwaysCallable ask }
    ensures { (asked : ℕ → ℕ → Question) → Asks (F.post ask) asked → said result ≡ range_question asked r.entry.src.now r.entry.at n }
{
    let start = r.next()?;
    let len = r.last()?;
    range_of(ask, n, start, len)
}

// A burst question to a holder of n bits.
fn burst_of(n: u32, start: u32, len: u32, b: u32) -> Result<Question, Refusal>
    ensures { said result ≡ burst_of n start len b }
{
    if !codes::is_column_count(b) {
        return Err(Refusal::BadBurst);
    }
    let ask_burst = |start, len| Question::AskBurst(start, len, b);
    range_of(ask_burst, n, start, len)
}

// The fields of a burst question: start, length, B.
#[tactic(auto, using(crate::specs::code::Reading::burst_read))]
fn read_burst(mut r: Reader, n: u32) -> Result<Question, Refusal>
    ensures { said result ≡ burst_range_at r.entry.src.now r.entry.at n }
{
    let start = r.next()?;
    let len = r.next()?;
    let b = r.last()?;
    burst_of(n, start, len, b)
}

// The rest of a question of a known kind, from position `at` on, to a holder of n bits.
#[tactic(auto, unfolding(crate::specs::Questions::fields_at))]
pub fn read_fields(kind: Kind, s: &[u8], at: usize, n: u32) -> Result<Question, Refusal>
    ensures { said result ≡ fields_at kind s.now at n }
{
    let r = Reader::new(s, at);
    match kind {
        Kind::Open => read_opening(r),
        Kind::Hash => read_range(Question::AskHash, r, n),
        Kind::Syndrome => read_range(Question::AskSyndrome, r, n),
        Kind::Bits => read_range(Question::AskBits, r, n),
        Kind::Burst => read_burst(r, n),
    }
}

// A question is written at the front of a lent buffer. An opening's version is 1.
#[tactic(auto, using(crate::specs::laws::NumberLaws::two_numbers, crate::specs::laws::NumberLaws::three_numbers), unfolding(crate::specs::Questions::question_bytes))]
pub fn write_question(q: Question, buf: &mut [u8]) -> Result<usize, Refusal>
    ensures { said_write result buf.new ≡ put_front (question_bytes q) buf.old }
{
    match q {
        Question::AskOpen(h, key) => write_numbers(Kind::Open, &[1, h, key], buf),
        Question::AskHash(start, len) => write_numbers(Kind::Hash, &[start, len], buf),
        Question::AskSyndrome(start, len) => write_numbers(Kind::Syndrome, &[start, len], buf),
        Question::AskBits(start, len) => write_numbers(Kind::Bits, &[start, len], buf),
        Question::AskBurst(start, len, b) => write_numbers(Kind::Burst, &[start, len, b], buf),
    }
}
