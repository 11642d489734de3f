// The demonstration program (01, "The demonstration run"): reads the settings, X and Y, runs both ends, and prints every message, the
// rows and the rebuilt string, or the number of the refusal.
#![tactic(auto)]

ghost use Rattle.std.specs.Prelude.{◌≤◌, length, IfOk};

use ends::{Holder, Rebuilder, Row};
use lines::Line;
use std::io;
use std::io::{ErrorKind, Read};
use strings::{MOST_BITS, Refusal, Settings};

// How far the run is: a question of so many bytes waits for its answer, or none where X is rebuilt, or a call was turned down. And both
// ends' states.
#[derive(Clone, Copy, Debug, PartialEq, Eq)]
struct Session {
    progress: Result<Option<usize>, Refusal>,
    holder: Holder,
    rebuilder: Rebuilder,
}

// What the rebuilder's calls are lent: the sheet of 16,385 rows, enough for any run: 2 * (65536 / 8) + 1; the buffers of the string and of
// the question.
#[derive(Debug, PartialEq, Eq, Drop)]
struct Buffers {
    sheet: [Row; 16385],
    string: [u8; 8192],
    question: [u8; 8],
}

// Reads until the buffer is full or the input ends: how many bytes there are. An interrupted read is tried again. By hand, since read_exact
// of std fails where the input ends, and read_to_end needs a heap. The loop's bound only lets the prover see the end.
fn read_full(input: &mut impl Read, buffer: &mut [u8]) -> io::Result<usize>
    ensures { IfOk result (λ n. n ≤ length buffer.new) }
{
    let mut size: usize = 0;
    for _ in 0..u64::MAX {
        if buffer.len() <= size {
            return Ok(size);
        }
        match input.read(&mut buffer[size..]) {
            Ok(0) => return Ok(size),
            Ok(n) => size += n,
            Err(e) => {
                if e.kind() != ErrorKind::Interrupted {
                    return Err(e);
                }
            }
        }
    }
    Ok(size)
}

// A string: its bytes and its bit count. The library's calls take the two apart, as a host hands them in, and test them.
#[derive(Clone, Copy, Debug, PartialEq, Eq)]
struct Text<'a> {
    bytes: &'a [u8],
    bits: usize,
}

fn print_message(rt: &impl Print, letter: u8, message: &[u8]) -> io::Result<()>
    requires { length message.now ≤ 8200 }
{
    let mut line = Line::<16403>::new();
    line.put_message_line(letter, message);
    rt.write_all(line.bytes())
}

// The line of a call that is turned down.
fn print_refusal(rt: &impl Print, e: Refusal) -> io::Result<()> {
    let mut line = Line::<13>::new();
    line.put_refusal_line(u32::from(e));
    rt.write_all(line.bytes())
}

fn print_row(rt: &impl Print, row: Row) -> io::Result<()> {
    let mut line = Line::<35>::new();
    line.put_row_line(row.start, row.len, row.how);
    rt.write_all(line.bytes())
}

// The used rows in the sheet's order; no run has more rows than the sheet.
fn print_rows(rt: &impl Print, sheet: &[Row], used: u32) -> io::Result<()> {
    for row in sheet.iter().take(used as usize) {
        print_row(rt, *row)?;
    }
    Ok(())
}

// The last line of a finished run; the opening is not among its questions. Neither refusal can happen: the rebuilder's state at the
// finish has at most 65,536 bits and counts the opening among its answers.
fn print_last(rt: &impl Print, string: &[u8; 8192], st: Rebuilder) -> io::Result<()> {
    if MOST_BITS < st.n {
        return print_refusal(rt, Refusal::BufferTooShort);
    }
    if st.answered == 0 {
        return print_refusal(rt, Refusal::OutOfTurn);
    }
    let mut line = Line::<65561>::new();
    line.put_last_line(string, st.n as usize, st.answered - 1, st.counted);
    rt.write_all(line.bytes())
}

// An answer goes to the rebuilder.
fn hear(s: Session, y: Text, answer: &[u8], lent: &mut Buffers) -> Session {
    let out = ends::rebuilder_call_on_sheet(
        s.rebuilder,
        y.bytes,
        y.bits,
        answer,
        &mut lent.sheet,
        &mut lent.string,
        &mut lent.question,
    );
    Session {
        progress: out.answer,
        rebuilder: out.state,
        ..s
    }
}

// A question of so many bytes goes to the holder, and its answer to the rebuilder; both are printed.
fn exchange(
    rt: &impl Print,
    s: Session,
    size: usize,
    x: Text,
    y: Text,
    lent: &mut Buffers,
) -> io::Result<Session> {
    let mut reply = [0u8; 8200];
    let question = &lent.question[..size.min(lent.question.len())];
    print_message(rt, b'Q', question)?;
    let out = ends::holder_call(s.holder, x.bytes, x.bits, question, &mut reply);
    match out.answer {
        Err(e) => Ok(Session {
            progress: Err(e),
            ..s
        }),
        Ok(length) => {
            let answer = &reply[..length.min(reply.len())];
            print_message(rt, b'A', answer)?;
            let next = Session {
                holder: out.state,
                ..s
            };
            Ok(hear(next, y, answer, lent))
        }
    }
}

// Questions and answers until X is rebuilt or a call is turned down. No run has 100,000 questions: demand 3 bounds them by 81,926.
fn converse(
    rt: &impl Print,
    first: Session,
    x: Text,
    y: Text,
    lent: &mut Buffers,
) -> io::Result<Session> {
    let mut s = first;
    // Above the 10 * floor(n / m) + 6 questions that demand 3 allows, 81,926 at most; the bound only lets the prover see the end.
    for _ in 0..100000 {
        let Ok(Some(size)) = s.progress else {
            break;
        };
        s = exchange(rt, s, size, x, y, lent)?;
    }
    Ok(s)
}

// The lines after the last answer. No question can still wait here: `converse` has more rounds than any run has questions.
fn print_end(rt: &impl Print, s: Session, lent: &Buffers) -> io::Result<()> {
    match s.progress {
        Ok(Some(_)) => print_refusal(rt, Refusal::OutOfTurn),
        Err(e) => print_refusal(rt, e),
        Ok(None) => {
            print_rows(rt, &lent.sheet, s.rebuilder.rows)?;
            print_last(rt, &lent.string, s.rebuilder)
        }
    }
}

// The run for X and Y.
fn run(rt: &impl Print, settings: Settings, x: Text, y: Text) -> io::Result<()> {
    let mut lent = Buffers {
        sheet: [Row::default(); 16385],
        string: [0; 8192],
        question: [0; 8],
    };
    match ends::rebuilder_start(settings, y.bytes, y.bits, &mut lent.question) {
        Err(e) => print_refusal(rt, e),
        Ok(started) => {
            let first = Session {
                progress: Ok(Some(started.size)),
                holder: ends::fresh_holder(),
                rebuilder: started.state,
            };
            let last = converse(rt, first, x, y, &mut lent)?;
            print_end(rt, last, &lent)
        }
    }
}

// How many bytes a string of at most 65,536 bits has.
fn byte_count(bits: usize) -> usize
    ensures { result ≤ 8192 }
{
    strings::bytes_for(bits.min(strings::MAX_BITS))
}

// A run on settings within their limits: the lines of X and Y are read.
fn run_lines(rt: &impl Print, settings: Settings, input: &[u8]) -> io::Result<()> {
    let mut x = [0u8; 8192];
    let mut y = [0u8; 8192];
    let Ok(xbits) = lines::read_string(input, 1, &mut x) else {
        return print_refusal(rt, Refusal::BadString);
    };
    let Ok(ybits) = lines::read_string(input, 2, &mut y) else {
        return print_refusal(rt, Refusal::BadString);
    };
    let reference = Text {
        bytes: &x[..byte_count(xbits)],
        bits: xbits,
    };
    let copy = Text {
        bytes: &y[..byte_count(ybits)],
        bits: ybits,
    };
    run(rt, settings, reference, copy)
}

// A run on the whole input.
fn run_input(rt: &impl Print, input: &[u8]) -> io::Result<()> {
    let Some(settings) = lines::read_settings(input) else {
        return print_refusal(rt, Refusal::BadSetting);
    };
    if !settings.is_within_limits() {
        return print_refusal(rt, Refusal::BadSetting);
    }
    run_lines(rt, settings, input)
}

// Three lines of 65,536 characters, two newlines, and one byte more by which a third line that is too long shows.
fn main(rt: HostRuntime) -> io::Result<()> {
    let mut input = [0u8; 196611];
    let size = read_full(&mut rt.stdin(), &mut input)?;
    run_input(&rt, &input[..size])
}
