// Prints samples on standard output, which the gate compares with the stored stdout: outputs of Marsaglia's xorshift, rows and hashes,
// the syndrome and every repair of each string of up to 8 bits, messages and anchor places at the edges that 01 names, the house settings,
// and calls that are turned down. The stored file is worked out from document 01 by another program (tools/samples.py), but for its last
// five lines, which stand there as text: the house settings, the calls that are turned down and one repair that is done.
#![tactic(auto)]

ghost use Rattle.std.specs.Prelude.{◌≤◌, IfOk};

use ends::{Holder, Rebuilder};
use std::fmt::Display;
use std::io;
use strings::{Refusal, Settings};

fn print(rt: &impl Print, text: &[u8]) -> io::Result<()> {
    rt.write_all(text)
}

fn print_number(rt: &impl Print, v: impl Display + Drop) -> io::Result<()> {
    print(rt, b" ")?;
    rt.print(v)
}

fn print_refusal(rt: &impl Print, e: Refusal) -> io::Result<()> {
    print(rt, b" R")?;
    print_number(rt, u32::from(e))
}

// The rows 1 to `count` of a key: the outputs of xorshift from that seed.
fn print_rows(rt: &impl Print, key: u32, count: u32) -> io::Result<()> {
    let mut v = key;
    for _ in 0..count {
        v = codes::xorshift(v);
        print_number(rt, v)?;
    }
    print(rt, b"\n")
}

fn print_answer(rt: &impl Print, r: Result<u32, Refusal>) -> io::Result<()> {
    match r {
        Ok(v) => print_number(rt, v),
        Err(e) => print_refusal(rt, e),
    }
}

// A string of at most 8 bits: one byte and a bit count, since there is no heap, and a range would borrow what is made here.
#[derive(Clone, Copy, Debug, PartialEq, Eq)]
struct Sample {
    buffer: [u8; 1],
    bits: usize,
    ghost few: { bits ≤ 8 },
}

impl Sample {
    // The bytes that its bits fill.
    fn bytes(&self) -> &[u8] {
        &self.buffer[..strings::bytes_for(self.bits)]
    }

    // Its bits as zeros and ones.
    fn print(&self, rt: &impl Print) -> io::Result<()> {
        print(rt, b" ")?;
        if self.bits == 0 {
            print(rt, b"empty")?;
        }
        for i in 0..self.bits {
            if strings::get_bit(&self.buffer, i) {
                print(rt, b"1")?;
            } else {
                print(rt, b"0")?;
            }
        }
        Ok(())
    }

    // The repair to n bits of syndrome a; whether there is one.
    fn print_repair(&self, rt: &impl Print, n: usize, a: usize) -> io::Result<bool>
        requires { n ≤ 8 }
    {
        let mut buffer = [0u8; 1];
        match codes::repair(self.bytes(), self.bits, n, a, &mut buffer) {
            Ok(true) => {
                Sample { buffer, bits: n }.print(rt)?;
                Ok(true)
            }
            Ok(false) => {
                print(rt, b" none")?;
                Ok(false)
            }
            Err(e) => {
                print_refusal(rt, e)?;
                Ok(false)
            }
        }
    }

    // Every repair to n bits; how many there are.
    fn print_repairs(&self, rt: &impl Print, n: usize) -> io::Result<u32>
        requires { n ≤ 8 }
        ensures { IfOk result (λ found. found ≤ 9) }
    {
        let mut found: u32 = 0;
        for a in 0..=n {
            if self.print_repair(rt, n, a)? {
                found += 1;
            }
        }
        Ok(found)
    }

    // Every put-in, which have at most 8 bits; how many there are.
    fn print_put_ins(&self, rt: &impl Print) -> io::Result<u32>
        ensures { IfOk result (λ found. found ≤ 9) }
    {
        if self.bits == 8 {
            return Ok(0);
        }
        self.print_repairs(rt, self.bits + 1)
    }

    // The string, its syndrome, its put-ins and its take-outs, each for the syndromes in order; how many put-ins there are.
    fn print_line(&self, rt: &impl Print) -> io::Result<u32>
        ensures { IfOk result (λ found. found ≤ 9) }
    {
        self.print(rt)?;
        print(rt, b":")?;
        print_answer(rt, codes::syndrome(self.bytes(), self.bits))?;
        print(rt, b";")?;
        let found = self.print_put_ins(rt)?;
        print(rt, b";")?;
        if 0 < self.bits {
            self.print_repairs(rt, self.bits - 1)?;
        }
        print(rt, b"\n")?;
        Ok(found)
    }
}

// Every string of that many bits: the bytes whose other bits are zeros. How many put-ins there are.
fn print_strings(rt: &impl Print, bits: usize) -> io::Result<u32>
    requires { bits ≤ 8 }
    ensures { IfOk result (λ found. found ≤ 2304) }
{
    let mut found: u32 = 0;
    for v in 0..=255u8 {
        if 8 <= bits + v.trailing_zeros() as usize {
            found += Sample { buffer: [v], bits }.print_line(rt)?;
        }
    }
    Ok(found)
}

fn print_codes(rt: &impl Print) -> io::Result<()> {
    let mut found: u32 = 0;
    for bits in 0..=8 {
        found += print_strings(rt, bits)?;
    }
    print(rt, b"put-ins:")?;
    print_number(rt, found)?;
    print(rt, b"\n")
}

fn print_hashes(rt: &impl Print) -> io::Result<()> {
    print(rt, b"1011, h 8, key 1:")?;
    print_answer(rt, codes::hash(b"\xb0", 4, 8, 1))?;
    print(rt, b"\n010011000, h 8, key 1:")?;
    print_answer(rt, codes::hash(b"\x4c\x00", 9, 8, 1))?;
    print(rt, b"\nempty, h 32, key 4294967295:")?;
    print_answer(rt, codes::hash(b"", 0, 32, 4294967295))?;
    print(rt, b"\n1111111111111111, h 32, key 4294967295:")?;
    print_answer(rt, codes::hash(b"\xff\xff", 16, 32, 4294967295))?;
    print(rt, b"\n")
}

// A string as a caller hands it in: bytes and a bit count, which a call tests. `demo` has the same: a crate for this alone is no plainer.
#[derive(Clone, Copy, Debug, PartialEq, Eq)]
struct Text<'a> {
    bytes: &'a [u8],
    bits: usize,
}

impl<'a> Text<'a> {
    fn new(bytes: &'a [u8], bits: usize) -> Self {
        Text { bytes, bits }
    }
}

// A repair into a buffer of one byte.
fn print_call(rt: &impl Print, s: Text, n: usize, a: usize) -> io::Result<()> {
    let mut out = [0u8; 1];
    match codes::repair(s.bytes, s.bits, n, a, &mut out) {
        Ok(true) => print(rt, b" done"),
        Ok(false) => print(rt, b" none"),
        Err(e) => print_refusal(rt, e),
    }
}

// The house settings: m, h, k, key, ceiling.
fn print_house(rt: &impl Print) -> io::Result<()> {
    let house = Settings::house();
    print(rt, b"house settings:")?;
    print_number(rt, house.m)?;
    print_number(rt, house.h)?;
    print_number(rt, house.k)?;
    print_number(rt, house.key)?;
    print_number(rt, house.ceiling)?;
    print(rt, b"\n")
}

fn print_refusals(rt: &impl Print) -> io::Result<()> {
    let zeros = [0u8; 8192];
    print(rt, b"hash with h 7, h 33, key 0, a spare bit:")?;
    print_answer(rt, codes::hash(b"\xb0", 4, 7, 1))?;
    print_answer(rt, codes::hash(b"\xb0", 4, 33, 1))?;
    print_answer(rt, codes::hash(b"\xb0", 4, 8, 0))?;
    print_answer(rt, codes::hash(b"\xb1", 4, 8, 1))?;
    print(
        rt,
        b"\nsyndrome with a spare bit, a byte too many, one too few:",
    )?;
    print_answer(rt, codes::syndrome(b"\xb1", 4))?;
    print_answer(rt, codes::syndrome(b"\xb0\x00", 4))?;
    print_answer(rt, codes::syndrome(b"\xb0", 9))?;
    print(
        rt,
        b"\nrepair of 1011 to 4 bits, to 6, to 5 with syndrome 5, with syndrome 6:",
    )?;
    print_call(rt, Text::new(b"\xb0", 4), 4, 0)?;
    print_call(rt, Text::new(b"\xb0", 4), 6, 0)?;
    print_call(rt, Text::new(b"\xb0", 4), 5, 5)?;
    print_call(rt, Text::new(b"\xb0", 4), 5, 6)?;
    print(
        rt,
        b"\nrepair with a spare bit, to 65537 bits, to 9 bits in one byte:",
    )?;
    print_call(rt, Text::new(b"\xb1", 4), 6, 0)?;
    print_call(rt, Text::new(&zeros, 65536), 65537, 0)?;
    print_call(rt, Text::new(b"\xb0", 8), 9, 0)?;
    print(rt, b"\n")
}

// The bytes of a message.
fn print_bytes(rt: &impl Print, message: &[u8]) -> io::Result<()> {
    for &x in message {
        print_number(rt, x)?;
    }
    Ok(())
}

// The rebuilder's next question after a message, and its state.
fn tell(rt: &impl Print, st: Rebuilder, y: Text, message: &[u8]) -> io::Result<Rebuilder> {
    let mut string = [0u8; 8];
    let mut question = [0u8; 8];
    let out = ends::rebuilder_call(st, y.bytes, y.bits, message, 17, &mut string, &mut question);
    match out.answer {
        Ok(Some(size)) => print_bytes(rt, &question[..size.min(question.len())]),
        Ok(None) => print(rt, b" finished"),
        Err(e) => print_refusal(rt, e),
    }?;
    print(rt, b";")?;
    Ok(out.state)
}

// The holder's answer to a question about X, and its state.
fn ask(rt: &impl Print, st: Holder, x: Text, message: &[u8]) -> io::Result<Holder> {
    let mut reply = [0u8; 9];
    let out = ends::holder_call(st, x.bytes, x.bits, message, &mut reply);
    match out.answer {
        Ok(size) => print_bytes(rt, &reply[..size.min(reply.len())]),
        Err(e) => print_refusal(rt, e),
    }?;
    print(rt, b";")?;
    Ok(out.state)
}

// The first state of a rebuilder with m = h = 8.
fn begin(copy: Text) -> Result<Rebuilder, Refusal> {
    let Text { bytes: y, bits } = copy;
    let mut question = [0u8; 8];
    let started = ends::rebuilder_start(Settings::new(8, 8, 1, 1, 100), y, bits, &mut question)?;
    Ok(started.state)
}

// A piece of 63 bits goes as bits; one of 64 gets anchors at 28, 36 and 20 first: no byte of ones stands in zeros.
fn print_pieces(rt: &impl Print) -> io::Result<()> {
    let zeros = [0u8; 13];
    let y = Text::new(&zeros, 104);
    let first = match begin(y) {
        Err(e) => return print_refusal(rt, e),
        Ok(first) => first,
    };
    print(rt, b"questions for 63 bits, copy of 104 zeros:")?;
    tell(rt, first, y, b"\x00\x3f")?;
    print(rt, b"\nquestions for 64 ones, copy of 104 zeros:")?;
    let one = tell(rt, first, y, b"\x00\x40")?;
    let two = tell(rt, one, y, b"\x03\xff")?;
    let three = tell(rt, two, y, b"\x03\xff")?;
    let four = tell(rt, three, y, b"\x03\xff")?;
    tell(rt, four, y, b"\x03\xff\xff\xff\xff\xff\xff\xff\xff")?;
    print(rt, b"\n")
}

// 0000 cannot be repaired to 100: the bits are asked for.
fn print_none(rt: &impl Print) -> io::Result<()> {
    let x = Text::new(b"\x80", 3);
    print(rt, b"answers for 100:")?;
    let opened = ask(rt, ends::fresh_holder(), x, b"\x00\x01\x08\x01")?;
    let second = ask(rt, opened, x, b"\x02\x00\x03")?;
    ask(rt, second, x, b"\x03\x00\x03")?;
    print(rt, b"\nquestions for 100, copy 0000:")?;
    let y = Text::new(b"\x00", 4);
    let first = match begin(y) {
        Err(e) => return print_refusal(rt, e),
        Ok(first) => first,
    };
    let one = tell(rt, first, y, b"\x00\x03")?;
    let two = tell(rt, one, y, b"\x02\x01\x21")?;
    tell(rt, two, y, b"\x03\x80")?;
    print(rt, b"\n")
}

fn print_place(rt: &impl Print, answer: Result<Option<usize>, Refusal>) -> io::Result<()> {
    match answer {
        Ok(Some(r)) => print_number(rt, r),
        Ok(None) => print(rt, b" none"),
        Err(e) => print_refusal(rt, e),
    }
}

// The place of eight ones that stand at bit r of 66 zeros, as an anchor at offset 28 of 64 bits, with k = 1.
fn print_place_at(rt: &impl Print, r: usize) -> io::Result<()>
    requires { r ≤ 58 }
{
    let mut y = [0u8; 9];
    for i in r..r + 8 {
        strings::set_bit(&mut y, i, true);
    }
    print_place(rt, ends::find_anchor(&y, 66, 0, 66, 64, 28, 8, 1, b"\xff"))
}

// Every place in turn; then 01010101 that stands at 28 and at 30, equally far off.
fn print_places(rt: &impl Print) -> io::Result<()> {
    print(rt, b"eight ones at 0 to 58:")?;
    for r in 0..=58 {
        print_place_at(rt, r)?;
    }
    print(rt, b"\n01010101 at 28 and 30:")?;
    print_place(
        rt,
        ends::find_anchor(
            b"\xff\xff\xff\xf5\x57\xff\xff\xff\xc0",
            66,
            0,
            66,
            64,
            28,
            8,
            1,
            b"\x55",
        ),
    )?;
    print(rt, b"\n")
}

fn main(rt: HostRuntime) -> io::Result<()> {
    print(&rt, b"xorshift from 2463534242:")?;
    print_rows(&rt, 2463534242, 10)?;
    print(&rt, b"rows of key 1:")?;
    print_rows(&rt, 1, 9)?;
    print_hashes(&rt)?;
    print_codes(&rt)?;
    print_pieces(&rt)?;
    print_none(&rt)?;
    print_places(&rt)?;
    print_house(&rt)?;
    print_refusals(&rt)
}
