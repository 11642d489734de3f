// The text of the demonstration program (01, "The demonstration run"): the lines that it reads, and the bytes of those that it prints.
// A line is written into a lent buffer or put into a Line of fixed size, which its caller made long enough; the put_ functions and methods
// require it.
#![tactic(auto)]

ghost use Rattle.std.specs.Prelude.{◌≡◌, ℕ, ◌+◌, ◌*◌, ◌≤◌, ◌<◌, List, [], ◌∷◌, ◌++◌, length, take};
ghost use Rattle.strings.specs.Bits.{write_bits, range};
ghost use Rattle.lines.specs.Fields.{blank_byte, field_text};
ghost use Rattle.lines.specs.SettingsLine.{decimal_of, group_of, five_groups, settings_of, settings_in, said_settings};
ghost use Rattle.lines.specs.StringLine.{is_bit, all_bits, line_bits, string_of, string_in, leaves_string, said_string};
ghost use Rattle.lines.specs.code.Readings.{said_bytes, said_decimal};
ghost use Rattle.lines.specs.Printing.{Puts, hex_digit, hex_of, decimal, bit_byte, bit_bytes, message_line, row_line, last_line, refusal_line};

use std::marker::Model;
use strings::Settings;

// The most characters of the settings line: as many as a line of X or Y may have, so that a program can read the three lines of any
// input into a buffer of fixed size.
const LONGEST_LINE: usize = strings::MAX_BITS;

// Why a line is no string for a lent buffer: it is of another form, or the buffer is too short.
#[derive(Clone, Copy, Debug, PartialEq, Eq)]
pub enum StringError {
    NotBits,
    BufferTooShort,
}

// The field with this index, counted from 0. The lines of the input are its fields at newlines, the groups of the settings line its fields
// at blanks.
fn find_field(s: &[u8], separator: u8, index: usize) -> Option<&[u8]>
    ensures { said_bytes result ≡ field_text separator index s.now }
{
    s.split(|x| *x == separator).nth(index)
}

// A decimal number: one or more digits, the highest first, leading zeros allowed, below 2^32. By hand, since parse of std takes a leading
// plus too.
#[tactic(auto, using(std::proofs::lemmas::Grind::common_steps, crate::specs::laws::SettingsLaws::decimal_steps))]
fn parse_decimal(s: &[u8]) -> Option<u32>
    ensures { said_decimal result ≡ decimal_of s.now }
{
    if s.is_empty() {
        return None;
    }
    let mut v: u32 = 0;
    for x in s {
        if !x.is_ascii_digit() {
            return None;
        }
        v = v.checked_mul(10)?.checked_add(u32::from(*x - b'0'))?;
    }
    Some(v)
}

// The number of a group of the settings line.
fn read_group(line: &[u8], index: usize) -> Option<u32>
    ensures { said_decimal result ≡ group_of line.now index }
{
    parse_decimal(find_field(line, b' ', index)?)
}

// The first five groups of the settings line.
#[tactic(auto, unfolding(crate::specs::SettingsLine::five_groups))]
fn five_groups(line: &[u8]) -> Option<Settings>
    ensures { said_settings result ≡ five_groups line.now }
{
    let m = read_group(line, 0)?;
    let h = read_group(line, 1)?;
    let k = read_group(line, 2)?;
    let key = read_group(line, 3)?;
    let ceiling = read_group(line, 4)?;
    Some(Settings::new(m, h, k, key, ceiling))
}

// The settings line: five groups parted by single blanks, and no sixth.
#[tactic(auto, using(crate::specs::laws::SettingsLaws::settings_steps), unfolding(crate::specs::SettingsLine::settings_of))]
fn parse_settings(line: &[u8]) -> Option<Settings>
    ensures { said_settings result ≡ settings_of line.now }
{
    if LONGEST_LINE < line.len() || find_field(line, b' ', 5).is_some() {
        return None;
    }
    five_groups(line)
}

// The settings of the input: its first line. None if the line is missing or of another form.
#[tactic(auto, unfolding(crate::specs::SettingsLine::settings_in))]
pub fn read_settings(input: &[u8]) -> Option<Settings>
    ensures { said_settings result ≡ settings_in input.now }
{
    parse_settings(find_field(input, b'\n', 0)?)
}

#[tactic(auto, unfolding(crate::specs::StringLine::is_bit))]
fn is_bit(x: u8) -> bool
    ensures { result ≡ is_bit x }
{
    matches!(x, b'0' | b'1')
}

// Whether every byte is a zero or a one.
fn only_bits(s: &[u8]) -> bool
    ensures { result ≡ all_bits s.now }
{
    s.iter().all(|x| is_bit(*x))
}

// The line's zeros and ones are written as bits from the first place on.
#[tactic(auto, using(crate::specs::laws::StringLaws::line_steps))]
fn write_line(s: &[u8], out: &mut [u8])
    requires { length s.now ≤ 8 * length out.old }
    ensures { out.new ≡ write_bits out.old 0 (line_bits s.now) }
{
    for (i, x) in s.iter().enumerate() {
        strings::set_bit(out, i, *x == b'1');
    }
}

// A line of zeros and ones, at most 65,536, is packed at the front of the buffer. Nothing is written before the whole line was checked.
#[tactic(auto, using(crate::specs::laws::StringLaws::string_steps))]
fn parse_bits(s: &[u8], out: &mut [u8]) -> Result<usize, StringError>
    ensures { said_string result out.new
        ≡ leaves_string out.old (string_of s.now (length out.old)) }
{
    let n = s.len();
    if strings::MAX_BITS < n || !only_bits(s) {
        return Err(StringError::NotBits);
    }
    let size = strings::bytes_for(n);
    if out.len() < size {
        return Err(StringError::BufferTooShort);
    }
    strings::clear_bytes(out, 0, size);
    write_line(s, out);
    Ok(n)
}

// The string of a line of the input, lines counted from 0; a missing line is of another form. It gives the bit count of the string that was
// packed; at an error the buffer is left alone.
#[tactic(auto, unfolding(crate::specs::StringLine::string_in))]
pub fn read_string(input: &[u8], index: usize, out: &mut [u8]) -> Result<usize, StringError>
    ensures { said_string result out.new
        ≡ leaves_string out.old (string_in input.now index (length out.old)) }
{
    let line = find_field(input, b'\n', index).ok_or(StringError::NotBits)?;
    parse_bits(line, out)
}

// Each of the put_ functions writes from index `at` of a lent buffer on, and gives the index behind what it wrote; all other bytes stay.

fn put_byte(out: &mut [u8], at: usize, x: u8) -> usize
    requires { at + 1 ≤ length out.old }
    ensures { Puts out.old at (x ∷ []) out.new result }
{
    out[at] = x;
    at + 1
}

// The lower-case digit of a number below 16. By hand, since char::from_digit gives an Option of a char, to be turned into a byte again.
#[tactic(auto, unfolding(crate::specs::Printing::hex_digit))]
fn hex_digit(d: u8) -> u8
    requires { d < 16 }
    ensures { result ≡ hex_digit d }
{
    if d < 10 { b'0' + d } else { b'a' + (d - 10) }
}

// The bytes in hexadecimal.
#[tactic(auto, using(crate::specs::laws::PrintLaws::puts_steps))]
fn put_hex(out: &mut [u8], at: usize, s: &[u8]) -> usize
    requires { at + 2 * length s.now ≤ length out.old }
    ensures { Puts out.old at (hex_of s.now) out.new result }
{
    let mut j = at;
    for x in s {
        out[j] = hex_digit(*x / 16);
        out[j + 1] = hex_digit(*x % 16);
        j += 2;
    }
    j
}

// A number in decimal. By hand: without a heap, Display of std promises its text only where a write succeeds, and not that it does.
#[tactic(auto, using(crate::specs::laws::PrintLaws::decimal_steps))]
fn put_decimal(out: &mut [u8], at: usize, v: u32) -> usize
    requires { at + length (decimal v) ≤ length out.old }
    ensures { Puts out.old at (decimal v) out.new result }
{
    if v < 10 {
        out[at] = b'0' + (v as u8);
        return at + 1;
    }
    let last = put_decimal(out, at, v / 10);
    out[last] = b'0' + ((v % 10) as u8);
    last + 1
}

// The digit of a bit. `b'0' + u8::from(b)` is no plainer.
fn bit_byte(b: bool) -> u8
    ensures { result ≡ bit_byte b }
{
    if b { b'1' } else { b'0' }
}

// The first n bits of a string as zeros and ones. String and n are no BitRange: that has at most 65,536 bits, and any n is promised.
#[tactic(auto, using(crate::specs::laws::PrintLaws::puts_steps))]
fn put_bits(out: &mut [u8], at: usize, s: &[u8], n: usize) -> usize
    requires n_in_bounds { at + n ≤ length out.old }
    requires n_bound { n ≤ 8 * length s.now }
    ensures { Puts out.old at (bit_bytes (range s.now 0 n)) out.new result }
{
    for i in 0..n {
        out[at + i] = bit_byte(strings::get_bit(s, i));
    }
    at + n
}

// A blank and a number in decimal.
#[tactic(auto, using(crate::specs::laws::PrintLaws::puts_steps))]
fn put_next(out: &mut [u8], at: usize, v: u32) -> usize
    requires { at + 11 ≤ length out.old }
    ensures { Puts out.old at (blank_byte ∷ decimal v) out.new result }
{
    let a = put_byte(out, at, b' ');
    put_decimal(out, a, v)
}

// A letter and a blank.
fn put_letter(out: &mut [u8], at: usize, letter: u8) -> usize
    requires { at + 2 ≤ length out.old }
    ensures { Puts out.old at (letter ∷ blank_byte ∷ []) out.new result }
{
    let a = put_byte(out, at, letter);
    put_byte(out, a, b' ')
}

// The line of a message: letter Q for a question, A for an answer. A byte and no enum, since the line of every letter is promised.
#[tactic(auto, using(crate::specs::laws::PrintLaws::puts_steps))]
pub fn put_message_line(out: &mut [u8], at: usize, letter: u8, message: &[u8]) -> usize
    requires { at + (3 + 2 * length message.now) ≤ length out.old }
    ensures { Puts out.old at (message_line letter message.now) out.new result }
{
    let a = put_letter(out, at, letter);
    let b = put_hex(out, a, message);
    put_byte(out, b, b'\n')
}

// The line of a row. Its how is a number and no How, since the line of every number is promised, also of the 0 of a row of zeros.
#[tactic(auto, using(crate::specs::laws::PrintLaws::puts_steps))]
pub fn put_row_line(out: &mut [u8], at: usize, start: u32, len: u32, how: u32) -> usize
    requires { at + 35 ≤ length out.old }
    ensures { Puts out.old at (row_line start len how) out.new result }
{
    let a = put_byte(out, at, b'P');
    let b = put_next(out, a, start);
    let c = put_next(out, b, len);
    let d = put_next(out, c, how);
    put_byte(out, d, b'\n')
}

// The last line of a finished run: the first n bits of the string, the questions after the opening, the counted bytes. No BitRange,
// as in put_bits.
#[tactic(auto, using(crate::specs::laws::PrintLaws::puts_steps))]
pub fn put_last_line(
    out: &mut [u8],
    at: usize,
    s: &[u8],
    n: usize,
    questions: u32,
    counted: u32,
) -> usize
    requires n_in_bounds { at + (n + 25) ≤ length out.old }
    requires n_bound { n ≤ 8 * length s.now }
    ensures { Puts out.old at (last_line (range s.now 0 n) questions counted) out.new result }
{
    let a = put_letter(out, at, b'X');
    let b = put_bits(out, a, s, n);
    let c = put_next(out, b, questions);
    let d = put_next(out, c, counted);
    put_byte(out, d, b'\n')
}

// The last line of a run in which a call was turned down. A number and no Refusal, since the line of every number is promised.
#[tactic(auto, using(crate::specs::laws::PrintLaws::puts_steps))]
pub fn put_refusal_line(out: &mut [u8], at: usize, number: u32) -> usize
    requires { at + 13 ≤ length out.old }
    ensures { Puts out.old at (refusal_line number) out.new result }
{
    let a = put_byte(out, at, b'R');
    let b = put_next(out, a, number);
    put_byte(out, b, b'\n')
}

// The bytes that are to be printed next, at most N: an array and how much of it is used, since there is no heap. No equality is derived: it
// would compare the bytes behind the used ones.
#[derive(Debug, Drop)]
pub struct Line<const N: usize> {
    buffer: [u8; N],
    size: usize,
}

// Clauses see the bytes that were put into it.
impl<const N: usize> Model for Line<N> {
    ghost Value = { List ℕ };

    ghost view = { λ line. take line.size line.buffer };

    ghost invariant = { λ line. line.size ≤ N };
}

#[tactic(auto, using(crate::specs::laws::PrintLaws::line_steps))]
impl<const N: usize> Line<N> {
    // No byte yet.
    pub fn new() -> Self
        ensures { result ≡ [] }
    {
        Line {
            buffer: [0; N],
            size: 0,
        }
    }

    // What was put into it so far.
    pub fn bytes(&self) -> &[u8]
        ensures { result.now ≡ self.now }
    {
        &self.buffer[..self.size]
    }

    // The line of a message, put behind what is there.
    pub fn put_message_line(&mut self, letter: u8, message: &[u8])
        requires { length self.old + (3 + 2 * length message.now) ≤ N }
        ensures { self.new ≡ self.old ++ message_line letter message.now }
    {
        self.size = put_message_line(&mut self.buffer, self.size, letter, message);
    }

    // The line of a row.
    pub fn put_row_line(&mut self, start: u32, len: u32, how: u32)
        requires { length self.old + 35 ≤ N }
        ensures { self.new ≡ self.old ++ row_line start len how }
    {
        self.size = put_row_line(&mut self.buffer, self.size, start, len, how);
    }

    // The last line of a finished run.
    pub fn put_last_line(&mut self, s: &[u8], n: usize, questions: u32, counted: u32)
        requires n_in_bounds { length self.old + (n + 25) ≤ N }
        requires n_bound { n ≤ 8 * length s.now }
        ensures { self.new ≡ self.old ++ last_line (range s.now 0 n) questions counted }
    {
        self.size = put_last_line(&mut self.buffer, self.size, s, n, questions, counted);
    }

    // The last line of a run in which a call was turned down.
    pub fn put_refusal_line(&mut self, number: u32)
        requires { length self.old + 13 ≤ N }
        ensures { self.new ≡ self.old ++ refusal_line number }
    {
        self.size = put_refusal_line(&mut self.buffer, self.size, number);
    }
}
