// The reader of 01, "Both ends read through one reader that holds a message and how far it has got". Questions and answers are read through
// it, number by number.
ghost use Rattle.std.specs.Prelude.{◌≡◌, length, OnErr};
ghost use Rattle.strings.specs.Results.{said};
ghost use Rattle.messages.specs.Numbers.{number_at, numbers_at};
ghost use Rattle.messages.specs.code.Reading.{last_at, said_next, said_numbers};

use crate::numbers::read_number;
use strings::Refusal;

// A reader: `src` is the message, `at` is how far it has got, as the index of the first byte that is not read yet.
#[derive(Clone, Copy, Debug, PartialEq, Eq)]
pub struct Reader<'a> {
    pub src: &'a [u8],
    pub at: usize,
}

impl<'a> Reader<'a> {
    // A reader of `src` that has got as far as `at`.
    pub fn new(src: &'a [u8], at: usize) -> Self
        ensures { (result.src ≡ src.entry) × (result.at ≡ at) }
    {
        Self { src, at }
    }

    // The number at which the reader stands; it moves on behind it. Where there is none it stays.
    pub fn next(&mut self) -> Result<u32, Refusal>
        ensures same { self.new.src ≡ self.old.src }
        ensures read { said_next result self.new.at ≡ number_at self.old.src.now self.old.at }
        ensures stays { OnErr result (self.new.at ≡ self.old.at) }
    {
        let (v, end) = read_number(self.src, self.at)?;
        self.at = end;
        Ok(v)
    }

    // The last number of the message: nothing may follow it.
    pub fn last(mut self) -> Result<u32, Refusal>
        ensures { said result ≡ last_at self.entry.src.now self.entry.at }
    {
        let v = self.next()?;
        if self.at < self.src.len() {
            return Err(Refusal::TrailingBytes);
        }
        Ok(v)
    }

    // The numbers from here on fill a slice.
    pub fn fill(&mut self, list: &mut [u32]) -> Result<(), Refusal>
        ensures same { self.new.src ≡ self.old.src }
        ensures read { said_numbers result list.new self.new.at ≡ numbers_at (length list.old) self.old.src.now self.old.at }
    {
        for v in list.iter_mut() {
            *v = self.next()?;
        }
        Ok(())
    }
}
