// The kinds as numbers.
ghost use Rattle.std.specs.Prelude.{◌≡◌};
ghost use Rattle.strings.specs.Results.{said};
ghost use Rattle.messages.specs.Kinds.{kind_number, kind_of, kind_at};

use crate::Kind;
use crate::reading::Reader;
use strings::Refusal;

// The number of a kind.
impl From<Kind> for u32 {
    ghost from_gives = { λ k v. v ≡ kind_number k };

    fn from(k: Kind) -> u32 {
        match k {
            Kind::Open => 0,
            Kind::Hash => 1,
            Kind::Syndrome => 2,
            Kind::Bits => 3,
            Kind::Burst => 4,
        }
    }
}

// The kind of a number.
impl TryFrom<u32> for Kind {
    type Error = Refusal;

    ghost try_from_gives = { λ v r. said r ≡ kind_of v };

    fn try_from(v: u32) -> Result<Self, Refusal> {
        match v {
            0 => Ok(Kind::Open),
            1 => Ok(Kind::Hash),
            2 => Ok(Kind::Syndrome),
            3 => Ok(Kind::Bits),
            4 => Ok(Kind::Burst),
            _ => Err(Refusal::BadKind),
        }
    }
}

// The kind of the question `s`, and the position behind it, from which `read_fields` reads the fields.
#[tactic(auto, unfolding(crate::specs::Kinds::kind_at))]
pub fn read_kind(s: &[u8]) -> Result<(Kind, usize), Refusal>
    ensures { said result ≡ kind_at s.now }
{
    let mut r = Reader::new(s, 0);
    let v = r.next()?;
    let kind = Kind::try_from(v)?;
    Ok((kind, r.at))
}
