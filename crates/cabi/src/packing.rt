// Results as one number: value * 256 + refusal.
ghost use Rattle.std.specs.Prelude.{◌≡◌, Ok, ⊤, ℕ, ◌*◌, ◌≤◌};
ghost use Rattle.strings.specs.Refusals.{refusal_number};
ghost use Rattle.strings.specs.Results.{refusal, mapped, said};
ghost use Rattle.cabi.specs.Packing.{packed, value_unit, done_number, place_value, place_fits};

use strings::Refusal;

// What a value counts in a result (specs/Packing.antt: value_unit).
const VALUE_UNIT: u64 = 256;

// A value that a call gives, as a number of at most 32 bits. Of places and lengths only those that fit have one.
pub trait Value {
    ghost number: { Self → ℕ };

    ghost fits: { Self → Type 0 } = { λ v. ⊤ };

    fn number(self) -> u32
        requires { fits self }
        ensures { result ≡ number self };
}

// A syndrome, a hash or a count.
impl Value for u32 {
    ghost number = { λ v. v };

    fn number(self) -> u32 {
        self
    }
}

// Whether a repair was done, or a marker read.
impl Value for bool {
    ghost number = { done_number };

    fn number(self) -> u32 {
        u32::from(self)
    }
}

// That a marker was built.
impl Value for () {
    ghost number = { λ v. 1 };

    fn number(self) -> u32 {
        1
    }
}

// The length of a message.
impl Value for usize {
    ghost number = { λ v. v };

    ghost fits = { λ v. v ≤ 65536 };

    fn number(self) -> u32 {
        self as u32
    }
}

// A place plus 1, or 0 for none.
impl Value for Option<usize> {
    ghost number = { place_value };

    ghost fits = { place_fits };

    fn number(self) -> u32 {
        match self {
            Some(r) => (r as u32) + 1,
            None => 0,
        }
    }
}

// A value.
pub fn pack_value<T: Value>(v: T) -> u64
    requires { T.fits v }
    ensures { result ≡ T.number v * value_unit }
{
    u64::from(v.number()) * VALUE_UNIT
}

// A refusal.
#[tactic(auto, unfolding(crate::specs::Packing::packed))]
pub fn pack_refusal(e: Refusal) -> u64
    ensures { result ≡ packed (refusal (refusal_number e)) }
{
    u64::from(u32::from(e))
}

// A value or a refusal.
#[tactic(auto, unfolding(crate::specs::Packing::packed))]
pub fn pack<T: Value>(a: Result<T, Refusal>) -> u64
    requires { (v : T) → a ≡ Ok v → T.fits v }
    ensures { result ≡ packed (mapped T.number (said a)) }
{
    match a {
        Ok(v) => pack_value(v),
        Err(e) => pack_refusal(e),
    }
}
