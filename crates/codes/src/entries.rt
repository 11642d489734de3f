// What a host calls, on any bytes and numbers. A string comes as bytes and a bit count, as the C interface hands it in. Whether the two
// belong together is tested here: `hash` tests its settings first, and a type of both would turn the string down before them.
ghost use Rattle.std.specs.Prelude.{◌≡◌};
ghost use Rattle.strings.specs.Results.{said};
ghost use Rattle.codes.specs.Entries.{said_repair, repair_outcome, syndrome_call, hash_call, repair_range, hash_settings};

use crate::edits::Edited;
use crate::rows::HashKey;
use strings::{BitRange, Refusal};

// The syndrome of a string.
#[tactic(auto, using(crate::specs::laws::EntryLaws::whole_part), unfolding(crate::specs::Entries::syndrome_call))]
pub fn syndrome(s: &[u8], bits: usize) -> Result<u32, Refusal>
    ensures { said result ≡ syndrome_call s.now bits }
{
    if !strings::keeps_string_rule(s, bits) {
        return Err(Refusal::BadString);
    }
    let whole = BitRange {
        bytes: s,
        start: 0,
        len: bits,
    };
    let a = crate::sums::syndrome_of(whole);
    Ok(a as u32)
}

// Whether h and the key are within the settings' limits.
#[tactic(auto, unfolding(crate::specs::Entries::hash_settings))]
fn keeps_hash_settings(h: u32, key: u32) -> bool
    ensures { result ≡ hash_settings h key }
{
    strings::is_hash_width(h) && strings::is_key(key)
}

// The hash of a string.
#[tactic(auto, using(crate::specs::laws::EntryLaws::whole_part, crate::specs::laws::EntryLaws::hash_width), unfolding(crate::specs::Entries::hash_call))]
pub fn hash(s: &[u8], bits: usize, h: u32, key: u32) -> Result<u32, Refusal>
    ensures { said result ≡ hash_call s.now bits h key }
{
    if !keeps_hash_settings(h, key) {
        return Err(Refusal::BadSetting);
    }
    if !strings::keeps_string_rule(s, bits) {
        return Err(Refusal::BadString);
    }
    Ok(HashKey { key, h }.hash(BitRange {
        bytes: s,
        start: 0,
        len: bits,
    }))
}

// Whether a string of `bits` bits can be asked to become one of n bits with the syndrome a.
#[tactic(auto, unfolding(crate::specs::Entries::repair_range))]
fn keeps_repair_range(bits: usize, n: usize, a: usize) -> bool
    ensures { result ≡ repair_range bits n a }
{
    n <= strings::MAX_BITS && a <= n && bits.abs_diff(n) == 1
}

// The repair of a string of `bits` bits to one of n bits, one more or one less, that has the syndrome a. True: the first bytes of `out` are
// the repaired string. False: no deletion gives the syndrome. Then, and where the call is turned down, `out` is as it was.
#[tactic(auto, using(crate::specs::laws::EntryLaws::whole_part, crate::specs::laws::EntryLaws::repair_few), unfolding(crate::specs::Entries::repair_call))]
pub fn repair(s: &[u8], bits: usize, n: usize, a: usize, out: &mut [u8]) -> Result<bool, Refusal>
    ensures { said_repair result out.new ≡ repair_outcome s.now bits n a out.old }
{
    if !strings::keeps_string_rule(s, bits) {
        return Err(Refusal::BadString);
    }
    if !keeps_repair_range(bits, n, a) {
        return Err(Refusal::OutOfRange);
    }
    if out.len() < strings::bytes_for(n) {
        return Err(Refusal::BufferTooShort);
    }
    let whole = BitRange {
        bytes: s,
        start: 0,
        len: bits,
    };
    let Some(edit) = crate::places::find_repair(whole, n, a) else {
        return Ok(false);
    };
    Edited { piece: whole, edit }.pack(n, out);
    Ok(true)
}
