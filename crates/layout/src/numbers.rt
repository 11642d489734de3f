// 32-bit numbers as bytes, little-endian, at places that their callers know to lie in the slice. Slice and offset are no type of their
// own: nearly every offset is a literal, and a value would be made for one call.
ghost use Rattle.std.specs.Prelude.{◌≡◌, ◌+◌, ◌*◌, ◌≤◌, length};
ghost use Rattle.std.proofs.lemmas.List.Edits.{sets};
ghost use Rattle.layout.specs.Bytes32.{bytes_of, word_at};
ghost use Rattle.layout.specs.Layout.{all_bytes};

// The number at offset `at`.
#[tactic(auto, unfolding(crate::specs::Bytes32::word_at))]
pub fn read_u32(s: &[u8], at: usize) -> u32
    requires { at + 4 ≤ length s.now }
    ensures { result ≡ word_at s.now at }
{
    u32::from_le_bytes([s[at], s[at + 1], s[at + 2], s[at + 3]])
}

// A number is written at offset `at`.
fn write_u32(s: &mut [u8], at: usize, v: u32)
    requires { at + 4 ≤ length s.old }
    ensures { s.new ≡ sets s.old at (bytes_of v) }
{
    s[at..at + 4].copy_from_slice(&v.to_le_bytes());
}

// Numbers, one after the other, from offset `at` on.
#[tactic(auto, unfolding(crate::specs::Layout::all_bytes))]
pub fn write_words(s: &mut [u8], at: usize, words: &[u32])
    requires { at + 4 * length words.now ≤ length s.old }
    ensures { s.new ≡ sets s.old at (all_bytes words.now) }
{
    for (i, &word) in words.iter().enumerate() {
        write_u32(s, at + 4 * i, word);
    }
}
