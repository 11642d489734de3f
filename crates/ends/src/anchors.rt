// The anchor search: where the bits of an anchor stand in the copy's piece. `find_anchor` is for a host, on any input; `place_anchor` is
// for the rebuilder, whose sound state keeps what it requires.
ghost use Rattle.std.specs.Prelude.{◌≡◌, ◌*◌, ◌≤◌};
ghost use Rattle.strings.specs.Bits.{max_bits};
ghost use Rattle.strings.specs.Ranges.{bits};
ghost use Rattle.ends.specs.Anchors.{isqrt as isqrt_of, place};
ghost use Rattle.ends.specs.AnchorSearch.{place_in, anchor_settings, anchor_range, said_anchor, anchor_search};
ghost use Rattle.ends.specs.code.Window.{SearchBounds, Small, BitsOf, window_start, window_end};

use strings::{BitRange, Refusal};

// How far from its due place, doubled, an anchor may stand in a piece of q bits.
#[tactic(auto, using(crate::specs::code::AnchorSearchLaws::reach_is))]
fn reach(q: usize, k: usize) -> usize
    requires q_le_max_bits { q ≤ max_bits }
    requires k_le_8 { k ≤ 8 }
    ensures value { result ≡ 2 * k * isqrt_of q }
    ensures most { result ≤ 1048576 }
{
    2 * k * q.isqrt()
}

// One past the last place that is not too far to the right, 2r + p below due + least, and has m bits of Y from there on; due is 2s + q.
#[tactic(auto, unfolding(crate::specs::code::Window::window_end))]
fn window_end(q: usize, m: usize, p: usize, due: usize, least: usize) -> usize
    requires q_le_max_bits { q ≤ max_bits }
    requires small { Small p due least }
    ensures { result ≡ window_end q m p due least }
{
    let places = (q + 1).saturating_sub(m);
    let near = (due + least + 1).saturating_sub(p);
    places.min(near / 2)
}

// The first place that is near enough, or `end` where all in front of it are too far to the left.
#[tactic(auto, unfolding(crate::specs::code::Window::window_start))]
fn window_start(p: usize, due: usize, reach: usize, end: usize) -> usize
    requires { Small p due reach }
    ensures { result ≡ window_start p due reach end }
{
    let far = (due + 1).saturating_sub(p + reach);
    end.min(far / 2)
}

// The bits of an anchor, one in each place: the search compares them at every place of the copy, and takes them out of their bytes once.
// There are 64 places, the most that an anchor needs, since memory is fixed.
fn bits_of(anchor: BitRange) -> [bool; 64]
    requires { anchor.len ≤ 64 }
    ensures { BitsOf result anchor.entry.bytes.now anchor.entry.start anchor.entry.len }
{
    let mut wanted = [false; 64];
    // By index: over an iterator the search, which this becomes a part of, took up to twice as long.
    for j in 0..anchor.len {
        wanted[j] = anchor.get(j);
    }
    wanted
}

// Where an anchor at offset s of a piece of p bits is placed in the piece's copy.
pub fn place_anchor(copy: BitRange, p: usize, s: usize, k: usize, anchor: BitRange) -> Option<usize>
    requires { SearchBounds p s anchor.len k }
    ensures { result ≡ place_in (place anchor.entry.len k p s (bits copy.entry) (bits anchor.entry)) }
{
    let due = 2 * s + copy.len;
    let reach = reach(copy.len, k);
    let wanted = bits_of(anchor);
    // One more than any distance that is still of use: at first than the reach, then than those of places nearer than the best.
    let mut least = reach + 1;
    let mut best = None;
    let mut end = window_end(copy.len, anchor.len, p, due, least);
    let mut next = window_start(p, due, reach, end);
    // The end draws nearer at each better place, so this is no range for a `for`. The comparison is no function of its own: the search
    // would take half as long again, for a bool at each place.
    'places: while next < end {
        let r = next;
        next += 1;
        for j in 0..anchor.len {
            if copy.get(r + j) != wanted[j] {
                continue 'places;
            }
        }
        best = Some(r);
        least = (2 * r + p).abs_diff(due);
        end = window_end(copy.len, anchor.len, p, due, least);
    }
    best
}

// Whether m and k are within the settings' limits.
#[tactic(auto, unfolding(crate::specs::AnchorSearch::anchor_settings))]
fn keeps_anchor_settings(m: u32, k: u32) -> bool
    ensures { result ≡ anchor_settings m k }
{
    strings::is_anchor_length(m) && strings::is_window_factor(k)
}

// Whether the piece is a range of the copy's bits, p is a string's length and the anchor lies inside the p bits.
#[tactic(auto, unfolding(crate::specs::AnchorSearch::anchor_range))]
fn keeps_anchor_range(bits: usize, start: usize, q: usize, p: usize, s: usize, m: usize) -> bool
    ensures { result ≡ anchor_range bits start q p s m }
{
    strings::ends_by(start, q, bits) && p <= strings::MAX_BITS && strings::ends_by(s, m, p)
}

// The same search, for a host: y is the copy with its bit count, a is the anchor, a string of m bits. The answer is the place, or that
// there is none. The parameters stand apart, and bytes beside bit counts, as a host hands them in: they are tested here.
#[tactic(auto, using(crate::specs::code::AnchorSearchLaws::said_place, crate::specs::code::AnchorSearchLaws::copy_part, crate::specs::code::AnchorSearchLaws::tested_ready, crate::specs::code::AnchorSearchLaws::anchor_part), unfolding(crate::specs::AnchorSearch::anchor_search))]
pub fn find_anchor(
    y: &[u8],
    bits: usize,
    start: usize,
    q: usize,
    p: usize,
    s: usize,
    m: u32,
    k: u32,
    a: &[u8],
) -> Result<Option<usize>, Refusal>
    ensures { said_anchor result ≡ anchor_search y.now bits start q p s m k a.now }
{
    let len = m as usize;
    if !keeps_anchor_settings(m, k) {
        return Err(Refusal::BadSetting);
    }
    if !strings::keeps_string_rule(y, bits) || !strings::keeps_string_rule(a, len) {
        return Err(Refusal::BadString);
    }
    if !keeps_anchor_range(bits, start, q, p, s, len) {
        return Err(Refusal::OutOfRange);
    }
    let copy = BitRange {
        bytes: y,
        start,
        len: q,
    };
    let anchor = BitRange {
        bytes: a,
        start: 0,
        len,
    };
    Ok(place_anchor(copy, p, s, k as usize, anchor))
}
