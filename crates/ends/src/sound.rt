// Tests of the states that are handed in: whether a run can hold them (01, refusal 3; docs/STATE.md).
ghost use Rattle.std.specs.Prelude.{◌≡◌, true, false, ◌+◌, ◌-◌, ◌*◌, ◌/◌, ◌≤◌, ◌<◌};
ghost use Rattle.strings.specs.Bits.{max_bits};
ghost use Rattle.ends.specs.Soundness.{bound, holder_sound, is_blank, blank_from, piece_fits, in_order, stage_fits, asks_before, stack_sound, opening_sound, pieces_sound, whole_sound, sound, top_fits, rows_in_limit, asks_fit, last_ask_fits, most_counted, phase_sound};
ghost use Rattle.ends.specs.Runs.{full, longest_answer};
ghost use Rattle.ends.specs.States.{held};
ghost use Rattle.ends.specs.code.StateCode.{Usable};
ghost use Rattle.ends.specs.code.SoundCode.{Sized, Work, Sum};

use crate::state::{is_burst, too_small, top, wide};
use crate::{Attempt, Holder, LONGEST_NUMBERS, MOST_ANSWERS, Phase, Piece, Rebuilder, Stage};
use strings::{MOST_BITS, Settings, is_between, is_hash_width};

// Whether a run can hold the holder's state.
#[tactic(auto, unfolding(crate::specs::Soundness::holder_sound))]
pub fn holder_is_sound(st: Holder) -> bool
    ensures { result ≡ holder_sound st }
{
    if st.opened {
        return st.bits <= MOST_BITS
            && is_hash_width(st.h)
            && 1 <= st.key
            && is_between(1, st.answers, MOST_ANSWERS);
    }
    st == Holder::default()
}

// Whether no field of the piece is set.
#[tactic(auto, unfolding(crate::specs::Soundness::is_blank))]
fn is_blank(pc: Piece) -> bool
    ensures { result ≡ is_blank pc }
{
    pc == Piece::default()
}

// Whether all entries behind the waiting pieces are zeros. All are looked at, also after one that is not, without a branch for each.
fn blank_behind(st: Rebuilder) -> bool
    requires { st.waiting ≤ 32 }
    ensures { result ≡ blank_from st.pieces (32 - st.waiting) st.waiting }
{
    let mut blank = true;
    for &pc in &st.pieces[st.waiting as usize..] {
        blank &= is_blank(pc);
    }
    blank
}

// How long a waiting piece with d others to its right can be.
fn length_bound(d: usize) -> u32
    ensures { result ≡ bound d }
{
    let mut b = MOST_BITS;
    for _ in 0..d {
        b = 5 * b / 8;
    }
    b
}

// Whether a waiting piece with d others to its right begins at x and y or later, ends by n and e, and is not too long.
#[tactic(auto, unfolding(crate::specs::Soundness::piece_fits))]
fn piece_fits(n: u64, e: u64, x: u64, y: u64, d: usize, pc: Piece) -> bool
    ensures { result ≡ piece_fits n e x y d pc }
{
    let a = wide(pc.x);
    let b = wide(pc.y);
    let p = wide(pc.p);
    let q = wide(pc.q);
    x <= a && y <= b && 0 < pc.p && a + p <= n && b + q <= e && pc.p <= length_bound(d)
}

// Whether the waiting pieces, from the leftmost on, follow one another.
fn in_order(st: Rebuilder) -> bool
    requires { st.waiting ≤ 32 }
    ensures { result ≡ in_order st.n st.ybits 0 0 (held st.waiting st.pieces) }
{
    let n = wide(st.n);
    let e = wide(st.ybits);
    let mut x: u64 = 0;
    let mut y: u64 = 0;
    for (i, &pc) in st.pieces[..st.waiting as usize].iter().enumerate().rev() {
        if !piece_fits(n, e, x, y, i, pc) {
            return false;
        }
        x = wide(pc.x) + wide(pc.p);
        y = wide(pc.y) + wide(pc.q);
    }
    true
}

// The sum of a·floor(p/m) + b over the waiting pieces.
fn work_left(st: Rebuilder, a: u64, b: u64) -> u64
    requires { Work st a b }
    ensures { Sum st a b result }
{
    let m = wide(st.settings.m);
    let mut sum: u64 = 0;
    for &pc in &st.pieces[..st.waiting as usize] {
        sum += a * (wide(pc.p) / m) + b;
    }
    sum
}

// That the limits hold (Sized) stays a clause of the tests below: a value round the state would stand before each of the fields that they
// read, and is no plainer.

// Whether the used rows and those to come are within the sheet's.
fn rows_fit(st: Rebuilder) -> bool
    requires { Sized st }
    ensures { result ≡ rows_in_limit st }
{
    let n = wide(st.n);
    let m = wide(st.settings.m);
    let used = wide(st.rows);
    let left = work_left(st, 2, 1);
    used + left <= 2 * (n / m) + 1
}

// How many questions a piece has had at most before it came to a stage.
fn asks_before(t: Stage) -> u32
    ensures { result ≡ asks_before t }
{
    match t {
        Stage::Hashing | Stage::PuttingIn | Stage::TakingOut | Stage::Columns => 0,
        Stage::Anchor(Attempt::First) => 1,
        Stage::Anchor(Attempt::Second) => 2,
        Stage::Anchor(Attempt::Third) => 3,
        Stage::AllBits => 4,
    }
}

// Whether the questions answered and those to come are within the bound.
fn asks_fit(st: Rebuilder) -> bool
    requires { Sized st }
    ensures { result ≡ asks_fit st }
{
    let n = wide(st.n);
    let m = wide(st.settings.m);
    let answered = wide(st.answered);
    let before = wide(asks_before(st.stage));
    let left = work_left(st, 9, 5);
    answered + left <= 9 * (n / m) + 6 + before
}

// Whether one more question is within the bound.
fn last_ask_fits(st: Rebuilder) -> bool
    requires { Sized st }
    ensures { result ≡ last_ask_fits st }
{
    let n = wide(st.n);
    let m = wide(st.settings.m);
    let answered = wide(st.answered);
    answered + 1 <= 9 * (n / m) + 6
}

// Whether the stage suits the piece's lengths.
fn stage_fits(s: Settings, pc: Piece, t: Stage) -> bool
    requires { Usable s }
    ensures { result ≡ stage_fits s pc.p pc.q t }
{
    let a = wide(pc.p);
    let b = wide(pc.q);
    match t {
        Stage::Hashing => b == a,
        Stage::PuttingIn => b + 1 == a,
        Stage::TakingOut => b == a + 1,
        Stage::Anchor(i) => !too_small(s, pc),
        Stage::AllBits => true,
        Stage::Columns => is_burst(pc),
    }
}

// Whether the stage suits the leftmost piece; it is Hashing if none waits.
#[tactic(auto, unfolding(crate::specs::Soundness::top_fits))]
fn top_stage_fits(st: Rebuilder) -> bool
    requires { Sized st }
    ensures { result ≡ top_fits st }
{
    if st.waiting == 0 {
        return st.stage == Stage::Hashing;
    }
    stage_fits(st.settings, top(st), st.stage)
}

// Whether the waiting pieces, the stage and the used rows are such as a run can hold.
#[tactic(auto, unfolding(crate::specs::Soundness::stack_sound))]
fn stack_is_sound(st: Rebuilder) -> bool
    requires { Sized st }
    ensures { result ≡ stack_sound st }
{
    top_stage_fits(st) && in_order(st) && rows_fit(st)
}

// The bytes of the answer with all n bits.
fn full_size(n: u32) -> u32
    requires { n ≤ max_bits }
    ensures { result ≡ full n }
{
    1 + n.div_ceil(8)
}

// The most bytes that one answer has.
fn answer_bound(n: u32) -> u32
    requires { n ≤ max_bits }
    ensures { result ≡ longest_answer n }
{
    full_size(n).max(LONGEST_NUMBERS)
}

// The most bytes that can be counted while pieces are worked on.
fn most_counted(st: Rebuilder) -> u32
    requires { Sized st }
    ensures { result ≡ most_counted st }
{
    if st.waiting == 0 {
        return st.settings.ceiling + full_size(st.n) + answer_bound(st.n);
    }
    st.settings.ceiling
}

// For a state that awaits the opening's answer. Field by field: to compare with a state of zeros would be to make one of 564 bytes.
#[tactic(auto, unfolding(crate::specs::Soundness::opening_sound))]
fn opening_is_sound(st: Rebuilder) -> bool
    ensures { result ≡ opening_sound st }
{
    st.n == 0
        && st.answered == 0
        && st.counted == 0
        && st.rows == 0
        && st.stage == Stage::Hashing
        && st.waiting == 0
}

// For a state that works on pieces, or is finished.
#[tactic(auto, unfolding(crate::specs::Soundness::pieces_sound))]
fn pieces_are_sound(st: Rebuilder) -> bool
    requires { Sized st }
    ensures { result ≡ pieces_sound st }
{
    stack_is_sound(st) && 1 <= st.answered && asks_fit(st) && st.counted <= most_counted(st)
}

// For a state that awaits all bits.
#[tactic(auto, unfolding(crate::specs::Soundness::whole_sound))]
fn whole_is_sound(st: Rebuilder) -> bool
    requires { Sized st }
    ensures { result ≡ whole_sound st }
{
    stack_is_sound(st)
        && 1 <= st.answered
        && last_ask_fits(st)
        && 0 < st.waiting
        && st.settings.ceiling < st.counted
        && st.counted <= st.settings.ceiling + answer_bound(st.n)
}

// By phase.
fn phase_is_sound(st: Rebuilder) -> bool
    requires { Sized st }
    ensures { result ≡ phase_sound st }
{
    match st.phase {
        Phase::AtOpening => opening_is_sound(st),
        Phase::AtPieces => pieces_are_sound(st),
        Phase::AtWhole => whole_is_sound(st),
    }
}

// Whether a run can hold the rebuilder's state. The limits come first: the later tests count on them.
#[tactic(auto, unfolding(crate::specs::Soundness::sound))]
pub fn rebuilder_is_sound(st: Rebuilder) -> bool
    ensures { result ≡ sound st }
{
    let is_limited = st.settings.is_within_limits()
        && st.ybits <= MOST_BITS
        && st.n <= MOST_BITS
        && st.waiting <= 32;
    is_limited && blank_behind(st) && phase_is_sound(st)
}
