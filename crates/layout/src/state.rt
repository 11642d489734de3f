// The bytes of a holder's and of a rebuilder's state (docs/LAYOUT.md). An entry point tests them before it reads a state: else bytes that
// no state has would be read as one. That a slice has room for a state stays a clause: as an array of that size it would leave the bytes
// behind the state out of what is promised.
ghost use Rattle.std.specs.Prelude.{◌≡◌, [], ◌++◌, ◌+◌, ◌≤◌, length, drop};
ghost use Rattle.std.proofs.lemmas.List.Edits.{sets};
ghost use Rattle.layout.specs.Layout.{holder_size, holder_bytes, holder_of, is_holder, piece_bytes, piece_at, pieces_at, pieces_bytes, rebuilder_size, head_bytes, rebuilder_bytes, fields_of, rebuilder_of, is_rebuilder};

use crate::cases::{phase_number, phase_of, stage_number, stage_of};
use crate::numbers::{read_u32, write_words};
use crate::{HOLDER_BYTES, REBUILDER_BYTES};
use ends::{Holder, Piece, Rebuilder};
use std::array;
use strings::Settings;

// Whether the first bytes are those of some holder's state.
#[tactic(auto, unfolding(crate::specs::Layout::is_holder))]
pub fn holds_holder(s: &[u8]) -> bool
    ensures { result ≡ is_holder s.now }
{
    s.len() >= HOLDER_BYTES && read_u32(s, 0) <= 1
}

// The holder's state that the first 20 bytes say.
#[tactic(auto, unfolding(crate::specs::Layout::holder_of))]
pub fn read_holder(s: &[u8]) -> Holder
    requires { holder_size ≤ length s.now }
    ensures { result ≡ holder_of s.now }
{
    Holder {
        opened: read_u32(s, 0) != 0,
        bits: read_u32(s, 4),
        h: read_u32(s, 8),
        key: read_u32(s, 12),
        answers: read_u32(s, 16),
    }
}

// The first 20 bytes become those of a holder's state.
pub fn write_holder(s: &mut [u8], st: Holder)
    requires { holder_size ≤ length s.old }
    ensures { s.new ≡ holder_bytes st ++ drop holder_size s.old }
{
    let words = [u32::from(st.opened), st.bits, st.h, st.key, st.answers];
    write_words(s, 0, &words);
}

// The piece at offset `at`.
#[tactic(auto, unfolding(crate::specs::Layout::piece_at))]
fn read_piece(s: &[u8], at: usize) -> Piece
    requires { at + 16 ≤ length s.now }
    ensures { result ≡ piece_at s.now at }
{
    Piece {
        x: read_u32(s, at),
        p: read_u32(s, at + 4),
        y: read_u32(s, at + 8),
        q: read_u32(s, at + 12),
    }
}

// A piece is written at offset `at`.
#[tactic(auto, unfolding(crate::specs::Layout::piece_bytes))]
fn write_piece(s: &mut [u8], at: usize, pc: Piece)
    requires { at + 16 ≤ length s.old }
    ensures { s.new ≡ sets s.old at (piece_bytes pc) }
{
    write_words(s, at, &[pc.x, pc.p, pc.y, pc.q]);
}

// The settings in a rebuilder's state.
#[tactic(auto, unfolding(crate::specs::Layout::fields_of))]
fn read_settings(s: &[u8]) -> Settings
    requires { 20 ≤ length s.now }
    ensures { result ≡ (fields_of s.now []).settings }
{
    Settings {
        m: read_u32(s, 0),
        h: read_u32(s, 4),
        k: read_u32(s, 8),
        key: read_u32(s, 12),
        ceiling: read_u32(s, 16),
    }
}

// Whether the first bytes are those of some rebuilder's state.
#[tactic(auto, unfolding(crate::specs::Layout::is_rebuilder))]
pub fn holds_rebuilder(s: &[u8]) -> bool
    ensures { result ≡ is_rebuilder s.now }
{
    s.len() >= REBUILDER_BYTES && read_u32(s, 24) <= 2 && read_u32(s, 44) <= 7
}

// The pieces in a rebuilder's state.
fn read_pieces(s: &[u8]) -> [Piece; 32]
    requires { rebuilder_size ≤ length s.now }
    ensures { result ≡ pieces_at s.now 52 32 }
{
    array::from_fn(|i| read_piece(s, 52 + 16 * i))
}

// The rebuilder's state that the first 564 bytes say.
#[tactic(auto, unfolding(crate::specs::Layout::fields_of, crate::specs::Layout::rebuilder_of))]
pub fn read_rebuilder(s: &[u8]) -> Rebuilder
    requires { rebuilder_size ≤ length s.now }
    ensures { result ≡ rebuilder_of s.now }
{
    Rebuilder {
        settings: read_settings(s),
        ybits: read_u32(s, 20),
        phase: phase_of(read_u32(s, 24)),
        n: read_u32(s, 28),
        answered: read_u32(s, 32),
        counted: read_u32(s, 36),
        rows: read_u32(s, 40),
        stage: stage_of(read_u32(s, 44)),
        waiting: read_u32(s, 48),
        pieces: read_pieces(s),
    }
}

// A rebuilder's state but for its pieces is written at the front.
#[tactic(auto, unfolding(crate::specs::Layout::head_bytes))]
fn write_fields(s: &mut [u8], st: Rebuilder)
    requires { 52 ≤ length s.old }
    ensures { s.new ≡ sets s.old 0 (head_bytes st) }
{
    let set = st.settings;
    write_words(
        s,
        0,
        &[
            set.m,
            set.h,
            set.k,
            set.key,
            set.ceiling,
            st.ybits,
            phase_number(st.phase),
            st.n,
            st.answered,
            st.counted,
            st.rows,
            stage_number(st.stage),
            st.waiting,
        ],
    );
}

// The pieces of a state are written from offset 52 on. By index: an iterator borrows the state, which slows each call by 50 ns.
#[tactic(auto, unfolding(crate::specs::Layout::pieces_bytes))]
fn write_pieces(s: &mut [u8], st: Rebuilder)
    requires { rebuilder_size ≤ length s.old }
    ensures { s.new ≡ sets s.old 52 (pieces_bytes st.pieces 0 32) }
{
    for i in 0..32 {
        write_piece(s, 52 + 16 * i, st.pieces[i]);
    }
}

// The first 564 bytes become those of a rebuilder's state.
pub fn write_rebuilder(s: &mut [u8], st: Rebuilder)
    requires { rebuilder_size ≤ length s.old }
    ensures { s.new ≡ rebuilder_bytes st ++ drop rebuilder_size s.old }
{
    write_fields(s, st);
    write_pieces(s, st);
}
