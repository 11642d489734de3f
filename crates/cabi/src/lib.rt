// The C interface: what a host calls, on numbers and byte slices, and for a list on a slice of 32-bit numbers. include/lunetteorris.h
// declares it, docs/LAYOUT.md has the layouts. A result is value * 256 + refusal (specs/Packing.antt).
// A state stands in the first bytes of its slice, which may have more: those are neither read nor written. Bytes that no state has get 3
// in the calls; too few for a state get 9 in the two functions that make one.
#![tactic(auto)]

ghost use Rattle.std.specs.Prelude.{◌≡◌, ◌++◌, ◌*◌, ◌≤◌, length, drop};
ghost use Rattle.codes.specs.Entries.{syndrome_call, hash_call, repair_outcome};
ghost use Rattle.codes.specs.Listing.{list_outcome};
ghost use Rattle.codes.specs.Markers.{build_outcome, read_outcome};
ghost use Rattle.strings.specs.Results.{mapped};
ghost use Rattle.ends.specs.RebuilderCall.{rows_needed};
ghost use Rattle.ends.specs.AnchorSearch.{anchor_search};
ghost use Rattle.cabi.specs.Packing.{packed, value_unit, done_number, place_number};
ghost use Rattle.cabi.specs.Calls.{holder_made, holder_bytes_outcome, start_bytes_outcome, rebuilder_bytes_outcome};
ghost use Rattle.layout.specs.Layout.{rebuilder_size, rebuilder_bytes};
ghost use Rattle.layout.specs.Sheet.{row_size, sheet_bytes_after};

use ends::{Rebuilder, SheetChange};
use layout::{HOLDER_BYTES, REBUILDER_BYTES, ROW_BYTES};
use strings::{Refusal, Settings};

mod packing;

// The syndrome of a string.
#[unsafe(no_mangle)]
pub extern "C" fn lo_syndrome(s: &[u8], bits: usize) -> u64
    ensures { result ≡ packed (syndrome_call s.now bits) }
{
    packing::pack(codes::syndrome(s, bits))
}

// The hash of a string.
#[unsafe(no_mangle)]
pub extern "C" fn lo_hash(s: &[u8], bits: usize, h: u32, key: u32) -> u64
    ensures { result ≡ packed (hash_call s.now bits h key) }
{
    packing::pack(codes::hash(s, bits, h, key))
}

// The repair of a string to one of n bits with the syndrome a: 1 where it is done, 0 where there is none.
#[unsafe(no_mangle)]
pub extern "C" fn lo_repair(s: &[u8], bits: usize, n: usize, a: usize, out: &mut [u8]) -> u64
    ensures value { result ≡ packed (mapped done_number (repair_outcome s.now bits n a out.old).answer) }
    ensures out_after { out.new ≡ (repair_outcome s.now bits n a out.old).buffer }
{
    packing::pack(codes::repair(s, bits, n, a, out))
}

// Every string of n bits and syndrome a as a number with the first bit highest, rising, in the entries of `out`: their count.
#[unsafe(no_mangle)]
pub extern "C" fn lo_list(n: usize, a: usize, out: &mut [u32]) -> u64
    ensures value { result ≡ packed (list_outcome n a out.old).answer }
    ensures out_after { out.new ≡ (list_outcome n a out.old).buffer }
{
    packing::pack(codes::list_syndrome(n, a, out))
}

// The word of n bits and syndrome a for a message: 1 where it is built.
#[unsafe(no_mangle)]
pub extern "C" fn lo_marker_build(
    message: &[u8],
    bits: usize,
    n: usize,
    a: usize,
    out: &mut [u8],
) -> u64
    ensures value { result ≡ packed (mapped done_number (build_outcome message.now bits n a out.old).answer) }
    ensures out_after { out.new ≡ (build_outcome message.now bits n a out.old).buffer }
{
    packing::pack(codes::build_marker(message, bits, n, a, out))
}

// The message of the word of n bits and syndrome a for which a string is received: 1 where there is one, 0 where there is none.
#[unsafe(no_mangle)]
pub extern "C" fn lo_marker_read(
    received: &[u8],
    bits: usize,
    n: usize,
    a: usize,
    out: &mut [u8],
) -> u64
    ensures value { result ≡ packed (mapped done_number (read_outcome received.now bits n a out.old).answer) }
    ensures out_after { out.new ≡ (read_outcome received.now bits n a out.old).buffer }
{
    packing::pack(codes::read_marker(received, bits, n, a, out))
}

// The place of an anchor plus 1, or 0 where there is none.
#[unsafe(no_mangle)]
pub extern "C" fn lo_anchor(
    y: &[u8],
    bits: usize,
    start: usize,
    q: usize,
    p: usize,
    s: usize,
    m: u32,
    k: u32,
    a: &[u8],
) -> u64
    ensures { result ≡ packed (mapped place_number (anchor_search y.now bits start q p s m k a.now)) }
{
    packing::pack(ends::find_anchor(y, bits, start, q, p, s, m, k, a))
}

// The state of a holder that has answered nothing.
#[unsafe(no_mangle)]
pub extern "C" fn lo_holder_fresh(state: &mut [u8]) -> u64
    ensures { record { result = result; state = state.new } ≡ holder_made state.old }
{
    if state.len() < HOLDER_BYTES {
        return packing::pack_refusal(Refusal::BufferTooShort);
    }
    layout::write_holder(state, ends::fresh_holder());
    0
}

// The holder's call: the reply's length.
#[unsafe(no_mangle)]
pub extern "C" fn lo_holder_answer(
    state: &mut [u8],
    x: &[u8],
    bits: usize,
    msg: &[u8],
    reply: &mut [u8],
) -> u64
    ensures { record { result = result; state = state.new; reply = reply.new }
        ≡ holder_bytes_outcome state.old x.now bits msg.now reply.old }
{
    if !strings::keeps_string_rule(x, bits) {
        return packing::pack_refusal(Refusal::BadString);
    }
    if !layout::holds_holder(state) {
        return packing::pack_refusal(Refusal::OutOfTurn);
    }
    let st = layout::read_holder(state);
    let out = ends::holder_call(st, x, bits, msg, reply);
    match out.answer {
        Err(e) => packing::pack_refusal(e),
        Ok(size) => {
            layout::write_holder(state, out.state);
            packing::pack_value(size)
        }
    }
}

// The rebuilder's start: the first question's length.
#[unsafe(no_mangle)]
pub extern "C" fn lo_rebuilder_start(
    m: u32,
    h: u32,
    k: u32,
    key: u32,
    ceiling: u32,
    y: &[u8],
    bits: usize,
    state: &mut [u8],
    question: &mut [u8],
) -> u64
    ensures { record { result = result; state = state.new; question = question.new }
        ≡ start_bytes_outcome (record { m = m; h = h; k = k; key = key; ceiling = ceiling }) y.now bits state.old question.old }
{
    let s = Settings::new(m, h, k, key, ceiling);
    if !s.is_within_limits() {
        return packing::pack_refusal(Refusal::BadSetting);
    }
    if !strings::keeps_string_rule(y, bits) {
        return packing::pack_refusal(Refusal::BadString);
    }
    let capacity = state.len();
    if capacity < REBUILDER_BYTES {
        return packing::pack_refusal(Refusal::BufferTooShort);
    }
    match ends::rebuilder_start(s, y, bits, question) {
        Err(e) => packing::pack_refusal(e),
        Ok(started) => {
            layout::write_rebuilder(state, started.state);
            packing::pack_value(started.size)
        }
    }
}

// What a taken call of the rebuilder leaves in state and sheet, and its result for a question of that length. That both are long enough
// stays a clause: an array of the state's size would leave the bytes behind it out of what is promised, and the sheet has no fixed size.
fn keep(state: &mut [u8], sheet: &mut [u8], st: Rebuilder, change: SheetChange, size: usize) -> u64
    requires rebuilder_size_in_bounds { rebuilder_size ≤ length state.old }
    requires change_in_bounds { row_size * rows_needed change ≤ length sheet.old }
    requires size_bound { size ≤ 16 }
    ensures value { result ≡ size * value_unit }
    ensures state_after { state.new ≡ rebuilder_bytes st ++ drop rebuilder_size state.old }
    ensures sheet_after { sheet.new ≡ sheet_bytes_after sheet.old change }
{
    layout::write_rebuilder(state, st);
    layout::apply_change(sheet, change);
    packing::pack_value(size)
}

// The rebuilder's call: the next question's length, 0 at the finish.
#[tactic(auto, using(crate::proofs::CallRules::call_refusals))]
#[unsafe(no_mangle)]
pub extern "C" fn lo_rebuilder_call(
    state: &mut [u8],
    y: &[u8],
    bits: usize,
    string: &mut [u8],
    sheet: &mut [u8],
    msg: &[u8],
    question: &mut [u8],
) -> u64
    ensures { record {
      result = result;
      state = state.new;
      string = string.new;
      sheet = sheet.new;
      question = question.new;
    }
        ≡ rebuilder_bytes_outcome state.old y.now bits msg.now string.old sheet.old question.old }
{
    if !strings::keeps_string_rule(y, bits) {
        return packing::pack_refusal(Refusal::BadString);
    }
    if !layout::holds_rebuilder(state) {
        return packing::pack_refusal(Refusal::OutOfTurn);
    }
    let st = layout::read_rebuilder(state);
    let rows = sheet.len() / ROW_BYTES;
    let out = ends::rebuilder_call(st, y, bits, msg, rows, string, question);
    match out.answer {
        Err(e) => packing::pack_refusal(e),
        Ok(next) => keep(state, sheet, out.state, out.sheet, next.unwrap_or(0)),
    }
}
