// Bytes as the line delivers them (K5): a reader that takes pieces of any size and carries the bytes of a record that is cut from one to the next.
// Its calls stand on the reader's.
#![tactic(auto)]

ghost use Rattle.std.specs.Prelude.{◌≡◌, true, ◌++◌, ◌+◌, ◌-◌, ◌≤◌, ◌<◌, ◌^◌, length, take as first, drop};
ghost use Rattle.std.proofs.Math.Seq.{paste};
ghost use Rattle.model.specs.Panel.{base};
ghost use Rattle.model.specs.Reader.{plus};
ghost use Rattle.model.specs.States.{reader_good};
ghost use Rattle.model.specs.Pod.{zeros};
ghost use Rattle.model.specs.Pieces.{left_bytes, places, placed, left_good, total, fresh_line_call, read_string, take_call, line_load_call, line_ask_call};
ghost use Rattle.common.specs.Seen.{counts_of, counts_from};
ghost use Rattle.panel.specs.Seen.{setup_of};
ghost use Rattle.reader.specs.States.{seen as reader_seen, given};
ghost use Rattle.reader.specs.Seen.{AnswersAs};
ghost use Rattle.pieces.specs.Seen.{seen, fresh_from, taken_from, took_from, unread_from, loaded_from};

use common::{Counts, SlotNumber, Verdict};
use reader::{ReaderState, RunAnswer, SlotAnswer};

// One fewer than a record has bytes: its last byte is never held.
pub const PLACES: usize = records::LENGTH - 1;

// The places from `count` on are unused, and 0 in a well-formed state.
// The reader stands last: with the bytes behind it, its tables are copied twice more on their way into an answer.
#[derive(Clone, Copy)]
pub struct LineState {
    pub left: [u8; PLACES],
    pub count: usize,
    pub reader: ReaderState,
}

#[derive(Clone, Copy)]
pub struct FreshAnswer {
    pub verdict: Verdict,
    pub state: LineState,
}

#[derive(Clone, Copy)]
pub struct TakeAnswer {
    pub verdict: Verdict,
    pub state: LineState,
    pub counts: Counts,
}

#[derive(Clone, Copy)]
pub struct LoadAnswer {
    pub verdict: Verdict,
    pub state: LineState,
}

impl LineState {
    // The fresh state of a panel, for any six numbers: refusal 1.
    pub fn fresh(n: usize, x: u32, y: u32, pressure: u32, major: u32, minor: u32) -> FreshAnswer
        ensures { result ≡ fresh_from (fresh_line_call base (setup_of (given n x y pressure major minor))) }
    {
        let made = ReaderState::fresh(n, x, y, pressure, major, minor);
        FreshAnswer {
            verdict: made.verdict,
            state: LineState {
                left: [0; PLACES],
                count: 0,
                reader: made.state,
            },
        }
    }
}

#[tactic(auto, using(model::proofs::Places::clear_from))]
fn unused_clear(left: [u8; PLACES], count: usize) -> bool
    ensures { result ≡ zeros (drop count left) }
{
    for i in count..PLACES {
        if left[i] != 0 {
            return false;
        }
    }
    true
}

fn left_ok(left: [u8; PLACES], count: usize) -> bool
    ensures { result ≡ left_good left count }
{
    count <= PLACES && unused_clear(left, count)
}

// Bytes laid over others from a place on; all others stay.
fn lay(to: &mut [u8], at: usize, from: &[u8])
    requires { at + length from.now ≤ length to.old }
    ensures { to.new ≡ paste to.old at from.now (length from.now) }
{
    to[at..at + from.len()].copy_from_slice(from);
}

// The record that was cut: the bytes held, and those that it lacked.
fn first_record(left: [u8; PLACES], count: usize, piece: &[u8]) -> [u8; records::LENGTH]
    requires { (count ≤ places) × (8 ≤ count + length piece.now) }
    ensures { result ≡ first count left ++ first (8 - count) piece.now }
{
    let mut r = [0u8; records::LENGTH];
    lay(&mut r, 0, &left[..count]);
    lay(&mut r, count, &piece[..records::LENGTH - count]);
    r
}

// The bytes after the last whole record, in their places.
fn left_of(rest: &[u8]) -> [u8; PLACES]
    ensures { result ≡ placed (left_bytes rest.now) }
{
    let mut left = [0u8; PLACES];
    let whole = records::LENGTH * (rest.len() / records::LENGTH);
    lay(&mut left, 0, &rest[whole..]);
    left
}

// The bytes of a piece after those held, where no record is whole yet.
fn longer(left: [u8; PLACES], count: usize, piece: &[u8]) -> [u8; PLACES]
    requires { (left_good left count ≡ true) × (count + length piece.now ≤ places) }
    ensures { result ≡ placed (first count left ++ piece.now) }
{
    let mut all = left;
    lay(&mut all, count, piece);
    all
}

fn added(a: Counts, b: Counts) -> Counts
    requires { total (counts_of a) + total (counts_of b) < 2 ^ 64 }
    ensures { result ≡ counts_from (plus (counts_of a) (counts_of b)) }
{
    Counts {
        shown: a.shown + b.shown,
        types: a.types + b.types,
        codes: a.codes + b.codes,
        bad: a.bad + b.bad,
        ignored: a.ignored + b.ignored,
        first: a.first.or(b.first),
    }
}

// The answer where no record is read.
#[tactic(auto, using(common::proofs::Back::none_counted))]
fn unread(verdict: Verdict, state: LineState) -> TakeAnswer
    ensures { result ≡ unread_from verdict state }
{
    TakeAnswer {
        verdict,
        state,
        counts: Counts::default(),
    }
}

// The answer after a run over the whole records of `rest`, where `before` is counted already.
// It takes the run's answer whole: taken apart by the caller, its tables are copied twice more.
fn took(before: Counts, ran: RunAnswer, rest: &[u8]) -> TakeAnswer
    requires { total (counts_of before) + total (counts_of ran.counts) < 2 ^ 64 }
    ensures { result ≡ took_from before ran rest.now }
{
    TakeAnswer {
        verdict: Verdict::Accepted,
        state: LineState {
            left: left_of(rest),
            count: rest.len() % records::LENGTH,
            reader: ran.state,
        },
        counts: added(before, ran.counts),
    }
}

// A piece that ends the record which was cut: that one is read by itself, and the others where they lie.
fn take_cut(reader: ReaderState, left: [u8; PLACES], count: usize, piece: &[u8]) -> TakeAnswer
    requires { (reader_good base (reader_seen reader) ≡ true) × (count ≤ places) × (8 ≤ count + length piece.now) }
    ensures { result ≡ taken_from (read_string base (reader_seen reader) (first count left ++ piece.now)) }
{
    let record = first_record(left, count, piece);
    let one = reader::run_accepted(reader, &record);
    let rest = &piece[records::LENGTH - count..];
    took(one.counts, reader::run_accepted(one.state, rest), rest)
}

// Takes a piece, any bytes, none too: refusal 2.
pub fn take(state: LineState, piece: &[u8]) -> TakeAnswer
    ensures { result ≡ taken_from (take_call base (seen state) piece.now) }
{
    let left = state.left;
    let count = state.count;
    let reader = state.reader;
    if !left_ok(left, count) {
        return unread(Verdict::State, state);
    }
    if !reader::state_ok(reader) {
        return unread(Verdict::State, state);
    }
    if piece.len() < records::LENGTH - count {
        let next = LineState {
            left: longer(left, count, piece),
            count: count + piece.len(),
            reader,
        };
        return unread(Verdict::Accepted, next);
    }
    if count == 0 {
        return took(
            Counts::default(),
            reader::run_accepted(reader, piece),
            piece,
        );
    }
    take_cut(reader, left, count, piece)
}

// Loads a full table, any numbers, and keeps the left-over bytes: refusals 2, 7, 8.
pub fn load(state: LineState, image: &[i32], current: SlotNumber) -> LoadAnswer
    ensures { result ≡ loaded_from (line_load_call base (seen state) image.now current.0) }
{
    if !left_ok(state.left, state.count) {
        return LoadAnswer {
            verdict: Verdict::State,
            state,
        };
    }
    let loaded = reader::load(state.reader, image, current);
    LoadAnswer {
        verdict: loaded.verdict,
        state: LineState {
            reader: loaded.state,
            ..state
        },
    }
}

// What the reader answers of a slot, any number; left-over bytes are no event yet: refusal 2, then no such slot, then the mode.
pub fn ask(state: LineState, slot: SlotNumber) -> SlotAnswer
    ensures { AnswersAs (line_ask_call base (seen state) slot.0) result }
{
    if left_ok(state.left, state.count) {
        reader::ask(state.reader, slot)
    } else {
        SlotAnswer::Refused(Verdict::State)
    }
}
