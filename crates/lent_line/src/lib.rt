// The line's reader over state bytes that a host lends and that are changed in place: line_fresh, take, line_load and line_ask. Each answers document 01's number of a refusal, 0 for none.
#![tactic(auto)]

ghost use Rattle.std.specs.Prelude.{◌≡◌, ◌++◌, ◌<◌, ◌^◌, length, take as first, drop};
ghost use Rattle.model.specs.Pieces.{places};
ghost use Rattle.model.specs.Records.{lay};
ghost use Rattle.lent_reader.specs.Layout.{head_bytes, body_bytes};
ghost use Rattle.lent_line.specs.Layout.{line_kind, left_at, line_size, formed as is_formed, unpacked as state_in, tail_bytes};
ghost use Rattle.lent_line.specs.Seen.{FreshIn, TakeIn, LoadIn, AskIn};

use common::SlotNumber;
use lent_reader::{ASK_NUMBERS, REFUSED, RUN_NUMBERS, SETUP_NUMBERS};
use pieces::{LineState, PLACES};

pub const KIND: u8 = 3;

// Where each part stands that a reader's state has not: how many bytes are held, their places, and the byte behind them.
const HELD_AT: usize = 3;

const LEFT_AT: usize = 1568;

const SPARE_AT: usize = 1575;

pub const SIZE: usize = 1576;

fn formed(b: &[u8]) -> bool
    ensures { result ≡ is_formed b.now }
{
    b.len() == SIZE && lent_reader::begun(b, KIND) && b[SPARE_AT] == 0
}

fn left_in(b: &[u8]) -> [u8; PLACES]
    requires { length b.now ≡ line_size }
    ensures { result ≡ first places (drop left_at b.now) }
{
    [
        b[LEFT_AT],
        b[LEFT_AT + 1],
        b[LEFT_AT + 2],
        b[LEFT_AT + 3],
        b[LEFT_AT + 4],
        b[LEFT_AT + 5],
        b[LEFT_AT + 6],
    ]
}

fn unpacked(b: &[u8]) -> LineState
    requires { length b.now ≡ line_size }
    ensures { result ≡ state_in b.now }
{
    LineState {
        left: left_in(b),
        count: b[HELD_AT] as usize,
        reader: lent_reader::unpacked(b),
    }
}

fn put_left(b: &mut [u8], left: [u8; PLACES])
    requires { length b.old ≡ line_size }
    ensures { b.new ≡ lay left_at (tail_bytes left) b.old }
{
    b[LEFT_AT] = left[0];
    b[LEFT_AT + 1] = left[1];
    b[LEFT_AT + 2] = left[2];
    b[LEFT_AT + 3] = left[3];
    b[LEFT_AT + 4] = left[4];
    b[LEFT_AT + 5] = left[5];
    b[LEFT_AT + 6] = left[6];
    b[SPARE_AT] = 0;
}

fn put_state(b: &mut [u8], s: LineState)
    requires { (length b.old ≡ line_size) × (s.count < 256) × (s.reader.setup.n < 2 ^ 32) × (s.reader.current.0 < 2 ^ 32) }
    ensures { b.new ≡ lay left_at (tail_bytes s.left) (lay 0 (head_bytes line_kind s.reader.mode s.count ++ body_bytes s.reader) b.old) }
{
    lent_reader::put_state(b, KIND, s.count as u8, s.reader);
    put_left(b, s.left);
}

// The fresh state of a panel, for any six numbers: refusals 1, then 2 where the bytes are not as many as a state has.
pub fn line_fresh(state: &mut [u8], setup: &[u32; SETUP_NUMBERS]) -> u32
    ensures { FreshIn state.old setup.now result state.new }
{
    let made = LineState::fresh(
        lent_reader::wide(setup[0]),
        setup[1],
        setup[2],
        setup[3],
        setup[4],
        setup[5],
    );
    let number = made.verdict.number() as u32;
    if number != 0 {
        return number;
    }
    if state.len() != SIZE {
        return REFUSED;
    }
    put_state(state, made.state);
    0
}

// Takes a piece, any bytes, none too: refusal 2.
pub fn take(state: &mut [u8], piece: &[u8], answer: &mut [u64; RUN_NUMBERS]) -> u32
    ensures { TakeIn state.old piece.now result state.new answer.new }
{
    if !formed(state) {
        *answer = [0; RUN_NUMBERS];
        return REFUSED;
    }
    let taken = pieces::take(unpacked(state), piece);
    lent_reader::put_counts(answer, taken.counts);
    let number = taken.verdict.number() as u32;
    if number != 0 {
        return number;
    }
    put_state(state, taken.state);
    0
}

// Loads a full table, any numbers, and keeps the left-over bytes: refusals 2, 7, 8.
pub fn line_load(state: &mut [u8], image: &[i32], current: usize) -> u32
    ensures { LoadIn state.old image.now current result state.new }
{
    if !formed(state) {
        return REFUSED;
    }
    let loaded = pieces::load(unpacked(state), image, SlotNumber(current));
    let number = loaded.verdict.number() as u32;
    if number != 0 {
        return number;
    }
    put_state(state, loaded.state);
    0
}

// What the reader answers of a slot, any number; left-over bytes are no event yet: refusal 2, then no such slot, then the mode.
pub fn line_ask(state: &[u8], slot: usize, answer: &mut [i32; ASK_NUMBERS]) -> u32
    ensures { AskIn state.now slot result answer.new }
{
    if !formed(state) {
        *answer = [0; ASK_NUMBERS];
        return REFUSED;
    }
    lent_reader::put_answer(answer, pieces::ask(unpacked(state), SlotNumber(slot)))
}
