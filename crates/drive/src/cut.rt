// The calls of a reader of pieces (K5): a string of bytes with the lengths of the pieces that it is cut into, states made of a line's numbers, and answers as numbers.
use crate::{parts, states};
use drive_lines::kinds::{PIECES, READER};
use drive_lines::values;
use pieces::LineState;
use stream::{Out, say};

// The lengths of the pieces, and the numbers behind them, which are the bytes; none where there are not so many numbers.
fn cut_of(ns: &[u64]) -> Option<(&[u64], &[u64])> {
    let count = values::number(ns, PIECES) as usize;
    ns.get(PIECES + 1..)?.split_at_checked(count)
}

// Whether there is a piece, and the pieces are together the bytes. Lengths that 64 bits do not hold are none's.
pub fn whole(ns: &[u64]) -> bool {
    let Some((lengths, bytes)) = cut_of(ns) else {
        return false;
    };
    let mut sum: u64 = 0;
    for n in lengths {
        sum = sum.saturating_add(*n);
    }
    !lengths.is_empty() && sum == bytes.len() as u64 && values::are_bytes(bytes, 0)
}

fn state_of(ns: &[u64]) -> LineState {
    LineState {
        left: values::array_of(ns, READER + 1),
        count: values::number(ns, READER) as usize,
        reader: states::reader_of(ns),
    }
}

fn say_state(out: &mut Out, s: LineState) {
    parts::reader_state(out, s.reader);
    say!(out, " {}", s.count);
    words::say_bytes(out, &s.left);
}

pub fn fresh(out: &mut Out, ns: &[u64]) {
    let s = states::setup_of(ns);
    let a = LineState::fresh(s.n, s.x, s.y, s.pressure, s.major, s.minor);
    say!(out, "{}", a.verdict);
    say_state(out, a.state);
}

// The answer to each piece; between two of them stands a stroke.
pub fn take(out: &mut Out, ns: &[u64]) {
    let Some((lengths, bytes)) = cut_of(ns) else {
        return;
    };
    let bytes = values::bytes_of(bytes, 0);
    let mut rest = bytes.as_slice();
    let mut state = state_of(ns);
    for (i, n) in lengths.iter().enumerate() {
        if i > 0 {
            say!(out, " / ");
        }
        let (piece, after) = rest.split_at(rest.len().min(*n as usize));
        let a = pieces::take(state, piece);
        state = a.state;
        rest = after;
        say!(out, "{}", a.verdict);
        say_state(out, state);
        parts::counts(out, a.counts);
    }
}

pub fn load(out: &mut Out, ns: &[u64]) {
    let current = states::slot_number(ns, PIECES);
    let image = values::frame_of(ns, PIECES + 1);
    let a = pieces::load(state_of(ns), image.as_slice(), current);
    say!(out, "{}", a.verdict);
    say_state(out, a.state);
}

pub fn ask(out: &mut Out, ns: &[u64]) {
    let slot = states::slot_number(ns, PIECES);
    parts::slot_answer(out, pieces::ask(state_of(ns), slot));
}
