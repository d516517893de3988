// Explains event records one by one, for a class and a service desk. Standard input is what show_table reads; standard output has a line for each record, with what the reader did with it and why, and at the end the mode and the counts.
#![tactic(auto)]

mod deeds;
mod lines;
mod names;
mod sums;
mod why;

ghost use Rattle.std.specs.Prelude.{◌≤◌};

use common::Verdict;
use header::Bad;
use pieces::LineState;
use reader::ReaderState;
use records::{Event, LENGTH};
use std::io::Error;
use stream::{Ended, Out, say, warn};
use sums::Sums;

// The record that the piece ends: the bytes held come first.
fn event_of(line: &LineState, piece: &[u8]) -> Event {
    let mut record = [0u8; LENGTH];
    let bytes = line.left.iter().take(line.count).chain(piece);
    for (to, from) in record.iter_mut().zip(bytes) {
        *to = *from;
    }
    records::record_at(&record, 0)
}

// A piece that ends one record. What the reader answers decides what is said. It refuses no state that came from fresh, so there is no verdict to look at.
fn explain_one(out: &mut Out, line: &mut LineState, sums: &mut Sums, piece: &[u8]) {
    let event = event_of(line, piece);
    let before = line.reader;
    let a = pieces::take(*line, piece);
    *line = a.state;
    let read = deeds::read_as(event, before, line.reader, a.counts);
    sums.add(&read);
    say!(out, "{} ", sums.records);
    lines::say_line(out, &read);
}

// How many bytes the record lacks whose first ones are held.
fn lacking(line: &LineState) -> usize
    ensures { (1 ≤ result) × (result ≤ 8) }
{
    LENGTH.saturating_sub(line.count).max(1)
}

// The records that the bytes end, one by one; a piece that ends none is held.
fn explain_all(out: &mut Out, line: &mut LineState, sums: &mut Sums, bytes: &[u8]) {
    let mut rest = bytes;
    while !rest.is_empty() {
        let lacks = lacking(line);
        let (piece, others) = rest.split_at(lacks.min(rest.len()));
        if piece.len() < lacks {
            *line = pieces::take(*line, piece).state;
        } else {
            explain_one(out, line, sums, piece);
        }
        rest = others;
    }
}

// Nobody knows what was lost with a failed read: it counts as SYN_DROPPED. That is no record that came, so it has no place and is in no count.
fn lose(out: &mut Out, state: ReaderState, sums: Sums, why: Error) {
    out.read_failed(why);
    warn!(
        out,
        "{}: input was lost, which counts as SYN_DROPPED\n",
        out.name()
    );
    let loss = Event {
        kind: records::SYN,
        code: records::DROPPED,
        value: 0,
    };
    let a = reader::read_one(state, loss);
    let read = deeds::read_as(loss, state, a.state, a.counts);
    say!(out, "input lost, as ");
    lines::say_line(out, &read);
    sums::say_end(out, &read.after, sums);
}

fn refuse_rest(out: &mut Out, rest: usize) {
    out.say_refused(Verdict::Ragged);
    warn!(
        out,
        "{}: the last record is cut: {rest} of 8 bytes\n",
        out.name()
    );
}

// What came is explained before more is waited for.
fn explain(out: &mut Out, begun: LineState) {
    let mut buf = io::large_buffer();
    let mut line = begun;
    let mut sums = Sums::default();
    let ended = out.take_input(&mut buf, |out, bytes| {
        explain_all(out, &mut line, &mut sums, bytes);
        bytes.len()
    });
    match ended {
        Ended::WriteFailed => {}
        Ended::ReadFailed(_, why) => lose(out, line.reader, sums, why),
        Ended::Input(_) if line.count != 0 => refuse_rest(out, line.count),
        Ended::Input(_) => sums::say_end(out, &line.reader, sums),
    }
}

fn begin(out: &mut Out) -> Result<LineState, Bad> {
    let s = header::read(out)?.setup();
    let a = LineState::fresh(s.n, s.x, s.y, s.pressure, s.major, s.minor);
    match a.verdict {
        Verdict::Accepted => Ok(a.state),
        _ => Err(Bad::Range(s)),
    }
}

fn answer(out: &mut Out) {
    match begin(out) {
        Ok(line) => explain(out, line),
        Err(bad) => header::say_refused(out, bad),
    }
}

fn main(rt: HostRuntime) {
    stream::run(&rt, "explain", answer);
}
