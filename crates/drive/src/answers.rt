// One function a call: its parameters from the line's numbers, the library's answer said. The numbers were held to the call's kinds before.
use crate::{crane, cut, parts, states};
use drive_devices::say_buffer;
use drive_lines::calls::Call;
use drive_lines::kinds::{READER, SETUP, WRITER};
use drive_lines::values;
use reader::{ReaderState, RunAnswer};
use stream::{Out, say};
use writer::{WriterState, Written};

// Where a line has the position and the size of a buffer, behind a writer.
const POSITION: usize = WRITER;

const SIZE: usize = WRITER + 1;

fn fresh(out: &mut Out, ns: &[u64]) {
    let s = states::setup_of(ns);
    let a = ReaderState::fresh(s.n, s.x, s.y, s.pressure, s.major, s.minor);
    say!(out, "{}", a.verdict);
    parts::reader_state(out, a.state);
}

fn new(out: &mut Out, ns: &[u64]) {
    let a = WriterState::fresh(states::setup_of(ns), states::option_of(ns, SETUP));
    say!(out, "{}", a.verdict);
    parts::writer_state(out, a.state);
}

fn ran(out: &mut Out, a: RunAnswer) {
    say!(out, "{}", a.verdict);
    parts::reader_state(out, a.state);
    parts::counts(out, a.counts);
}

fn run(out: &mut Out, ns: &[u64]) {
    let bytes = values::bytes_of(ns, READER);
    ran(out, reader::run(states::reader_of(ns), bytes.as_slice()));
}

fn one(out: &mut Out, ns: &[u64]) {
    let e = states::record_at(ns, READER);
    ran(out, reader::read_one(states::reader_of(ns), e));
}

fn load(out: &mut Out, ns: &[u64]) {
    let current = states::slot_number(ns, READER);
    let image = values::frame_of(ns, READER + 1);
    let a = reader::load(states::reader_of(ns), image.as_slice(), current);
    say!(out, "{}", a.verdict);
    parts::reader_state(out, a.state);
}

fn ask(out: &mut Out, ns: &[u64]) {
    let slot = states::slot_number(ns, READER);
    parts::slot_answer(out, reader::ask(states::reader_of(ns), slot));
}

fn good(out: &mut Out, ns: &[u64]) {
    say!(out, "{}", u8::from(reader::state_ok(states::reader_of(ns))));
}

fn say_written(out: &mut Out, a: Written, buf: &[u8]) {
    say!(out, "{}", a.verdict);
    parts::writer_state(out, a.state);
    say!(out, " {} {} {}", a.count, a.changed, a.need);
    say_buffer(out, buf);
}

fn write(out: &mut Out, ns: &[u64]) {
    let position = values::number(ns, POSITION) as usize;
    let frame = values::frame_of(ns, SIZE + 1);
    let mut marks = values::marks();
    let buf = &mut marks[..values::size(ns, SIZE)];
    let a = writer::write(states::writer_of(ns), frame.as_slice(), buf, position);
    say_written(out, a, buf);
}

fn anonymous(out: &mut Out, ns: &[u64]) {
    let position = values::number(ns, POSITION) as usize;
    let events = values::bytes_of(ns, SIZE + 1);
    let mut marks = values::marks();
    let buf = &mut marks[..values::size(ns, SIZE)];
    let a = anonymous::write(states::writer_of(ns), events.as_slice(), buf, position);
    say_written(out, a, buf);
}

// What a call's numbers must be beyond their kinds.
pub fn together(call: Call, ns: &[u64]) -> bool {
    match call {
        Call::PiecesTake => cut::whole(ns),
        _ => drive_devices::together(call, ns),
    }
}

pub fn answer(out: &mut Out, call: Call, ns: &[u64]) {
    match call {
        Call::Fresh => fresh(out, ns),
        Call::New => new(out, ns),
        Call::Run => run(out, ns),
        Call::One => one(out, ns),
        Call::Load => load(out, ns),
        Call::Ask => ask(out, ns),
        Call::Good => good(out, ns),
        Call::Write => write(out, ns),
        Call::Anonymous => anonymous(out, ns),
        Call::CraneFresh => crane::fresh(out, ns),
        Call::CraneRun => crane::run(out, ns),
        Call::CraneOne => crane::one(out, ns),
        Call::CraneLoad => crane::load(out, ns),
        Call::CraneAsk => crane::ask(out, ns),
        Call::CraneGood => crane::good(out, ns),
        Call::PiecesFresh => cut::fresh(out, ns),
        Call::PiecesTake => cut::take(out, ns),
        Call::PiecesLoad => cut::load(out, ns),
        Call::PiecesAsk => cut::ask(out, ns),
        _ => drive_devices::answer(out, call, ns),
    }
}
