// A panel's states and answers as runs of numbers, in the order that the script's lines have them, each number after a blank.
use common::Counts;
use panel::Setup;
use pointer::Pointer;
use reader::{ReaderState, SlotAnswer};
use stream::{Out, say};
use writer::WriterState;

fn setup(out: &mut Out, s: Setup) {
    say!(out, " {}", s.n);
    words::say_largest(out, s);
}

pub fn reader_state(out: &mut Out, s: ReaderState) {
    setup(out, s.setup);
    say!(out, " {} {}", s.current.0, s.mode as u8);
    words::say_table(out, &s.shown);
    words::say_table(out, &s.pending);
}

fn told(out: &mut Out, p: Pointer) {
    say!(out, " {} {} {} {}", p.touch, p.tool, p.x, p.y);
}

// The option, the numbers told last and the ranks end a writer's numbers.
pub fn writer_state(out: &mut Out, s: WriterState) {
    setup(out, s.setup);
    say!(out, " {} {}", s.current.0, s.counter);
    words::say_table(out, &s.table);
    say!(out, " {}", u8::from(s.pointer));
    told(out, s.told);
    words::say_bytes(out, &s.ranks);
}

pub fn counts(out: &mut Out, c: Counts) {
    say!(out, " {} {} {}", c.shown, c.types, c.codes);
    say!(out, " {} {}", c.bad, c.ignored);
    match c.first {
        None => say!(out, " none"),
        Some((kind, code)) => say!(out, " {kind} {code}"),
    }
}

pub fn slot_answer(out: &mut Out, a: SlotAnswer) {
    match a {
        SlotAnswer::Contact(slot) => say!(out, "contact {slot}"),
        SlotAnswer::Empty => say!(out, "empty"),
        SlotAnswer::Unknown => say!(out, "unknown"),
        SlotAnswer::NoSuchSlot => say!(out, "none"),
        SlotAnswer::Refused(verdict) => say!(out, "refused {verdict}"),
    }
}
