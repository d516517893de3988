// The calls of the cranes' reader: states made of a line's numbers, and answers as numbers. As for the product's reader, in four numbers a slot.
ghost use Rattle.std.specs.Prelude.{◌≤◌};

use crate::{parts, states};
use common::TrackingId;
use crane_panel::{PER_SLOT, RECORDS, Setup, Slot};
use crane_reader::{ReaderState, RunAnswer, SlotAnswer};
use drive_lines::kinds::{CRANE_READER, CRANE_SETUP, CRANE_TABLE};
use drive_lines::values;
use stream::{Out, say};

fn setup_of(ns: &[u64]) -> Setup {
    Setup {
        n: values::number(ns, 0) as usize,
        x: values::natural(ns, 1),
        y: values::natural(ns, 2),
        pressure: values::natural(ns, 3),
    }
}

fn slot_of(ns: &[u64], at: usize) -> Slot
    requires { at ≤ 12000 }
{
    Slot {
        id: TrackingId(values::signed(ns, at)),
        x: values::natural(ns, at + 1),
        y: values::natural(ns, at + 2),
        pressure: values::natural(ns, at + 3),
    }
}

fn table_of(ns: &[u64], from: usize) -> [Slot; RECORDS]
    requires { from ≤ 1000 }
{
    let mut t = crane_panel::zero_table();
    for (k, slot) in t.iter_mut().enumerate() {
        *slot = slot_of(ns, from + PER_SLOT * k);
    }
    t
}

fn reader_of(ns: &[u64]) -> ReaderState {
    ReaderState {
        setup: setup_of(ns),
        shown: table_of(ns, CRANE_SETUP + 2),
        pending: table_of(ns, CRANE_SETUP + 2 + CRANE_TABLE),
        current: states::slot_number(ns, CRANE_SETUP),
        mode: states::mode_of(values::number(ns, CRANE_SETUP + 1)),
    }
}

// Each number after a blank.
fn say_slot(out: &mut Out, s: Slot) {
    say!(out, " {} {} {} {}", s.id.0, s.x, s.y, s.pressure);
}

fn say_table(out: &mut Out, table: &[Slot; RECORDS]) {
    for slot in table {
        say_slot(out, *slot);
    }
}

fn say_reader(out: &mut Out, s: ReaderState) {
    let u = s.setup;
    say!(out, " {} {} {} {}", u.n, u.x, u.y, u.pressure);
    say!(out, " {} {}", s.current.0, s.mode as u8);
    say_table(out, &s.shown);
    say_table(out, &s.pending);
}

pub fn fresh(out: &mut Out, ns: &[u64]) {
    let s = setup_of(ns);
    let a = ReaderState::fresh(s.n, s.x, s.y, s.pressure);
    say!(out, "{}", a.verdict);
    say_reader(out, a.state);
}

fn ran(out: &mut Out, a: RunAnswer) {
    say!(out, "{}", a.verdict);
    say_reader(out, a.state);
    parts::counts(out, a.counts);
}

pub fn run(out: &mut Out, ns: &[u64]) {
    let bytes = values::bytes_of(ns, CRANE_READER);
    ran(out, crane_reader::run(reader_of(ns), bytes.as_slice()));
}

pub fn one(out: &mut Out, ns: &[u64]) {
    let e = states::record_at(ns, CRANE_READER);
    ran(out, crane_reader::read_one(reader_of(ns), e));
}

pub fn load(out: &mut Out, ns: &[u64]) {
    let current = states::slot_number(ns, CRANE_READER);
    let image = values::frame_of(ns, CRANE_READER + 1);
    let a = crane_reader::load(reader_of(ns), image.as_slice(), current);
    say!(out, "{}", a.verdict);
    say_reader(out, a.state);
}

pub fn ask(out: &mut Out, ns: &[u64]) {
    let slot = states::slot_number(ns, CRANE_READER);
    match crane_reader::ask(reader_of(ns), slot) {
        SlotAnswer::Contact(slot) => {
            say!(out, "contact");
            say_slot(out, slot);
        }
        SlotAnswer::Empty => say!(out, "empty"),
        SlotAnswer::Unknown => say!(out, "unknown"),
        SlotAnswer::NoSuchSlot => say!(out, "none"),
        SlotAnswer::Refused(verdict) => say!(out, "refused {verdict}"),
    }
}

pub fn good(out: &mut Out, ns: &[u64]) {
    say!(out, "{}", u8::from(crane_reader::state_ok(reader_of(ns))));
}
