// The states of a panel's readers and writers, made of a line's numbers.
ghost use Rattle.std.specs.Prelude.{◌≤◌};

use common::{Mode, SlotNumber, TrackingId};
use drive_lines::kinds::{OPTION, RANKS, SETUP, TABLE};
use drive_lines::values;
use panel::{PER_SLOT, RECORDS, Setup, Slot};
use pointer::Pointer;
use reader::ReaderState;
use writer::WriterState;

pub fn setup_of(ns: &[u64]) -> Setup {
    Setup {
        n: values::number(ns, 0) as usize,
        x: values::natural(ns, 1),
        y: values::natural(ns, 2),
        pressure: values::natural(ns, 3),
        major: values::natural(ns, 4),
        minor: values::natural(ns, 5),
    }
}

fn slot_of(ns: &[u64], at: usize) -> Slot
    requires { at ≤ 12000 }
{
    Slot {
        id: TrackingId(values::signed(ns, at)),
        x: values::natural(ns, at + 1),
        y: values::natural(ns, at + 2),
        pressure: values::natural(ns, at + 3),
        major: values::natural(ns, at + 4),
        minor: values::natural(ns, at + 5),
    }
}

fn table_of(ns: &[u64], from: usize) -> [Slot; RECORDS]
    requires { from ≤ 1000 }
{
    let mut t = panel::zero_table();
    for (k, slot) in t.iter_mut().enumerate() {
        *slot = slot_of(ns, from + PER_SLOT * k);
    }
    t
}

pub fn slot_number(ns: &[u64], i: usize) -> SlotNumber {
    SlotNumber(values::number(ns, i) as usize)
}

pub fn mode_of(v: u64) -> Mode {
    match v {
        0 => Mode::Following,
        1 => Mode::Dropped,
        _ => Mode::Stale,
    }
}

pub fn reader_of(ns: &[u64]) -> ReaderState {
    ReaderState {
        setup: setup_of(ns),
        shown: table_of(ns, SETUP + 2),
        pending: table_of(ns, SETUP + 2 + TABLE),
        current: slot_number(ns, SETUP),
        mode: mode_of(values::number(ns, SETUP + 1)),
    }
}

// What an old display was told last: the numbers behind the option.
fn told_of(ns: &[u64]) -> Pointer {
    Pointer {
        x: values::natural(ns, OPTION + 3),
        y: values::natural(ns, OPTION + 4),
        tool: values::half(ns, OPTION + 2),
        touch: values::byte(ns, OPTION + 1),
    }
}

pub fn option_of(ns: &[u64], i: usize) -> bool {
    values::number(ns, i) == 1
}

pub fn writer_of(ns: &[u64]) -> WriterState {
    WriterState {
        table: table_of(ns, SETUP + 2),
        ranks: values::array_of(ns, RANKS),
        setup: setup_of(ns),
        current: slot_number(ns, SETUP),
        counter: values::natural(ns, SETUP + 1),
        told: told_of(ns),
        pointer: option_of(ns, OPTION),
    }
}

// The record that stands from number i on: its type, code and value.
pub fn record_at(ns: &[u64], i: usize) -> records::Event
    requires { i ≤ 12000 }
{
    records::Event {
        kind: values::half(ns, i),
        code: values::half(ns, i + 1),
        value: values::natural(ns, i + 2),
    }
}
