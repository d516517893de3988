// An example of calling the library from another crate: a hold-to-lift key, and when it may lift. README.md shows it. Reads no input.
#![tactic(auto)]

ghost use Rattle.std.specs.Prelude.{◌≡◌};
ghost use Rattle.model.specs.Panel.{base};
ghost use Rattle.model.specs.Calls.{ask_call};
ghost use Rattle.reader.specs.States.{seen};
ghost use Rattle.reader.specs.Seen.{asked_from};
ghost use Rattle.hold_to_lift.specs.Key.{lifts};

use common::SlotNumber;
use panel::Setup;
use reader::{ReaderState, SlotAnswer};
use records::Event;
use stream::{Out, say};
use writer::WriterState;

// The load may rise only while a finger is known to hold the key. A reader that lost track answers Unknown, and that is not a finger.
fn may_lift(state: ReaderState) -> bool
    ensures { result ≡ lifts (asked_from (ask_call base (seen state) 0)) }
{
    match reader::ask(state, SlotNumber(0)) {
        SlotAnswer::Contact(_) => true,
        SlotAnswer::Empty => false,
        SlotAnswer::Unknown => false,
        SlotAnswer::NoSuchSlot => false,
        SlotAnswer::Refused(_) => false,
    }
}

fn tell(out: &mut Out, when: &str, state: ReaderState) {
    let answer = if may_lift(state) {
        "lift"
    } else {
        "do not lift"
    };
    say!(out, "{when}: {answer}\n");
}

// The reader after the events of a frame with one finger.
fn with_finger(before: ReaderState) -> ReaderState {
    // The frame of a panel of one slot: kind, x, y, pressure and both sizes. Kind 1 is a finger on the slot.
    let frame = [1, 100, 200, 30, 80, 40];
    let mut events = [0u8; 56];
    let setup = Setup {
        n: 1,
        x: 4000,
        y: 4000,
        pressure: 255,
        major: 255,
        minor: 255,
    };
    // Without pointer emulation, which only an old display needs.
    let fresh = WriterState::fresh(setup, false);
    // Every answer has a verdict; this one is Accepted, and count is 7.
    writer::write(fresh.state, &frame, &mut events, 0);
    reader::run(before, &events).state
}

// Linux says SYN_DROPPED where events were lost: the finger may have been lifted since.
fn with_loss(before: ReaderState) -> ReaderState {
    let loss = Event {
        kind: records::SYN,
        code: records::DROPPED,
        value: 0,
    };
    reader::read_one(before, loss).state
}

fn tell_all(out: &mut Out) {
    let before = ReaderState::fresh(1, 4000, 4000, 255, 255, 255).state;
    let held = with_finger(before);
    tell(out, "before any event", before);
    tell(out, "a finger is down", held);
    tell(out, "events were lost", with_loss(held));
}

fn main(rt: HostRuntime) {
    stream::run(&rt, "hold_to_lift", tell_all);
}
