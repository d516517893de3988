// A first program over the library: a hold-to-lift key that reads one finger's events. README.md shows the whole of it.
#![tactic(auto)]

use common::{SlotNumber, Verdict};
use reader::{ReaderState, SlotAnswer};
use stream::{Out, say};

// The load may rise only while a finger is known to hold the key. A reader that lost track answers Unknown, and that is not a finger.
fn may_lift(state: ReaderState) -> bool {
    match reader::ask(state, SlotNumber(0)) {
        SlotAnswer::Contact(_) => true,
        SlotAnswer::Empty | SlotAnswer::Unknown | SlotAnswer::NoSuchSlot | SlotAnswer::Refused(_) =>
            false,
    }
}

fn tell(out: &mut Out, state: ReaderState) {
    if may_lift(state) {
        say!(out, "lift\n");
    } else {
        say!(out, "do not lift\n");
    }
}

fn read_finger(out: &mut Out) {
    // A panel of one slot, with its largest x, y, pressure and sizes.
    let before = ReaderState::fresh(1, 4000, 4000, 255, 255, 255).state;
    // Tracking id 0 and a report: eight bytes each, type, code and value.
    let answer = reader::run(
        before,
        b"\x03\x00\x39\x00\x00\x00\x00\x00\x00\x00\x00\x00\x00\x00\x00\x00",
    );
    match answer.verdict {
        Verdict::Accepted => {
            tell(out, before);
            tell(out, answer.state);
        }
        // What is refused leaves the state as it was, so a host that does not look would go on with an old table.
        refusal => out.say_refused(refusal),
    }
}

fn main(rt: HostRuntime) {
    stream::run(&rt, "first_key", read_finger);
}
