// Why a record was bad: the range that its value missed, or the id that stands twice.
use crate::names;
use common::TrackingId;
use panel::{RECORDS, Setup, Slot};
use reader::ReaderState;
use records::Event;
use stream::{Out, say};

// A live id that stands in two slots.
#[derive(Clone, Copy)]
struct Twice {
    id: i32,
    first: usize,
    second: usize,
}

// The first slot whose live id one before it has, with the first that has it.
fn twice_in(table: &[Slot; RECORDS]) -> Option<Twice> {
    for (second, slot) in table.iter().enumerate() {
        let id = slot.id.0;
        if id != TrackingId::UNUSED
            && let Some(first) = table.iter().take(second).position(|s| s.id.0 == id)
        {
            return Some(Twice { id, first, second });
        }
    }
    None
}

// The lowest and the largest value that a code may set.
fn range_of(setup: Setup, code: u16) -> (i32, u64) {
    match code {
        records::SLOT => (0, (setup.n as u64).wrapping_sub(1)),
        records::TRACKING_ID => (TrackingId::UNUSED, TrackingId::MOST as u64),
        records::POSITION_X => (0, u64::from(setup.x)),
        records::POSITION_Y => (0, u64::from(setup.y)),
        records::PRESSURE => (0, u64::from(setup.pressure)),
        records::TOUCH_MAJOR => (0, u64::from(setup.major)),
        _ => (0, u64::from(setup.minor)),
    }
}

// A report is bad by the table that it would show, where an id stands twice; any other record by its value.
pub fn say_bad(out: &mut Out, s: &ReaderState, e: Event) {
    if e.kind != records::SYN {
        let word = names::word_of(e.code);
        let value = records::signed_of(e.value);
        let (lowest, most) = range_of(s.setup, e.code);
        say!(out, "{word} {value} is not {lowest} to {most}");
    } else if let Some(t) = twice_in(&s.pending) {
        say!(
            out,
            "id {} is live in slot {} and in slot {}",
            t.id,
            t.first,
            t.second
        );
    }
}
