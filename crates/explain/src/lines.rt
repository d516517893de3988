// A record in a line: its name, its value, and what the reader did with it.
use crate::deeds::{Deed, Read};
use crate::names::Named;
use crate::{names, why};
use common::{Mode, TrackingId};
use panel::{RECORDS, Slot};
use reader::ReaderState;
use records::Event;
use std::fmt;
use std::fmt::{Display, Formatter, Write};
use stream::{Out, say};

// A slot's numbers, each after its name.
#[derive(Clone, Copy)]
struct Numbers(Slot);

impl Display for Numbers {
    fn fmt<W: Write>(&self, f: &mut Formatter<W>) -> fmt::Result {
        let s = self.0;
        write!(f, "id {}, x {}, y {}, ", s.id.0, s.x, s.y)?;
        write!(
            f,
            "pressure {}, major {}, minor {}",
            s.pressure, s.major, s.minor
        )
    }
}

// The number of a slot that a code sets.
fn number_set(s: Slot, code: u16) -> i64 {
    match code {
        records::TRACKING_ID => i64::from(s.id.0),
        records::POSITION_X => i64::from(s.x),
        records::POSITION_Y => i64::from(s.y),
        records::PRESSURE => i64::from(s.pressure),
        records::TOUCH_MAJOR => i64::from(s.major),
        _ => i64::from(s.minor),
    }
}

// The pending table as the reader left it has what was set.
fn say_set(out: &mut Out, s: &ReaderState, code: u16) {
    let k = s.current.0;
    if code == records::SLOT {
        say!(out, "slot {k} is current");
    } else {
        // No type says that the current slot is one of the table's.
        let slot = s.pending.get(k).copied().unwrap_or(Slot::unused());
        let word = names::word_of(code);
        say!(out, "slot {k}: {word} {}", number_set(slot, code));
    }
}

// The live slots of a table.
fn say_table(out: &mut Out, table: &[Slot; RECORDS]) {
    say!(out, "table shown");
    let mut any = false;
    for (k, slot) in table.iter().enumerate() {
        if slot.id.0 != TrackingId::UNUSED {
            let between = if any { ";" } else { ":" };
            say!(out, "{between} slot {k}: {}", Numbers(*slot));
            any = true;
        }
    }
    if !any {
        say!(out, ": no slot is live");
    }
}

// The label, where it holds from now on.
fn say_lost(out: &mut Out) {
    say!(
        out,
        ": lost track: from here every slot is unknown. NO EVENT IS NOT NO FINGER"
    );
}

// What is ignored can still change the mode.
fn say_ignored(out: &mut Out, before: Mode, after: Mode) {
    say!(out, "ignored: track is lost");
    let was_stale = matches!(before, Mode::Stale);
    let is_stale = matches!(after, Mode::Stale);
    if is_stale && !was_stale {
        say!(out, "; the mode is stale now");
    } else if was_stale && !is_stale {
        say!(out, "; the mode is dropped now");
    }
}

// A name that is listed and still skipped asks for a reason.
fn say_display(out: &mut Out, e: Event) {
    if names::is_emulated(e) {
        say!(
            out,
            ": it is for an old display, and a reader of contacts skips it"
        );
    }
}

fn say_deed(out: &mut Out, r: &Read) {
    let e = r.event;
    match r.deed {
        Deed::Ignored => say_ignored(out, r.before.mode, r.after.mode),
        Deed::Bad => {
            why::say_bad(out, &r.before, e);
            say_lost(out);
        }
        Deed::UnknownType => {
            say!(out, "skipped: type {} is unknown", e.kind);
            say_display(out, e);
        }
        Deed::UnknownCode => {
            say!(
                out,
                "skipped: code {} is unknown for type {}",
                e.code,
                e.kind
            );
            say_display(out, e);
        }
        Deed::Shown => say_table(out, &r.after.shown),
        Deed::Lost => {
            say!(out, "events are missing");
            say_lost(out);
        }
        Deed::Set => say_set(out, &r.after, e.code),
    }
}

pub fn say_line(out: &mut Out, r: &Read) {
    say!(out, "{}: ", Named(r.event));
    say_deed(out, r);
    say!(out, "\n");
}
