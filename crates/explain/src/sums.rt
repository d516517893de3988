// What is counted over the whole input, and the lines that end it.
use crate::deeds::{Deed, Read};
use common::Mode;
use reader::ReaderState;
use stream::{Out, say};

// How many records came; the five counts; the type and code of the first that was skipped; whether something was set since the last report. A count stays at the largest number.
#[derive(Clone, Copy, Default)]
pub struct Sums {
    pub records: u64,
    shown: u64,
    types: u64,
    codes: u64,
    bad: u64,
    ignored: u64,
    first: Option<(u16, u16)>,
    unshown: bool,
}

impl Sums {
    // And one record more. A loss throws away what was not shown yet.
    pub fn add(&mut self, r: &Read) {
        let e = r.event;
        self.records = self.records.saturating_add(1);
        match r.deed {
            Deed::Ignored => self.ignored = self.ignored.saturating_add(1),
            Deed::Bad => self.bad = self.bad.saturating_add(1),
            Deed::UnknownType => self.types = self.types.saturating_add(1),
            Deed::UnknownCode => self.codes = self.codes.saturating_add(1),
            Deed::Shown => self.shown = self.shown.saturating_add(1),
            Deed::Lost | Deed::Set => {}
        }
        match r.deed {
            Deed::UnknownType | Deed::UnknownCode => {
                self.first = self.first.or(Some((e.kind, e.code)));
            }
            Deed::Bad | Deed::Shown | Deed::Lost => self.unshown = false,
            Deed::Set => self.unshown = self.unshown || e.code != records::SLOT,
            Deed::Ignored => {}
        }
    }
}

// What a table cannot tell: a reader that lost track shows none, and what no report followed is in none.
fn rest_of(mode: Mode, unshown: bool) -> &'static str {
    match mode {
        Mode::Following if unshown => ": what was set after the last SYN_REPORT is not shown",
        Mode::Following => "",
        Mode::Dropped | Mode::Stale => ": every slot is unknown",
    }
}

// The mode, the current slot, the counts, and the first that was skipped.
pub fn say_end(out: &mut Out, state: &ReaderState, s: Sums) {
    let rest = rest_of(state.mode, s.unshown);
    say!(
        out,
        "end: {}, current slot {}{rest}\n",
        state.mode,
        state.current.0
    );
    say!(
        out,
        "shown {}, skipped of unknown type {}, skipped of unknown code {}, bad {}, ignored {}\n",
        s.shown,
        s.types,
        s.codes,
        s.bad,
        s.ignored
    );
    match s.first {
        Some((kind, code)) => say!(out, "first skipped: type {kind} code {code}\n"),
        None => say!(out, "first skipped: none\n"),
    }
}
