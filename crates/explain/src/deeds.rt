// What the reader did with a record, told from its answer: the counts that it added to, and the mode that it left.
use common::{Counts, Mode};
use reader::ReaderState;
use records::Event;

#[derive(Clone, Copy)]
pub enum Deed {
    Ignored,
    Bad,
    UnknownType,
    UnknownCode,
    Shown,
    Lost,
    Set,
}

// A record that was read, with the reader before and after it.
#[derive(Clone, Copy)]
pub struct Read {
    pub event: Event,
    pub before: ReaderState,
    pub after: ReaderState,
    pub deed: Deed,
}

// One record adds to one count at most. Where none moved, something was set if the reader follows; SYN_DROPPED that finds it following adds to none.
fn deed_of(c: Counts, after: Mode) -> Deed {
    match after {
        _ if c.ignored != 0 => Deed::Ignored,
        _ if c.bad != 0 => Deed::Bad,
        _ if c.types != 0 => Deed::UnknownType,
        _ if c.codes != 0 => Deed::UnknownCode,
        _ if c.shown != 0 => Deed::Shown,
        Mode::Following => Deed::Set,
        Mode::Dropped | Mode::Stale => Deed::Lost,
    }
}

pub fn read_as(event: Event, before: ReaderState, after: ReaderState, counts: Counts) -> Read {
    Read {
        event,
        before,
        after,
        deed: deed_of(counts, after.mode),
    }
}
