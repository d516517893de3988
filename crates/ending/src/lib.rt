// How a reading ended, in words: what show_table and replay say of a reader, of a lost input and of records that were skipped. It promises nothing about a stream but that saying ends.
#![tactic(auto)]

ghost use Rattle.std.specs.Prelude.{◌≡◌};
ghost use Rattle.model.specs.Panel.{base};
ghost use Rattle.model.specs.Calls.{run_call};
ghost use Rattle.model.specs.Recorder.{loss};
ghost use Rattle.reader.specs.States.{seen, held};

use common::{Counts, Mode};
use reader::ReaderState;
use std::io::Error;
use stream::{Out, say, warn};

fn say_state(out: &mut Out, s: ReaderState) {
    say!(out, "{} {}\n", s.mode, s.current.0);
    if matches!(s.mode, Mode::Following) {
        words::say_lines(out, &s.shown, s.setup.n);
    }
}

// How many records were read while following, and how many of them were skipped. They are for a hint alone, so they may wrap.
#[derive(Clone, Copy, Default)]
pub struct Tally {
    pub followed: u64,
    pub skipped: u64,
}

impl Tally {
    // So many records more, with a call's counts of them.
    pub fn add(&mut self, count: u64, c: Counts) {
        let followed = count.wrapping_sub(c.ignored as u64);
        let skipped = (c.types as u64).wrapping_add(c.codes as u64);
        self.followed = self.followed.wrapping_add(followed);
        self.skipped = self.skipped.wrapping_add(skipped);
    }
}

// Where most records are skipped, they may be Linux's own, with a time before each; such a table can look right.
// Three fifths: two of three are times, and a panel that sends a mouse's events beside its own has half of them skipped.
fn hint(out: &mut Out, t: Tally) {
    let taken = t.followed.wrapping_sub(t.skipped);
    if t.followed >= 3 && t.skipped >= taken.wrapping_add(taken / 2 + taken % 2) {
        warn!(
            out,
            "{}: most records were skipped: Linux's struct input_event has 24 bytes, and only the last 8 are a record here\n",
            out.name()
        );
    }
}

// The last of a program that shows a reader: the hint, where one is due, and the reader.
pub fn say_end(out: &mut Out, t: Tally, s: ReaderState) {
    hint(out, t);
    say_state(out, s);
}

// A failed read is a loss and not the end of input: nobody knows what was lost with it.
pub fn warn_lost(out: &mut Out, why: Error) {
    out.read_failed(why);
    warn!(
        out,
        "{}: input was lost, which counts as SYN_DROPPED\n",
        out.name()
    );
}

// The reader after a loss: SYN_DROPPED.
pub fn lose(s: ReaderState) -> ReaderState
    ensures { result ≡ held (run_call base (seen s) loss).state }
{
    let mut record = [0u8; records::LENGTH];
    records::put(&mut record, records::SYN, records::DROPPED, 0);
    let a = reader::run(s, &record);
    a.state
}
