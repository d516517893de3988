// What a crane's display shows: reads what the product's writer writes, the setup of six numbers and event records, from standard input, and shows what a fresh cranes' reader makes of them.
#![tactic(auto)]

mod setup;

ghost use Rattle.std.specs.Prelude.{◌≡◌};

use common::{Counts, Mode, Verdict};
use crane_reader::ReaderState;
use setup::Bad;
use std::io::Error;
use stream::{Out, Stop, say, warn};

// The bytes of `io::large_buffer`: whole records.
const ROOM: usize = 65536;

// How many records were read while following, and how many of them have an unknown type. They are for a hint alone, so they may wrap.
#[derive(Clone, Copy, Default)]
struct Tally {
    followed: u64,
    strange: u64,
}

impl Tally {
    // So many records more, with a call's counts of them. A size is skipped for its code and is not strange.
    fn add(&mut self, count: u64, c: Counts) {
        let followed = count.wrapping_sub(c.ignored as u64);
        self.followed = self.followed.wrapping_add(followed);
        self.strange = self.strange.wrapping_add(c.types as u64);
    }
}

// Where most records have an unknown type, they may be Linux's own, with a time before each; such a table can look right.
// Three fifths: two of three are times. Sizes are not among them, however many there are.
fn hint(out: &mut Out, t: Tally) {
    let taken = t.followed.wrapping_sub(t.strange);
    if t.followed >= 3 && t.strange >= taken.wrapping_add(taken / 2 + taken % 2) {
        warn!(
            out,
            "{}: most records have an unknown type: Linux's struct input_event has 24 bytes, and only the last 8 are a record here\n",
            out.name()
        );
    }
}

// The mode and the current slot, and if following a line for each slot, its number and then its four.
fn say_state(out: &mut Out, state: ReaderState) {
    say!(out, "{} {}\n", state.mode, state.current.0);
    if matches!(state.mode, Mode::Following) {
        for (k, s) in state.shown.iter().enumerate().take(state.setup.n) {
            say!(out, "{k} {} {} {} {}\n", s.id.0, s.x, s.y, s.pressure);
        }
    }
}

fn say_end(out: &mut Out, tally: Tally, state: ReaderState) {
    hint(out, tally);
    say_state(out, state);
}

fn refuse_rest(out: &mut Out, rest: usize) {
    out.say_refused(Verdict::Ragged);
    warn!(
        out,
        "{}: the last record is cut: {rest} of 8 bytes\n",
        out.name()
    );
}

fn warn_lost(out: &mut Out, why: Error) {
    out.read_failed(why);
    warn!(
        out,
        "{}: input was lost, which counts as SYN_DROPPED\n",
        out.name()
    );
}

// A failed read is a loss and not the end of input: nobody knows what was lost with it.
fn lose(state: ReaderState) -> ReaderState {
    let loss = records::Event {
        kind: records::SYN,
        code: records::DROPPED,
        value: 0,
    };
    crane_reader::read_one(state, loss).state
}

// Whole records.
fn read_records(state: &mut ReaderState, tally: &mut Tally, bytes: &[u8]) {
    let a = crane_reader::run(*state, bytes);
    *state = a.state;
    tally.add((bytes.len() / 8) as u64, a.counts);
}

// How the reading of a buffer stopped, and how many bytes of a record that is cut were left over.
#[derive(Clone, Copy)]
struct Turn {
    stop: Stop,
    rest: usize,
}

// A buffer's whole records. It is full while there is more, so a record is cut only at the end or by a failed read: one that two reads bring is whole here.
fn read_some(out: &Out, state: &mut ReaderState, tally: &mut Tally, buf: &mut [u8; ROOM]) -> Turn
    ensures { result.stop ≡ Stop.Full → result.rest ≡ 0 }
{
    let filled = out.fill(buf);
    let rest = filled.n % 8;
    read_records(state, tally, &buf[..filled.n - rest]);
    Turn {
        stop: filled.stop,
        rest,
    }
}

// A proved loop has to end, and nothing says that the input does: the turns are of a number that no run uses up.
fn show(out: &mut Out, begun: ReaderState) {
    let mut buf = io::large_buffer();
    let mut state = begun;
    let mut tally = Tally::default();
    for _ in 0..u64::MAX {
        let turn = read_some(out, &mut state, &mut tally, &mut buf);
        match turn.stop {
            Stop::Full => {}
            Stop::Failed(why) => {
                warn_lost(out, why);
                say_end(out, tally, lose(state));
                return;
            }
            Stop::Ended if turn.rest != 0 => {
                refuse_rest(out, turn.rest);
                return;
            }
            Stop::Ended => {
                say_end(out, tally, state);
                return;
            }
        }
    }
}

fn begin(out: &mut Out) -> Result<ReaderState, Bad> {
    let s = setup::read(out)?;
    let a = ReaderState::fresh(s.n, s.x, s.y, s.pressure);
    match a.verdict {
        Verdict::Accepted => Ok(a.state),
        _ => Err(Bad::Range(s)),
    }
}

fn answer(out: &mut Out) {
    match begin(out) {
        Ok(state) => show(out, state),
        Err(bad) => setup::say_refused(out, bad),
    }
}

fn main(rt: HostRuntime) {
    stream::run(&rt, "crane_table", answer);
}
