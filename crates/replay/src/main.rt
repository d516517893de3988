// Replays a recording: standard input is a setup and blocks of 512 bytes, as record writes them (document 02's K2); standard output is what show_table prints for their events.
// A refused block is read as SYN_DROPPED and named on standard error. Each block is expected to carry its place, also after a refused one.
#![tactic(auto)]

ghost use Rattle.std.specs.Prelude.{◌≡◌, Ok, Err};
ghost use Rattle.io.specs.Counts.{IsPrefixLen};
ghost use Rattle.model.specs.Panel.{base};
ghost use Rattle.model.specs.Calls.{run_call};
ghost use Rattle.model.specs.Recorder.{read_block, loss, block_length};
ghost use Rattle.recorder.specs.Seen.{held_read};
ghost use Rattle.reader.specs.States.{seen, held};
ghost use Rattle.replay.specs.Heard.{past_last, HearsAs};

use common::Verdict;
use ending::Tally;
use header::Bad;
use reader::ReaderState;
use recorder::{BLOCK, BlockRefusal, Run};
use records::LENGTH;
use std::io::Error;
use stream::{Filled, Out, Status, Stop, warn};

// The last number of a block, and one that no block has.
const LAST_NUMBER: u64 = 4294967295;

const NO_NUMBER: u32 = 0;

// What a block past the last number is refused by: no number is right for it, but its check is judged first.
fn past(read: Result<Run, BlockRefusal>) -> BlockRefusal
    ensures { result ≡ past_last read }
{
    match read {
        Err(BlockRefusal::WrongCheck) => BlockRefusal::WrongCheck,
        _ => BlockRefusal::WrongNumber,
    }
}

// A piece's answer at its place, from 1.
fn judged(place: u64, piece: &[u8]) -> Result<Run, BlockRefusal>
    ensures { result ≡ held_read (read_block place piece.now) }
{
    if place > LAST_NUMBER {
        return Err(past(recorder::read_block(piece, NO_NUMBER)));
    }
    recorder::read_block(piece, place as u32)
}

// The reader after a piece, what was counted for a hint, and what the piece was answered.
#[derive(Clone, Copy)]
struct Heard {
    state: ReaderState,
    tally: Tally,
    read: Result<Run, BlockRefusal>,
}

// A refused block. Nobody knows what was lost with it; the record that stands for it is counted nowhere.
fn refused(state: ReaderState, tally: Tally, why: BlockRefusal) -> Heard
    ensures { (result.state ≡ held (run_call base (seen state) loss).state) × (result.read ≡ Err why) }
{
    Heard {
        state: ending::lose(state),
        tally,
        read: Err(why),
    }
}

// It refuses no state that came from fresh, so there is no verdict to look at.
fn followed(state: ReaderState, tally: Tally, events: &[u8], run: Run) -> Heard
    ensures { (result.state ≡ held (run_call base (seen state) events.now).state) × (result.read ≡ Ok run) }
{
    let mut tally = tally;
    let a = reader::run(state, events);
    tally.add((events.len() / LENGTH) as u64, a.counts);
    Heard {
        state: a.state,
        tally,
        read: Ok(run),
    }
}

// What the reader makes of a piece at its place.
fn hear(state: ReaderState, tally: Tally, place: u64, piece: &[u8]) -> Heard
    ensures { HearsAs state place piece.now result.state result.read }
{
    match judged(place, piece) {
        Ok(run) => {
            let events = &piece[run.at..run.at + LENGTH * run.count];
            followed(state, tally, events, run)
        }
        Err(why) => refused(state, tally, why),
    }
}

// How the reading stands: the reader, what was counted for a hint, how many pieces there were, and whether one was refused.
#[derive(Clone, Copy)]
struct Reading {
    state: ReaderState,
    tally: Tally,
    place: u64,
    refused: bool,
}

impl Reading {
    // A block, or what is left at the end, with the line of its refusal.
    fn take_piece(&mut self, out: &mut Out, piece: &[u8]) {
        self.place = self.place.wrapping_add(1);
        let h = hear(self.state, self.tally, self.place, piece);
        self.state = h.state;
        self.tally = h.tally;
        if let Err(why) = h.read {
            self.refused = true;
            out.mark(Status::Refused);
            warn!(out, "block {} refused: {why}\n", self.place);
        }
    }
}

// A block, or what is left of the input. It is full while there is more, so a block that two reads bring is whole here.
fn fill_block(out: &Out, block: &mut [u8; BLOCK]) -> Filled
    ensures within { IsPrefixLen result.n block.new }
    ensures whole { result.stop ≡ Stop.Full → result.n ≡ block_length }
{
    out.fill(block)
}

// All blocks; why a read failed. What that read cut is lost with it, and is no refusal.
// A proved loop has to end, and nothing says that the input does: the turns are of a number that no run uses up.
fn take_all(out: &mut Out, r: &mut Reading) -> Option<Error> {
    let mut block = [0; BLOCK];
    for _ in 0..u64::MAX {
        let filled = fill_block(out, &mut block);
        if let Stop::Failed(why) = filled.stop {
            return Some(why);
        }
        if filled.n != 0 {
            r.take_piece(out, &block[..filled.n]);
        }
        if matches!(filled.stop, Stop::Ended) {
            return None;
        }
    }
    None
}

// What refused blocks mean, once for all of them.
fn hint(out: &mut Out, refused: bool) {
    if refused {
        warn!(
            out,
            "{}: a refused block counts as SYN_DROPPED: from there on every slot is unknown; make the recording anew, or load a full table\n",
            out.name()
        );
    }
}

fn replay(out: &mut Out, state: ReaderState) {
    let mut r = Reading {
        state,
        tally: Tally::default(),
        place: 0,
        refused: false,
    };
    if let Some(why) = take_all(out, &mut r) {
        ending::warn_lost(out, why);
        r.state = ending::lose(r.state);
    }
    hint(out, r.refused);
    ending::say_end(out, r.tally, r.state);
}

fn begin(out: &mut Out) -> Result<ReaderState, Bad> {
    let s = header::read(out)?.setup();
    let a = ReaderState::fresh(s.n, s.x, s.y, s.pressure, s.major, s.minor);
    match a.verdict {
        Verdict::Accepted => Ok(a.state),
        _ => Err(Bad::Range(s)),
    }
}

fn answer(out: &mut Out) {
    match begin(out) {
        Ok(state) => replay(out, state),
        Err(bad) => header::say_refused(out, bad),
    }
}

fn main(rt: HostRuntime) {
    stream::run(&rt, "replay", answer);
}
