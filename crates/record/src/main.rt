// Makes a recording: standard input is a setup and event records, standard output that setup and blocks of 512 bytes, each with its number and its check (document 02's K2).
// 62 records go to each block but the last. A block is written when it is full, and the last one when the input has ended. Input that was lost is recorded as SYN_DROPPED.
#![tactic(auto)]

ghost use Rattle.std.specs.Prelude.{◌+◌, ◌<◌, ◌≤◌, length};
ghost use Rattle.model.specs.Recorder.{full_run};

use common::Verdict;
use header::Bad;
use recorder::{BLOCK, FULL};
use records::LENGTH;
use std::io::Error;
use stream::{Ended, Out, warn};

// The bytes of `io::large_buffer`.
const ROOM: usize = 65536;

// The number of the block that comes next, 0 after the last number; whether a block was refused, after which none is written.
#[derive(Clone, Copy)]
struct Recording {
    number: u32,
    over: bool,
}

impl Recording {
    // Whether no block can be written any more. Where a write failed nothing more is said either: the end still has to say why.
    fn is_over(&self, out: &Out) -> bool {
        self.over || out.is_broken()
    }

    // A block is refused for its number alone: it is past the last one.
    fn refuse_block(&mut self, out: &mut Out, verdict: Verdict) {
        self.number = 0;
        self.over = true;
        out.close_input();
        out.warn_refused(verdict);
        warn!(
            out,
            "{}: block numbers end at 4294967295, so the rest is not recorded: go on in a new recording\n",
            out.name()
        );
    }

    // One block more, of 1 to 62 whole records.
    fn add_block(&mut self, out: &mut Out, events: &[u8]) {
        let number = self.number;
        let mut laid = None;
        out.put_with(BLOCK, |rest| {
            let answer = recorder::lay_blocks(number, events, rest, 0);
            laid = Some(answer);
            match answer.verdict {
                Verdict::Accepted => BLOCK,
                _ => 0,
            }
        });
        let Some(answer) = laid else { return };
        match answer.verdict {
            Verdict::Accepted => self.number = answer.next,
            refusal => self.refuse_block(out, refusal),
        }
    }

    // The full blocks among the bytes; how many bytes those are. Less than a block is left.
    fn add_full(&mut self, out: &mut Out, bytes: &[u8]) -> usize
        ensures used { result ≤ length bytes.now }
        ensures held { length bytes.now < result + full_run }
    {
        for block in bytes.chunks_exact(FULL) {
            if !self.is_over(out) {
                self.add_block(out, block);
            }
        }
        bytes.len() - bytes.len() % FULL
    }

    // The input ended: the last block, where there are records for one. Inside a record the whole ones are recorded.
    fn end(&mut self, out: &mut Out, bytes: &[u8]) {
        let rest = bytes.len() % LENGTH;
        let whole = bytes.len() - rest;
        if whole != 0 {
            self.add_block(out, &bytes[..whole]);
        }
        if rest != 0 && !self.is_over(out) {
            out.warn_refused(Verdict::Ragged);
            warn!(
                out,
                "{}: the last record is cut: {rest} of 8 bytes\n",
                out.name()
            );
        }
    }

    // The read failed. Nobody knows what was lost with the input, so who replays it must not go on with the old table. A record that was cut is lost too.
    fn lose(&mut self, out: &mut Out, buf: &mut [u8; ROOM], left: usize, why: Error)
        requires { left < full_run }
    {
        out.read_failed(why);
        let whole = left - left % LENGTH;
        records::put(&mut buf[whole..], records::SYN, records::DROPPED, 0);
        self.add_block(out, &buf[..whole + LENGTH]);
        if !self.is_over(out) {
            warn!(
                out,
                "{}: input was lost, so SYN_DROPPED was recorded\n",
                out.name()
            );
        }
    }
}

fn record(out: &mut Out) -> Result<(), Bad> {
    let h = header::read(out)?;
    if !panel::setup_ok(h.setup()) {
        return Err(Bad::Range(h.setup()));
    }
    out.put(&h.bytes);
    out.flush();
    let mut recording = Recording {
        number: 1,
        over: false,
    };
    let mut buf = io::large_buffer();
    match out.take_input(&mut buf, |out, bytes| recording.add_full(out, bytes)) {
        _ if recording.is_over(out) => {}
        Ended::Input(left) => recording.end(out, &buf[..left]),
        Ended::ReadFailed(left, why) => recording.lose(out, &mut buf, left, why),
        Ended::WriteFailed => {}
    }
    Ok(())
}

fn answer(out: &mut Out) {
    if let Err(bad) = record(out) {
        header::warn_refused(out, bad);
    }
}

fn main(rt: HostRuntime) {
    stream::run(&rt, "record", answer);
}
