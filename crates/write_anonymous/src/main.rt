// Writes an anonymous panel's frames as events: standard input is a setup and type A records, standard output that setup and the type B records written (document 02's K12).
// A frame is all records up to and with the next SYN_REPORT. A refusal is a line on standard error, and the next frame goes on from the state as it was. Input that was lost is passed on as SYN_DROPPED.
#![tactic(auto)]

ghost use Rattle.std.specs.Prelude.{◌≡◌, ◌+◌, ◌*◌, ◌<◌, ◌≤◌, length, IfSome};
ghost use Rattle.model.specs.Panel.{base};
ghost use Rattle.model.specs.Calls.{most_events};
ghost use Rattle.stream.specs.Left.{left};
ghost use Rattle.write_anonymous.specs.Room.{longest};

use common::Verdict;
use header::{Bad, Header};
use panel::MOST_EVENTS;
use records::{Event, LENGTH};
use stream::{Ended, Out, Status, warn};
use writer::{WriterState, Written};

// The most records of a frame, its SYN_REPORT among them, and their bytes. A frame is held until it is whole, so there has to be a limit.
const MOST_RECORDS: usize = 4096;

const LONGEST: usize = LENGTH * MOST_RECORDS;

// The bytes of `io::large_buffer`, more than the longest frame has.
const ROOM: usize = 65536;

// The most bytes that a frame's events take; pointer emulation is off.
const EVENTS: usize = LENGTH * MOST_EVENTS;

fn is_report(e: Event) -> bool {
    e.kind == records::SYN && e.code == records::REPORT
}

// Behind the next SYN_REPORT, of the records from `from` on.
fn next_end(bytes: &[u8], from: usize) -> Option<usize>
    ensures { IfSome result (λ n. (from < n) × (n ≤ length bytes.now)) }
{
    if from > bytes.len() {
        return None;
    }
    let mut end = from;
    while LENGTH <= bytes.len() - end {
        let at = end;
        end += LENGTH;
        if is_report(records::record_at(bytes, at)) {
            return Some(end);
        }
    }
    None
}

// The bytes of the records that the library put on the page: no more than a frame may have.
fn length_of(count: usize) -> usize
    requires { count ≤ most_events base + 4 }
    ensures { result ≡ 8 * count }
{
    LENGTH * count
}

// What the library answered of a frame, and the bytes of its records.
#[derive(Clone, Copy)]
struct Sent {
    answer: Written,
    bytes: usize,
}

// A frame on the rest of the page.
fn write_on(state: WriterState, bytes: &[u8], rest: &mut [u8]) -> Sent {
    let answer = anonymous::write(state, bytes, rest, 0);
    let bytes = match answer.verdict {
        Verdict::Accepted => length_of(answer.count),
        _ => 0,
    };
    Sent { answer, bytes }
}

// The writer's state; the number of the frame that comes next, from 1, and whether that was refused for its length, so that its records are let go; and how many bytes at the front have no SYN_REPORT. Looked through again for each byte that comes, a long frame would cost the square of its length.
#[derive(Clone, Copy)]
struct Sender {
    state: WriterState,
    frame: u64,
    skipping: bool,
    looked: usize,
}

impl Sender {
    // The line of a frame that is too long. After a failed write nothing is said: the end still has to say why.
    fn warn_long(&self, out: &mut Out) {
        if !out.is_broken() {
            out.mark(Status::Refused);
            warn!(
                out,
                "frame {} refused: over {MOST_RECORDS} records\n",
                self.frame
            );
        }
    }

    // A frame's records, or the line of its refusal.
    fn write(&mut self, out: &mut Out, bytes: &[u8]) {
        let state = self.state;
        let mut written = None;
        out.put_with(EVENTS, |rest| {
            let sent = write_on(state, bytes, rest);
            written = Some(sent.answer);
            sent.bytes
        });
        let Some(answer) = written else { return };
        self.state = answer.state;
        if !matches!(answer.verdict, Verdict::Accepted) {
            warn!(out, "frame {} ", self.frame);
            out.warn_refused(answer.verdict);
        }
    }

    // One frame up to its end.
    fn send(&mut self, out: &mut Out, bytes: &[u8]) {
        if !self.skipping {
            if bytes.len() > LONGEST {
                self.warn_long(out);
            } else {
                self.write(out, bytes);
            }
        }
        self.skipping = false;
        self.frame = self.frame.wrapping_add(1);
    }

    // The whole frames; how many bytes they have.
    fn send_whole(&mut self, out: &mut Out, bytes: &[u8]) -> usize
        ensures { result ≤ length bytes.now }
    {
        let mut at = 0;
        let mut from = self.looked;
        while let Some(end) = next_end(bytes, from) {
            self.send(out, &bytes[at..end]);
            at = end;
            from = end;
        }
        at
    }

    // The whole frames and, of a frame that was refused for its length, all but a record that is cut, so that its SYN_REPORT is found; how many bytes they have.
    fn take(&mut self, out: &mut Out, bytes: &[u8]) -> usize
        ensures used { result ≤ length bytes.now }
        ensures held { length bytes.now ≤ result + longest }
    {
        let at = self.send_whole(out, bytes);
        let rest = bytes.len() - at;
        if rest > LONGEST && !self.skipping {
            self.warn_long(out);
            self.skipping = true;
        }
        let needed = if self.skipping { rest % LENGTH } else { rest };
        self.looked = needed - needed % LENGTH;
        bytes.len() - needed
    }
}

// All frames; what ended them. A read into no room brings nothing, and would look like the end of the input: fewer bytes are held than the buffer has.
fn take_all(out: &mut Out, sender: &mut Sender, buf: &mut [u8; ROOM]) -> Ended
    ensures held { left result ≤ longest }
    ensures room { left result < length buf.new }
{
    out.take_input(buf, |out, bytes| sender.take(out, bytes))
}

fn send_all(out: &mut Out, mut sender: Sender) {
    let mut buf = io::large_buffer();
    match take_all(out, &mut sender, &mut buf) {
        Ended::WriteFailed => {}
        Ended::ReadFailed(_, why) => {
            out.read_failed(why);
            header::send_dropped(out);
        }
        Ended::Input(left) => {
            if sender.skipping {
                header::send_dropped(out);
            } else if left != 0 {
                // Inside a frame that is a loss too, and the library refuses a frame without its SYN_REPORT.
                sender.send(out, &buf[..left]);
                header::send_dropped(out);
            }
        }
    }
}

fn begin(h: Header) -> Result<Sender, Bad> {
    let a = WriterState::fresh(h.setup(), false);
    match a.verdict {
        Verdict::Accepted => Ok(Sender {
            state: a.state,
            frame: 1,
            skipping: false,
            looked: 0,
        }),
        _ => Err(Bad::Range(h.setup())),
    }
}

fn write(out: &mut Out) -> Result<(), Bad> {
    let h = header::read(out)?;
    let sender = begin(h)?;
    out.put(&h.bytes);
    out.flush();
    send_all(out, sender);
    Ok(())
}

fn answer(out: &mut Out) {
    if let Err(bad) = write(out) {
        header::warn_refused(out, bad);
    }
}

fn main(rt: HostRuntime) {
    stream::run(&rt, "write_anonymous", answer);
}
