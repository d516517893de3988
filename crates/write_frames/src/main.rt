// Writes frames as events: standard input is n, largest x, y, pressure, major and minor and then frames of 6n numbers, all 32-bit little-endian; standard output is that header and every record written.
// A refusal is a line on standard error, and the next frame goes on from the state as it was. Input that was lost is passed on as SYN_DROPPED. The argument --pointer turns pointer emulation on.
#![tactic(auto)]

ghost use Rattle.std.specs.Prelude.{◌≡◌, ◌+◌, ◌*◌, ◌≤◌};
ghost use Rattle.model.specs.Panel.{base, per_slot, records};
ghost use Rattle.model.specs.Calls.{most_events};

use header::{Bad, Header};
use panel::{MOST_EVENTS, PER_SLOT, RECORDS};
use records::LENGTH;
use stream::{Ended, Out, Status, warn};

// The bytes of a number and of a slot's, and the numbers of the largest frame.
const NUMBER: usize = 4;

const ROW: usize = NUMBER * PER_SLOT;

const NUMBERS: usize = PER_SLOT * RECORDS;

// The most events of pointer emulation on top of a frame's own: the touch or the old tool, the new tool, X and Y.
const EMULATED: usize = 4;

// The most bytes that a frame's events take.
const EVENTS: usize = LENGTH * (MOST_EVENTS + EMULATED);

// A frame's numbers from its bytes; how many there are.
fn numbers_of(bytes: &[u8], frame: &mut [i32; NUMBERS]) -> usize
    ensures { result ≤ per_slot * records }
{
    let count = NUMBERS.min(bytes.len() / NUMBER);
    for i in 0..count {
        let at = NUMBER * i;
        let value = records::join32(bytes[at], bytes[at + 1], bytes[at + 2], bytes[at + 3]);
        frame[i] = value.cast_signed();
    }
    count
}

// The bytes of the records that the writer put on the page: no more than a frame may have.
fn length_of(count: u64) -> usize
    requires { count ≤ most_events base + 4 }
    ensures { result ≡ 8 * count }
{
    LENGTH * count as usize
}

// What became of a frame: document 01's number of its refusal, or 0 and the bytes of its records.
#[derive(Clone, Copy)]
struct Sent {
    number: u32,
    bytes: usize,
}

// A frame on the rest of the page. What the writer tells begins with the count.
fn write_on(state: &mut [u8], frame: &[i32], rest: &mut [u8]) -> Sent {
    let mut told = [0; 3];
    let number = lent_writer::write(state, frame, rest, 0, &mut told);
    let bytes = if number == 0 { length_of(told[0]) } else { 0 };
    Sent { number, bytes }
}

// The writer's state, which changes in place; a frame's numbers, cleared once and not for every frame; the number of the frame that comes next, from 1.
#[derive(Drop)]
struct Sender {
    state: [u8; lent_writer::SIZE],
    numbers: [i32; NUMBERS],
    frame: u64,
}

impl Sender {
    // One frame: its records, or the line of its refusal with document 01's number.
    fn send(&mut self, out: &mut Out, bytes: &[u8]) {
        let count = numbers_of(bytes, &mut self.numbers);
        let state = &mut self.state;
        let frame = &self.numbers[..count];
        let mut number = 0;
        out.put_with(EVENTS, |rest| {
            let sent = write_on(state, frame, rest);
            number = sent.number;
            sent.bytes
        });
        if number != 0 {
            out.mark(Status::Refused);
            warn!(out, "frame {} refused {number}\n", self.frame);
        }
        self.frame = self.frame.wrapping_add(1);
    }
}

fn send_all(out: &mut Out, mut sender: Sender, want: usize) {
    let mut buf = io::large_buffer();
    let ended = out.take_input(&mut buf, |out, bytes| {
        if want == 0 {
            return 0;
        }
        for frame in bytes.chunks_exact(want) {
            sender.send(out, frame);
        }
        bytes.len() - bytes.len() % want
    });
    match ended {
        Ended::Input(0) | Ended::WriteFailed => {}
        // Inside a frame that is a loss too, and the writer refuses what came of it by its length.
        Ended::Input(left) => {
            sender.send(out, &buf[..left]);
            header::send_dropped(out);
        }
        Ended::ReadFailed(_, why) => {
            out.read_failed(why);
            header::send_dropped(out);
        }
    }
}

fn begin(h: Header, pointer: bool) -> Result<Sender, Bad> {
    let mut state = [0; lent_writer::SIZE];
    if lent_writer::fresh(&mut state, &h.numbers, u32::from(pointer)) != 0 {
        return Err(Bad::Range(h.setup()));
    }
    Ok(Sender {
        state,
        numbers: [0; NUMBERS],
        frame: 1,
    })
}

fn write(out: &mut Out, pointer: bool) -> Result<(), Bad> {
    let h = header::read(out)?;
    let sender = begin(h, pointer)?;
    out.put(&h.bytes);
    out.flush();
    send_all(out, sender, ROW * h.numbers[0] as usize);
    Ok(())
}

fn main(rt: HostRuntime) {
    stream::run_with(&rt, "write_frames", "--pointer", |out, pointer| {
        if let Err(bad) = write(out, pointer) {
            header::warn_refused(out, bad);
        }
    });
}
