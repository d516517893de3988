// Writes a force stick's packets: standard input is reports of 9 bytes, little-endian, x and y (16 bits, signed), throttle, buttons (16 bits), hat and rudder (signed); standard output is a packet for each.
// A refusal is a line on standard error, and the next report goes on.
#![tactic(auto)]

use common::Verdict;
use force::Report;
use stream::{Ended, Out, Status, warn};

// The bytes of a report.
const BYTES: usize = 9;

fn report_of(b: [u8; BYTES]) -> Report {
    Report {
        x: force::word_of(b[0], b[1]),
        y: force::word_of(b[2], b[3]),
        throttle: b[4],
        buttons: force::join(b[5], b[6]),
        hat: b[7],
        rudder: force::signed_byte(b[8]),
    }
}

// A number that is over the most.
fn warn_over(out: &mut Out, what: &str, v: u16, most: u16) {
    if v > most {
        warn!(out, "{what} {v}, and must be 0 to {most}; ");
    }
}

// What is out of range in a report that was refused.
fn explain(out: &mut Out, r: Report) {
    let name = out.name();
    warn!(out, "{name}: ");
    warn_over(out, "buttons are", r.buttons, force::MOST_BUTTONS);
    warn_over(
        out,
        "the hat is",
        u16::from(r.hat),
        u16::from(force::MOST_HAT),
    );
    warn!(out, "nothing was sent for this report\n");
}

// The number of the report that comes next, from 1, and whether a refusal was explained.
#[derive(Clone, Copy)]
struct Sending {
    report: u64,
    explained: bool,
}

impl Sending {
    // The line of a refusal; the first one is explained.
    fn refuse(&mut self, out: &mut Out, r: Report, verdict: Verdict) {
        warn!(out, "report {} ", self.report);
        out.warn_refused(verdict);
        if !self.explained {
            explain(out, r);
        }
        self.explained = true;
    }

    fn send(&mut self, out: &mut Out, r: Report) {
        let mut packet = [0; force::LENGTH];
        match force::write(r, &mut packet, 0).verdict {
            Verdict::Accepted => out.put(&packet),
            refusal => self.refuse(out, r, refusal),
        }
        self.report = self.report.wrapping_add(1);
    }

    // Each whole report; how many bytes they have. After a failed write none is told of any more.
    fn send_reports(&mut self, out: &mut Out, bytes: &[u8]) -> usize {
        let (reports, rest) = bytes.as_chunks::<BYTES>();
        for report in reports {
            if !out.is_broken() {
                self.send(out, report_of(*report));
            }
        }
        bytes.len() - rest.len()
    }
}

fn answer(out: &mut Out) {
    let mut buf = io::large_buffer();
    let mut sending = Sending {
        report: 1,
        explained: false,
    };
    let ended = out.take_input(&mut buf, |out, bytes| sending.send_reports(out, bytes));
    match ended {
        Ended::ReadFailed(_, why) => {
            out.read_failed(why);
            let name = out.name();
            warn!(out, "{name}: input was lost, and no packet can say so\n");
        }
        Ended::Input(held) if held != 0 => {
            out.mark(Status::Refused);
            warn!(out, "report {} cut\n", sending.report);
        }
        _ => {}
    }
}

fn main(rt: HostRuntime) {
    stream::run(&rt, "write_force", answer);
}
