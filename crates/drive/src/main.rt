// Makes each call of a script on the proved library and prints every part of its answer: docs/DRIVE.md. What an independent program is compared through.
#![tactic(auto)]

mod answers;
mod crane;
mod cut;
mod parts;
mod states;

use arrayvec::ArrayVec;
use drive_lines::numbers;
use drive_lines::numbers::NUMBERS;
use stream::{Ended, Out, Status, say};

// The most bytes of a line with its end.
const LINE: usize = 65536;

// A line that is longer, of which only the last bytes are held. A comment may have any length.
#[derive(Clone, Copy)]
enum Long {
    Comment,
    NoCall,
}

// A script as it is read: the numbers of the line that was read last; what is known of a line whose first bytes are gone; and how many bytes at the front have no newline. Looked through again for each byte that comes, a long line would cost the square of its length.
#[derive(Drop)]
struct Script {
    ns: ArrayVec<u64, NUMBERS>,
    long: Option<Long>,
    looked: usize,
}

fn bad_line(out: &mut Out) {
    out.mark(Status::Refused);
    say!(out, "bad line\n");
}

fn is_comment(line: &[u8]) -> bool {
    line.first() == Some(&b'#')
}

impl Script {
    fn answer(&mut self, out: &mut Out, line: &[u8]) {
        match numbers::read(line, &mut self.ns) {
            Some(call) if answers::together(call, self.ns.as_slice()) => {
                answers::answer(out, call, self.ns.as_slice());
                say!(out, "\n");
            }
            _ => bad_line(out),
        }
    }

    // The end of a line, of which these bytes are held.
    fn end_line(&mut self, out: &mut Out, line: &[u8]) {
        match self.long.take() {
            Some(Long::NoCall) => bad_line(out),
            Some(Long::Comment) => {}
            None if line.is_empty() || is_comment(line) => {}
            None => self.answer(out, line),
        }
    }

    // Answers the lines that are there, and says how many bytes they are. The rest begins a line, unless it fills the buffer: that line is too long.
    fn take(&mut self, out: &mut Out, bytes: &[u8]) -> usize {
        let looked = self.looked.min(bytes.len());
        self.looked = 0;
        if let Some(found) = bytes[looked..].iter().rposition(|b| *b == b'\n') {
            let last = looked + found;
            for line in bytes[..last].split(|b| *b == b'\n') {
                self.end_line(out, line);
            }
            self.looked = bytes.len() - last - 1;
            return last + 1;
        }
        if bytes.len() < LINE {
            self.looked = bytes.len();
            return 0;
        }
        let begun = if is_comment(bytes) {
            Long::Comment
        } else {
            Long::NoCall
        };
        self.long = self.long.or(Some(begun));
        bytes.len()
    }
}

fn run(out: &mut Out) {
    let mut buf = [0; LINE];
    let mut script = Script {
        ns: ArrayVec::new(),
        long: None,
        looked: 0,
    };
    match out.take_input(&mut buf, |out, bytes| script.take(out, bytes)) {
        Ended::Input(left) => script.end_line(out, &buf[..left]),
        // A line that a failed read cut off is not answered: nobody knows what it was.
        Ended::ReadFailed(_, why) => out.read_failed(why),
        Ended::WriteFailed => {}
    }
}

fn main(rt: HostRuntime) {
    stream::run(&rt, "drive", run);
}
