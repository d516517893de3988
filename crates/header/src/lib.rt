// The setup in front of a program's input: n, largest x, y, pressure, major and minor, each 32 bits and little-endian; what was wrong with them, in words; and a loss, passed on.
#![tactic(auto)]

mod loss;

use common::Verdict;
pub use loss::send_dropped;
use panel::{MOST_POSITION, MOST_PRESSURE, MOST_SIZE, RECORDS, Setup};
use stream::{Out, Stop, warn};

pub const BYTES: usize = 24;

// The six numbers of a setup, and the bytes that they came in.
#[derive(Clone, Copy)]
pub struct Header {
    pub numbers: [u32; 6],
    pub bytes: [u8; BYTES],
}

impl Header {
    fn of(b: [u8; BYTES]) -> Header {
        Header {
            numbers: [
                records::join32(b[0], b[1], b[2], b[3]),
                records::join32(b[4], b[5], b[6], b[7]),
                records::join32(b[8], b[9], b[10], b[11]),
                records::join32(b[12], b[13], b[14], b[15]),
                records::join32(b[16], b[17], b[18], b[19]),
                records::join32(b[20], b[21], b[22], b[23]),
            ],
            bytes: b,
        }
    }

    pub fn setup(&self) -> Setup {
        let [n, x, y, pressure, major, minor] = self.numbers;
        Setup {
            n: n as usize,
            x,
            y,
            pressure,
            major,
            minor,
        }
    }
}

// Why there is no good setup: the input was cut after so many bytes, or a number is out of its range.
#[derive(Clone, Copy)]
pub enum Bad {
    Cut(usize),
    Range(Setup),
}

// The setup, whose ranges are not judged yet. A failed read is said here.
pub fn read(out: &mut Out) -> Result<Header, Bad> {
    let mut bytes = [0; BYTES];
    let filled = out.fill(&mut bytes);
    match filled.stop {
        Stop::Full => Ok(Header::of(bytes)),
        Stop::Ended => Err(Bad::Cut(filled.n)),
        Stop::Failed(why) => {
            out.read_failed(why);
            Err(Bad::Cut(filled.n))
        }
    }
}

// What is wrong with a setup that was refused, a line for each number out of its range.
fn explain(out: &mut Out, bad: Bad) {
    match bad {
        Bad::Cut(count) => warn!(
            out,
            "{}: the setup is cut: {count} of {BYTES} bytes\n",
            out.name()
        ),
        Bad::Range(s) => {
            out.warn_range("n", s.n as u64, RECORDS as u64);
            out.warn_range("the largest x", u64::from(s.x), MOST_POSITION as u64);
            out.warn_range("the largest y", u64::from(s.y), MOST_POSITION as u64);
            out.warn_range(
                "the largest pressure",
                u64::from(s.pressure),
                MOST_PRESSURE as u64,
            );
            out.warn_range("the largest major", u64::from(s.major), MOST_SIZE as u64);
            out.warn_range("the largest minor", u64::from(s.minor), MOST_SIZE as u64);
        }
    }
}

// A refused setup, where standard output has the answer.
pub fn say_refused(out: &mut Out, bad: Bad) {
    out.say_refused(Verdict::Setup);
    explain(out, bad);
}

// And where standard output has data.
pub fn warn_refused(out: &mut Out, bad: Bad) {
    out.warn_refused(Verdict::Setup);
    explain(out, bad);
}
