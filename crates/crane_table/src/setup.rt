// The setup in front of a crane's input, as the product's writer sends it: 24 bytes, n, largest x, y, pressure, major and minor, each 32 bits and little-endian. A crane uses the first four and does not judge the sizes.
use common::Verdict;
use crane_panel::{MOST_POSITION, MOST_PRESSURE, RECORDS, Setup};
use stream::{Out, Stop, warn};

const BYTES: usize = 24;

// Why there is no good setup: the input was cut after so many bytes, or a number is out of its range.
#[derive(Clone, Copy)]
pub enum Bad {
    Cut(usize),
    Range(Setup),
}

// The four numbers, whose ranges are not judged yet. A failed read is said here.
pub fn read(out: &mut Out) -> Result<Setup, Bad> {
    let mut b = [0; BYTES];
    let filled = out.fill(&mut b);
    match filled.stop {
        Stop::Full => Ok(Setup {
            n: records::join32(b[0], b[1], b[2], b[3]) as usize,
            x: records::join32(b[4], b[5], b[6], b[7]),
            y: records::join32(b[8], b[9], b[10], b[11]),
            pressure: records::join32(b[12], b[13], b[14], b[15]),
        }),
        Stop::Ended => Err(Bad::Cut(filled.n)),
        Stop::Failed(why) => {
            out.read_failed(why);
            Err(Bad::Cut(filled.n))
        }
    }
}

// What is wrong with a setup that was refused, a line for each number out of its range.
fn explain(out: &mut Out, bad: Bad) {
    match bad {
        Bad::Cut(count) => warn!(
            out,
            "{}: the setup is cut: {count} of {BYTES} bytes\n",
            out.name()
        ),
        Bad::Range(s) => {
            out.warn_range("n", s.n as u64, RECORDS as u64);
            out.warn_range("the largest x", u64::from(s.x), MOST_POSITION as u64);
            out.warn_range("the largest y", u64::from(s.y), MOST_POSITION as u64);
            out.warn_range(
                "the largest pressure",
                u64::from(s.pressure),
                MOST_PRESSURE as u64,
            );
        }
    }
}

pub fn say_refused(out: &mut Out, bad: Bad) {
    out.say_refused(Verdict::Setup);
    explain(out, bad);
}
