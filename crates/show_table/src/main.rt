// Document 01's small program: reads a setup and event records from standard input and shows what a fresh reader makes of them.
#![tactic(auto)]

use common::Verdict;
use ending::Tally;
use header::Bad;
use pieces::LineState;
use stream::{Ended, Out, warn};

// A piece as the line delivered it. It refuses no state that came from fresh, so there is no verdict to look at.
fn take_piece(line: &mut LineState, tally: &mut Tally, bytes: &[u8]) {
    let came = (line.count as u64).wrapping_add(bytes.len() as u64);
    let a = pieces::take(*line, bytes);
    *line = a.state;
    tally.add(came / 8, a.counts);
}

fn refuse_rest(out: &mut Out, rest: usize) {
    out.say_refused(Verdict::Ragged);
    warn!(
        out,
        "{}: the last record is cut: {rest} of 8 bytes\n",
        out.name()
    );
}

fn show(out: &mut Out, begun: LineState) {
    let mut buf = io::large_buffer();
    let mut line = begun;
    let mut tally = Tally::default();
    let ended = out.take_input(&mut buf, |_, bytes| {
        take_piece(&mut line, &mut tally, bytes);
        bytes.len()
    });
    match ended {
        Ended::ReadFailed(_, why) => {
            ending::warn_lost(out, why);
            ending::say_end(out, tally, ending::lose(line.reader));
        }
        _ if line.count != 0 => refuse_rest(out, line.count),
        _ => ending::say_end(out, tally, line.reader),
    }
}

fn begin(out: &mut Out) -> Result<LineState, Bad> {
    let s = header::read(out)?.setup();
    let a = LineState::fresh(s.n, s.x, s.y, s.pressure, s.major, s.minor);
    match a.verdict {
        Verdict::Accepted => Ok(a.state),
        _ => Err(Bad::Range(s)),
    }
}

fn answer(out: &mut Out) {
    match begin(out) {
        Ok(line) => show(out, line),
        Err(bad) => header::say_refused(out, bad),
    }
}

fn main(rt: HostRuntime) {
    stream::run(&rt, "show_table", answer);
}
