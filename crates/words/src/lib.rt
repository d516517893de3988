// Pod reports, tables and runs of numbers in words, on a program's output: what the programs have in common. It promises nothing about a stream but that saying ends.
#![tactic(auto)]

ghost use Rattle.std.specs.Prelude.{◌≡◌};
ghost use Rattle.pod.specs.Seen.{state_after};

use panel::{RECORDS, Setup, Slot};
use pod::{PodState, Report};
use stream::{Out, say};

// An answer on a line of its own, unless it is "more"; or all answers on one line.
fn say_answer(out: &mut Out, report: Report, lines: bool) {
    match report {
        _ if !lines => say!(out, " {report};"),
        Report::More => {}
        _ => say!(out, "{report}\n"),
    }
}

// Says the answer of each byte; the state after them. Which of the two ways is a flag and no closure: the law `feed_state` is of a contract without type parameters.
pub fn feed(out: &mut Out, begun: PodState, bytes: &[u8], lines: bool) -> PodState
    ensures { result ≡ state_after begun bytes.now }
{
    let mut state = begun;
    for byte in bytes {
        let answer = pod::step(state, *byte);
        say_answer(out, answer.report, lines);
        state = answer.state;
    }
    state
}

// A setup's largest values, each after a blank.
pub fn say_largest(out: &mut Out, s: Setup) {
    say!(
        out,
        " {} {} {} {} {}",
        s.x,
        s.y,
        s.pressure,
        s.major,
        s.minor
    );
}

// The first n slots of a table, a line each after its number.
pub fn say_lines(out: &mut Out, table: &[Slot; RECORDS], n: usize) {
    for (k, slot) in table.iter().enumerate().take(n) {
        say!(out, "{k} {slot}\n");
    }
}

// A whole table on one line, each slot after a blank.
pub fn say_table(out: &mut Out, table: &[Slot; RECORDS]) {
    for slot in table {
        say!(out, " {slot}");
    }
}

// Numbers, each after a blank.
pub fn say_bytes(out: &mut Out, bytes: &[u8]) {
    for b in bytes {
        say!(out, " {b}");
    }
}
