// The calls of the force stick (K10): an answer read from bytes at a position, and a report's packet written into a buffer of marks.
use crate::say_buffer;
use drive_lines::kinds::READ_BYTES;
use drive_lines::values;
use force::{Answer, Report};
use stream::{Out, say};

// Where a line has the position and the size of a buffer, behind a report's six numbers.
const POSITION: usize = 6;

const SIZE: usize = 7;

fn say_report(out: &mut Out, r: Report) {
    say!(out, "0 {} {} {}", r.x, r.y, r.throttle);
    say!(out, " {} {} {}", r.buttons, r.hat, r.rudder);
}

// The answer's number and its values.
fn say_answer(out: &mut Out, a: Answer) {
    match a {
        Answer::Report(r) => say_report(out, r),
        Answer::NotForUs(op, len) => say!(out, "1 {op} {len}"),
        Answer::LengthOver => say!(out, "2"),
        Answer::WrongCheck => say!(out, "3"),
        Answer::Unfinished => say!(out, "4"),
        Answer::Nothing => say!(out, "5"),
    }
}

// A position stands before the bytes.
pub fn read(out: &mut Out, ns: &[u64]) {
    let position = values::number(ns, 0) as usize;
    let bytes = values::bytes_of(ns, READ_BYTES);
    let a = force::read(bytes.as_slice(), position);
    say_answer(out, a.answer);
    say!(out, " {}", a.next);
}

fn report_of(ns: &[u64]) -> Report {
    Report {
        x: values::signed_half(ns, 0),
        y: values::signed_half(ns, 1),
        throttle: values::byte(ns, 2),
        buttons: values::half(ns, 3),
        hat: values::byte(ns, 4),
        rudder: values::signed_byte(ns, 5),
    }
}

pub fn write(out: &mut Out, ns: &[u64]) {
    let position = values::number(ns, POSITION) as usize;
    let mut marks = values::marks();
    let buf = &mut marks[..values::size(ns, SIZE)];
    let a = force::write(report_of(ns), buf, position);
    say!(out, "{} {}", a.verdict, a.need);
    say_buffer(out, buf);
}
