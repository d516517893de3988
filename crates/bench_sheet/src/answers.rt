// Answers with every number of them, in a row.
use panel::{RECORDS, Setup, Slot};
use reader::ReaderState;
use stream::{Out, say};
use writer::{WriterState, Written};

fn say_setup(out: &mut Out, s: Setup) {
    say!(out, " setup {}", s.n);
    words::say_largest(out, s);
}

// The numbers of a slot stand closer than the slots.
fn say_table(out: &mut Out, name: &str, table: &[Slot; RECORDS]) {
    say!(out, " {name}");
    for s in table {
        say!(out, " {},{},{},", s.id.0, s.x, s.y);
        say!(out, "{},{},{}", s.pressure, s.major, s.minor);
    }
}

pub fn say_writer(out: &mut Out, s: &WriterState) {
    say_setup(out, s.setup);
    say!(out, " current {} counter {}", s.current.0, s.counter);
    say_table(out, "table", &s.table);
    // What it holds for pointer emulation.
    let p = s.told;
    say!(out, " pointer {}", u8::from(s.pointer));
    say!(
        out,
        " touch {} tool {} x {} y {}",
        p.touch,
        p.tool,
        p.x,
        p.y
    );
    say!(out, " ranks");
    words::say_bytes(out, &s.ranks);
}

pub fn say_reader(out: &mut Out, s: &ReaderState) {
    say!(out, " {}", s.mode);
    say_setup(out, s.setup);
    say!(out, " current {}", s.current.0);
    say_table(out, "shown", &s.shown);
    say_table(out, "pending", &s.pending);
}

// The last of a line.
pub fn say_bytes(out: &mut Out, bytes: &[u8]) {
    say!(out, " bytes");
    words::say_bytes(out, bytes);
    say!(out, "\n");
}

// A writer's answer, with the whole buffer that it was lent.
pub fn say_written(out: &mut Out, name: &str, a: &Written, buf: &[u8]) {
    say!(out, "{name}: verdict {} count {} ", a.verdict, a.count);
    say!(out, "changed {} need {}", a.changed, a.need);
    say_writer(out, &a.state);
    say_bytes(out, buf);
}
