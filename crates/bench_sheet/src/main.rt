// Runs the bench sheet of document 01: a line for each of its Run cases, but the small program's, with every number of the answer, and the cases of 02's requests.
// Reads no input.
#![tactic(auto)]

mod answers;

use answers::{say_bytes, say_reader, say_writer, say_written};
use common::TrackingId;
use panel::{Setup, Slot};
use pod::PodState;
use reader::ReaderState;
use stream::{Out, say};
use writer::WriterState;

// The sheet's largest x and y, its largest pressure, and its largest sizes.
const LARGEST: u32 = 4000;

const HARDEST: u32 = 255;

const WIDEST: u32 = 255;

// What a buffer holds before: no record of P2 has this byte, so a byte that was touched shows.
const FILLED: u8 = 170;

fn setup_of(n: usize) -> Setup {
    Setup {
        n,
        x: LARGEST,
        y: LARGEST,
        pressure: HARDEST,
        major: WIDEST,
        minor: WIDEST,
    }
}

// A writer of n slots that was never used.
fn fresh(n: usize, pointer: bool) -> WriterState {
    WriterState::fresh(setup_of(n), pointer).state
}

// A writer of one slot that holds a contact with these x, y, pressure, major and minor, or one that was lifted, with id -1.
fn holding(id: i32, numbers: [u32; 5], counter: u32) -> WriterState {
    let [x, y, pressure, major, minor] = numbers;
    let mut state = fresh(1, false);
    state.table[0] = Slot {
        id: TrackingId(id),
        x,
        y,
        pressure,
        major,
        minor,
    };
    state.counter = counter;
    state
}

// A writer's answer to a frame, with the whole buffer that it was lent. The state after it.
fn frame_case(
    out: &mut Out,
    name: &str,
    state: WriterState,
    frame: &[i32],
    buf: &mut [u8],
    at: usize,
) -> WriterState {
    let a = writer::write(state, frame, buf, at);
    say_written(out, name, &a, buf);
    a.state
}

// Id 7 is live while its own contact is replaced, so the new one takes 8: a writer that frees it first would send nothing.
fn counter_case(out: &mut Out) {
    let before = holding(7, [100, 200, 30, 0, 0], 7);
    let frame = [2, 100, 200, 30, 0, 0];
    frame_case(out, "counter 7", before, &frame, &mut [0; 16], 0);
}

// K8: a frame of one row for a writer of one slot whose contact, of an older table, has pressure 0.
fn pressure_case(out: &mut Out, kind: i32, pressure: i32) {
    let before = holding(0, [0, 200, 0, 0, 0], 1);
    let frame = [kind, 0, 200, pressure, 0, 0];
    say!(out, "kind {kind}, pressure {pressure}");
    frame_case(out, "", before, &frame, &mut [FILLED; 16], 0);
}

fn pressure_cases(out: &mut Out) {
    pressure_case(out, 1, 0);
    pressure_case(out, 2, 0);
    pressure_case(out, 1, 1);
    pressure_case(out, 0, 0);
}

// A frame of one row after a gloved contact of one slot: it is there with id 0, or was lifted.
fn glove_case(out: &mut Out, name: &str, id: i32, frame: &[i32]) {
    let before = holding(id, [100, 200, 30, 80, 40], 1);
    frame_case(out, name, before, frame, &mut [FILLED; 16], 0);
}

// K1.
fn glove_cases(out: &mut Out) {
    let glove = [1, 100, 200, 30, 80, 40];
    let unused = fresh(1, false);
    frame_case(out, "a glove lands", unused, &glove, &mut [FILLED; 56], 0);
    glove_case(out, "major changes", 0, &[1, 100, 200, 30, 90, 40]);
    glove_case(out, "minor changes", 0, &[1, 100, 200, 30, 80, 50]);
    glove_case(out, "the glove lifts", 0, &[0; 6]);
    glove_case(out, "it lands again", -1, &glove);
    glove_case(out, "major 256", 0, &[1, 100, 200, 30, 256, 40]);
}

// One finger, two, and the second alone.
const FIRST: [i32; 12] = [1, 100, 200, 30, 0, 0, 0, 0, 0, 0, 0, 0];

const BOTH: [i32; 12] = [1, 100, 200, 30, 0, 0, 1, 300, 400, 30, 0, 0];

const YOUNGER: [i32; 12] = [0, 0, 0, 0, 0, 0, 1, 300, 400, 30, 0, 0];

// K6: a writer of two slots with pointer emulation, frame after frame. The first touch fills the buffer: no other of the frames has as many events.
fn pointer_frames(out: &mut Out) {
    let frames = [
        ("a first touch", FIRST),
        ("a second finger", BOTH),
        ("the oldest lifts", YOUNGER),
        ("all lift", [0; 12]),
    ];
    let mut state = fresh(2, true);
    for (name, frame) in frames {
        state = frame_case(out, name, state, &frame, &mut [FILLED; 72], 0);
    }
}

fn pointer_cases(out: &mut Out) {
    pointer_frames(out);
    // The need counts the emulated events: the first touch has five of its own, in 40 bytes.
    let name = "a first touch with 71";
    frame_case(out, name, fresh(2, true), &FIRST, &mut [FILLED; 71], 0);
    // With the option off a state that holds a rank is not well formed.
    let mut stray = fresh(2, false);
    stray.ranks[1] = 1;
    let name = "a rank without the option";
    frame_case(out, name, stray, &FIRST, &mut [FILLED; 40], 0);
}

// P2 after P1, into too small a buffer and into one that is as long as it needs. Its bytes begin behind others.
fn room_cases(out: &mut Out) {
    const AT: usize = 3;
    let p1 = writer::write(fresh(2, false), &FIRST, &mut [0; 40], 0).state;
    frame_case(out, "P2 with 47", p1, &BOTH, &mut [FILLED; AT + 47], AT);
    frame_case(out, "P2 with 48", p1, &BOTH, &mut [FILLED; AT + 48], AT);
}

fn setup_case(out: &mut Out, n: usize) {
    let w = WriterState::fresh(setup_of(n), false);
    say!(out, "n {n}: writer verdict {}", w.verdict);
    say_writer(out, &w.state);
    let r = ReaderState::fresh(n, LARGEST, LARGEST, HARDEST, WIDEST, WIDEST);
    say!(out, " reader verdict {}", r.verdict);
    say_reader(out, &r.state);
    say!(out, "\n");
}

// The bytes in hexadecimal, and the answer to each from a fresh state on; the state after them.
fn pod_case(out: &mut Out, bytes: &[u8]) {
    for (i, byte) in bytes.iter().enumerate() {
        let between = if i == 0 { "" } else { " " };
        say!(out, "{between}{byte:02X}");
    }
    say!(out, ":");
    let s = words::feed(out, PodState::fresh(), bytes, false);
    say!(out, " waits {} count {}", u8::from(s.waits), s.count);
    say_bytes(out, &s.bytes);
}

fn pod_cases(out: &mut Out) {
    pod_case(out, b"\xfa\x00\x00");
    pod_case(out, b"\xfe\x81");
    pod_case(out, b"\xff\x10");
    pod_case(out, b"\xf7\x05\x01\x2c\x00\xc8");
    // Keys.
    pod_case(out, b"\x75");
    pod_case(out, b"\xf5");
    // Bad bytes.
    pod_case(out, b"\x00");
    pod_case(out, b"\x76");
    pod_case(out, b"\x80");
    pod_case(out, b"\xf6");
    // K3: the first 0xF0 that stands as a first byte, and the next; others inside a report.
    pod_case(out, b"\xf0\xf0");
    pod_case(out, b"\xf7\xf0\x00\x00\x00\x00\xf0");
    pod_case(out, b"\xf8\xf0\xf0");
    pod_case(out, b"\xf1");
    // K13: the time of day, and a wrong digit of it.
    pod_case(out, b"\xfc\x26\x11\x16\x04\x59\x30");
    pod_case(out, b"\xfc\x26\x11\x16\x04\x5a\x30");
}

fn answer(out: &mut Out) {
    counter_case(out);
    pod_cases(out);
    room_cases(out);
    pressure_cases(out);
    glove_cases(out);
    pointer_cases(out);
    for n in [0, 1, 32, 33] {
        setup_case(out, n);
    }
}

fn main(rt: HostRuntime) {
    stream::run(&rt, "bench_sheet", answer);
}
