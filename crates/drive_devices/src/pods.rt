// The pod's calls: a fresh one, and bytes to it one after the other.
use drive_lines::kinds::POD;
use drive_lines::values;
use pod::PodState;
use stream::{Out, say};

pub fn pod_of(ns: &[u64]) -> PodState {
    PodState {
        waits: values::number(ns, 0) == 1,
        bytes: values::array_of(ns, 2),
        count: values::number(ns, 1) as usize,
    }
}

pub fn say_state(out: &mut Out, s: PodState) {
    say!(out, "{} {}", u8::from(s.waits), s.count);
    words::say_bytes(out, &s.bytes);
}

// The answer to each byte; between two of them stands a stroke.
pub fn bytes(out: &mut Out, ns: &[u64]) {
    let mut state = pod_of(ns);
    for (i, byte) in values::bytes_of(ns, POD).as_slice().iter().enumerate() {
        if i > 0 {
            say!(out, " / ");
        }
        let a = pod::step(state, *byte);
        state = a.state;
        say_state(out, state);
        say!(out, " {}", a.report);
    }
}

pub fn start(out: &mut Out) {
    say_state(out, PodState::fresh());
}
