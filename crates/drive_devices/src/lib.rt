// What a script's calls of the devices beside the panel answer: the pod, the commands to it, the shift recorder and the force stick.
// `answer` makes a call on the proved library and says every part of its answer; `say_buffer` is for the panel's calls too.
#![tactic(auto)]

mod blocks;
mod orders;
mod pods;
mod stick;

use drive_lines::calls::Call;
use stream::{Out, say};

// A buffer's bytes behind an answer's numbers.
pub fn say_buffer(out: &mut Out, bytes: &[u8]) {
    say!(out, " :");
    words::say_bytes(out, bytes);
}

// A call that is no device's is answered by nothing.
pub fn answer(out: &mut Out, call: Call, ns: &[u64]) {
    match call {
        Call::Start => pods::start(out),
        Call::Pod => pods::bytes(out, ns),
        Call::RecorderBlock => blocks::block(out, ns),
        Call::RecorderLay => blocks::lay(out, ns),
        Call::RecorderRead => blocks::read(out, ns),
        Call::ForceRead => stick::read(out, ns),
        Call::ForceWrite => stick::write(out, ns),
        Call::CommandsRead => orders::read(out, ns),
        Call::CommandsWrite => orders::write(out, ns),
        _ => {}
    }
}

// What the numbers of a device's call must be beyond their kinds.
pub fn together(call: Call, ns: &[u64]) -> bool {
    call != Call::CommandsWrite || orders::whole(ns)
}
