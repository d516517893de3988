// Shows pod reports: standard input is pod bytes of any length, standard output a line for each answer but "more"; at the end of input `more` where a report is unfinished, or `input lost` where a read failed.
#![tactic(auto)]

use pod::PodState;
use stream::{Ended, Out, say};

fn answer(out: &mut Out) {
    let mut buf = io::large_buffer();
    let mut state = PodState::fresh();
    let ended = out.take_input(&mut buf, |out, bytes| {
        state = words::feed(out, state, bytes, true);
        bytes.len()
    });
    match ended {
        Ended::ReadFailed(_, why) => {
            out.read_failed(why);
            say!(out, "input lost\n");
        }
        Ended::Input(_) if state.count != 0 => say!(out, "more\n"),
        _ => {}
    }
}

fn main(rt: HostRuntime) {
    stream::run(&rt, "show_pod", answer);
}
