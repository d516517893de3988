// Shows a force stick's packets: standard input is bytes of any length, standard output a line for each packet; at the end of input `unfinished` where it is inside one, or `input lost` where a read failed.
#![tactic(auto)]

ghost use Rattle.std.specs.Prelude.{◌≡◌, ◌≤◌, length};
ghost use Rattle.model.specs.Force.{waits as waits_for};
ghost use Rattle.force.specs.Seen.{answer_seen};

use force::Answer;
use stream::{Ended, Out, Status, say};

// A packet that is refused, or will never be whole, is a refusal; one that is not for us is an answer.
fn say_line(out: &mut Out, answer: Answer) {
    if matches!(
        answer,
        Answer::LengthOver | Answer::WrongCheck | Answer::Unfinished
    ) {
        out.mark(Status::Refused);
    }
    say!(out, "{answer}\n");
}

// More bytes may change this answer.
fn waits(answer: Answer) -> bool
    ensures { result ≡ waits_for (answer_seen answer) }
{
    matches!(answer, Answer::Unfinished | Answer::Nothing)
}

// Says each whole packet; the place of the bytes that wait for more.
fn say_packets(out: &mut Out, bytes: &[u8]) -> usize
    ensures { result ≤ length bytes.now }
{
    let mut at = 0;
    while at < bytes.len() {
        let found = force::read(bytes, at);
        at = found.next;
        if waits(found.answer) {
            return at;
        }
        say_line(out, found.answer);
    }
    at
}

// Fewer than 20 bytes wait, so the buffer never fills up with them.
fn answer(out: &mut Out) {
    let mut buf = io::large_buffer();
    match out.take_input(&mut buf, say_packets) {
        Ended::ReadFailed(_, why) => {
            out.read_failed(why);
            say!(out, "input lost\n");
        }
        Ended::Input(held) if held != 0 => say_line(out, Answer::Unfinished),
        _ => {}
    }
}

fn main(rt: HostRuntime) {
    stream::run(&rt, "show_force", answer);
}
