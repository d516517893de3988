// Shows commands to the pod: standard input is command bytes of any length, standard output a line for each; at the end of input `unfinished` where it is inside one, or `input lost` where a read failed.
#![tactic(auto)]

ghost use Rattle.std.specs.Prelude.{◌≡◌, ◌≤◌, length};
ghost use Rattle.model.specs.Commands.{waits as waits_for};
ghost use Rattle.commands.specs.Seen.{answer_seen};

use commands::Answer;
use stream::{Ended, Out, Status, say};

// A refused command and one that will never be whole are refusals, the others are answers.
fn say_line(out: &mut Out, answer: Answer) {
    if matches!(answer, Answer::Refused | Answer::Unfinished) {
        out.mark(Status::Refused);
    }
    say!(out, "{answer}\n");
}

// More bytes may change this answer.
fn waits(answer: Answer) -> bool
    ensures { result ≡ waits_for (answer_seen answer) }
{
    matches!(answer, Answer::Unfinished | Answer::Nothing)
}

// Says each whole command; the place of the bytes that wait for more.
fn say_commands(out: &mut Out, bytes: &[u8]) -> usize
    ensures { result ≤ length bytes.now }
{
    let mut at = 0;
    while at < bytes.len() {
        let found = commands::read(bytes, at);
        at = found.next;
        if waits(found.answer) {
            return at;
        }
        say_line(out, found.answer);
    }
    at
}

// Fewer than 7 bytes wait, so the buffer never fills up with them.
fn answer(out: &mut Out) {
    let mut buf = io::large_buffer();
    match out.take_input(&mut buf, say_commands) {
        Ended::ReadFailed(_, why) => {
            out.read_failed(why);
            say!(out, "input lost\n");
        }
        Ended::Input(held) if held != 0 => say_line(out, Answer::Unfinished),
        _ => {}
    }
}

fn main(rt: HostRuntime) {
    stream::run(&rt, "show_commands", answer);
}
