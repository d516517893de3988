// Writes commands to the pod: standard input is lines as show_commands prints them for commands, standard output their bytes. A line that is refused or is no command is said on standard error, and the next goes on.
#![tactic(auto)]

use command_words::Wrong;
use commands::Command;
use common::Verdict;
use pod::PodState;
use stream::{Ended, Out, Status, warn};

// A line is no longer than this.
const LINE: usize = 64;

// More than any command has bytes.
const ROOM: usize = 8;

// What is said once, of the first line that is refused and of the first that is no command.
const RANGES: &str =
    "buttons are 0 to 4, threshold and scale 1 to 255, absolute and load 0 to 65535, a clock's numbers two digits each";

const COMMANDS: &str =
    "a command is reset, buttons A, relative, absolute X Y, threshold X Y, scale X Y, where, load X Y, set clock YY MM DD hh mm ss or ask clock";

// The pod's state, the number of the line that comes next, from 1, and whether each kind of refusal was explained.
#[derive(Clone, Copy)]
struct Writing {
    state: PodState,
    line: u64,
    ranges_told: bool,
    commands_told: bool,
}

fn explain(out: &mut Out, told: bool, what: &str) {
    if !told {
        let name = out.name();
        warn!(out, "{name}: {what}; nothing was sent for this line\n");
    }
}

impl Writing {
    // A command that cannot be sent.
    fn refuse(&mut self, out: &mut Out, verdict: Verdict) {
        warn!(out, "line {} ", self.line);
        out.warn_refused(verdict);
        explain(out, self.ranges_told, RANGES);
        self.ranges_told = true;
    }

    // A line that is no command.
    fn pass_over(&mut self, out: &mut Out) {
        out.mark(Status::Refused);
        warn!(out, "line {} is not a command\n", self.line);
        explain(out, self.commands_told, COMMANDS);
        self.commands_told = true;
    }

    fn send(&mut self, out: &mut Out, command: Command) {
        let mut bytes = [0; ROOM];
        let written = commands::write(self.state, command, &mut bytes, 0);
        match written.verdict {
            Verdict::Accepted => {
                self.state = written.state;
                out.put(&bytes[..commands::size_of(command).min(ROOM)]);
            }
            refusal => self.refuse(out, refusal),
        }
    }

    // A whole line, its end left out.
    fn answer_line(&mut self, out: &mut Out, line: &[u8]) {
        if line.len() > LINE {
            self.pass_over(out);
        } else {
            match command_words::command_of(line) {
                Ok(command) => self.send(out, command),
                Err(Wrong::OutOfRange) => self.refuse(out, Verdict::Command),
                Err(Wrong::NotACommand) => self.pass_over(out),
            }
        }
        self.line = self.line.wrapping_add(1);
    }

    // The lines that are whole; how many bytes they have. Of a line that is too long already its last bytes are kept, which are still too many.
    fn answer_lines(&mut self, out: &mut Out, bytes: &[u8]) -> usize {
        let mut rest = bytes;
        while let Some(end) = rest.iter().position(|b| *b == b'\n') {
            self.answer_line(out, &rest[..end]);
            rest = &rest[end + 1..];
        }
        bytes.len().saturating_sub(rest.len().min(LINE + 1))
    }
}

fn answer(out: &mut Out) {
    let mut buf = io::large_buffer();
    let mut writing = Writing {
        state: PodState::fresh(),
        line: 1,
        ranges_told: false,
        commands_told: false,
    };
    let ended = out.take_input(&mut buf, |out, bytes| writing.answer_lines(out, bytes));
    match ended {
        // A line that a failed read cut off is not sent: nobody knows what it was.
        Ended::ReadFailed(_, why) => {
            out.read_failed(why);
            let name = out.name();
            warn!(out, "{name}: input was lost, and no command can say so\n");
        }
        // A last line may lack its end.
        Ended::Input(held) if held != 0 => writing.answer_line(out, &buf[..held]),
        _ => {}
    }
}

fn main(rt: HostRuntime) {
    stream::run(&rt, "write_commands", answer);
}
