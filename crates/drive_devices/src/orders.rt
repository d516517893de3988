// The calls of the commands to the pod (K13): an answer read from bytes at a position, and a command written into a buffer of marks.
ghost use Rattle.std.specs.Prelude.{◌≤◌};

use crate::{pods, say_buffer};
use commands::{
    AbsoluteMode, AskClock, ButtonAction, Command, Interrogate, LoadPosition, RelativeMode, Reset,
    Scale, SetClock, Threshold,
};
use drive_lines::kinds::{COMMAND_NUMBERS, POD, READ_BYTES};
use drive_lines::values;
use pod::Clock;
use stream::{Out, say};

// Where a line has the position, the size and the command behind a pod, and the command's numbers.
const POSITION: usize = POD;

const SIZE: usize = POD + 1;

const COMMAND: usize = POD + 2;

const FIRST: usize = COMMAND_NUMBERS;

// docs/DRIVE.md numbers the commands.
const ABSOLUTE: u64 = 3;

const LOAD: u64 = 7;

const LAST: u64 = 9;

// How many numbers a command has.
fn numbers_of(command: u64) -> usize
    ensures { result ≤ 6 }
{
    match command {
        1 => 1,
        3..=5 => 2,
        7 => 2,
        8 => 6,
        _ => 0,
    }
}

// Whether the command is one, and its numbers are as many and as wide as it has them: two commands' have 16 bits, as their kind has, and those of the others are bytes.
pub fn whole(ns: &[u64]) -> bool {
    let command = values::number(ns, COMMAND);
    command <= LAST
        && ns.len() == FIRST + numbers_of(command)
        && (command == ABSOLUTE || command == LOAD || values::are_bytes(ns, FIRST))
}

fn command_of(ns: &[u64]) -> Command {
    let x = values::half(ns, FIRST);
    let y = values::half(ns, FIRST + 1);
    let [a, b, c, d, e, g]: [u8; 6] = values::array_of(ns, FIRST);
    match values::number(ns, COMMAND) {
        0 => Command::Reset(Reset {}),
        1 => Command::ButtonAction(ButtonAction { action: a }),
        2 => Command::RelativeMode(RelativeMode {}),
        3 => Command::AbsoluteMode(AbsoluteMode { x, y }),
        4 => Command::Threshold(Threshold { x: a, y: b }),
        5 => Command::Scale(Scale { x: a, y: b }),
        6 => Command::Interrogate(Interrogate {}),
        7 => Command::LoadPosition(LoadPosition { x, y }),
        8 => Command::SetClock(SetClock {
            clock: Clock {
                year: a,
                month: b,
                day: c,
                hour: d,
                minute: e,
                second: g,
            },
        }),
        _ => Command::AskClock(AskClock {}),
    }
}

// Where reading goes on stands first.
pub fn read(out: &mut Out, ns: &[u64]) {
    let position = values::number(ns, 0) as usize;
    let bytes = values::bytes_of(ns, READ_BYTES);
    let a = commands::read(bytes.as_slice(), position);
    say!(out, "{} {}", a.next, a.answer);
}

pub fn write(out: &mut Out, ns: &[u64]) {
    let position = values::number(ns, POSITION) as usize;
    let mut marks = values::marks();
    let buf = &mut marks[..values::size(ns, SIZE)];
    let a = commands::write(pods::pod_of(ns), command_of(ns), buf, position);
    say!(out, "{} ", a.verdict);
    pods::say_state(out, a.state);
    say!(out, " {}", a.need);
    say_buffer(out, buf);
}
