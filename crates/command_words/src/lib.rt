// A line as a command to the pod, 02's K13: what show_commands prints for a command is what write_commands takes. It promises nothing but that it is safe and ends.
#![tactic(auto)]

use arrayvec::ArrayVec;
use commands::{
    AbsoluteMode, AskClock, ButtonAction, Command, Interrogate, LoadPosition, RelativeMode, Reset,
    Scale, SetClock, Threshold,
};
use pod::Clock;
use std::num::ParseIntError;
use std::str;
use std::str::FromStr;

// Why a line gives no command: it is none, or a number of it is one that no command can hold.
#[derive(Clone, Copy, Debug, PartialEq, Eq)]
pub enum Wrong {
    NotACommand,
    OutOfRange,
}

// The most words of a command: those of a set clock.
const MOST_WORDS: usize = 8;

// One digit or more, and nothing else: no sign, and nothing where two blanks stand.
fn is_number(word: &str) -> bool {
    !word.is_empty() && word.bytes().all(|b| b.is_ascii_digit())
}

// A number's value: digits fail to parse only where the type does not hold it.
fn value<T: FromStr<Err = ParseIntError>>(number: &str) -> Result<T, Wrong> {
    number.parse().map_err(|_| Wrong::OutOfRange)
}

// Two digits as they stand in a clock byte, a half of it each.
fn packed(number: &str) -> Result<u8, Wrong> {
    if number.len() != 2 {
        return Err(Wrong::OutOfRange);
    }
    u8::from_str_radix(number, 16).map_err(|_| Wrong::OutOfRange)
}

fn set_clock(numbers: &[&str]) -> Result<Command, Wrong> {
    let [year, month, day, hour, minute, second] = numbers else {
        return Err(Wrong::NotACommand);
    };
    let clock = Clock {
        year: packed(year)?,
        month: packed(month)?,
        day: packed(day)?,
        hour: packed(hour)?,
        minute: packed(minute)?,
        second: packed(second)?,
    };
    Ok(Command::SetClock(SetClock { clock }))
}

// A command by its name and its numbers. How many these are is looked at before what they are: a line with one too many is no command.
fn command_from(name: &[&str], numbers: &[&str]) -> Result<Command, Wrong> {
    Ok(match (name, numbers) {
        (["reset"], []) => Command::Reset(Reset {}),
        (["buttons"], [action]) => Command::ButtonAction(ButtonAction {
            action: value(action)?,
        }),
        (["relative"], []) => Command::RelativeMode(RelativeMode {}),
        (["absolute"], [x, y]) => Command::AbsoluteMode(AbsoluteMode {
            x: value(x)?,
            y: value(y)?,
        }),
        (["threshold"], [x, y]) => Command::Threshold(Threshold {
            x: value(x)?,
            y: value(y)?,
        }),
        (["scale"], [x, y]) => Command::Scale(Scale {
            x: value(x)?,
            y: value(y)?,
        }),
        (["where"], []) => Command::Interrogate(Interrogate {}),
        (["load"], [x, y]) => Command::LoadPosition(LoadPosition {
            x: value(x)?,
            y: value(y)?,
        }),
        (["set", "clock"], _) => set_clock(numbers)?,
        (["ask", "clock"], []) => Command::AskClock(AskClock {}),
        _ => return Err(Wrong::NotACommand),
    })
}

// What a line says, its end left out: the words of a name and then numbers, with one blank between them.
pub fn command_of(line: &[u8]) -> Result<Command, Wrong> {
    let text = str::from_utf8(line).map_err(|_| Wrong::NotACommand)?;
    let mut words: ArrayVec<&str, MOST_WORDS> = ArrayVec::new();
    for word in text.split(' ') {
        words.try_push(word).map_err(|_| Wrong::NotACommand)?;
    }
    // All that stands before the last word that is no number has to be the name.
    let last = words.iter().rposition(|word| !is_number(word));
    let (name, numbers) = words.split_at(last.map_or(0, |last| last + 1));
    command_from(name, numbers)
}
