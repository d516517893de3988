// The pod's commands and what a reading of them answers in words, as the programs print them: a command's name and its numbers.
use crate::{Answer, Command};
use std::fmt;
use std::fmt::{Display, Formatter, Write};

impl Display for Command {
    fn fmt<W: Write>(&self, f: &mut Formatter<W>) -> fmt::Result {
        match self {
            Command::Reset(_) => write!(f, "reset"),
            Command::ButtonAction(c) => write!(f, "buttons {}", c.action),
            Command::RelativeMode(_) => write!(f, "relative"),
            Command::AbsoluteMode(c) => write!(f, "absolute {} {}", c.x, c.y),
            Command::Threshold(c) => write!(f, "threshold {} {}", c.x, c.y),
            Command::Scale(c) => write!(f, "scale {} {}", c.x, c.y),
            Command::Interrogate(_) => write!(f, "where"),
            Command::LoadPosition(c) => write!(f, "load {} {}", c.x, c.y),
            Command::SetClock(c) => write!(f, "set clock{}", c.clock),
            Command::AskClock(_) => write!(f, "ask clock"),
        }
    }
}

impl Display for Answer {
    fn fmt<W: Write>(&self, f: &mut Formatter<W>) -> fmt::Result {
        match self {
            Answer::Command(c) => write!(f, "{c}"),
            Answer::Lost => write!(f, "lost"),
            Answer::NotForUs => write!(f, "not for us"),
            Answer::Refused => write!(f, "refused 11"),
            Answer::Unfinished => write!(f, "unfinished"),
            Answer::Nothing => write!(f, "nothing"),
        }
    }
}
