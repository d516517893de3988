// A mode and a refusal in words, as the programs print them.
use crate::{Mode, Verdict};
use std::fmt;
use std::fmt::{Display, Formatter, Write};

impl Display for Mode {
    fn fmt<W: Write>(&self, f: &mut Formatter<W>) -> fmt::Result {
        match self {
            Mode::Following => write!(f, "following"),
            Mode::Dropped => write!(f, "dropped"),
            Mode::Stale => write!(f, "stale"),
        }
    }
}

// A refusal is known by its number.
impl Display for Verdict {
    fn fmt<W: Write>(&self, f: &mut Formatter<W>) -> fmt::Result {
        write!(f, "{}", self.number())
    }
}
