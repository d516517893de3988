// A slot's numbers in a row, as the programs print them.
use crate::Slot;
use std::fmt;
use std::fmt::{Display, Formatter, Write};

impl Display for Slot {
    fn fmt<W: Write>(&self, f: &mut Formatter<W>) -> fmt::Result {
        let s = self;
        write!(f, "{} {} {} ", s.id.0, s.x, s.y)?;
        write!(f, "{} {} {}", s.pressure, s.major, s.minor)
    }
}
