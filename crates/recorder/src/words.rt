// A refused block's name, as the programs print it.
use crate::BlockRefusal;
use std::fmt;
use std::fmt::{Display, Formatter, Write};

impl Display for BlockRefusal {
    fn fmt<W: Write>(&self, f: &mut Formatter<W>) -> fmt::Result {
        match self {
            BlockRefusal::WrongCheck => write!(f, "wrong check"),
            BlockRefusal::WrongNumber => write!(f, "wrong number"),
            BlockRefusal::CountOver => write!(f, "count over 62"),
            BlockRefusal::NotZero => write!(f, "not zero"),
        }
    }
}
