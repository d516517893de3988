// A force stick's packets in words, as the programs print them. Nothing has no words: it is no packet.
use crate::{Answer, Report};
use std::fmt;
use std::fmt::{Display, Formatter, Write};

impl Display for Report {
    fn fmt<W: Write>(&self, f: &mut Formatter<W>) -> fmt::Result {
        let r = self;
        write!(f, "force {} {} ", r.x, r.y)?;
        write!(f, "{} {} {} {}", r.throttle, r.buttons, r.hat, r.rudder)
    }
}

impl Display for Answer {
    fn fmt<W: Write>(&self, f: &mut Formatter<W>) -> fmt::Result {
        match self {
            Answer::Report(r) => write!(f, "{r}"),
            Answer::NotForUs(op, len) => write!(f, "not for us {op} {len}"),
            Answer::LengthOver => write!(f, "length over 16"),
            Answer::WrongCheck => write!(f, "wrong check"),
            Answer::Unfinished => write!(f, "unfinished"),
            Answer::Nothing => Ok(()),
        }
    }
}
