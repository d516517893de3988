// The pod's reports in words, as the programs print them: numbers after a blank each, a bit as 0 or 1.
use crate::{Clock, Report, Stick};
use std::fmt;
use std::fmt::{Display, Formatter, Write};

// Two digits of a clock's byte, after a blank.
#[derive(Clone, Copy)]
struct Digits(u8);

impl Display for Digits {
    fn fmt<W: Write>(&self, f: &mut Formatter<W>) -> fmt::Result {
        write!(f, " {}{}", self.0 / 16, self.0 % 16)
    }
}

// Twelve digits, each two of them after a blank.
impl Display for Clock {
    fn fmt<W: Write>(&self, f: &mut Formatter<W>) -> fmt::Result {
        let c = self;
        write!(f, "{}{}{}", Digits(c.year), Digits(c.month), Digits(c.day))?;
        write!(
            f,
            "{}{}{}",
            Digits(c.hour),
            Digits(c.minute),
            Digits(c.second)
        )
    }
}

impl Display for Stick {
    fn fmt<W: Write>(&self, f: &mut Formatter<W>) -> fmt::Result {
        write!(f, " {} {}", u8::from(self.trigger), self.position)
    }
}

impl Display for Report {
    fn fmt<W: Write>(&self, f: &mut Formatter<W>) -> fmt::Result {
        match self {
            Report::More => write!(f, "more"),
            Report::KeyDown(r) => write!(f, "down {}", r.key),
            Report::KeyUp(r) => write!(f, "up {}", r.key),
            Report::Absolute(r) => write!(f, "absolute {} {} {}", r.flags, r.x, r.y),
            Report::Relative(r) => {
                write!(f, "relative {} {}", u8::from(r.left), u8::from(r.right))?;
                write!(f, " {} {}", r.dx, r.dy)
            }
            Report::TimeOfDay(r) => write!(f, "time{}", r.clock),
            Report::BothSticks(r) => write!(f, "sticks{}{}", r.stick0, r.stick1),
            Report::OneStick(r) => write!(f, "stick {}{}", r.which, r.stick),
            Report::SelfTestPassed(_) => write!(f, "self-test passed"),
            Report::BadByte(_) => write!(f, "bad byte"),
            Report::BadReport => write!(f, "bad report"),
            Report::Refused => write!(f, "refused 2"),
        }
    }
}
