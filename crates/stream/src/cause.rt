// Why a stream failed, in the system's words: without std's number for the error behind them.
use std::fmt;
use std::io::{Cursor, Error, Write};

#[derive(Clone, Copy)]
pub struct Cause(pub Error);

// The bytes of all that std says of an error.
const LONGEST: usize = 128;

impl fmt::Display for Cause {
    fn fmt<W: fmt::Write>(&self, f: &mut fmt::Formatter<W>) -> fmt::Result {
        let mut said = Cursor::new([0u8; LONGEST]);
        let why = self.0;
        if write!(said, "{why}").is_err() {
            return Err(fmt::Error);
        }
        let end = said.position() as usize;
        let bytes = said.into_inner();
        let text = std::str::from_utf8(bytes.get(..end).unwrap_or(&[])).unwrap_or("");
        f.write(text.split_once(" (os error ").map_or(text, |parts| parts.0))
    }
}
