// Standard streams for the programs: input in pieces, output collected on a page, words on standard error, and the status that a program ends with.
// docs/PROGRAMS.md has what a user sees of it.
#![tactic(auto)]

#[macro_export]
macro_rules! say {
    ($out:expr, $($what:tt)*) => {
        $out.say(format_args!($($what)*))
    };
}

#[macro_export]
macro_rules! warn {
    ($out:expr, $($what:tt)*) => {
        $out.warn(format_args!($($what)*))
    };
}

mod cause;
mod input;
mod program;

ghost use Rattle.std.specs.Prelude.{◌≡◌, ◌<◌, ◌≤◌};

use cause::Cause;
use common::Verdict;
pub use input::{Ended, Filled, Stop};
pub use program::{System, run, run_with};
use std::fmt;
use std::fmt::{Display, Formatter, InlineText, Write as _};
use std::io::{Error, Print, Stderr, Stdin, Stdout};

// What a program ends with; the higher one counts.
#[derive(Clone, Copy, Debug, PartialEq, Eq, PartialOrd, Ord)]
pub enum Status {
    Accepted,
    Refused,
    Failed,
}

// The bytes of the page, and the most of a program's name.
const PAGE: usize = 65536;

const NAME: usize = 24;

// A program's name: text of its own, since an output that lent it could not be lent itself.
#[derive(Clone, Copy)]
pub struct Name(InlineText<NAME>);

impl Display for Name {
    fn fmt<W: fmt::Write>(&self, f: &mut Formatter<W>) -> fmt::Result {
        f.write(self.0.as_str())
    }
}

// A program's streams: the page, of which the first `held` bytes are not written yet; why a write failed, after which no other is made; the status so far, and the descriptor that it goes to; the program's name.
#[derive(Clone, Copy)]
pub struct Out {
    page: [u8; PAGE],
    held: usize,
    failed: Option<Error>,
    status: Status,
    status_fd: Option<i32>,
    name: Name,
    input: Option<Stdin>,
    output: Stdout,
    errors: Stderr,
    ghost fits: { held ≤ 65536 },
}

impl Out {
    // Something was refused, or a stream failed.
    pub fn mark(&mut self, status: Status) {
        self.status = self.status.max(status);
    }

    // Whether a write failed: nothing more can be written, since there is a hole.
    pub fn is_broken(&self) -> bool {
        self.failed.is_some()
    }

    // Writes what is held. What comes after a hole is worse than nothing, so a failed write is the last.
    pub fn flush(&mut self)
        ensures { self.new.held ≡ 0 }
    {
        if !self.is_broken()
            && let Err(why) = self.output.write_all(&self.page[..self.held])
        {
            self.failed = Some(why);
            self.mark(Status::Failed);
        }
        self.held = 0;
    }

    // A full page is written before the next byte.
    fn make_room(&mut self)
        ensures { self.new.held < 65536 }
    {
        if self.held == PAGE {
            self.flush();
        }
    }

    // Bytes, as they are.
    pub fn put(&mut self, bytes: &[u8]) {
        let mut rest = bytes;
        while !rest.is_empty() {
            self.make_room();
            let n = rest.len().min(PAGE - self.held);
            self.page[self.held..self.held + n].copy_from_slice(&rest[..n]);
            self.held += n;
            rest = &rest[n..];
        }
    }

    // Bytes that the caller writes at the start of the page's rest, which has room for `least` of them; it answers how many it wrote. After a failed write it is not asked.
    pub fn put_with<F: FnOnce(&mut [u8]) -> usize>(&mut self, least: usize, write: F)
        requires { F.IsAlwaysCallable write }
    {
        if PAGE - self.held < least {
            self.flush();
        }
        if self.is_broken() {
            return;
        }
        let rest = &mut self.page[self.held..];
        let room = rest.len();
        self.held += write(rest).min(room);
    }

    // Words, whatever can be shown. A failed write is kept, so there is nothing to answer.
    pub fn say<D: Display + Drop>(&mut self, what: D) {
        let _ = self.write(what);
    }

    // The one line of a refusal.
    pub fn say_refused(&mut self, verdict: Verdict) {
        self.mark(Status::Refused);
        say!(self, "refused {verdict}\n");
    }

    // Words on standard error, at once. That they could not be said is a failed stream.
    pub fn warn<D: Display + Drop>(&mut self, what: D) {
        if self.errors.print(what).is_err() {
            self.mark(Status::Failed);
        }
    }

    // The same for bytes that need not be text.
    pub fn warn_bytes(&mut self, bytes: &[u8]) {
        if self.errors.write_all(bytes).is_err() {
            self.mark(Status::Failed);
        }
    }

    // The program's name, which begins a line on standard error.
    pub fn name(&self) -> Name {
        self.name
    }

    // A number that is not 1 to the most, in a line of its own.
    pub fn warn_range(&mut self, what: &str, v: u64, most: u64) {
        if v < 1 || v > most {
            let name = self.name;
            warn!(self, "{name}: {what} is {v}, and must be 1 to {most}\n");
        }
    }

    // The one line of a refusal, where standard output has data.
    pub fn warn_refused(&mut self, verdict: Verdict) {
        self.mark(Status::Refused);
        warn!(self, "refused {verdict}\n");
    }

    // What failed and the system's words for why, in a line after the program's name.
    fn warn_why(&mut self, what: &str, why: Error) {
        let name = self.name;
        warn!(self, "{name}: {what}: {}\n", Cause(why));
    }

    // A failed read, said with the system's words for it.
    pub fn read_failed(&mut self, why: Error) {
        self.mark(Status::Failed);
        self.warn_why("a read from standard input failed", why);
    }
}

impl fmt::Write for Out {
    fn write_str(&mut self, text: &str) -> fmt::Result {
        self.put(text.as_bytes());
        Ok(())
    }
}
