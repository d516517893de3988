// How a program begins and ends: its arguments, and the status that it tells. The process itself ends with 0, and the status is a digit that goes to the descriptor that the first argument names.
ghost use Rattle.std.specs.Prelude.{◌≤◌};
ghost use Rattle.io.specs.Counts.{IsPrefixLen};

use crate::{Name, Out, PAGE, Status};
use std::env::FillError;
use std::fmt::InlineText;
use std::io::{Stderr, Stdin, Stdout};
use std::rt::Env;

// What a program's main hands on: the arguments and the three standard streams.
pub trait System: Env {
    fn input(&self) -> Stdin;

    fn output(&self) -> Stdout;

    fn errors(&self) -> Stderr;
}

impl System for HostRuntime {
    fn input(&self) -> Stdin {
        self.stdin()
    }

    fn output(&self) -> Stdout {
        self.stdout()
    }

    fn errors(&self) -> Stderr {
        self.stderr()
    }
}

// How many bytes argument i has, at the start of the buffer: none where it is missing or longer than the buffer.
fn argument(rt: &impl Env, i: usize, text: &mut [u8]) -> usize
    ensures { IsPrefixLen result text.new }
{
    rt.arg(i, text).unwrap_or(0)
}

// The descriptor that the first argument names: one digit from 3 to 9, since a standard stream cannot be named.
fn descriptor(rt: &impl Env) -> Option<i32> {
    let mut text = io::buffer();
    let n = argument(rt, 1, &mut text);
    match text[..n].strip_prefix(b"--status-fd=") {
        Some([digit @ b'3'..=b'9']) => Some(i32::from(*digit - b'0')),
        _ => None,
    }
}

// Whether argument i is the word.
fn is_given(rt: &impl Env, i: usize, word: &str) -> bool {
    let mut text = io::buffer();
    let n = argument(rt, i, &mut text);
    n != 0 && &text[..n] == word.as_bytes()
}

impl Out {
    // Where the arguments begin that are the program's own: the descriptor stands before them.
    fn own(&self) -> usize
        ensures { result ≤ 2 }
    {
        if self.status_fd.is_some() { 2 } else { 1 }
    }

    // An argument that the program does not take: it is said, with what is taken.
    fn refuse_argument(&mut self, argument: &[u8], word: &str) {
        let name = self.name;
        self.mark(Status::Failed);
        warn!(self, "{name}: no argument");
        if !word.is_empty() {
            warn!(self, " but {word}");
        }
        warn!(self, " is taken, and '");
        self.warn_bytes(argument);
        warn!(self, "' is one; a file is given as {name} < FILE\n");
    }

    // Refuses argument i, if it is there: it is one too many.
    fn refuse_more(&mut self, rt: &impl Env, i: usize, word: &str) {
        let mut text = io::buffer();
        if let Err(FillError::NotPresent) = rt.arg(i, &mut text) {
            return;
        }
        let n = argument(rt, i, &mut text);
        self.refuse_argument(&text[..n], word);
    }

    // Says a failed write and tells the status. Nobody is left to be told that this last write failed: who asked for the digit misses it.
    fn end(&mut self) {
        self.flush();
        if let Some(why) = self.failed {
            self.warn_why("a write to standard output failed", why);
        }
        if let Some(fd) = self.status_fd {
            io::write_all(fd, &[b'0' + self.status as u8]);
        }
    }
}

// Runs a program that takes no argument. One that was given one does nothing but say so.
pub fn run<F: FnOnce(&mut Out)>(rt: &impl System, name: &str, program: F)
    requires { F.IsAlwaysCallable program }
{
    run_with(rt, name, "", |out, _| program(out));
}

// Runs a program that takes one word, which stands behind the descriptor's; it is told whether the word was given. An empty word is none, since an argument that is missing reads as an empty one.
// The output is made here and handed to nobody but by reference: its page is too large to be moved.
pub fn run_with<F: FnOnce(&mut Out, bool)>(rt: &impl System, name: &str, word: &str, program: F)
    requires { F.IsAlwaysCallable program }
{
    let mut out = Out {
        page: [0; PAGE],
        held: 0,
        failed: None,
        status: Status::Accepted,
        status_fd: descriptor(rt),
        name: Name(InlineText::of(name)),
        input: Some(rt.input()),
        output: rt.output(),
        errors: rt.errors(),
    };
    let own = out.own();
    let given = is_given(rt, own, word);
    out.refuse_more(rt, own + usize::from(given), word);
    if out.status == Status::Accepted {
        program(&mut out, given);
    }
    out.end();
}
