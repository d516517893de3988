// Input: one read, a buffer filled, and all that comes, handed on piece by piece.
ghost use Rattle.std.specs.Prelude.{◌≡◌, ◌≤◌, ◌<◌, ◌+◌, ℕ, length, IfOk};
ghost use Rattle.io.specs.Counts.{IsPrefixLen};
ghost use Rattle.stream.specs.Left.{left};

use crate::Out;
use std::io::{Error, Read};

// Why a buffer has no more: it is full, the input ended, or a read failed, which is a loss.
#[derive(Clone, Copy)]
pub enum Stop {
    Full,
    Ended,
    Failed(Error),
}

// How many bytes stand at the start of the buffer, and why no more do.
#[derive(Clone, Copy)]
pub struct Filled {
    pub n: usize,
    pub stop: Stop,
}

// What ended a program's input: its end, a read that failed, or a write that did, after which nothing is read. How many bytes of the buffer were not used is beside the first two.
#[derive(Clone, Copy)]
pub enum Ended {
    Input(usize),
    ReadFailed(usize, Error),
    WriteFailed,
}

impl Out {
    // One read: what is there, so that it can be answered before more is waited for; 0 where the input ended.
    pub fn read(&self, buf: &mut [u8]) -> Result<usize, Error>
        ensures prefix_len { IfOk result (λ n. IsPrefixLen n buf.new) }
    {
        match self.input {
            Some(mut input) => input.read(buf),
            None => Ok(0),
        }
    }

    // Nothing more is read: it is as if the input had ended.
    pub fn close_input(&mut self) {
        self.input = None;
    }

    // Fills a buffer until it is full, the input ends or a read fails.
    pub fn fill(&self, buf: &mut [u8]) -> Filled
        ensures prefix_len { IsPrefixLen result.n buf.new }
        ensures n_value { result.stop ≡ Stop.Full → result.n ≡ length buf.new }
    {
        let mut n = 0;
        while n < buf.len() {
            match self.read(&mut buf[n..]) {
                Ok(0) => return Filled {
                    n,
                    stop: Stop::Ended,
                },
                Ok(more) => n += more,
                Err(why) => {
                    return Filled {
                        n,
                        stop: Stop::Failed(why),
                    };
                }
            }
        }
        Filled {
            n,
            stop: Stop::Full,
        }
    }

    // Hands on what comes, as it comes. `take` says how many of the bytes that are there it used: the others stand before those that come next, and leave room for more: a read into none would look like the end. What it says is written before more is waited for.
    // A proved loop has to end, and nothing says that the input does: the turns are of a number that no run uses up.
    pub fn take_input<F: FnMut(&mut Out, &[u8]) -> usize>(
        &mut self,
        buf: &mut [u8],
        mut take: F,
    ) -> Ended
        requires { F.IsAlwaysCallable take }
        ensures within { left result ≤ length buf.new }
        ensures fewer { (k : ℕ) → ((f : F) (out : _) (bytes : _) (n : ℕ) (after : _) (next : F) → F.step f out bytes n after next → length bytes.now < n + k) → 0 < k → left result < k }
    {
        let mut held = 0;
        for _ in 0..u64::MAX {
            if self.is_broken() {
                return Ended::WriteFailed;
            }
            match self.read(&mut buf[held..]) {
                Err(why) => return Ended::ReadFailed(held, why),
                Ok(0) => return Ended::Input(held),
                Ok(n) => {
                    let there = held + n;
                    let used = take(self, &buf[..there]).min(there);
                    if used != 0 {
                        buf.copy_within(used..there, 0);
                    }
                    held = there - used;
                    self.flush();
                }
            }
        }
        Ended::WriteFailed
    }
}
