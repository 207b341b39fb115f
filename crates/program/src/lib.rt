// What programs share: text out, the status byte, and input read in parts or as a whole.
#![tactic(auto)]

ghost use Rattle.std.specs.Prelude.{◌≡◌, ◌-◌, ◌≤◌, IfSome};
ghost use Rattle.io.specs.Counts.{IsPrefixLen};
ghost use Rattle.program.specs.Beginning.{unread};

use std::env::{Env, FillError};
use std::io::{Cursor, Error, ErrorKind, Read, Stderr, Stdin, Write};

// Where a caller that gives an argument, the word `status`, wants the status byte.
pub const STATUS_FILENO: i32 = 3;

// What every program reaches of the system: its arguments, standard output, and the handles of standard input and error.
pub trait System: Print + Env {
    fn input(&self) -> Stdin;

    fn errors(&self) -> Stderr;
}

impl System for HostRuntime {
    fn input(&self) -> Stdin {
        self.stdin()
    }

    fn errors(&self) -> Stderr {
        self.stderr()
    }
}

// How many bytes were read, and whether no read failed: what came before a failure counts.
#[derive(Clone, Copy)]
pub struct Input {
    pub len: usize,
    pub good: bool,
}

// What the last read gave, whether none failed, and how many reads may still come: none after the input's end or a read that failed.
#[derive(Clone, Copy)]
pub struct Reading {
    pub len: usize,
    pub good: bool,
    pub turns: u64,
}

impl Reading {
    // A proved loop has to end, and nothing says that an input does: the turns count down from a number that no run uses up.
    pub fn new() -> Reading
        ensures { result ≡ unread }
    {
        Reading {
            len: 0,
            good: true,
            turns: u64::MAX,
        }
    }

    // Reads once, a part of at most the buffer's length; a read that fails is reported by the input's name.
    pub fn next<R: System, I: Read>(
        self,
        rt: &R,
        from: &mut I,
        name: &[u8],
        buf: &mut [u8],
    ) -> Reading
        ensures prefix_len { IsPrefixLen result.len buf.new }
        ensures turns_bound { result.turns ≤ self.turns - 1 }
    {
        let read = read_once(rt, from, name, buf);
        let len = read.unwrap_or(0);
        Reading {
            len,
            good: self.good & read.is_some(),
            turns: turns_left(self.turns, len),
        }
    }
}

// After a read that gave nothing there is none; else one less.
fn turns_left(turns: u64, len: usize) -> u64
    ensures { result ≤ turns - 1 }
{
    if len == 0 { 0 } else { turns.saturating_sub(1) }
}

// A text for standard output. Where it can't go out, that is reported, unless nobody reads it any more: `head` has seen what it wanted.
pub fn send(rt: &impl System, text: &[u8]) -> bool {
    match Print::write_all(rt, text) {
        Ok(()) => true,
        Err(why) => {
            if why.kind() != ErrorKind::BrokenPipe {
                fail(rt, b"standard output", &why);
            }
            false
        }
    }
}

// A text for people, on standard error.
pub fn report(rt: &impl System, text: &[u8]) -> bool {
    Print::write_all(&rt.errors(), text).is_ok()
}

// A line on standard error: what failed, as the caller names it, a colon and the system's words.
pub fn fail(rt: &impl System, what: &[u8], why: &Error) {
    let mut said = Cursor::new([0u8; 256]);
    let _ = write!(said, "{why}");
    report(rt, what);
    report(rt, b": ");
    report(rt, words_of(&said.into_inner()));
    report(rt, b"\n");
}

// The system's words for an error, without the error's number that std puts after them in brackets, or the zeros after both.
fn words_of(said: &[u8]) -> &[u8] {
    for n in 0..said.len() {
        if (said[n] == 0) | said[n..].starts_with(b" (os error ") {
            return &said[..n];
        }
    }
    said
}

// Whether the program was started with an argument i, its own name being 0.
fn has_arg(rt: &impl System, i: usize) -> bool {
    let mut none = [0u8; 0];
    !matches!(rt.arg(i, &mut none), Err(FillError::NotPresent))
}

// How many arguments the program was started with, its own name among them.
pub fn arg_count(rt: &impl System) -> usize {
    for i in 0..usize::MAX {
        if !has_arg(rt, i) {
            return i;
        }
    }
    usize::MAX
}

// The status byte, where the caller gave the argument. std has no handle for its descriptor.
pub fn tell_status(rt: &impl System, status: u8) {
    if 1 < arg_count(rt) {
        io::write_all(STATUS_FILENO, &[status]);
    }
}

// One read: how many bytes it gave. None where it fails, which is reported.
fn read_once<R: System, I: Read>(rt: &R, from: &mut I, name: &[u8], buf: &mut [u8]) -> Option<usize>
    ensures { IfSome result (λ len. IsPrefixLen len buf.new) }
{
    match from.read(buf) {
        Ok(len) => Some(len),
        Err(why) => {
            fail(rt, name, &why);
            None
        }
    }
}

// Reads up to the input's end, or until the buffer is full; a read that fails is reported by the input's name. A proved loop has to end:
// each read takes a byte, or is the last.
pub fn read_all<R: System, I: Read>(rt: &R, from: &mut I, name: &[u8], buf: &mut [u8]) -> Input
    ensures { IsPrefixLen result.len buf.new }
{
    let mut n = 0;
    // A cursor and no count: each read gives as many bytes as it likes.
    while n < buf.len() {
        let read = read_once(rt, from, name, &mut buf[n..]);
        let more = read.unwrap_or(0).min(buf.len() - n);
        if more == 0 {
            return Input {
                len: n,
                good: read.is_some(),
            };
        }
        n += more;
    }
    Input { len: n, good: true }
}
