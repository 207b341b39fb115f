// Reads two books, the old one on standard input and the new one on descriptor 5, and prints what differs between them. Hints
// go to standard error.
#![tactic(auto)]

ghost use Rattle.std.specs.Prelude.{◌≡◌, length};
ghost use Rattle.compare.specs.Steps.{beginning, step_of};
ghost use Rattle.compare_main.specs.Series.{Goes};

use compare::{Cursor, Stage, remarks};
use names::hints::look;
use program::{System, send};
use std::fs::File;
use std::io::Read;
use std::rt::Files;

// The new book is on descriptor 5, which std opens by its name among the files.
const NEW_FILE: &str = "/dev/fd/5";

// How many bytes of a book are compared record by record.
const MOST: usize = 114716;

// Where the comparison has come to, and whether no write failed.
#[derive(Clone, Copy)]
struct Work {
    cursor: Cursor,
    written: bool,
}

// The bytes after those that are compared: whether they are the same in both books, whether no read failed, and whether there may be more.
#[derive(Clone, Copy)]
struct Later {
    alike: bool,
    good: bool,
    more: bool,
}

// The 4,096 records that a book may have and one more, of 28 bytes each: what stands after them changes no accepted record.
fn book_buffer() -> [u8; 114716]
    ensures { length result ≡ 114716 }
{
    [0u8; 114716]
}

// The next bytes of both books, as many as the buffers hold.
fn read_on<R: System, I: Read>(
    rt: &R,
    from: &mut I,
    so_far: bool,
    left: &mut [u8],
    right: &mut [u8],
) -> Later {
    let old = program::read_all(rt, &mut rt.input(), b"the old book", left);
    let new = program::read_all(rt, from, b"the new book", right);
    let n = old.len;
    let m = new.len;
    Later {
        alike: compare::alike_on(so_far, &left[..n], &right[..m]),
        good: old.good & new.good,
        more: (0 < n) & (0 < m),
    }
}

// Whether what comes after the bytes that are compared is the same: read up to the end of either book or to the first part that differs. Where these
// bytes differ nothing of it is asked.
fn after<R: System, I: Read>(rt: &R, from: &mut I, old: &[u8], new: &[u8]) -> Later {
    let mut left = io::large_buffer();
    let mut right = io::large_buffer();
    let mut a = Later {
        alike: compare::alike_on(true, old, new),
        good: true,
        more: old.len() == MOST,
    };
    for _ in 0..u64::MAX {
        if !(a.alike & a.good & a.more) {
            return a;
        }
        a = read_on(rt, from, a.alike, &mut left, &mut right);
    }
    Later {
        alike: false,
        good: true,
        more: true,
    }
}

// A piece of the text, with one write.
fn turn(rt: &impl System, mut w: Work, old: &[u8], new: &[u8], alike: bool, text: &mut [u8]) -> Work
    ensures { result.cursor ≡ (step_of alike old.now new.now w.cursor).cursor }
{
    let c = w.cursor;
    let s = compare::next(old, new, alike, c, text);
    let next = s.cursor;
    let n = s.written;
    w.cursor = next;
    w.written = send(rt, &text[..n]);
    w
}

// A series of steps, each from the cursor that the one before left, until the comparison is at its end or a write fails. A proved loop has to end:
// so many turns no two books use up.
fn run(rt: &impl System, from: Work, old: &[u8], new: &[u8], alike: bool, text: &mut [u8]) -> Work
    ensures { Goes alike old.now new.now from.cursor result.cursor }
{
    let mut w = from;
    for _ in 0..u64::MAX {
        let c = w.cursor;
        if (c.stage == Stage::End) | !w.written {
            return w;
        }
        w = turn(rt, w, old, new, alike, text);
    }
    w
}

// What differs, and whether all of it was written.
fn tell(rt: &impl System, old: &[u8], new: &[u8], alike: bool) -> bool {
    let mut text = io::large_buffer();
    let start = compare::begin();
    let first = Work {
        cursor: start,
        written: true,
    };
    let last = run(rt, first, old, new, alike, &mut text);
    let c = last.cursor;
    last.written & (c.stage == Stage::End)
}

// A hint where one of the two is no book but a typed text, a sheet or nothing.
fn tell_hint(rt: &impl System, new: bool, book: &[u8]) {
    let mut text = [0u8; 256];
    let n = remarks::say_hint(&mut text, new, look(book));
    program::report(rt, &text[..n]);
}

fn tell_status(rt: &impl System, read: bool, written: bool) {
    program::tell_status(rt, remarks::status(read, written));
}

fn answer(rt: &impl System, old: &[u8], new: &[u8], alike: bool) -> bool {
    let written = tell(rt, old, new, alike);
    tell_hint(rt, false, old);
    tell_hint(rt, true, new);
    written
}

// The new book, where the old one was read.
fn with_new<R: System, I: Read>(rt: &R, from: &mut I, old: &[u8]) {
    let mut book = book_buffer();
    let input = program::read_all(rt, from, b"the new book", &mut book);
    if !input.good {
        tell_status(rt, false, false);
        return;
    }
    let n = input.len;
    let rest = after(rt, from, old, &book[..n]);
    if !rest.good {
        tell_status(rt, false, false);
        return;
    }
    tell_status(rt, true, answer(rt, old, &book[..n], rest.alike));
}

fn open_new(rt: &(impl System + Files), old: &[u8]) {
    match File::open(rt, NEW_FILE) {
        Ok(mut from) => with_new(rt, &mut from, old),
        Err(why) => {
            program::fail(rt, b"the new book", &why);
            tell_status(rt, false, false);
        }
    }
}

fn main(rt: HostRuntime) {
    let mut book = book_buffer();
    let input = program::read_all(&rt, &mut rt.input(), b"the old book", &mut book);
    if !input.good {
        tell_status(&rt, false, false);
        return;
    }
    let n = input.len;
    open_new(&rt, &book[..n]);
}
