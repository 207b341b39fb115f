// Reads a book on standard input and prints its member's page, part by part, on standard output: of a closed book its figures, of any other why there
// are none. A hint goes to standard error.
#![tactic(auto)]

ghost use Rattle.std.specs.Prelude.{◌≡◌, ◌≤◌, length};

use names::hints::{look, say_hint_alone};
use page::Survey;
use program::System;
use why::{Verdict, remarks};

// The 4,096 records that a book may have and one more, of 28 bytes each: what stands after them changes no page.
fn book_buffer() -> [u8; 114716]
    ensures { length result ≡ 114716 }
{
    [0u8; 114716]
}

// The first n bytes, where they do not fill the buffer: a text that does may have been cut off.
fn send_whole(rt: &impl System, text: &[u8], n: usize) -> bool
    requires { n ≤ length text.now }
{
    if n == text.len() {
        return false;
    }
    program::send(rt, &text[..n])
}

// The page up to the rows of its groups, or to why there are none.
fn tell_first(rt: &impl System, s: Survey, v: Verdict) -> bool {
    let mut text = [0u8; 16384];
    let n = page::say_first(&mut text, s, v);
    send_whole(rt, &text, n)
}

// What stands after them.
fn tell_last(rt: &impl System, s: Survey, v: Verdict) -> bool {
    let mut text = [0u8; 16384];
    let n = page::say_last(&mut text, s, v);
    send_whole(rt, &text, n)
}

fn tell_why(rt: &impl System, v: Verdict) -> bool {
    let mut text = [0u8; 512];
    let n = remarks::say_second(&mut text, v);
    send_whole(rt, &text, n)
}

// The rows of the groups, one by one: a record of the book at a turn.
fn tell_rows(rt: &impl System, book: &[u8], s: Survey) -> bool {
    let mut text = [0u8; 4096];
    let mut place = page::start();
    for _ in 0..4097 {
        let row = page::next_row(book, place, s, &mut text);
        if !send_whole(rt, &text, row.written) {
            return false;
        }
        place = row.place;
        if !place.more {
            return true;
        }
    }
    true
}

// The rows of the groups, or why there are none.
fn tell_middle(rt: &impl System, book: &[u8], s: Survey, v: Verdict) -> bool {
    if s.closed {
        return tell_rows(rt, book, s);
    }
    tell_why(rt, v)
}

fn tell(rt: &impl System, book: &[u8], s: Survey, v: Verdict) -> bool {
    if !tell_first(rt, s, v) {
        return false;
    }
    if !tell_middle(rt, book, s, v) {
        return false;
    }
    tell_last(rt, s, v)
}

// A hint where the input is no book but a typed text, a sheet or nothing.
fn tell_hint(rt: &impl System, input: &[u8]) {
    let mut text = [0u8; 256];
    let n = say_hint_alone(&mut text, look(input));
    program::report(rt, &text[..n]);
}

fn tell_status(rt: &impl System, closed: bool, written: bool) {
    program::tell_status(rt, remarks::status(closed, written));
}

fn answer(rt: &impl System, book: &[u8]) {
    let s = page::figures(book);
    let v = why::why(book);
    let written = tell(rt, book, s, v);
    tell_hint(rt, book);
    tell_status(rt, s.closed, written);
}

fn main(rt: HostRuntime) {
    let mut book = book_buffer();
    let input = program::read_all(&rt, &mut rt.input(), b"standard input", &mut book);
    if !input.good {
        tell_status(&rt, false, false);
        return;
    }
    let n = input.len;
    answer(&rt, &book[..n]);
}
