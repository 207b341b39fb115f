// Reads a book on standard input and says why it is refused, if it is: a line for machines and a line for people, on standard output. A hint goes to
// standard error.
#![tactic(auto)]

ghost use Rattle.std.specs.Prelude.{◌≡◌, length};

use names::hints::{look, say_hint_alone};
use program::System;
use why::{Verdict, remarks};

// The 4,096 records that a book may have and one more, of 28 bytes each: what stands after them changes no answer.
fn book_buffer() -> [u8; 114716]
    ensures { length result ≡ 114716 }
{
    [0u8; 114716]
}

fn tell_first(rt: &impl System, v: Verdict) -> bool {
    let mut text = [0u8; 512];
    let n = remarks::say_first(&mut text, v);
    program::send(rt, &text[..n])
}

fn tell_second(rt: &impl System, v: Verdict) -> bool {
    let mut text = [0u8; 512];
    let n = remarks::say_second(&mut text, v);
    program::send(rt, &text[..n])
}

// Both lines.
fn tell(rt: &impl System, v: Verdict) -> bool {
    if !tell_first(rt, v) {
        return false;
    }
    tell_second(rt, v)
}

// A hint where the input is no book but a typed text, a sheet or nothing.
fn tell_hint(rt: &impl System, input: &[u8]) {
    let mut text = [0u8; 256];
    let n = say_hint_alone(&mut text, look(input));
    program::report(rt, &text[..n]);
}

fn tell_status(rt: &impl System, accepted: bool, written: bool) {
    program::tell_status(rt, remarks::status(accepted, written));
}

fn answer(rt: &impl System, book: &[u8]) {
    let v = why::why(book);
    let written = tell(rt, v);
    tell_hint(rt, book);
    tell_status(rt, remarks::accepted(v), written);
}

fn main(rt: HostRuntime) {
    let mut book = book_buffer();
    let input = program::read_all(&rt, &mut rt.input(), b"standard input", &mut book);
    if !input.good {
        tell_status(&rt, false, false);
        return;
    }
    let n = input.len;
    answer(&rt, &book[..n]);
}
