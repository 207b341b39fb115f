// Reads lines of grams on standard input and prints the kilograms of each; standard error has the lines that are no whole number of grams.
#![tactic(auto)]

ghost use Rattle.std.specs.Prelude.{◌≤◌, length};

use program::{Reading, System};
use text_lines::Cut;

// The line being read, whether every line was right and each remark went out, whether no read failed, and whether the kilograms went out.
#[derive(Clone, Copy)]
struct Work {
    cut: Cut,
    right: bool,
    read: bool,
    written: bool,
}

#[derive(Clone, Copy)]
struct Stepped {
    work: Work,
    taken: usize,
}

// Where kilograms can't go out nothing more is tried.
fn send(rt: &impl System, typed: &[u8], mut w: Work) -> Work {
    let mut out = [0u8; 64];
    let n = kilograms::say_line(&mut out, typed);
    if !program::send(rt, &out[..n]) {
        w.written = false;
    }
    w
}

fn report(rt: &impl System, typed: &[u8], mut w: Work) -> Work {
    let mut out = [0u8; 96];
    let cut = w.cut;
    let n = kilograms::say_remark(&mut out, cut.number, typed);
    if !program::report(rt, &out[..n]) {
        w.right = false;
    }
    if !kilograms::is_right(typed) {
        w.right = false;
    }
    w
}

fn end_line(rt: &impl System, line: &[u8], w: Work) -> Work {
    let typed = text_lines::whole(line, w.cut);
    let sent = send(rt, typed, w);
    if !sent.written {
        return sent;
    }
    report(rt, typed, sent)
}

fn next_line(mut w: Work) -> Work {
    let cut = w.cut;
    let next = cut.next();
    w.cut = next;
    w
}

fn step(rt: &impl System, line: &mut [u8], rest: &[u8], mut w: Work) -> Stepped
    ensures { result.taken ≤ length rest.now }
{
    let cutting = text_lines::cut_line(line, w.cut, rest);
    let cut = cutting.cut;
    w.cut = cut;
    if !cutting.ended {
        return Stepped {
            work: w,
            taken: cutting.taken,
        };
    }
    let next = next_line(end_line(rt, line, w));
    Stepped {
        work: next,
        taken: cutting.taken,
    }
}

// A proved loop has to end: no part uses up as many steps as it has bytes, since each takes one.
fn take_part(rt: &impl System, line: &mut [u8], part: &[u8], from: Work) -> Work {
    let mut w = from;
    let mut rest = part;
    for _ in 0..part.len() {
        let done = step(rt, line, rest, w);
        w = done.work;
        rest = &rest[done.taken..];
        if (rest.len() == 0) | !w.written {
            return w;
        }
    }
    w
}

// Part after part, up to the input's end or to a read or a write that fails.
fn run(rt: &impl System, line: &mut [u8], from: Work) -> Work {
    let mut w = from;
    let mut part = io::buffer();
    let mut stdin = rt.input();
    let mut input = Reading::new();
    // By the turns of the reading, which end with the input: no count of this loop.
    while 0 < input.turns {
        input = input.next(rt, &mut stdin, b"standard input", &mut part);
        let n = input.len;
        w = take_part(rt, line, &part[..n], w);
        if !w.written {
            return w;
        }
    }
    w.read = input.good;
    w
}

// What stands after the last line feed is a line too, unless it is nothing. Where a read failed it may have been cut, so it is not read.
fn finish(rt: &impl System, line: &[u8], w: Work) -> Work {
    let cut = w.cut;
    if w.read & w.written & (0 < cut.len) {
        return end_line(rt, line, w);
    }
    w
}

fn main(rt: HostRuntime) {
    let mut line = [0u8; 1027];
    let start = Work {
        cut: Cut::new(),
        right: true,
        read: true,
        written: true,
    };
    let last = run(&rt, &mut line, start);
    let done = finish(&rt, &line, last);
    program::tell_status(
        &rt,
        kilograms::status(done.right & done.read & done.written),
    );
}
