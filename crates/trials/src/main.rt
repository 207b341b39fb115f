// Replays trials of the book reader, of the writer, of the salvage and of the slip: cases on standard input, answers on standard output
// (docs/TRIALS.md).
#![tactic(auto)]

mod books;
mod saved;
mod shown;
mod slips;
mod words;
mod written;

ghost use Rattle.std.specs.Prelude.{◌≡◌, ◌≤◌, length};

use std::io::Read;

// How many bytes of the line at hand are in, and how many of the answers.
#[derive(Clone, Copy)]
struct Held {
    line: usize,
    answers: usize,
}

// Room for the longest case: 40,000 bytes as digits, and 255 calls.
fn line_buffer() -> [u8; 98304]
    ensures { 98304 ≡ length result }
{
    [0; 98304]
}

// One case, by its first letter.
fn replay(
    rt: &impl Print,
    line: &[u8],
    input: &mut [u8],
    room: &mut [u8],
    out: &mut [u8],
    w: usize,
) -> usize {
    if line.is_empty() {
        return w;
    }
    match line[0] {
        b'S' => slips::replay(line, 2, out, w),
        b'W' => written::replay(rt, line, 2, room, out, w),
        b'D' => saved::replay(rt, line, 2, input, room, out, w),
        _ => books::replay(rt, line, 2, input, room, out, w),
    }
}

// One byte more of the cases; a line feed ends one.
fn take(
    rt: &impl Print,
    line: &mut [u8],
    h: Held,
    b: u8,
    input: &mut [u8],
    room: &mut [u8],
    out: &mut [u8],
) -> Held {
    let len = h.line;
    if line.len() < len {
        return h;
    }
    if b == b'\n' {
        let w = replay(rt, &line[..len], input, room, out, h.answers);
        return Held {
            line: 0,
            answers: w,
        };
    }
    if len < line.len() {
        line[len] = b;
        return Held {
            line: len + 1,
            answers: h.answers,
        };
    }
    h
}

fn take_part(
    rt: &impl Print,
    part: &[u8],
    line: &mut [u8],
    h: Held,
    input: &mut [u8],
    room: &mut [u8],
    out: &mut [u8],
) -> Held {
    let mut held = h;
    for b in part {
        held = take(rt, line, held, *b, input, room, out);
    }
    held
}

// Reads once: what is held then. None at the end of the input, or where a read fails.
fn turn<R: Print, I: Read>(
    rt: &R,
    from: &mut I,
    line: &mut [u8],
    h: Held,
    input: &mut [u8],
    room: &mut [u8],
    out: &mut [u8],
) -> Option<Held> {
    let mut part = io::large_buffer();
    let n = from.read(&mut part).unwrap_or(0);
    if n == 0 {
        return None;
    }
    Some(take_part(rt, &part[..n], line, h, input, room, out))
}

// Nothing says that the input ends: the turns count up to a number that no run reaches.
fn run<R: Print, I: Read>(
    rt: &R,
    from: &mut I,
    line: &mut [u8],
    input: &mut [u8],
    room: &mut [u8],
    out: &mut [u8],
) -> Held {
    let mut held = Held {
        line: 0,
        answers: 0,
    };
    for _ in 0..u64::MAX {
        match turn(rt, from, line, held, input, room, out) {
            Some(next) => held = next,
            None => return held,
        }
    }
    held
}

fn main(rt: HostRuntime) {
    let mut line = line_buffer();
    let mut input = io::large_buffer();
    let mut room = [0u8; 16384];
    let mut out = io::large_buffer();
    let last = run(
        &rt,
        &mut rt.stdin(),
        &mut line,
        &mut input,
        &mut room,
        &mut out,
    );
    let w = last.answers;
    if w <= 65536 {
        let _ = rt.write_all(&out[..w]);
    }
}
