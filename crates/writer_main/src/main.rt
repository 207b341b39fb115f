// Reads a typed book on standard input and writes its bytes on standard output; what is reported goes to standard error. With two arguments it shows
// the kinds on standard output and reads nothing.
#![tactic(auto)]

ghost use Rattle.std.specs.Prelude.{◌≤◌, ◌≡◌, length};

use book::State;
use program::{Reading, System, report};
use text_lines::Cut;
use writer::{Typing, Typist};

// The typist and the line being read, how many bytes the last call took, whether all was read and written, whether no write of the book failed, and
// whether all remarks went out.
#[derive(Clone, Copy)]
struct Work {
    typing: Typing,
    taken: usize,
    good: bool,
    sent: bool,
    told: bool,
}

fn up_to(s: &[u8], n: usize) -> &[u8] {
    if n <= s.len() {
        return &s[..n];
    }
    s
}

// Remarks are part of the answer.
fn tell(rt: &impl System, remark: &[u8], mut w: Work) -> Work
    ensures { result.taken ≡ w.taken }
{
    if !report(rt, remark) {
        w.told = false;
    }
    w
}

// Where the bytes can't go out the book would lack a record: nothing more is tried.
fn write_out(rt: &impl System, record: &[u8], mut w: Work) -> Work
    ensures { result.taken ≡ w.taken }
{
    if !program::send(rt, record) {
        w.good = false;
        w.sent = false;
    }
    w
}

// The remarks on a line first, then its record.
fn send(rt: &impl System, record: &[u8], remark: &[u8], w: Work) -> Work
    ensures { result.taken ≡ w.taken }
{
    write_out(rt, record, tell(rt, remark, w))
}

// Up to the end of a line, or of what is left of the part.
fn take_line(rt: &impl System, line: &mut [u8], rest: &[u8], from: Work) -> Work
    ensures { result.taken ≤ length rest.now }
{
    let mut out = [0u8; 28];
    let mut remarks = [0u8; 4096];
    let typing = from.typing;
    let r = writer::type_part(typing, line, rest, &mut out, &mut remarks);
    let next = r.typing;
    let mut w = from;
    w.typing = next;
    w.taken = r.taken;
    send(rt, up_to(&out, r.written), up_to(&remarks, r.told), w)
}

// A part, line after line. A proved loop has to end: there are as many calls as bytes, and each takes a byte.
fn take_part(rt: &impl System, line: &mut [u8], part: &[u8], from: Work) -> Work {
    let mut w = from;
    let mut rest = part;
    for _ in 0..part.len() {
        w = take_line(rt, line, rest, w);
        rest = &rest[w.taken..];
        if !w.good | (rest.len() == 0) {
            return w;
        }
    }
    w
}

// Part after part, up to the input's end or to a read or a write that fails.
fn run(rt: &impl System, line: &mut [u8], from: Work) -> Work {
    let mut w = from;
    let mut part = io::buffer();
    let mut stdin = rt.input();
    let mut input = Reading::new();
    // By the turns of the reading, which end with the input: no count of this loop.
    while 0 < input.turns {
        input = input.next(rt, &mut stdin, b"standard input", &mut part);
        let n = input.len;
        w = take_part(rt, line, &part[..n], w);
        if !w.good {
            return w;
        }
    }
    w.good = input.good;
    w
}

// The unfinished line; where a read failed it may have been cut, and is not entered.
fn last_line(rt: &impl System, line: &[u8], w: Work) -> Work {
    if !w.good {
        return w;
    }
    let mut out = [0u8; 28];
    let mut remarks = [0u8; 4096];
    let typing = w.typing;
    let cut = typing.cut;
    let l = writer::type_last(typing, line, &mut out, &mut remarks);
    let typist = l.typist;
    let moved = Typing {
        typist: typist,
        cut: cut,
    };
    let mut next = w;
    next.typing = moved;
    send(rt, up_to(&out, l.written), up_to(&remarks, l.told), next)
}

// The end of the text: a close that waits is written, where all of it was read. Of a book that can't go out nothing more is said.
fn end_text(rt: &impl System, w: Work) -> Work {
    if !w.sent {
        return w;
    }
    let mut out = [0u8; 28];
    let mut remarks = [0u8; 4096];
    let typing = w.typing;
    let cut = typing.cut;
    let typist = typing.typist;
    let l = writer::type_end(typist, w.good, &mut out, &mut remarks);
    let ended = l.typist;
    let moved = Typing {
        typist: ended,
        cut: cut,
    };
    let mut next = w;
    next.typing = moved;
    send(rt, up_to(&out, l.written), up_to(&remarks, l.told), next)
}

// The verdict, which is part of the answer: whether it went out.
fn tell_verdict(rt: &impl System, w: Work) -> bool {
    if !w.sent {
        return false;
    }
    let mut text = [0u8; 1024];
    let typing = w.typing;
    let t = typing.typist;
    let n = writer::remarks::say_verdict(&mut text, t, w.good);
    report(rt, up_to(&text, n))
}

fn say_end(rt: &impl System, w: Work) {
    let told = tell_verdict(rt, w);
    let typing = w.typing;
    let t = typing.typist;
    program::tell_status(rt, writer::remarks::status(t, w.good & w.told & told));
}

// The kinds on a screen; the status is 0 where they were written.
fn show_kinds(rt: &impl System) {
    let mut text = [0u8; 4096];
    let n = kinds_screen::say_screen(&mut text);
    if program::send(rt, up_to(&text, n)) {
        program::tell_status(rt, b'0');
    } else {
        program::tell_status(rt, b'1');
    }
}

fn type_book(rt: &impl System) {
    let mut line = [0u8; 1027];
    let typist = Typist::new(State::new());
    let typing = Typing {
        typist: typist,
        cut: Cut::new(),
    };
    let last = run(
        rt,
        &mut line,
        Work {
            typing: typing,
            taken: 0,
            good: true,
            sent: true,
            told: true,
        },
    );
    say_end(rt, end_text(rt, last_line(rt, &line, last)));
}

// `writer status kinds` shows the kinds.
fn main(rt: HostRuntime) {
    if program::arg_count(&rt) == 3 {
        show_kinds(&rt);
    } else {
        type_book(&rt);
    }
}
