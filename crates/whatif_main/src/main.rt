// Reads `GE Ym head days CHANGE X` lines on standard input and prints the what-if slip of each; standard error has what is not read or refused.
#![tactic(auto)]

ghost use Rattle.std.specs.Prelude.{◌≤◌, length};

use program::{Reading, System};
use text_lines::Cut;
use whatif::Counts;

// The line being read, the counts, whether no read failed, and whether slips and remarks went out.
#[derive(Clone, Copy)]
struct Work {
    cut: Cut,
    counts: Counts,
    read: bool,
    written: bool,
    reported: bool,
}

#[derive(Clone, Copy)]
struct Stepped {
    work: Work,
    taken: usize,
}

// Where slips can't go out nothing more is tried.
fn send(rt: &impl System, text: &[u8], mut w: Work) -> Work {
    if !program::send(rt, text) {
        w.written = false;
    }
    w
}

fn report(rt: &impl System, text: &[u8], mut w: Work) -> Work {
    if !program::report(rt, text) {
        w.reported = false;
    }
    w
}

fn answer(rt: &impl System, typed: &[u8], w: Work) -> Work {
    let mut out = [0u8; 256];
    let n = whatif::say_answer(&mut out, typed);
    send(rt, &out[..n], w)
}

fn remark(rt: &impl System, typed: &[u8], w: Work) -> Work {
    let mut out = [0u8; 256];
    let cut = w.cut;
    let n = whatif::say_remark(&mut out, cut.number, typed);
    report(rt, &out[..n], w)
}

fn count(typed: &[u8], mut w: Work) -> Work {
    let counts = whatif::counted(w.counts, typed);
    w.counts = counts;
    w
}

// A slip that did not go out is not counted.
fn end_line(rt: &impl System, line: &[u8], w: Work) -> Work {
    let typed = text_lines::whole(line, w.cut);
    let answered = answer(rt, typed, w);
    if !answered.written {
        return answered;
    }
    count(typed, remark(rt, typed, answered))
}

fn next_line(mut w: Work) -> Work {
    let cut = w.cut;
    let next = cut.next();
    w.cut = next;
    w
}

fn step(rt: &impl System, line: &mut [u8], rest: &[u8], mut w: Work) -> Stepped
    ensures { result.taken ≤ length rest.now }
{
    let cutting = text_lines::cut_line(line, w.cut, rest);
    let cut = cutting.cut;
    w.cut = cut;
    if !cutting.ended {
        return Stepped {
            work: w,
            taken: cutting.taken,
        };
    }
    let next = next_line(end_line(rt, line, w));
    Stepped {
        work: next,
        taken: cutting.taken,
    }
}

// A proved loop has to end: no part uses up as many steps as it has bytes, since each takes one.
fn take_part(rt: &impl System, line: &mut [u8], part: &[u8], from: Work) -> Work {
    let mut w = from;
    let mut rest = part;
    for _ in 0..part.len() {
        let done = step(rt, line, rest, w);
        w = done.work;
        rest = &rest[done.taken..];
        if (rest.len() == 0) | !w.written {
            return w;
        }
    }
    w
}

// Part after part, up to the input's end or to a read or a write that fails.
fn run(rt: &impl System, line: &mut [u8], from: Work) -> Work {
    let mut w = from;
    let mut part = io::buffer();
    let mut stdin = rt.input();
    let mut input = Reading::new();
    // By the turns of the reading, which end with the input: no count of this loop.
    while 0 < input.turns {
        input = input.next(rt, &mut stdin, b"standard input", &mut part);
        let n = input.len;
        w = take_part(rt, line, &part[..n], w);
        if !w.written {
            return w;
        }
    }
    w.read = input.good;
    w
}

// The line after the last line feed. Where a read failed it may have been cut, so it is not read.
fn finish(rt: &impl System, line: &[u8], w: Work) -> Work {
    if w.read & w.written {
        return end_line(rt, line, w);
    }
    w
}

fn report_counts(rt: &impl System, w: Work) -> Work {
    let mut out = [0u8; 256];
    let n = whatif::say_counts(&mut out, w.counts);
    report(rt, &out[..n], w)
}

fn tell_status(rt: &impl System, w: Work) {
    program::tell_status(
        rt,
        whatif::status(w.counts, w.read & w.written & w.reported),
    );
}

fn main(rt: HostRuntime) {
    let mut line = [0u8; 1027];
    let start = Work {
        cut: Cut::new(),
        counts: Counts {
            answered: 0,
            refused: 0,
            unread: 0,
        },
        read: true,
        written: true,
        reported: true,
    };
    let headed = report(
        &rt,
        b"estimate only, put in no book: answer, GE, Ym, head, days, kg CH4, kg before, difference\n",
        start,
    );
    let last = run(&rt, &mut line, headed);
    let done = finish(&rt, &line, last);
    tell_status(&rt, report_counts(&rt, done));
}
