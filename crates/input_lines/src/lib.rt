// The lines of standard input, one after the other, for programs that answer each line by itself.
#![tactic(auto)]

ghost use Rattle.std.specs.Prelude.{◌≡◌, ◌-◌, ◌≤◌, length};
ghost use Rattle.input_lines.specs.Beginning.{no_line_lem};

use program::{Reading, System};
use text_lines::Cut;

// The line that was cut last, and whether its line feed has come; the last part read, and how many of its bytes are not cut yet; how many lines may
// still come: none after the input's end or a read that failed.
#[derive(Clone, Copy)]
pub struct Lines {
    pub cut: Cut,
    pub ended: bool,
    pub input: Reading,
    pub rest: usize,
    pub left: u64,
}

// What the last bytes of a part are cut to.
#[derive(Clone, Copy)]
struct Taken {
    cut: Cut,
    ended: bool,
    rest: usize,
}

// The last rest of the first len bytes, or none where there are not so many.
fn uncut(part: &[u8], len: usize, rest: usize) -> &[u8]
    ensures { length result.now ≤ rest }
{
    if part.len() < len {
        return &part[..0];
    }
    if len < rest {
        return &part[..0];
    }
    let from = len - rest;
    &part[from..len]
}

fn take(line: &mut [u8], from: Cut, part: &[u8], len: usize, rest: usize) -> Taken {
    let bytes = uncut(part, len, rest);
    let cutting = text_lines::cut_line(line, from, bytes);
    let cut = cutting.cut;
    Taken {
        cut: cut,
        ended: cutting.ended,
        rest: rest - cutting.taken,
    }
}

// The line to go on with: the next one, where this one has ended.
fn opened(cut: Cut, ended: bool) -> Cut {
    if ended {
        return cut.next();
    }
    cut
}

fn one_less(left: u64) -> u64
    ensures { result ≤ left - 1 }
{
    if left == 0 {
        return 0;
    }
    left - 1
}

impl Lines {
    // A proved loop has to end: the lines count down from a number that no input uses up.
    pub fn new() -> Lines
        ensures { result ≡ no_line_lem }
    {
        let cut = Cut::new();
        let input = Reading::new();
        Lines {
            cut: cut,
            ended: false,
            input: input,
            rest: 0,
            left: u64::MAX,
        }
    }

    // Reads on to a line feed. Where the input ends, or a read fails, before one comes, what stands in line is what there is of the last line.
    pub fn next<R: System>(self, rt: &R, line: &mut [u8], part: &mut [u8]) -> Lines
        ensures { result.left ≤ self.left - 1 }
    {
        let mut cut = opened(self.cut, self.ended);
        let mut input = self.input;
        let mut rest = self.rest;
        let mut stdin = rt.input();
        // By the turns of the reading, which end with the input: no count of this loop.
        while 0 < input.turns {
            let taken = take(line, cut, part, input.len, rest);
            cut = taken.cut;
            rest = taken.rest;
            if taken.ended {
                return Lines {
                    cut: cut,
                    ended: true,
                    input: input,
                    rest: rest,
                    left: one_less(self.left),
                };
            }
            input = input.next(rt, &mut stdin, b"standard input", part);
            rest = input.len;
        }
        Lines {
            cut: cut,
            ended: false,
            input: input,
            rest: 0,
            left: 0,
        }
    }
}
