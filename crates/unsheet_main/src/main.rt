// Reads a sheet on standard input and writes its line records on standard output. The last word goes to standard error.
#![tactic(auto)]

ghost use Rattle.std.specs.Prelude.{◌≡◌, ◌*◌, ◌/◌, length};
ghost use Rattle.line_bytes.specs.Lines.{total_size};

use line_bytes::TOTAL_SIZE;
use program::{System, report, send};
use sheet::{Refused, remarks};

// The most bytes of a sheet: a book of 4,096 records has no more rows, the header among them, and none comes to 64 bytes a row.
const MOST: usize = 64 * 4096;

// The most bytes of its lines: of all rows the close's gives most for its bytes, which are 19 at least.
const MOST_LINES: usize = MOST / 19 * TOTAL_SIZE;

// Whether the sheet was accepted, and whether all was read and written.
#[derive(Clone, Copy)]
struct Done {
    accepted: bool,
    written: bool,
}

// A byte more than the most, by which a longer sheet is known.
fn sheet_buffer() -> [u8; MOST + 1]
    ensures { length result ≡ 262145 }
{
    [0u8; MOST + 1]
}

fn lines_buffer() -> [u8; MOST_LINES]
    ensures { length result ≡ 262144 / 19 * total_size }
{
    [0u8; MOST_LINES]
}

// A sentence where it is refused, and the last word, which is part of the answer: whether it went out.
fn tell_end(rt: &impl System, text: &[u8], answer: Result<usize, Refused>) -> bool {
    let mut said = [0u8; 512];
    let n = remarks::say_answer(&mut said, text, answer);
    report(rt, &said[..n])
}

fn tell_too_long(rt: &impl System) {
    let mut said = [0u8; 256];
    let n = remarks::say_too_long(&mut said, MOST);
    report(rt, &said[..n]);
}

// Where the lines can't go out, nothing more is printed.
fn give(rt: &impl System, text: &[u8], answer: Result<usize, Refused>, lines: &[u8]) -> Done {
    if !send(rt, lines) {
        return Done {
            accepted: true,
            written: false,
        };
    }
    let told = tell_end(rt, text, answer);
    Done {
        accepted: true,
        written: told,
    }
}

fn refused() -> Done {
    Done {
        accepted: false,
        written: true,
    }
}

fn read_sheet(rt: &impl System, text: &[u8]) -> Done {
    if MOST < text.len() {
        tell_too_long(rt);
        return refused();
    }
    let mut lines = lines_buffer();
    let answer = sheet::import(text, &mut lines);
    match answer {
        Ok(n) => give(rt, text, answer, &lines[..n]),
        Err(_) => {
            tell_end(rt, text, answer);
            refused()
        }
    }
}

fn tell_status(rt: &impl System, done: Done) {
    program::tell_status(rt, remarks::status(done.accepted, done.written));
}

fn main(rt: HostRuntime) {
    let mut sheet = sheet_buffer();
    let input = program::read_all(&rt, &mut rt.input(), b"standard input", &mut sheet);
    if !input.good {
        tell_status(&rt, refused());
        return;
    }
    let n = input.len;
    tell_status(&rt, read_sheet(&rt, &sheet[..n]));
}
