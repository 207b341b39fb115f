// Reads line records on standard input and writes their sheet on standard output: for machines that keep lines. The last word goes to standard error.
#![tactic(auto)]

ghost use Rattle.std.specs.Prelude.{◌≡◌, ◌+◌, ◌*◌, length};
ghost use Rattle.line_bytes.specs.Lines.{figure_count, line_size, total_size};

use line_bytes::{FIGURES, LINE_SIZE, TOTAL_SIZE};
use program::{System, report, send};
use sheet::{Refused, remarks};

// The most bytes of a book's lines: of 4,096 records the farm's gives none, the close's two where the first heading gave none, each other one.
const MOST: usize = 4094 * LINE_SIZE + TOTAL_SIZE;

// The most bytes of their sheet: 21 a figure with its comma; kind, group and the row's end have less than 14; and CO2e stands in one row of 4,095.
const MOST_TEXT: usize = (14 + 21 * FIGURES) * 4096;

// Whether the lines were accepted, and whether all was read and written.
#[derive(Clone, Copy)]
struct Done {
    accepted: bool,
    written: bool,
}

// A byte more than the most, by which a longer run is known.
fn lines_buffer() -> [u8; MOST + 1]
    ensures { length result ≡ 4094 * line_size + total_size + 1 }
{
    [0u8; MOST + 1]
}

fn sheet_buffer() -> [u8; MOST_TEXT]
    ensures { length result ≡ (14 + 21 * figure_count) * 4096 }
{
    [0u8; MOST_TEXT]
}

// A sentence where it is refused, and the last word, which is part of the answer: whether it went out.
fn tell_end(rt: &impl System, text: &[u8], answer: Result<usize, Refused>) -> bool {
    let mut said = [0u8; 512];
    let n = remarks::say_answer(&mut said, text, answer);
    report(rt, &said[..n])
}

fn tell_too_long(rt: &impl System) {
    let mut said = [0u8; 256];
    let n = remarks::say_lines_too_long(&mut said, MOST);
    report(rt, &said[..n]);
}

// Where the sheet can't go out, nothing more is printed.
fn give(rt: &impl System, answer: Result<usize, Refused>, sheet: &[u8]) -> Done {
    if !send(rt, sheet) {
        return Done {
            accepted: true,
            written: false,
        };
    }
    let told = tell_end(rt, sheet, answer);
    Done {
        accepted: true,
        written: told,
    }
}

fn refused() -> Done {
    Done {
        accepted: false,
        written: true,
    }
}

fn write_sheet(rt: &impl System, lines: &[u8]) -> Done {
    if MOST < lines.len() {
        tell_too_long(rt);
        return refused();
    }
    let mut sheet = sheet_buffer();
    let answer = sheet::export(lines, &mut sheet);
    match answer {
        Ok(n) => give(rt, answer, &sheet[..n]),
        Err(_) => {
            tell_end(rt, b"", answer);
            refused()
        }
    }
}

fn tell_status(rt: &impl System, done: Done) {
    program::tell_status(rt, remarks::status(done.accepted, done.written));
}

fn main(rt: HostRuntime) {
    let mut lines = lines_buffer();
    let input = program::read_all(&rt, &mut rt.input(), b"standard input", &mut lines);
    if !input.good {
        tell_status(&rt, refused());
        return;
    }
    let n = input.len;
    tell_status(&rt, write_sheet(&rt, &lines[..n]));
}
