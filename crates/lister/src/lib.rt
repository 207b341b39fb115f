// A book as rows of text, as the lister prints them or as a sheet: one call over a part of it, and the loop of both programs.
#![tactic(auto)]

pub mod pump; // pump.rt: standard input read in parts, rows and last word sent

ghost use Rattle.std.specs.Prelude.{◌≡◌, ◌*◌, ◌≤◌, length};
ghost use Rattle.printing.specs.Decimal.{Put};
ghost use Rattle.book.specs.Call.{call};
ghost use Rattle.lister.specs.Listing.{line_room, head_text, Lists};

use book::State;
use line_rows::{Form, put_header, put_lines};

// What one call over a part of a book makes: the new state, the bytes taken, and the bytes of its rows.
#[derive(Clone, Copy)]
pub struct Listed {
    pub state: State,
    pub taken: usize,
    pub written: usize,
}

// One call over a part of a book with this line buffer, the rows of its lines from the start of out.
fn list_by(form: Form, state: State, part: &[u8], lines: &mut [u8], out: &mut [u8]) -> Listed
    requires { 4 * length lines.old ≤ length out.old }
    ensures lists { Lists form (call state part.now (length lines.old)) out.old out.new result }
    ensures taken_in_bounds { result.taken ≤ length part.now }
{
    let fed = state.feed(part, lines);
    let n = fed.written;
    let written = put_lines(out, form, &lines[..n]);
    let next = fed.state;
    Listed {
        state: next,
        taken: fed.taken,
        written,
    }
}

// The lines' room in a call: their text takes at most four bytes for each of theirs.
fn line_room(room: usize) -> usize
    ensures { result ≡ line_room room }
{
    if room < 65536 {
        return room / 4;
    }
    16384
}

// One call over a part of a book, the rows of its lines in this form from the start of out.
pub fn list(form: Form, state: State, part: &[u8], out: &mut [u8]) -> Listed
    ensures lists { Lists form (call state part.now (line_room (length out.old))) out.old out.new result }
    ensures taken_in_bounds { result.taken ≤ length part.now }
{
    let mut lines = [0u8; 16384];
    let n = line_room(out.len());
    list_by(form, state, part, &mut lines[..n], out)
}

// What stands before the rows, from the start of out, where there is room for it.
pub fn begin(out: &mut [u8], form: Form) -> usize
    ensures { Put out.old out.new 0 (head_text form (length out.old)) result }
{
    if line_rows::ROW_MOST <= out.len() {
        return put_header(out, 0, form);
    }
    0
}
