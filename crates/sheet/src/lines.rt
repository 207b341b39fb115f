// A line record from the numbers of its row, its row as text, and the bytes of several.
ghost use Rattle.std.specs.Prelude.{◌≡◌, true, ◌+◌, ◌≤◌, length};
ghost use Rattle.line_bytes.specs.Lines.{numbers_bytes, is_line};
ghost use Rattle.line_rows.specs.declared.Form.TheVariants.{Sheet};
ghost use Rattle.line_rows.specs.Rows.{line_row};
ghost use Rattle.printing.specs.Decimal.{Put};
ghost use Rattle.sheet.specs.Code.{more_bytes};

use base::first_of;
use line_bytes::{TOTAL_NUMBERS, put_numbers, size_of_kind};
use line_rows::{Form, ROW_MOST};
use printing::put_text;

// A count of bytes with so many more, where there is room for them.
pub fn add(total: Option<usize>, size: usize, room: usize) -> Option<usize>
    ensures { result ≡ more_bytes total size room }
{
    let sum = total?.checked_add(size)?;
    if room < sum {
        return None;
    }
    Some(sum)
}

// A line from the numbers of its row.
pub fn put_line(out: &mut [u8], at: usize, kind: u64, values: &[u64; TOTAL_NUMBERS]) -> usize
    requires { at + length (numbers_bytes kind values.now) ≤ length out.old }
    ensures { Put out.old out.new at (numbers_bytes kind values.now) result }
{
    put_numbers(out, at, kind, values);
    at + size_of_kind(kind)
}

pub fn row_size(s: &[u8]) -> usize
    requires { is_line s.now ≡ true }
    ensures { result ≡ length (line_row Sheet s.now) }
{
    let mut row = [0u8; ROW_MOST];
    line_rows::put_line(&mut row, 0, Form::Sheet, s)
}

// The row of the line that s begins with, where there is room for just it.
pub fn put_row(out: &mut [u8], at: usize, s: &[u8]) -> usize
    requires s_value { is_line s.now ≡ true }
    requires s_in_bounds { at + length (line_row Sheet s.now) ≤ length out.old }
    ensures { Put out.old out.new at (line_row Sheet s.now) result }
{
    let mut row = [0u8; ROW_MOST];
    let n = line_rows::put_line(&mut row, 0, Form::Sheet, s);
    put_text(out, at, first_of(&row, n))
}
