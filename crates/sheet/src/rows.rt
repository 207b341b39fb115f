// A row of columns, read off a text from an index on.
ghost use Rattle.std.specs.Prelude.{◌≡◌, ◌-◌, ◌≤◌, ◌<◌, length, get_or, drop};
ghost use Rattle.sheet.specs.Numbers.{Cell};
ghost use Rattle.codec.specs.Codec.{bytes_hold};
ghost use Rattle.sheet.specs.Rows.{highest_of, empty, column_count, columns, starts_with, column_end, read_cell, ended, read_column, kind_in, row_in};
ghost use Rattle.sheet.specs.Code.{IsRead, IsRow, Fair};

use crate::numbers::{CellFault, Read, signed_cell, unsigned_cell};
use line_bytes::{LINE_NUMBERS, TOTAL_NUMBERS, number_width};
use line_rows::is_signed;

// A column of a row: the bytes of its number in a line (none: the column is empty), the highest number, whether it is signed, whether the
// column is the last.
#[derive(Clone, Copy)]
pub struct Column {
    pub width: usize,
    pub highest: u64,
    pub signed: bool,
    pub last: bool,
}

// A row read: its kind, its values, and the index past it.
#[derive(Clone, Copy)]
pub struct RowRead {
    pub kind: u64,
    pub values: [u64; TOTAL_NUMBERS],
    pub end: usize,
}

// What is wrong with a row, whether all its numbers are there and fit, and what was read of it all the same.
#[derive(Clone, Copy)]
pub struct BadRow {
    pub fault: CellFault,
    pub fits: bool,
    pub read: RowRead,
}

// The highest number of so many bytes.
fn highest_in(width: usize) -> u64
    requires { width ≤ 8 }
    ensures { result ≡ bytes_hold width - 1 }
{
    let mut highest: u64 = 0;
    for i in 0..width {
        highest = highest * 256 + 255;
    }
    highest
}

// A signed number goes half as far.
fn highest_of(signed: bool, width: usize) -> u64
    requires { width ≤ 8 }
    ensures { result ≡ highest_of signed width }
{
    if signed {
        return 9_223_372_036_854_775_807;
    }
    highest_in(width)
}

// The jth column of a row or line of a kind.
pub fn column_of(kind: u64, j: usize) -> Column
    requires { j < column_count }
    ensures value { result ≡ get_or (columns kind) j empty }
    ensures fair { Fair result }
{
    let last = j == LINE_NUMBERS;
    if last & (kind != 8) {
        return Column {
            width: 0,
            highest: 0,
            signed: false,
            last,
        };
    }
    let signed = is_signed(j);
    let width = number_width(j);
    Column {
        width,
        highest: highest_of(signed, width),
        signed,
        last,
    }
}

// Whether the text goes on with a word.
pub fn starts(text: &[u8], at: usize, word: &[u8]) -> bool
    requires { at ≤ length text.now }
    ensures { result ≡ starts_with word.now (drop at text.now) }
{
    text[at..].starts_with(word)
}

pub(crate) fn read_cell(text: &[u8], at: usize, c: Column) -> Read
    requires at_in_bounds { at ≤ length text.now }
    requires fair { Fair c }
    ensures { IsRead text.now (read_cell c (drop at text.now)) result }
{
    if c.width == 0 {
        return Read {
            number: Ok(0),
            end: at,
        };
    }
    if c.signed {
        return signed_cell(text, at, c.highest);
    }
    unsigned_cell(text, at, c.highest)
}

// What was read, and the word behind it.
fn with_end(text: &[u8], k: Read, word: &[u8]) -> Read
    requires { k.end ≤ length text.now }
    ensures { (m : Cell) → IsRead text.now m k → IsRead text.now (ended word.now m) result }
{
    let end = text.len().min(k.end + word.len());
    if !starts(text, k.end, word) {
        return Read {
            number: Err(CellFault::Malformed),
            end,
        };
    }
    Read {
        number: k.number,
        end,
    }
}

// What was read of a column, and what stands after it: CRLF after the last, a comma after any other.
fn end_column(text: &[u8], k: Read, last: bool) -> Read
    requires { k.end ≤ length text.now }
    ensures { (m : Cell) → IsRead text.now m k → IsRead text.now (ended (column_end last) m) result }
{
    if last {
        return with_end(text, k, b"\r\n");
    }
    with_end(text, k, b",")
}

pub(crate) fn read_column(text: &[u8], at: usize, c: Column) -> Read
    requires at_in_bounds { at ≤ length text.now }
    requires fair { Fair c }
    ensures { IsRead text.now (read_column c (drop at text.now)) result }
{
    end_column(text, read_cell(text, at, c), c.last)
}

// A row, or what is wrong with it, and what was read of it: that it is not of the form comes before a number outside its field.
pub fn read_row(text: &[u8], at: usize) -> Result<RowRead, BadRow>
    requires { at ≤ length text.now }
    ensures { IsRow text.now (kind_in (drop at text.now)) (row_in (drop at text.now)) result }
{
    let first = unsigned_cell(text, at, 255);
    let kind = first.number.unwrap_or(0);
    let mut formed = true;
    let mut fits = true;
    let mut values = [0u64; TOTAL_NUMBERS];
    let mut end = at;
    for j in 0..TOTAL_NUMBERS {
        let c = column_of(kind, j);
        let cell = read_cell(text, end, c);
        let k = end_column(text, cell, c.last);
        formed = formed & k.is_formed();
        fits = fits & cell.number.is_ok();
        values[j] = cell.number.unwrap_or(0);
        end = k.end;
    }
    let read = RowRead { kind, values, end };
    if !formed {
        return Err(BadRow {
            fault: CellFault::Malformed,
            fits,
            read,
        });
    }
    if !fits {
        return Err(BadRow {
            fault: CellFault::Outside,
            fits,
            read,
        });
    }
    Ok(read)
}
