// A line record as a row of text, in the form of the lister or of a sheet: the numbers are those of line_bytes.
#![tactic(auto)]

ghost use Rattle.std.specs.Prelude.{◌≡◌, ◌∷◌, [], ◌+◌, ◌*◌, ◌≤◌, length, drop};
ghost use Rattle.line_bytes.specs.Lines.{line_size, front_size};
ghost use Rattle.printing.specs.Decimal.{Put};
ghost use Rattle.printing.specs.Says.{Says};
ghost use Rattle.line_rows.specs.Rows.{is_signed, column_text, between, columns_text, ending, row_text, line_row, rows_text, header, sheet_form};

use base::rest_of;
use codec::kinds::CLOSE;
use line_bytes::{LINE_NUMBERS, LINE_SIZE, TOTAL_SIZE, detail_numbers, front_size, total_numbers};
use printing::text::Text;
use printing::{put_byte, put_decimal, put_signed, put_text, say};

// The lister's rows, or those of a sheet for the spreadsheet.
#[derive(Clone, Copy)]
pub enum Form {
    Listing,
    Sheet,
}

// The most bytes of a row: no line's text has more than four for each of its bytes.
pub const ROW_MOST: usize = 4 * TOTAL_SIZE;

// The names of the figures and of CO2e, here alone: a sheet's columns, and for people, a line each.
pub const FIGURE_COLUMNS: [u8; 38] = *b"ch4,n2o,co2,excreted,land,grazing,co2e";

pub const FIGURE_NAMES: [u8; 51] = *b"CH4
N2O
CO2
N excreted
N for land
grazing CO2e
CO2e";

// CO2 and CO2e are signed.
pub fn is_signed(column: usize) -> bool
    ensures { result ≡ is_signed column }
{
    (column == 4) | (column == LINE_NUMBERS)
}

fn put_column(out: &mut [u8], at: usize, column: usize, v: u64) -> usize
    requires { at + 20 ≤ length out.old }
    ensures put { Put out.old out.new at (column_text column v) result }
    ensures upper_bound { result ≤ at + 20 }
{
    if is_signed(column) {
        return put_signed(out, at, v);
    }
    put_decimal(out, at, v)
}

fn byte_between(form: Form) -> u8
    ensures { result ≡ between form }
{
    match form {
        Form::Listing => b' ',
        Form::Sheet => b',',
    }
}

fn put_next(out: &mut [u8], at: usize, form: Form, column: usize, v: u64) -> usize
    requires { at + 21 ≤ length out.old }
    ensures put { Put out.old out.new at (between form ∷ column_text column v) result }
    ensures upper_bound { result ≤ at + 21 }
{
    let after = put_byte(out, at, byte_between(form));
    put_column(out, after, column, v)
}

// The columns from the second on.
fn put_columns(out: &mut [u8], at: usize, form: Form, values: &[u64]) -> usize
    requires in_bounds { 1 ≤ length values.now }
    requires values_in_bounds { at + 21 * length values.now ≤ length out.old + 21 }
    ensures put { Put out.old out.new at (columns_text form 1 (drop 1 values.now)) result }
    ensures result_bound { result + 21 ≤ at + 21 * length values.now }
{
    let mut end = at;
    for k in 1..values.len() {
        end = put_next(out, end, form, k, values[k]);
    }
    end
}

// The last column of a sheet, CO2e, is empty but in the close's line.
fn put_ending(out: &mut [u8], at: usize, form: Form, total: bool) -> usize
    requires { at + 3 ≤ length out.old }
    ensures put { Put out.old out.new at (ending form total) result }
    ensures upper_bound { result ≤ at + 3 }
{
    match form {
        Form::Listing => put_text(out, at, b"\n"),
        Form::Sheet => {
            if total {
                put_text(out, at, b"\r\n")
            } else {
                put_text(out, at, b",\r\n")
            }
        }
    }
}

// A row: at most 21 bytes for each column, and two more.
fn put_row(out: &mut [u8], at: usize, form: Form, total: bool, values: &[u64]) -> usize
    requires in_bounds { 1 ≤ length values.now }
    requires values_in_bounds { at + 21 * length values.now + 2 ≤ length out.old }
    ensures put { Put out.old out.new at (row_text form total values.now) result }
    ensures upper_bound { result ≤ at + 21 * length values.now + 2 }
{
    let first = put_column(out, at, 0, values[0]);
    let end = put_columns(out, first, form, values);
    put_ending(out, end, form, total)
}

// The row of the line record at the front of s: at most four bytes for each of its.
pub fn put_line(out: &mut [u8], at: usize, form: Form, s: &[u8]) -> usize
    requires line_size_in_bounds { (line_size ≤ length s.now) × (front_size s.now ≤ length s.now) }
    requires s_in_bounds { at + 4 * front_size s.now ≤ length out.old }
    ensures put { Put out.old out.new at (line_row form s.now) result }
    ensures upper_bound { result ≤ at + 4 * front_size s.now }
{
    if s[3] == CLOSE as u8 {
        let numbers = total_numbers(s);
        put_row(out, at, form, true, &numbers)
    } else {
        let numbers = detail_numbers(s);
        put_row(out, at, form, false, &numbers)
    }
}

// What stands before the rows: of a sheet the names of its columns.
pub fn put_header(out: &mut [u8], at: usize, form: Form) -> usize
    requires { at + length (header form) ≤ length out.old }
    ensures { Put out.old out.new at (header form) result }
{
    match form {
        Form::Listing => at,
        Form::Sheet => {
            let figures = put_text(out, at, b"kind,group,");
            let end = put_text(out, figures, &FIGURE_COLUMNS);
            put_text(out, end, b"\r\n")
        }
    }
}

// What a sheet has to be, for people.
pub fn say_form(out: &mut Text)
    ensures { Says out.old out.new sheet_form }
{
    out.say(b"first the row ");
    out.say(b"kind,group,");
    out.say(&FIGURE_COLUMNS);
    out.say(
        b", then rows of nine columns, no leading zeros, the last empty but on kind 8; CRLF after each",
    );
}

// A row for each line record, from the start of out.
pub fn put_lines(out: &mut [u8], form: Form, lines: &[u8]) -> usize
    requires { 4 * length lines.now ≤ length out.old }
    ensures { Put out.old out.new 0 (rows_text form lines.now) result }
{
    let mut i = 0;
    let mut at = 0;
    // A cursor and no count: each record has a length of its own.
    while i < lines.len() {
        let rest = rest_of(lines, i);
        if rest.len() < LINE_SIZE {
            return at;
        }
        let n = front_size(rest);
        if rest.len() < n {
            return at;
        }
        at = put_line(out, at, form, rest);
        i += n;
    }
    at
}
