// Sheets for the spreadsheet: a run of line records as comma-separated text, and such text as line records.
#![tactic(auto)]

pub mod numbers; // numbers.rt: numbers read off a text
pub mod rows; // rows.rt: a row of columns read off a text
pub mod lines; // lines.rt: a line record from its values, its row as text, and the bytes of several
pub mod remarks; // remarks.rt: what is told of a sheet that is read
mod faults; // faults.rt: where a sheet is not of its form, and what to do

ghost use Rattle.std.specs.Prelude.{◌≡◌, ℕ, ◌+◌, ◌≤◌, Some, None, length, drop, ok_or};
ghost use Rattle.base.specs.Choice.{pick};
ghost use Rattle.line_rows.specs.declared.Form.TheVariants.{Sheet};
ghost use Rattle.line_rows.specs.Rows.{header};
ghost use Rattle.printing.specs.Decimal.{Put};
ghost use Rattle.sheet.specs.Rows.{starts_with};
ghost use Rattle.sheet.specs.Sheets.{code_of, numbered_of, made, each, rows_of, export_of, row_item, import_of, no_room, answer, buffer};
ghost use Rattle.sheet.specs.Code.{refusal_of, IsLineRow, total_of, answer_after, made_of};

use base::{first_of, rest_of};
use line_bytes::{front_size, is_line, is_line_kind, size_of_kind};
use line_rows::{Form, ROW_MOST, put_header};
use lines::{add, put_line, put_row, row_size};
use numbers::CellFault;
use rows::{RowRead, read_row, starts};

// Why a text or some lines are refused: there is no room, the text is not of a sheet's form, a number is outside its field, or the bytes are no
// whole lines.
#[derive(Clone, Copy)]
pub enum Refusal {
    Full,
    WrongForm,
    OutsideField,
    NoLines,
}

impl Refusal {
    // Its number.
    fn code(self) -> u8
        ensures { result ≡ code_of self }
    {
        match self {
            Refusal::Full => 16,
            Refusal::WrongForm => 20,
            Refusal::OutsideField => 21,
            Refusal::NoLines => 23,
        }
    }
}

// What an export or an import is refused for, and its row, 0 for none: `numbers` and the theorems on rows speak of it so.
#[derive(Clone, Copy)]
pub struct Refused {
    pub why: Refusal,
    pub row: usize,
}

// A refusal by its number, and its row, 0 for none: what `remarks` tells, of any number.
#[derive(Clone, Copy)]
pub struct Numbered {
    pub code: u8,
    pub row: usize,
}

impl Refused {
    // By its number.
    pub fn numbered(self) -> Numbered
        ensures { result ≡ numbered_of self }
    {
        Numbered {
            code: self.why.code(),
            row: self.row,
        }
    }
}

// Of a row.
fn refusal_of(fault: CellFault) -> Refusal
    ensures { result ≡ refusal_of fault }
{
    match fault {
        CellFault::Malformed => Refusal::WrongForm,
        CellFault::Outside => Refusal::OutsideField,
    }
}

// The bytes counted, or the refusal that there is no room for them.
fn with_room(total: Option<usize>) -> Result<usize, Refused>
    ensures { result ≡ ok_or total no_room }
{
    total.ok_or(Refused {
        why: Refusal::Full,
        row: 0,
    })
}

// The row that the text goes on with from an index on, with its line's kind.
fn line_row(text: &[u8], at: usize) -> Result<RowRead, Refusal>
    requires { at ≤ length text.now }
    ensures { IsLineRow text.now (drop at text.now) result }
{
    match read_row(text, at) {
        Ok(row) => {
            if is_line_kind(row.kind) {
                return Ok(row);
            }
            Err(Refusal::OutsideField)
        }
        Err(bad) => Err(refusal_of(bad.fault)),
    }
}

// The answer to the rows of a text from an index on, with so much room for their lines: the bytes of the lines.
fn plan_rows(text: &[u8], from: usize, room: usize) -> Result<usize, Refused>
    requires { (2 ≤ from) × (from ≤ length text.now) }
    ensures { result ≡ answer (each row_item 2 (drop from text.now)) room }
{
    let mut total = Some(0);
    let mut i = from;
    let mut row: usize = 2;
    // A cursor and no count: each row has a length of its own.
    while i < text.len() {
        let r = match line_row(text, i) {
            Ok(r) => r,
            Err(why) => return Err(Refused { why, row }),
        };
        total = add(total, size_of_kind(r.kind), room);
        i = r.end;
        row += 1;
    }
    with_room(total)
}

// Their lines.
fn write_rows(text: &[u8], from: usize, lines: &mut [u8]) -> usize
    requires from_in_bounds { from ≤ length text.now }
    requires text_value { each row_item 2 (drop from text.now) ≡ made (made_of (each row_item 2 (drop from text.now))) }
    requires text_in_bounds { length (made_of (each row_item 2 (drop from text.now))) ≤ length lines.old }
    ensures { Put lines.old lines.new 0 (made_of (each row_item 2 (drop from text.now))) result }
{
    let mut i = from;
    let mut at = 0;
    // A cursor and no count: each row has a length of its own.
    while i < text.len() {
        let r = line_row(text, i).unwrap();
        at = put_line(lines, at, r.kind, &r.values);
        i = r.end;
    }
    at
}

fn header_size() -> usize
    ensures { result ≡ length (header Sheet) }
{
    let mut head = [0u8; ROW_MOST];
    put_header(&mut head, 0, Form::Sheet)
}

// The index after the header, where the text begins with it.
fn after_header(text: &[u8]) -> Option<usize>
    ensures { result ≡ pick (starts_with (header Sheet) text.now) (Some (length (header Sheet))) None }
{
    let mut head = [0u8; ROW_MOST];
    let n = put_header(&mut head, 0, Form::Sheet);
    if starts(text, 0, first_of(&head, n)) {
        return Some(n);
    }
    None
}

// The line of each row behind the header.
pub fn import(text: &[u8], lines: &mut [u8]) -> Result<usize, Refused>
    ensures value { result ≡ answer (import_of text.now) (length lines.old) }
    ensures lines_after { lines.new ≡ buffer (import_of text.now) lines.old }
{
    let from = after_header(text).ok_or(Refused {
        why: Refusal::WrongForm,
        row: 1,
    })?;
    plan_rows(text, from, lines.len())?;
    Ok(write_rows(text, from, lines))
}

// The answer to the rows of some lines, with so much room, a part of which is taken: the bytes of the rows behind it.
fn plan_lines(lines: &[u8], start: Option<usize>, room: usize) -> Result<usize, Refused>
    ensures { (k : ℕ) → start ≡ total_of room k → result ≡ answer_after k (rows_of lines.now) room }
{
    let mut total = start;
    let mut i = 0;
    // A cursor and no count: a line has one of two lengths.
    while i < lines.len() {
        let rest = rest_of(lines, i);
        if !is_line(rest) {
            return Err(Refused {
                why: Refusal::NoLines,
                row: 0,
            });
        }
        total = add(total, row_size(rest), room);
        i += front_size(rest);
    }
    with_room(total)
}

// The rows.
fn write_lines(lines: &[u8], text: &mut [u8], from: usize) -> usize
    requires lines_value { rows_of lines.now ≡ made (made_of (rows_of lines.now)) }
    requires lines_in_bounds { from + length (made_of (rows_of lines.now)) ≤ length text.old }
    ensures { Put text.old text.new from (made_of (rows_of lines.now)) result }
{
    let mut i = 0;
    let mut at = from;
    // A cursor and no count: a line has one of two lengths.
    while i < lines.len() {
        let rest = rest_of(lines, i);
        at = put_row(text, at, rest);
        i += front_size(rest);
    }
    at
}

// The header, then a row for each line.
pub fn export(lines: &[u8], text: &mut [u8]) -> Result<usize, Refused>
    ensures value { result ≡ answer (export_of lines.now) (length text.old) }
    ensures text_after { text.new ≡ buffer (export_of lines.now) text.old }
{
    let start = add(Some(0), header_size(), text.len());
    plan_lines(lines, start, text.len())?;
    let at = put_header(text, 0, Form::Sheet);
    Ok(write_lines(lines, text, at))
}
