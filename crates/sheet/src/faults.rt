// Where a sheet is not of its form: the row, the column that differs first, what stands there, and the words for it.
ghost use Rattle.std.specs.Prelude.{◌≡◌, ◌-◌, ◌≤◌, ◌<◌, length, drop, take, true};
ghost use Rattle.base.specs.Choice.{pick};
ghost use Rattle.printing.specs.Says.{Says};
ghost use Rattle.names.specs.Names.{shown};
ghost use Rattle.sheet.specs.Rows.{column_count, kind_in};
ghost use Rattle.sheet.specs.declared.faults.Fault.TheVariants.{Header};
ghost use Rattle.sheet.specs.Code.{Fair, IsSpot};
ghost use Rattle.sheet.specs.Faults.{after_marks, ends, part_length_lem, part_at, has, first_fault, last_fault, cell_fault, words};
ghost use Rattle.sheet.specs.Faults.{column_name, bad_in};
ghost use Rattle.sheet.specs.Faults.{first_text, place_text, row_fault_text, fault_text};

use crate::numbers::{byte, unsigned_cell};
use crate::rows::{Column, column_of, read_cell, read_column, starts};
use base::{first_of, rest_of};
use line_bytes::LINE_NUMBERS;
use line_rows::{Form, ROW_MOST, put_header};
use names::say_shown;
use printing::text::Text;
use printing::{say, say_number};

// What is wrong with a row.
#[derive(Clone, Copy)]
pub enum Fault {
    Mark,
    Quotes,
    Semicolons,
    FeedAlone,
    NoEnd,
    Header,
    Number,
    Total,
    NoTotal,
}

// The column of a row that differs first: the row's kind, its place, and the index of its cell.
#[derive(Clone, Copy)]
pub struct Spot {
    pub kind: u64,
    pub column: usize,
    pub at: usize,
}

// The index after the first n bytes b.
fn after_marks(text: &[u8], b: u8, n: usize) -> usize
    ensures { (result ≤ length text.now) × (drop result text.now ≡ after_marks b n text.now) }
{
    let mut left = n;
    for i in 0..text.len() {
        if left == 0 {
            return i;
        }
        if text[i] == b {
            left -= 1;
        }
    }
    text.len()
}

fn ends(cell: bool, b: u8) -> bool
    ensures { result ≡ ends cell b }
{
    (cell & (b == b',')) | ((b == b'\r') | (b == b'\n'))
}

// How many bytes the cell, or the line, at the front of a text has.
fn part_length(text: &[u8], cell: bool) -> usize
    ensures { (result ≡ part_length_lem cell text.now) × (result ≤ length text.now) }
{
    text.iter()
        .position(|&b| ends(cell, b))
        .unwrap_or(text.len())
}

fn has(text: &[u8], b: u8) -> bool
    ensures { result ≡ has b text.now }
{
    text.contains(&b)
}

// What is wrong with a first row.
fn first_fault(text: &[u8]) -> Fault
    ensures { result ≡ first_fault text.now }
{
    if starts(text, 0, b"\xef\xbb\xbf") {
        return Fault::Mark;
    }
    let line = first_of(text, part_length(text, false));
    if has(line, b'"') {
        return Fault::Quotes;
    }
    if has(line, b';') {
        return Fault::Semicolons;
    }
    let mut head = [0u8; ROW_MOST];
    let n = put_header(&mut head, 0, Form::Sheet) - 2;
    let named = starts(text, 0, first_of(&head, n));
    if named & (byte(text, n) == b'\n') {
        return Fault::FeedAlone;
    }
    if named & (text.len() == n) {
        return Fault::NoEnd;
    }
    Fault::Header
}

// What is wrong in the last column, where there are neither quotes nor semicolons.
fn last_fault(text: &[u8], c: Column) -> Fault
    requires { Fair c }
    ensures { result ≡ last_fault c text.now }
{
    let k = read_cell(text, 0, c);
    let formed = k.is_formed();
    if formed & (byte(text, k.end) == b'\n') {
        return Fault::FeedAlone;
    }
    if formed & (k.end == text.len()) {
        return Fault::NoEnd;
    }
    if c.width == 0 {
        return Fault::NoTotal;
    }
    Fault::Total
}

// What is wrong with a cell, with which the text begins.
fn cell_fault(text: &[u8], c: Column) -> Fault
    requires { Fair c }
    ensures { result ≡ cell_fault c text.now }
{
    let cell = first_of(text, part_length(text, true));
    if has(cell, b'"') {
        return Fault::Quotes;
    }
    if has(cell, b';') {
        return Fault::Semicolons;
    }
    if c.last {
        return last_fault(text, c);
    }
    Fault::Number
}

// The column that differs first in the row with which the text begins. Where none of the others does, it is the last.
fn bad_column(text: &[u8]) -> Spot
    ensures { IsSpot text.now (kind_in text.now) (bad_in text.now) result }
{
    let first = unsigned_cell(text, 0, 255);
    let kind = first.number.unwrap_or(0);
    let mut at = 0;
    for j in 0..LINE_NUMBERS {
        let k = read_column(text, at, column_of(kind, j));
        if !k.is_formed() {
            return Spot {
                kind: kind,
                column: j,
                at: at,
            };
        }
        at = k.end;
    }
    Spot {
        kind: kind,
        column: LINE_NUMBERS,
        at: at,
    }
}

fn say_header(out: &mut Text)
    ensures { Says out.old out.new (words Header) }
{
    let mut head = [0u8; ROW_MOST];
    let n = put_header(&mut head, 0, Form::Sheet) - 2;
    out.say(b"the first row has to be ");
    out.say(first_of(&head, n));
}

// What is said of it.
fn say_words(out: &mut Text, fault: Fault)
    ensures { Says out.old out.new (words fault) }
{
    match fault {
        Fault::Mark => out.say(
            b"a byte order mark stands before the sheet: save it as CSV without one, not as CSV UTF-8",
        ),
        Fault::Quotes => out.say(
            b"cells have no quotes, and here are some: save it as CSV without quotes",
        ),
        Fault::Semicolons => out.say(
            b"cells are separated by commas, and here are semicolons: save it as CSV with commas",
        ),
        Fault::FeedAlone => out.say(
            b"the row ends in a line feed alone: save it as CSV with CRLF, the line ends of Windows",
        ),
        Fault::NoEnd => out.say(
            b"the last row has no line end: each row ends in CRLF, the last one too",
        ),
        Fault::Header => say_header(out),
        Fault::Number => out.say(
            b"expected a whole number without leading zeros (co2 may have a minus sign), then a comma",
        ),
        Fault::Total => out.say(
            b"expected a whole number without leading zeros, perhaps with a minus sign, then the end of the row",
        ),
        Fault::NoTotal => out.say(
            b"expected nothing before the end of the row: only a row of kind 8 has a co2e",
        ),
    }
}

// Of the first row.
fn say_first(out: &mut Text, text: &[u8])
    ensures { Says out.old out.new (first_text text.now) }
{
    out.say(b"row 1: ");
    say_words(out, first_fault(text));
    out.say(b"\n");
}

// The name of a column.
fn say_name(out: &mut Text, j: usize)
    ensures { Says out.old out.new (column_name j) }
{
    let mut head = [0u8; ROW_MOST];
    let n = put_header(&mut head, 0, Form::Sheet) - 2;
    let names = first_of(&head, n);
    let rest = rest_of(names, after_marks(names, b',', j));
    out.say(first_of(rest, part_length(rest, true)));
}

// The cell with which the text begins, as a typed word is shown.
fn say_cell(out: &mut Text, text: &[u8])
    ensures { Says out.old out.new (shown (part_at true text.now)) }
{
    let n = part_length(text, true);
    say_shown(out, first_of(text, n));
}

// The column, its cell, and what is wrong with it.
fn say_place(out: &mut Text, kind: u64, j: usize, text: &[u8])
    requires { j < column_count }
    ensures { Says out.old out.new (place_text kind (record { column = j; rest = text.now })) }
{
    let fault = cell_fault(text, column_of(kind, j));
    out.say(b", column ");
    say_name(out, j);
    out.say(b": \"");
    say_cell(out, text);
    out.say(b"\": ");
    say_words(out, fault);
    out.say(b"\n");
}

// Of a row with which the text begins.
fn say_row(out: &mut Text, row: usize, text: &[u8])
    ensures { Says out.old out.new (row_fault_text row text.now) }
{
    let spot = bad_column(text);
    let at = spot.at;
    out.say(b"row ");
    out.say_number(row as u64);
    say_place(out, spot.kind, spot.column, rest_of(text, at));
}

// Of the text and the row of its refusal, from the start of out.
pub(crate) fn say_fault(out: &mut Text, text: &[u8], row: usize)
    ensures { Says out.old out.new (fault_text text.now row) }
{
    if row == 1 {
        say_first(out, text);
        return;
    }
    let at = after_marks(text, b'\n', row.saturating_sub(1));
    say_row(out, row, rest_of(text, at));
}
