// A book as a table of its records: for each accepted record a row with its place, name, group, typed line and figures; a subtotal's row before it.
#![tactic(auto)]

ghost use Rattle.std.specs.Prelude.{◌≡◌, false, ◌||◌, ◌++◌, ◌∷◌, [], ◌+◌, ◌-◌, ◌*◌, ◌/◌, ◌≤◌, length, take, drop, eqb};
ghost use Rattle.printing.specs.Decimal.{Put};
ghost use Rattle.printing.specs.Said.{Said};
ghost use Rattle.printing.specs.Says.{Says};
ghost use Rattle.names.specs.Names.{kind_name};
ghost use Rattle.codec.specs.Table.{last_row};
ghost use Rattle.line_bytes.specs.Lines.{line_size, front_size};
ghost use Rattle.line_rows.specs.declared.Form.TheVariants.{Sheet};
ghost use Rattle.line_rows.specs.Rows.{column_text, columns_text};
ghost use Rattle.account.specs.Range.{AccountInRange};
ghost use Rattle.walk.specs.Walk.{next_of};
ghost use Rattle.retype.specs.Book.{Retypes, line_most};
ghost use Rattle.records.specs.Table.{header, subtotal_size, own_in, empty_text, figures_text, group_in, group_text, place_text};
ghost use Rattle.records.specs.Table.{row_text, subtotal_row, row_with, own_row, after_subtotal, text_of};
ghost use Rattle.records.specs.Accepted.{Describes};
ghost use Rattle.records.specs.Table.{rows_by, rows_after, number_most, figures_most, subtotal_most, own_most, rows_most};

use account::Account;
use account::sort::{Sort, sort_of};
use base::{first_of, rest_of};
use codec::kinds::CLOSE;
use line_bytes::{
    FIGURES, LINE_SIZE, LINES_MOST, SUBTOTAL, detail_numbers, front_size, total_numbers,
};
use line_rows::{FIGURE_COLUMNS, is_signed};
use names::say_kind;
use printing::text::Text;
use printing::{put_byte, put_decimal, put_signed, put_text, say};
use retype::{LINE_MOST, Retyped, retype};
use walk::{Next, next_record};

// A number has at most 20 bytes, and a comma before it.
const NUMBER_MOST: usize = 21;
// The figures of a line, or the empty cells, and CRLF.
const FIGURES_MOST: usize = (FIGURES + 1) * NUMBER_MOST + 2;
// A subtotal's row: `,,,subtotal`, the group, a comma, the figures.
const SUBTOTAL_MOST: usize = 11 + NUMBER_MOST + 1 + FIGURES_MOST;
// A record's own: three numbers, a name of 7 bytes with a comma on either side, the group, a comma, the typed line, the figures.
const OWN_MOST: usize = 3 * NUMBER_MOST + 8 + NUMBER_MOST + LINE_MOST + FIGURES_MOST;
// The most bytes of the rows of one record.
const ROWS_MOST: usize = SUBTOTAL_MOST + OWN_MOST;

// An accepted record: its number, its first and last byte, its row of the table of kinds, and the group that the account after it stands under.
#[derive(Clone, Copy)]
struct Accepted {
    number: u64,
    first: u64,
    last: u64,
    row: u64,
    group: u64,
}

// ---- the figures of a line

fn put_column(out: &mut [u8], at: usize, column: usize, v: u64) -> usize
    requires { at + number_most ≤ length out.old }
    ensures put { Put out.old out.new at (44 ∷ column_text column v) result }
    ensures upper_bound { result ≤ at + number_most }
{
    let after = put_byte(out, at, b',');
    if is_signed(column) {
        return put_signed(out, after, v);
    }
    put_decimal(out, after, v)
}

// The numbers of a line from the third on: kind and group stand before them.
fn put_columns(out: &mut [u8], at: usize, values: &[u64]) -> usize
    requires in_bounds { 2 ≤ length values.now }
    requires values_in_bounds { at + number_most * length values.now ≤ length out.old + 42 }
    ensures put { Put out.old out.new at (columns_text Sheet 2 (drop 2 values.now)) result }
    ensures result_bound { result + 42 ≤ at + number_most * length values.now }
{
    let mut end = at;
    for k in 2..values.len() {
        end = put_column(out, end, k, values[k]);
    }
    end
}

// The figures of a whole line, CO2e in the close's alone.
fn put_figures(out: &mut [u8], at: usize, line: &[u8]) -> usize
    requires { (line_size ≤ length line.now) × (front_size line.now ≤ length line.now) × (at + figures_most ≤ length out.old) }
    ensures put { Put out.old out.new at (figures_text line.now) result }
    ensures upper_bound { result ≤ at + figures_most }
{
    if line[3] == CLOSE as u8 {
        let numbers = total_numbers(line);
        let end = put_columns(out, at, &numbers);
        put_text(out, end, b"\r\n")
    } else {
        let numbers = detail_numbers(line);
        let end = put_columns(out, at, &numbers);
        put_text(out, end, b",\r\n")
    }
}

// An empty cell for each figure and for CO2e.
fn put_none(out: &mut [u8], at: usize) -> usize
    requires { at + figures_most ≤ length out.old }
    ensures put { Put out.old out.new at empty_text result }
    ensures upper_bound { result ≤ at + figures_most }
{
    let commas = [b','; FIGURES + 1];
    let end = put_text(out, at, &commas);
    put_text(out, end, b"\r\n")
}

// The figures of a line, or empty cells where no whole line is given.
fn put_line(out: &mut [u8], at: usize, line: &[u8]) -> usize
    requires { at + figures_most ≤ length out.old }
    ensures put { Put out.old out.new at (figures_text line.now) result }
    ensures upper_bound { result ≤ at + figures_most }
{
    if line.len() < LINE_SIZE {
        return put_none(out, at);
    }
    if line.len() < front_size(line) {
        return put_none(out, at);
    }
    put_figures(out, at, line)
}

// ---- the group

fn put_line_group(out: &mut [u8], at: usize, line: &[u8]) -> usize
    requires { at + number_most ≤ length out.old }
    ensures put { Put out.old out.new at (group_in line.now) result }
    ensures result_bound { result + 1 ≤ at + number_most }
{
    if line.len() < LINE_SIZE {
        return at;
    }
    let numbers = detail_numbers(line);
    put_decimal(out, at, numbers[1])
}

// A heading's own group, or that of a detail's line; the farm's own records have none.
fn put_group(out: &mut [u8], at: usize, x: Accepted, line: &[u8]) -> usize
    requires { at + number_most ≤ length out.old }
    ensures put { Put out.old out.new at (group_text x.row x.group line.now) result }
    ensures result_bound { result + 1 ≤ at + number_most }
{
    match sort_of(x.row) {
        Sort::Opens => at,
        Sort::Heads => put_decimal(out, at, x.group),
        Sort::OfGroup => put_line_group(out, at, line),
        Sort::OfFarm => at,
        Sort::Closes => at,
    }
}

// ---- rows

// The bytes of the subtotal that a record's lines begin with.
fn subtotal_size(lines: &[u8]) -> usize
    ensures value { result ≡ subtotal_size lines.now }
    ensures upper_bound { result ≤ length lines.now }
{
    if lines.len() < LINE_SIZE {
        return 0;
    }
    if lines[3] == SUBTOTAL { LINE_SIZE } else { 0 }
}

// The row of a subtotal.
fn put_subtotal(out: &mut [u8], at: usize, line: &[u8]) -> usize
    requires { at + subtotal_most ≤ length out.old }
    ensures put { Put out.old out.new at (row_text (subtotal_row line.now)) result }
    ensures upper_bound { result ≤ at + subtotal_most }
{
    let name = put_text(out, at, b",,,subtotal,");
    let group = put_line_group(out, name, line);
    let typed = put_byte(out, group, b',');
    put_line(out, typed, line)
}

fn put_place(out: &mut [u8], at: usize, x: Accepted) -> usize
    requires { at + 3 * number_most ≤ length out.old + 1 }
    ensures put { Put out.old out.new at (place_text x.number x.first x.last) result }
    ensures result_bound { result + 1 ≤ at + 3 * number_most }
{
    let number = put_decimal(out, at, x.number);
    let first = put_byte(out, number, b',');
    let end = put_decimal(out, first, x.first);
    let last = put_byte(out, end, b',');
    put_decimal(out, last, x.last)
}

// A comma, the kind's name, and a comma.
fn put_kind(out: &mut [u8], at: usize, row: u64) -> usize
    requires { at ≤ length out.old }
    ensures { Said out.old out.new at (kind_name row) result }
{
    let mut text = Text::behind(out, at);
    say_kind(&mut text, row);
    text.len
}

fn put_name(out: &mut [u8], at: usize, row: u64) -> usize
    requires { (1 ≤ row) × (row ≤ last_row) × (at + 9 ≤ length out.old) }
    ensures put { Put out.old out.new at (44 ∷ (kind_name row ++ (44 ∷ []))) result }
    ensures upper_bound { result ≤ at + 9 }
{
    let name = put_byte(out, at, b',');
    let end = put_kind(out, name, row);
    put_byte(out, end, b',')
}

// The row of a record.
fn put_own(out: &mut [u8], at: usize, x: Accepted, typed: &[u8], line: &[u8]) -> usize
    requires { (1 ≤ x.row) × (x.row ≤ last_row) × (length typed.now ≤ line_most) × (at + own_most ≤ length out.old) }
    ensures put { Put out.old out.new at
        (row_text (row_with x.number x.first x.last x.row x.group typed.now line.now)) result }
    ensures upper_bound { result ≤ at + own_most }
{
    let bytes = put_place(out, at, x);
    let name = put_name(out, bytes, x.row);
    let group = put_group(out, name, x, line);
    let comma = put_byte(out, group, b',');
    let end = put_text(out, comma, typed);
    put_line(out, end, line)
}

// The rows of a record: perhaps a subtotal's, then its own.
fn put_entry(out: &mut [u8], at: usize, x: Accepted, typed: &[u8], lines: &[u8]) -> usize
    requires { (1 ≤ x.row) × (x.row ≤ last_row) × (length typed.now ≤ line_most) × (at + rows_most ≤ length out.old) }
    ensures put { Put out.old out.new at (text_of (after_subtotal lines.now
        (row_with x.number x.first x.last x.row x.group typed.now (own_in lines.now)))) result }
    ensures upper_bound { result ≤ at + rows_most }
{
    let n = subtotal_size(lines);
    let own = rest_of(lines, n);
    if n == 0 {
        return put_own(out, at, x, typed, own);
    }
    let end = put_subtotal(out, at, first_of(lines, n));
    put_own(out, end, x, typed, own)
}

// ---- one record after the other

// The record of these bytes, which stands at index at, with the accounts before and after it.
fn describe(a: Account, at: usize, bytes: &[u8], after: Account) -> Accepted
    requires { (4 ≤ length bytes.now) × (at + length bytes.now ≤ 18446744073709551615) }
    ensures { Describes a at bytes.now after result }
{
    let row = by_row::table::row_of(bytes[2], bytes[3]);
    let heading = after.heading;
    Accepted {
        number: a.records as u64,
        first: at as u64,
        last: (at + bytes.len() - 1) as u64,
        row: row as u64,
        group: heading.group as u64,
    }
}

// The rows of the next record of rest after an account, which is accepted and stands at index at of the book; these are its lines.
fn put_accepted(
    a: Account,
    at: usize,
    rest: &[u8],
    t: Next,
    lines: &[u8],
    out: &mut [u8],
    end: usize,
) -> usize
    requires account_in_range { AccountInRange a × (t ≡ next_of a rest.now) × (eqb t.size 0 || eqb t.account.stage 3 ≡ false) }
    requires rest_bound { (at + length rest.now ≤ 18446744073709551615) × (end + rows_most ≤ length out.old) }
    ensures put { Put out.old out.new end (text_of (after_subtotal lines.now
        (own_row a.records at (take t.size rest.now) (own_in lines.now)))) result }
    ensures upper_bound { result ≤ end + rows_most }
{
    let mut typed = [0u8; LINE_MOST];
    let line = retype(a, rest, &mut typed);
    let x = describe(a, at, first_of(rest, t.size), t.account);
    let cell = first_of(&typed, line.written - 1);
    put_entry(out, end, x, cell, lines)
}

// The rows of the next record of book from index at on after an account, where it is accepted, from index end of out on.
fn put_next(a: Account, at: usize, book: &[u8], out: &mut [u8], end: usize) -> Retyped
    requires { AccountInRange a × (at ≤ length book.now) × (end + rows_most ≤ length out.old) }
    ensures retypes { Retypes (rows_by 1 a at book.now) out.old out.new end result }
    ensures written_bound { (result.written ≤ end + rows_most) × (at + result.taken ≤ length book.now) × AccountInRange result.account }
{
    let rest = rest_of(book, at);
    let mut lines = [0u8; LINES_MOST];
    let t = next_record(a, rest, &mut lines);
    let after = t.account;
    if (t.size == 0) | (after.stage == 3) {
        return Retyped {
            account: after,
            taken: 0,
            written: end,
            more: false,
        };
    }
    let written = put_accepted(a, at, rest, t, first_of(&lines, t.written), out, end);
    Retyped {
        account: after,
        taken: t.size,
        written,
        more: true,
    }
}

// The same for as many records as the buffer has room for, after an account in its ranges.
fn put_rows(from: Account, at: usize, book: &[u8], out: &mut [u8]) -> Retyped
    requires { AccountInRange from × (at ≤ length book.now) }
    ensures retypes { Retypes (rows_by (length out.old / rows_most) from at book.now) out.old out.new 0 result }
    ensures taken_in_bounds { result.taken ≤ length book.now - at }
{
    let mut a = from;
    let mut taken = 0;
    let mut end = 0;
    let most = out.len() / ROWS_MOST;
    for _ in 0..most {
        let t = put_next(a, at + taken, book, out, end);
        a = t.account;
        taken += t.taken;
        end = t.written;
        if !t.more {
            return Retyped {
                account: a,
                taken,
                written: end,
                more: false,
            };
        }
    }
    Retyped {
        account: a,
        taken,
        written: end,
        more: true,
    }
}

// The rows of the next records of book from index at on after an account, as many as the buffer has room for, from its start, up to a record that is
// not accepted. An account outside its ranges is that of no book, and after the book's end there is nothing: no rows.
pub fn rows(from: Account, at: usize, book: &[u8], out: &mut [u8]) -> Retyped
    ensures retypes { Retypes (rows_after (length out.old / rows_most) from at book.now)
        out.old out.new 0 result }
    ensures taken_in_bounds { result.taken ≤ length book.now - at }
{
    if from.in_range() & (at <= book.len()) {
        return put_rows(from, at, book, out);
    }
    Retyped {
        account: from,
        taken: 0,
        written: 0,
        more: false,
    }
}

// The names of the columns, from the start of out, as far as there is room.
pub fn say_header(out: &mut [u8]) -> usize
    ensures { Said out.old out.new 0 header result }
{
    let mut text = Text::new(out);
    text.say(b"record,first,last,name,group,typed,");
    text.say(&FIGURE_COLUMNS);
    text.say(b"\r\n");
    text.len
}
