// The rows of the table, each from the buffer's start, cut off where the buffer ends.
ghost use Rattle.std.specs.Prelude.{◌≤◌, length, drop};
ghost use Rattle.line_rows.specs.Rows.{is_signed, column_text};
ghost use Rattle.printing.specs.Said.{Said};
ghost use Rattle.printing.specs.Says.{Says};
ghost use Rattle.table.specs.Rows.{header_text, farm_text, state_text, records_text, cell_text, cells_text, sums_text};
ghost use Rattle.table.specs.Rows.{figures_text, row_text, last_text};
ghost use Rattle.table.specs.Sums.{fits};

use crate::sums::{Sum, Totals, fits};
use crate::{Seen, State, is_closed};
use base::{first_of, rest_of};
use line_bytes::TOTAL_NUMBERS;
use line_rows::{Form, ROW_MOST, is_signed, put_header};
use printing::text::Text;
use printing::{put_signed, say, say_number};

// The bytes of `kind,group`, with which a sheet's header begins.
const KIND_GROUP: usize = 10;

// The names of the columns.
pub fn say_header(out: &mut [u8]) -> usize
    ensures { Said out.old out.new 0 header_text result }
{
    let mut text = Text::new(out);
    let mut head = [0u8; ROW_MOST];
    let n = put_header(&mut head, 0, Form::Sheet);
    text.say(b"file,farm,year,state,records");
    text.say(rest_of(first_of(&head, n), KIND_GROUP));
    text.len
}

// Farm and year, after a comma each.
fn say_farm(out: &mut Text, s: Seen)
    ensures { Says out.old out.new (farm_text s) }
{
    if s.records == 0 {
        out.say(b",,");
        return;
    }
    out.say(b",");
    out.say_number(s.farm);
    out.say(b",");
    out.say_number(s.year);
}

fn say_state(out: &mut Text, s: Seen)
    ensures { Says out.old out.new (state_text s) }
{
    match s.state {
        State::Unreadable => out.say(b"unreadable"),
        State::Unfinished => out.say(b"unfinished"),
        State::Closed => out.say(b"closed"),
        State::Refused(code) => {
            out.say(b"refused ");
            out.say_number(u64::from(code));
        }
    }
}

fn say_records(out: &mut Text, s: Seen)
    ensures { Says out.old out.new (records_text s) }
{
    match s.state {
        State::Unreadable => (),
        _ => out.say_number(u64::from(s.records)),
    }
}

// The number of a column, as a sheet has it.
fn say_column(out: &mut Text, column: usize, v: u64)
    ensures { Says out.old out.new (column_text column v) }
{
    if !is_signed(column) {
        out.say_number(v);
        return;
    }
    let mut digits = [0u8; 20];
    let n = put_signed(&mut digits, 0, v);
    out.say(first_of(&digits, n));
}

// A cell, after a comma.
fn say_cell(out: &mut Text, shown: bool, column: usize, v: u64)
    ensures { Says out.old out.new (cell_text shown column v) }
{
    out.say(b",");
    if !shown {
        return;
    }
    say_column(out, column, v);
}

// The figures of a total line, or empty cells.
fn say_figures(out: &mut Text, shown: bool, numbers: [u64; TOTAL_NUMBERS])
    ensures { Says out.old out.new (cells_text shown 2 (drop 2 numbers)) }
{
    for k in 2..TOTAL_NUMBERS {
        say_cell(out, shown, k, numbers[k]);
    }
}

// The sum of a column, or an empty cell.
fn say_sum(out: &mut Text, column: usize, s: Sum)
    ensures { Says out.old out.new (cell_text (fits (is_signed column) s) column s.low) }
{
    say_cell(out, fits(s, is_signed(column)), column, s.low);
}

// The sums.
fn say_sums(out: &mut Text, sums: [Sum; TOTAL_NUMBERS])
    ensures { Says out.old out.new (sums_text 2 (drop 2 sums)) }
{
    for k in 2..TOTAL_NUMBERS {
        say_sum(out, k, sums[k]);
    }
}

// The figures, where the book is closed, and the end of the row.
fn say_figures_of(out: &mut Text, s: Seen)
    ensures { Says out.old out.new (figures_text s) }
{
    let numbers = s.numbers;
    say_figures(out, is_closed(s), numbers);
    out.say(b"\r\n");
}

// The row of a file.
pub fn say_row(out: &mut [u8], name: &[u8], s: Seen) -> usize
    ensures { Said out.old out.new 0 (row_text name.now s) result }
{
    let mut text = Text::new(out);
    text.say(name);
    say_farm(&mut text, s);
    text.say(b",");
    say_state(&mut text, s);
    text.say(b",");
    say_records(&mut text, s);
    say_figures_of(&mut text, s);
    text.len
}

// The last row.
pub fn say_last(out: &mut [u8], t: Totals) -> usize
    ensures { Said out.old out.new 0 (last_text t) result }
{
    let mut text = Text::new(out);
    let sums = t.sums;
    text.say(b"all,,,,");
    text.say_number(t.closed);
    say_sums(&mut text, sums);
    text.say(b"\r\n");
    text.len
}
