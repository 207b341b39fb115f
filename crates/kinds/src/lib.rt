// The table of kinds for machines: a row of comma-separated text for each field of each row of the book's table.
#![tactic(auto)]

ghost use Rattle.std.specs.Prelude.{◌++◌, ◌-◌, ◌≤◌, ◌<◌, length};
ghost use Rattle.codec.specs.Table.{last_row, fields};
ghost use Rattle.printing.specs.Ascii.{ascii};
ghost use Rattle.printing.specs.Decimal.{decimal, pointed};
ghost use Rattle.printing.specs.Said.{Said};
ghost use Rattle.printing.specs.Says.{Says};
ghost use Rattle.names.specs.Names.{kind_name, label_of, unit_of, choice_word, help_of};
ghost use Rattle.names.specs.Usual.{usual_ranges};
ghost use Rattle.kinds.specs.Kinds.{next, choices_from, choices_text, row_text, range_text, words_text, field_text, fields_from, kinds_text};

use by_row::table::{highest, kind_of, lowest, values_of, version_of};
use names::usual::say_ranges;
use names::{decimals, is_choice, say_choice, say_help, say_kind, say_label, say_unit_name};
use printing::text::Text;
use printing::{say, say_number, say_pointed};

// A number, after a comma.
fn next_number(out: &mut Text, n: u64)
    ensures { Says out.old out.new (next (decimal n)) }
{
    out.say(b",");
    out.say_number(n);
}

// A number with d decimals, after a comma.
fn next_pointed(out: &mut Text, v: u64, d: usize)
    requires { d ≤ 5 }
    ensures { Says out.old out.new (next (pointed d v)) }
{
    out.say(b",");
    out.say_pointed(v, d);
}

// The name of the row's kind, after a comma.
fn next_kind(out: &mut Text, row: u64)
    ensures { Says out.old out.new (next (kind_name row)) }
{
    out.say(b",");
    say_kind(out, row);
}

// The name of field i, after a comma.
fn next_label(out: &mut Text, row: u64, i: usize)
    ensures { Says out.old out.new (next (label_of row i)) }
{
    out.say(b",");
    say_label(out, row, i);
}

// The unit of field i, after a comma.
fn next_unit(out: &mut Text, row: u64, i: usize)
    ensures { Says out.old out.new (next (unit_of row i)) }
{
    out.say(b",");
    say_unit_name(out, row, i);
}

fn say_word(out: &mut Text, row: u64, i: usize, v: u64)
    ensures { Says out.old out.new (ascii "|" ++ choice_word row i v) }
{
    out.say(b"|");
    say_choice(out, row, i, v);
}

// The words of a choice of n.
fn say_words(out: &mut Text, row: u64, i: usize, n: u64)
    ensures { Says out.old out.new (choice_word row i 1 ++ choices_from (n - 1) 2 row i) }
{
    say_choice(out, row, i, 1);
    for v in 1..n {
        say_word(out, row, i, v + 1);
    }
}

// The words of field i, where it is a choice, after a comma.
fn next_choices(out: &mut Text, row: u64, i: usize)
    requires { (row ≤ last_row) × (i < 12) }
    ensures { Says out.old out.new (next (choices_text row i)) }
{
    out.say(b",");
    if !is_choice(row, i) {
        return;
    }
    say_words(out, row, i, highest(row, i));
}

// Which values of field i are usual, after a comma.
fn next_usual(out: &mut Text, row: u64, i: usize)
    ensures { Says out.old out.new (next (usual_ranges row i)) }
{
    out.say(b",");
    say_ranges(out, row, i);
}

// What field i is, after a comma.
fn next_help(out: &mut Text, row: u64, i: usize)
    ensures { Says out.old out.new (next (help_of row i)) }
{
    out.say(b",");
    say_help(out, row, i);
}

// The cells of a row of the table that its fields share.
fn say_row(out: &mut Text, row: u64)
    ensures { Says out.old out.new (row_text row) }
{
    out.say_number(row);
    next_number(out, kind_of(row));
    next_number(out, version_of(row));
    next_kind(out, row);
}

// The cells of field i up to its range.
fn say_range(out: &mut Text, row: u64, i: usize)
    requires { (row ≤ last_row) × (i < 12) }
    ensures { Says out.old out.new (range_text row i) }
{
    let d = decimals(row, i);
    next_number(out, (i + 1) as u64);
    next_label(out, row, i);
    next_number(out, d as u64);
    next_pointed(out, lowest(row, i), d);
    next_pointed(out, highest(row, i), d);
}

// The other cells of field i, and the end of the row.
fn say_about(out: &mut Text, row: u64, i: usize)
    requires { (row ≤ last_row) × (i < 12) }
    ensures { Says out.old out.new (words_text row i) }
{
    next_unit(out, row, i);
    next_choices(out, row, i);
    next_usual(out, row, i);
    next_help(out, row, i);
    out.say(b"\r\n");
}

fn say_field(out: &mut Text, row: u64, i: usize)
    requires { (row ≤ last_row) × (i < 12) }
    ensures { Says out.old out.new (field_text row i) }
{
    say_row(out, row);
    say_range(out, row, i);
    say_about(out, row, i);
}

// The fields of a row of the table.
fn say_fields(out: &mut Text, row: u64)
    requires { row ≤ last_row }
    ensures { Says out.old out.new (fields_from (length (fields row)) 0 row) }
{
    let n = values_of(row);
    for i in 0..n {
        say_field(out, row, i);
    }
}

fn tell_kinds(text: &mut Text)
    ensures { Says text.old text.new kinds_text }
{
    text.say(
        b"row,kind,version,name,field,label,decimals,lowest,highest,unit,choices,usual,help\r\n",
    );
    for row in 1..codec::LAST_ROW + 1 {
        say_fields(text, row);
    }
}

// The whole table, from the buffer's start, cut off where the buffer ends.
pub fn say_kinds(out: &mut [u8]) -> usize
    ensures { Said out.old out.new 0 kinds_text result }
{
    let mut text = Text::new(out);
    tell_kinds(&mut text);
    text.len
}
