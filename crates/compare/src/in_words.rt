// A record in words: its values, and the figures of its own line.
ghost use Rattle.std.specs.Prelude.{◌≡◌, false, [], ◌≤◌, length};
ghost use Rattle.base.specs.Choice.{pick};
ghost use Rattle.printing.specs.Says.{Says};
ghost use Rattle.compare.specs.Records.{Readable};
ghost use Rattle.compare.specs.Values.{other_text, field_text, between_text, next_text, fields_from, row_text, values_text};
ghost use Rattle.compare.specs.Values.{word_of, numbered_text, alone_text, both_text, changed_text, pair_text};

use crate::figures::say_figures;
use crate::records::{detail, row_at, same, values};
use base::first_of;
use by_row::table::values_of;
use line_bytes::FIGURES;
use names::{say_kind, say_label, say_unit, say_value};
use printing::text::Text;
use printing::{say, say_number};

// What a value is now; nothing where it is alone.
fn say_other(out: &mut Text, alone: bool, row: u64, i: usize, w: u64)
    ensures { Says out.old out.new (other_text alone row i w) }
{
    if alone {
        return;
    }
    out.say(b", now ");
    say_value(out, row, i, w);
}

// A value with its name and unit, and what it is now.
fn say_field(out: &mut Text, alone: bool, row: u64, i: usize, v: u64, w: u64)
    ensures { Says out.old out.new (field_text alone row i v w) }
{
    say_label(out, row, i);
    out.say(b" ");
    say_value(out, row, i, v);
    say_unit(out, row, i);
    say_other(out, alone, row, i, w);
}

fn say_between(out: &mut Text, any: bool)
    ensures { Says out.old out.new (between_text any) }
{
    if any {
        out.say(b"; ");
        return;
    }
}

// A value that is alone or changed, with a semicolon before it where there is one before.
fn say_next(out: &mut Text, any: bool, alone: bool, row: u64, i: usize, v: u64, w: u64)
    ensures { Says out.old out.new (next_text any alone row i v w) }
{
    if !(alone | (v != w)) {
        return;
    }
    say_between(out, any);
    say_field(out, alone, row, i, v, w);
}

// The first n values of a row, alone or those that changed.
fn say_fields(out: &mut Text, n: usize, alone: bool, row: u64, vs: [u64; 12], ws: [u64; 12])
    requires { n ≤ 12 }
    ensures { Says out.old out.new (fields_from n false alone row 0 vs ws) }
{
    let mut any = false;
    for i in 0..n {
        let v = vs[i];
        let w = ws[i];
        say_next(out, any, alone, row, i, v, w);
        any = any | (alone | (v != w));
    }
}

// The kind of a record.
fn say_row(out: &mut Text, row: u64)
    ensures { Says out.old out.new (row_text row) }
{
    out.say(b", ");
    say_kind(out, row);
    out.say(b": ");
}

// The kind of the record r and its values, alone or with those of the record s.
fn say_values(out: &mut Text, alone: bool, r: &[u8], s: &[u8])
    requires { Readable r.now × Readable s.now }
    ensures { Says out.old out.new (values_text alone r.now s.now) }
{
    let row = row_at(r);
    let n = values_of(row);
    let vs = values(r);
    let ws = values(s);
    say_row(out, row);
    say_fields(out, n, alone, row, vs, ws);
    out.say(b"\n");
}

// Which book.
pub(crate) fn say_word(out: &mut Text, new: bool)
    ensures { Says out.old out.new (word_of new) }
{
    if new {
        out.say(b"new");
        return;
    }
    out.say(b"old");
}

// The book and the number of a record.
fn say_numbered(out: &mut Text, new: bool, i: usize)
    ensures { Says out.old out.new (numbered_text new i) }
{
    say_word(out, new);
    out.say(b" record ");
    out.say_number(i as u64);
}

// The line of a detail; another record has none of its own.
fn own_line(own: bool, lines: &[u8]) -> &[u8]
    ensures { result.now ≡ pick own lines.now [] }
{
    if own {
        return lines;
    }
    first_of(lines, 0)
}

// A record alone.
pub(crate) fn say_alone(out: &mut Text, new: bool, i: usize, r: &[u8], lines: &[u8])
    requires { Readable r.now }
    ensures { Says out.old out.new (alone_text new i r.now lines.now) }
{
    let line = own_line(detail(r), lines);
    say_numbered(out, new, i);
    say_values(out, true, r, r);
    say_figures(out, FIGURES, true, line, line);
}

// The numbers of a record in both books.
fn say_both(out: &mut Text, i: usize, j: usize)
    ensures { Says out.old out.new (both_text i j) }
{
    out.say(b"record ");
    out.say_number(i as u64);
    if i == j {
        return;
    }
    out.say(b", now ");
    out.say_number(j as u64);
}

// A record with other values in the new book.
fn say_changed(out: &mut Text, i: usize, r: &[u8], lines: &[u8], j: usize, s: &[u8], others: &[u8])
    requires { Readable r.now × Readable s.now }
    ensures { Says out.old out.new (changed_text i r.now lines.now j s.now others.now) }
{
    let line = own_line(detail(r), lines);
    let other = own_line(detail(s), others);
    say_both(out, i, j);
    say_values(out, false, r, s);
    say_figures(out, FIGURES, false, line, other);
}

// A pair of records where they differ.
pub(crate) fn say_pair(
    out: &mut Text,
    i: usize,
    r: &[u8],
    lines: &[u8],
    j: usize,
    s: &[u8],
    others: &[u8],
)
    requires { Readable r.now × Readable s.now }
    ensures { Says out.old out.new (pair_text i r.now lines.now j s.now others.now) }
{
    if same(r, s) {
        return;
    }
    if row_at(r) == row_at(s) {
        say_changed(out, i, r, lines, j, s, others);
        return;
    }
    say_alone(out, false, i, r, lines);
    say_alone(out, true, j, s, others);
}
