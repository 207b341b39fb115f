// The kinds on one screen, for a person who is about to type a book: a line as it is typed, and what its values are.
#![tactic(auto)]

ghost use Rattle.std.specs.Prelude.{◌++◌, ◌≤◌, length};
ghost use Rattle.printing.specs.Ascii.{ascii};
ghost use Rattle.printing.specs.Said.{Said};
ghost use Rattle.printing.specs.Says.{Says};
ghost use Rattle.kinds_screen.specs.Screen.{example_of, field_text, fields_text, row_text, screen_text};

use names::{say_expected, say_field};
use printing::say;
use printing::text::Text;
use typed_words::part;

fn say_example(out: &mut Text, row: u64)
    ensures { Says out.old out.new (example_of row) }
{
    let line = part(
        b"
farm 7 2010 1
heading 12 milking 40
enteric 31 300 6.5
cattle 365 20 16 30 3.2 0 20 80 0
pig 365 2.5 0.08 1 0.2 18 1 0.002 0.25 0.01 0 0
energy 1 12.5 70000
soil 12.5
close
tillage mixedwood-plains medium intensive-to-no 3 40
grazing ontario cows 600 50
farm 7 2010 28 265",
        b'\n',
        row as usize,
    );
    out.say(line);
}

// Field i: its name and what is expected of it.
fn say_one(out: &mut Text, row: u64, i: usize)
    ensures { Says out.old out.new (field_text row i) }
{
    say_field(out, row, i);
    say_expected(out, row, i);
}

fn say_next(out: &mut Text, row: u64, i: usize)
    ensures { Says out.old out.new (ascii ";" ++ field_text row i) }
{
    out.say(b";");
    say_one(out, row, i);
}

// All fields of a row.
fn say_all(out: &mut Text, row: u64)
    ensures { Says out.old out.new (fields_text row) }
{
    let n = by_row::table::values_of(row);
    say_one(out, row, 0);
    for i in 1..n {
        say_next(out, row, i);
    }
}

fn say_row(out: &mut Text, row: u64)
    ensures { Says out.old out.new (row_text row) }
{
    say_example(out, row);
    out.say(b"\n   ");
    say_all(out, row);
    out.say(b"\n");
}

fn tell_screen(text: &mut Text)
    ensures { Says text.old text.new screen_text }
{
    text.say(b"Each kind as it is typed, then its values in order.\n");
    for row in 1..codec::LAST_ROW + 1 {
        say_row(text, row);
    }
}

// The whole screen, from the buffer's start, cut off where the buffer ends.
pub fn say_screen(out: &mut [u8]) -> usize
    ensures { Said out.old out.new 0 screen_text result }
{
    let mut text = Text::new(out);
    tell_screen(&mut text);
    text.len
}
