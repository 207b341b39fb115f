// What is told of a sheet that is read: a sentence where it is refused, the last word, and the status.
ghost use Rattle.std.specs.Prelude.{◌≡◌, ◌++◌, ◌-◌, ◌≤◌, eqb, length};
ghost use Rattle.base.specs.Choice.{pick};
ghost use Rattle.printing.specs.Said.{Said};
ghost use Rattle.printing.specs.Says.{Says};
ghost use Rattle.sheet.specs.Remarks.{feeds, line_count, lines_text, row_head, people_text, row_word, refused_text, end_text};
ghost use Rattle.sheet.specs.Remarks.{by_number, most_text, too_long_text, lines_too_long_text, status_byte};

use crate::faults::say_fault;
use crate::{Numbered, Refused};
use printing::text::Text;
use printing::{say, say_number};

fn one_if_feed(b: u8) -> usize
    ensures value { result ≡ pick (eqb b 10) 1 0 }
    ensures upper_bound { result ≤ 1 }
{
    if b == b'\n' { 1 } else { 0 }
}

// How many line feeds a text has. By a loop: the library's filter and count take 1.67 times the instructions.
fn count_feeds(text: &[u8]) -> usize
    ensures { result ≡ feeds text.now }
{
    let mut n = 0;
    for &b in text {
        n += one_if_feed(b);
    }
    n
}

fn count_lines(text: &[u8]) -> usize
    ensures { result ≡ line_count text.now }
{
    let rows = count_feeds(text);
    if rows == 0 {
        return 0;
    }
    rows - 1
}

fn say_lines(out: &mut Text, lines: usize)
    ensures { Says out.old out.new (lines_text lines) }
{
    out.say_number(lines as u64);
    out.say(b" lines\n");
}

fn say_row_head(out: &mut Text, row: usize)
    ensures { Says out.old out.new (row_head row) }
{
    if row == 0 {
        return;
    }
    out.say(b"row ");
    out.say_number(row as u64);
    out.say(b": ");
}

// The sentence for people. Of a text that is not of a sheet's form it names the place.
fn say_people(out: &mut Text, text: &[u8], code: u8, row: usize)
    ensures { Says out.old out.new (people_text text.now code row) }
{
    if code == 20 {
        say_fault(out, text, row);
        return;
    }
    say_row_head(out, row);
    names::say_sentence(out, code as u64);
    out.say(b"\n");
}

fn say_row(out: &mut Text, row: usize)
    ensures { Says out.old out.new (row_word row) }
{
    if row == 0 {
        return;
    }
    out.say(b" row ");
    out.say_number(row as u64);
}

fn say_refused(out: &mut Text, text: &[u8], code: u8, row: usize)
    ensures { Says out.old out.new (people_text text.now code row ++ refused_text code row) }
{
    say_people(out, text, code, row);
    out.say(b"refused ");
    out.say_number(code as u64);
    say_row(out, row);
    out.say(b"\n");
}

fn tell_end(said: &mut Text, text: &[u8], answer: Result<usize, Numbered>)
    ensures { Says said.old said.new (end_text text.now answer) }
{
    match answer {
        Ok(n) => say_lines(said, count_lines(text)),
        Err(refused) => say_refused(said, text, refused.code, refused.row),
    }
}

// What is said at the end, of the text and the answer, from the start of out.
pub fn say_end(out: &mut [u8], text: &[u8], answer: Result<usize, Numbered>) -> usize
    ensures { Said out.old out.new 0 (end_text text.now answer) result }
{
    let mut said = Text::new(out);
    tell_end(&mut said, text, answer);
    said.len
}

// The same of an answer as `import` and `export` give it: a refusal is told by its number.
pub fn say_answer(out: &mut [u8], text: &[u8], answer: Result<usize, Refused>) -> usize
    ensures { Said out.old out.new 0 (end_text text.now (by_number answer)) result }
{
    match answer {
        Ok(n) => say_end(out, text, Ok(n)),
        Err(refused) => say_end(out, text, Err(refused.numbered())),
    }
}

// What is said of a text that is longer than the program has room for, from a place on.
fn say_most(out: &mut Text, most: usize)
    ensures { Says out.old out.new (most_text most) }
{
    out.say(b" longer than ");
    out.say_number(most as u64);
    out.say(b" bytes: nothing is written\n");
}

// That the sheet is longer than it may be, from the start of out.
pub fn say_too_long(out: &mut [u8], most: usize) -> usize
    ensures { Said out.old out.new 0 (too_long_text most) result }
{
    let mut text = Text::new(out);
    text.say(b"the sheet is");
    say_most(&mut text, most);
    text.len
}

// The same of line records.
pub fn say_lines_too_long(out: &mut [u8], most: usize) -> usize
    ensures { Said out.old out.new 0 (lines_too_long_text most) result }
{
    let mut text = Text::new(out);
    text.say(b"the lines are");
    say_most(&mut text, most);
    text.len
}

// The status byte: 0 only where the sheet was accepted and everything was written.
pub fn status(accepted: bool, written: bool) -> u8
    ensures { result ≡ status_byte accepted written }
{
    if accepted & written { b'0' } else { b'1' }
}
