// A typed text of grams, line by line.
ghost use Rattle.std.specs.Prelude.{◌≡◌, length};
ghost use Rattle.printing.specs.Said.{Said};
ghost use Rattle.printing.specs.Says.{Says};
ghost use Rattle.kilograms.specs.Lines.{has_grams, is_right, line_text, remark_text, status_of};

use crate::{is_grams, say_kilograms};
use printing::text::Text;
use printing::{say, say_number};
use typed_words::word;

fn has_grams(line: &[u8]) -> bool
    ensures { result ≡ has_grams line.now }
{
    let first = word(line, 0);
    let second = word(line, 1);
    (line.len() < 1024) & ((second.len() == 0) & is_grams(first))
}

// A blank line is right too.
pub fn is_right(line: &[u8]) -> bool
    ensures { result ≡ is_right line.now }
{
    let first = word(line, 0);
    (first.len() == 0) | has_grams(line)
}

fn tell_line(text: &mut Text, line: &[u8])
    ensures { Says text.old text.new (line_text line.now) }
{
    if has_grams(line) {
        say_kilograms(text, word(line, 0));
        text.say(b"\n");
        return;
    }
    text.say(b"\n");
}

// What is printed of a line.
pub fn say_line(out: &mut [u8], line: &[u8]) -> usize
    ensures { Said out.old out.new 0 (line_text line.now) result }
{
    let mut text = Text::new(out);
    tell_line(&mut text, line);
    text.len
}

fn tell_remark(text: &mut Text, number: u64, line: &[u8])
    ensures { Says text.old text.new (remark_text number line.now) }
{
    if is_right(line) {
        return;
    }
    text.say(b"line ");
    text.say_number(number);
    text.say(b": expected one whole number of grams, of at most 20 digits\n");
}

// What is reported of a line.
pub fn say_remark(out: &mut [u8], number: u64, line: &[u8]) -> usize
    ensures { Said out.old out.new 0 (remark_text number line.now) result }
{
    let mut text = Text::new(out);
    tell_remark(&mut text, number, line);
    text.len
}

// The byte 0 where nothing was wrong, else 1.
pub fn status(right: bool) -> u8
    ensures { result ≡ status_of right }
{
    if right { b'0' } else { b'1' }
}
