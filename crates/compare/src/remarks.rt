// Which book, a hint where something else was given, and the status.
ghost use Rattle.std.specs.Prelude.{◌≡◌, ◌++◌};
ghost use Rattle.printing.specs.Said.{Said};
ghost use Rattle.printing.specs.Says.{Says};
ghost use Rattle.names.specs.Hints.{hint_text};
ghost use Rattle.compare.specs.Sections.{book_text};
ghost use Rattle.compare.specs.Remarks.{book_hint, status_byte};

use crate::in_words::say_word;
use names::hints;
use names::hints::Given;
use printing::say;
use printing::text::Text;

// Which book, before its verdict, from the start of out.
pub(crate) fn say_book(out: &mut Text, new: bool)
    ensures { Says out.old out.new (book_text new) }
{
    say_word(out, new);
    out.say(b": ");
}

fn say_with_hint(out: &mut Text, new: bool, given: Given)
    ensures { Says out.old out.new (book_text new ++ hint_text given) }
{
    say_book(out, new);
    hints::say_hint(out, given);
}

fn tell_hint(text: &mut Text, new: bool, given: Given)
    ensures { Says text.old text.new (book_hint new given) }
{
    match given {
        Given::Book => (),
        Given::Nothing => say_with_hint(text, new, given),
        Given::Typed => say_with_hint(text, new, given),
        Given::Sheet => say_with_hint(text, new, given),
    }
}

// Which of the two is no book, and what it looks like, from the start of out.
pub fn say_hint(out: &mut [u8], new: bool, given: Given) -> usize
    ensures { Said out.old out.new 0 (book_hint new given) result }
{
    let mut text = Text::new(out);
    tell_hint(&mut text, new, given);
    text.len
}

// The status byte: 0 only where both books were read and all was written.
pub fn status(read: bool, written: bool) -> u8
    ensures { result ≡ status_byte read written }
{
    if read & written { b'0' } else { b'1' }
}
