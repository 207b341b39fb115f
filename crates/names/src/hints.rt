// What a person gave in place of a book, as its first bytes look, and the hint that goes with it.
ghost use Rattle.std.specs.Prelude.{◌≡◌, ◌≤◌, length};
ghost use Rattle.printing.specs.Said.{Said};
ghost use Rattle.printing.specs.Says.{Says};
ghost use Rattle.names.specs.Hints.{is_typed, begins_typed, begins_with, begins_sheet, looks_like, hint_text};

use printing::say;
use printing::text::Text;

// What an input looks like: a book, nothing, a typed text, or a sheet.
#[derive(Clone, Copy)]
pub enum Given {
    Book,
    Nothing,
    Typed,
    Sheet,
}

// A tab, a line's end, a printed character, or the first byte of a byte order mark.
fn is_typed(b: u8) -> bool
    ensures { result ≡ is_typed b }
{
    (b == 9) | (b == 10) | (b == 13) | ((32 <= b) & (b <= 126)) | (b == 239)
}

// Whether an input begins as a typed text does: no book does, since its first byte is 0.
fn begins_typed(input: &[u8]) -> bool
    ensures { result ≡ begins_typed input.now }
{
    if input.len() < 2 {
        return false;
    }
    is_typed(input[0])
}

fn begins_with(input: &[u8], start: &[u8]) -> bool
    ensures { result ≡ begins_with start.now input.now }
{
    input.starts_with(start)
}

fn begins_sheet(input: &[u8]) -> bool
    ensures { result ≡ begins_sheet input.now }
{
    if begins_with(input, b"kind,group") {
        return true;
    }
    begins_with(input, b"\xef\xbb\xbfkind,group")
}

// What an input looks like. Its first 13 bytes are enough: a byte order mark, and two columns' names.
pub fn look(input: &[u8]) -> Given
    ensures { result ≡ looks_like input.now }
{
    if input.len() == 0 {
        return Given::Nothing;
    }
    if !begins_typed(input) {
        return Given::Book;
    }
    if begins_sheet(input) {
        return Given::Sheet;
    }
    Given::Typed
}

// What a person is told who gave something else than a book.
pub fn say_hint(out: &mut Text, given: Given)
    ensures { Says out.old out.new (hint_text given) }
{
    match given {
        Given::Book => (),
        Given::Nothing => out.say(b"this is empty: a book begins with its farm record\n"),
        Given::Typed => out.say(b"this looks like a typed book: bin/writer makes a book of it\n"),
        Given::Sheet => out.say(b"this looks like a sheet: bin/unsheet reads it\n"),
    }
}

// The same alone, from the start of out.
pub fn say_hint_alone(out: &mut [u8], given: Given) -> usize
    ensures { Said out.old out.new 0 (hint_text given) result }
{
    let mut text = Text::new(out);
    say_hint(&mut text, given);
    text.len
}
