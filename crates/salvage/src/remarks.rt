// What a person is told of a salvage after the lines of the dropped records: where the reading ended, the counts, and the status.
ghost use Rattle.std.specs.Prelude.{◌≡◌, ◌≤◌, length};
ghost use Rattle.printing.specs.Said.{Said};
ghost use Rattle.printing.specs.Says.{Says};
ghost use Rattle.salvage.specs.Remarks.{ending_text, place_text, unread_text, reading_text};
ghost use Rattle.salvage.specs.Remarks.{kept_in, saved_text, refused_text, end_text, by_number, too_long_text, status_byte};

use crate::how_far::{Ending, ReadingEnd};
use crate::{Lengths, Unsaved};
use codec::numbers::be16;
use printing::text::Text;
use printing::{say, say_number};

// Why the reading ended.
fn say_ending(out: &mut Text, why: Ending)
    ensures { Says out.old out.new (ending_text why) }
{
    match why {
        Ending::AtEnd => out.say(b"the end of the bytes"),
        Ending::AtClose => out.say(b"its close"),
        Ending::Full => out.say(b"4095 records are kept"),
        Ending::NoLength(n) => {
            out.say(b"a length that no record has (");
            out.say_number(n);
            out.say(b")");
        }
        Ending::NotWhole => out.say(b"a record that is not whole"),
    }
}

fn say_place(out: &mut Text, at: u64)
    ensures { Says out.old out.new (place_text at) }
{
    out.say(b"reading ended at byte ");
    out.say_number(at);
    out.say(b": ");
}

fn say_unread(out: &mut Text, n: u64)
    ensures { Says out.old out.new (unread_text n) }
{
    out.say(b"; ");
    out.say_number(n);
    out.say(b" bytes were not read\n");
}

// Where and why the reading ended, from the start of out; nothing where all was read.
fn say_reading(out: &mut Text, end: ReadingEnd)
    ensures { Says out.old out.new (reading_text end) }
{
    if end.unread == 0 {
        return;
    }
    say_place(out, end.at as u64);
    let why = end.why;
    say_ending(out, why);
    say_unread(out, end.unread);
}

// How many records are kept, by the close that the clean book ends with.
fn kept_in(book: &[u8]) -> u64
    ensures { result ≡ kept_in book.now }
{
    if book.len() < 2 {
        return 0;
    }
    be16(book, book.len() - 2)
}

fn say_saved(out: &mut Text, kept: u64, dropped: u64)
    ensures { Says out.old out.new (saved_text kept dropped) }
{
    out.say_number(kept);
    out.say(b" kept, ");
    out.say_number(dropped);
    out.say(b" dropped\n");
}

fn say_refused(out: &mut Text, number: u64)
    ensures { Says out.old out.new (refused_text number) }
{
    out.say(b"refused ");
    out.say_number(number);
    out.say(b"\n");
}

fn tell_end(text: &mut Text, answer: Result<Lengths, u8>, end: ReadingEnd, book: &[u8])
    ensures { Says text.old text.new (end_text answer end book.now) }
{
    match answer {
        Ok(l) => {
            say_reading(text, end);
            say_saved(text, kept_in(book), (l.list / 9) as u64);
        }
        Err(number) => say_refused(text, number as u64),
    }
}

// The last words, of the answer, a refusal by its number, the end of the reading and the clean book, from the start of out.
pub fn say_end(out: &mut [u8], answer: Result<Lengths, u8>, end: ReadingEnd, book: &[u8]) -> usize
    ensures { Said out.old out.new 0 (end_text answer end book.now) result }
{
    let mut text = Text::new(out);
    tell_end(&mut text, answer, end, book);
    text.len
}

// The same of an answer as `salvage` gives it: a refusal is told by its number.
pub fn say_answer(
    out: &mut [u8],
    answer: Result<Lengths, Unsaved>,
    end: ReadingEnd,
    book: &[u8],
) -> usize
    ensures { Said out.old out.new 0 (end_text (by_number answer) end book.now) result }
{
    match answer {
        Ok(lengths) => say_end(out, Ok(lengths), end, book),
        Err(why) => say_end(out, Err(why.number()), end, book),
    }
}

// That the book is longer than the program has room for, from the start of out.
pub fn say_too_long(out: &mut [u8]) -> usize
    ensures { Said out.old out.new 0 too_long_text result }
{
    let mut text = Text::new(out);
    text.say(b"the damaged book is longer than 131072 bytes: nothing is written\n");
    text.len
}

// The status byte: 0 only where a book was saved and went out, all of the damaged one was read, and all was told; 2 where one went out all the same.
pub fn status(saved: bool, read: bool, told: bool) -> u8
    ensures { result ≡ status_byte saved read told }
{
    if saved & (read & told) {
        return b'0';
    }
    if saved { b'2' } else { b'1' }
}
