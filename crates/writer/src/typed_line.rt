// A book as a person types it, one record a line: the kind's name or number, then its values.
ghost use Rattle.std.specs.Prelude.{◌≡◌, ◌≤◌, length};
ghost use Rattle.codec.specs.Table.{last_kind};
ghost use Rattle.typed_words.specs.Words.{lowered};
ghost use Rattle.make_record.specs.Write.{written_of, record_laid};
ghost use Rattle.writer.specs.Line.{named_from, kind_of, row_of_line, has_field, value_at, values_from, listed, no_record, line_said};
ghost use Rattle.writer.specs.Line.{completed_of, write_entry};

use book::State;
use codec::kinds::{CLOSE, FARM};
use make_record::Written;

// How many values are typed and the first 13 of them, zeros behind; the place of a word that is no number, counted from 1, or 0.
#[derive(Clone, Copy)]
struct Values {
    values: [u64; 13],
    count: usize,
    wrong: usize,
}

// A record that is typed: count values, of which the first 13 stand here, zeros behind. No kind has 13.
#[derive(Clone, Copy)]
pub struct Entry {
    pub kind: u64,
    pub values: [u64; 13],
    pub count: usize,
}

// Whether a line says a record: Nothing where it has no word; Wrong with the kind, 0 where it can't be read, and the place of the word that is
// wrong, counted from 1, or 0 where the line is too long.
#[derive(Clone, Copy)]
pub enum Said {
    Nothing,
    Record,
    Wrong(u64, usize),
}

// What a line says; the entry is all zeros where it is no record.
#[derive(Clone, Copy)]
pub struct Line {
    pub said: Said,
    pub entry: Entry,
}

// The kind whose name the word is.
fn named(word: &[u8]) -> Option<u64>
    ensures { result ≡ named_from last_kind 0 (lowered word.now) }
{
    for kind in 0..codec::LAST_KIND {
        if names::is_kind_name(word, kind + 1) {
            return Some(kind + 1);
        }
    }
    None
}

fn read_kind(word: &[u8]) -> Option<u64>
    ensures { result ≡ kind_of word.now }
{
    named(word).or_else(|| typed_words::read_amount(word, 0))
}

// The row of the table that a line of the kind is read by.
pub fn row_of_line(kind: u64, line: &[u8]) -> u64
    ensures { result ≡ row_of_line kind line.now }
{
    if codec::LAST_KIND < kind {
        return 0;
    }
    let fourth = typed_words::word(line, 4);
    let fifth = typed_words::word(line, 5);
    if (kind == FARM) & ((fourth.len() != 0) & (fifth.len() == 0)) {
        return codec::LAST_ROW;
    }
    kind
}

pub fn has_field(row: u64, i: usize) -> bool
    ensures { result ≡ has_field row i }
{
    i < by_row::table::values_of(row)
}

// A word as the value of field i; one after the last field is not read.
fn read_value(word: &[u8], row: u64, i: usize) -> Option<u64>
    ensures { result ≡ value_at row i word.now }
{
    if !has_field(row, i) {
        return Some(0);
    }
    let number = typed_words::read_amount(word, names::decimals(row, i));
    number.or_else(|| names::choice(word, row, i))
}

// The words behind the kind, as numbers: a line has no more than 512 words.
fn read_values(line: &[u8], row: u64) -> Values
    ensures { result ≡ listed (values_from 512 0 row line.now) }
{
    let mut values = [0u64; 13];
    for count in 0..512 {
        let word = typed_words::word(line, count + 1);
        if word.len() == 0 {
            return Values {
                values,
                count,
                wrong: 0,
            };
        }
        let Some(number) = read_value(word, row, count) else {
            return Values {
                values,
                count,
                wrong: count + 2,
            };
        };
        if count < 13 {
            values[count] = number;
        }
    }
    Values {
        values,
        count: 512,
        wrong: 0,
    }
}

// A line that says no record.
fn without(said: Said) -> Line
    ensures { result ≡ no_record said }
{
    Line {
        said: said,
        entry: Entry {
            kind: 0,
            values: [0; 13],
            count: 0,
        },
    }
}

// What a line says that has no comment.
pub fn read_line(text: &[u8]) -> Line
    ensures { result ≡ line_said text.now }
{
    if 1024 <= text.len() {
        return without(Said::Wrong(0, 0));
    }
    let first = typed_words::word(text, 0);
    if first.len() == 0 {
        return without(Said::Nothing);
    }
    let Some(kind) = read_kind(first) else {
        return without(Said::Wrong(0, 1));
    };
    let row = row_of_line(kind, text);
    let v = read_values(text, row);
    if v.wrong != 0 {
        return without(Said::Wrong(kind, v.wrong));
    }
    let values = v.values;
    Line {
        said: Said::Record,
        entry: Entry {
            kind,
            values: values,
            count: v.count,
        },
    }
}

// A close that is typed without its count gets the records before it.
fn completed(entry: Entry, records: u16) -> Entry
    ensures value { result ≡ completed_of entry records }
    ensures values_len { length result.values ≡ 13 }
{
    if (entry.kind == CLOSE) & (entry.count == 0) {
        let mut values = [0u64; 13];
        values[0] = records as u64;
        return Entry {
            kind: 8,
            values: values,
            count: 1,
        };
    }
    entry
}

// Writes the record that is typed, after the records of the state.
pub fn write_entry(state: State, entry: Entry, out: &mut [u8]) -> Written
    ensures result { result ≡ written_of (write_entry state entry (length out.old)) }
    ensures buffer { out.new ≡ record_laid (write_entry state entry (length out.old)) out.old }
    ensures count { result.written ≤ length out.old }
{
    let a = state.account;
    let e = completed(entry, a.records);
    let values = e.values;
    if 13 < e.count {
        return make_record::write(state, e.kind, &values, out);
    }
    make_record::write(state, e.kind, &values[..e.count], out)
}
