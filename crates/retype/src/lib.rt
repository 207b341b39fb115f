// A book as typed lines: for each accepted record the line that a person would type for it.
#![tactic(auto)]

ghost use Rattle.std.specs.Prelude.{◌≡◌, ◌+◌, ◌*◌, ◌/◌, ◌≤◌, length, ◌∷◌, []};
ghost use Rattle.names.specs.Names.{kind_name, value_text};
ghost use Rattle.printing.specs.Decimal.{joined, Put};
ghost use Rattle.printing.specs.Said.{Said};
ghost use Rattle.printing.specs.Says.{Says};
ghost use Rattle.codec.specs.Table.{fields, Of};
ghost use Rattle.codec.specs.Codec.{first_bad};
ghost use Rattle.account.specs.Judge.{record_row, values_of};
ghost use Rattle.account.specs.Range.{AccountInRange};
ghost use Rattle.retype.specs.Typed.{values_typed, line_typed};
ghost use Rattle.retype.specs.Book.{typed_by, retyped_by, Retypes, Typable, value_most, line_most};
ghost use Rattle.retype.specs.Book.{refused_text, end_text, status_byte};

use account::{Account, Refusal};
use base::{first_of, rest_of};
use line_bytes::LINES_MOST;
use names::{say_kind, say_sentence, say_value};
use printing::text::Text;
use printing::{put_byte, say, say_number};
use walk::next_record;

// A value has at most 20 bytes, and a blank before it.
const VALUE_MOST: usize = 21;
// A line has at most a name of 7 bytes, 12 values and the line feed.
pub const LINE_MOST: usize = 7 + 12 * VALUE_MOST + 1;

// The account after some records of a book, the bytes taken, the end of the text in the buffer, and whether there may be more.
#[derive(Clone, Copy)]
pub struct Retyped {
    pub account: Account,
    pub taken: usize,
    pub written: usize,
    pub more: bool,
}

// The row of a record in the table.
fn row_at(bytes: &[u8]) -> u64
    requires { 4 ≤ length bytes.now }
    ensures { result ≡ record_row bytes.now }
{
    let row = by_row::table::row_of(bytes[2], bytes[3]);
    row as u64
}

fn put_kind(out: &mut [u8], at: usize, row: u64) -> usize
    requires { at ≤ length out.old }
    ensures { Said out.old out.new at (kind_name row) result }
{
    let mut text = Text::behind(out, at);
    say_kind(&mut text, row);
    text.len
}

fn put_value(out: &mut [u8], at: usize, row: u64, i: usize, v: u64) -> usize
    requires { at ≤ length out.old }
    ensures { Said out.old out.new at (value_text row i v) result }
{
    let mut text = Text::behind(out, at);
    say_value(&mut text, row, i, v);
    text.len
}

// The values of a row, each as a person types it, with a blank before it.
fn put_values(out: &mut [u8], at: usize, row: u64, values: &[u64]) -> usize
    requires of { Of row values.now }
    requires values_value { first_bad (fields row) values.now 0 ≡ 0 }
    requires values_in_bounds { at + value_most * length values.now ≤ length out.old }
    ensures put { Put out.old out.new at (values_typed row 0 values.now) result }
    ensures upper_bound { result ≤ at + value_most * length values.now }
{
    let mut end = at;
    for i in 0..values.len() {
        let blank = put_byte(out, end, b' ');
        end = put_value(out, blank, row, i, values[i]);
    }
    end
}

// The line that a person types for a record: its kind's name, its values, and the line feed.
fn put_record(out: &mut [u8], at: usize, bytes: &[u8]) -> usize
    requires typable { Typable bytes.now }
    requires line_most_in_bounds { at + line_most ≤ length out.old }
    ensures put { Put out.old out.new at (line_typed (record_row bytes.now) (values_of bytes.now)) result }
    ensures upper_bound { result ≤ at + line_most }
{
    let row = row_at(bytes);
    let values = by_row::read(row, bytes, 4);
    let n = by_row::table::values_of(row);
    let name = put_kind(out, at, row);
    let end = put_values(out, name, row, &values[..n]);
    put_byte(out, end, b'\n')
}

// The line of the next record of book after an account, where it is accepted, from index at on.
fn type_next(a: Account, book: &[u8], out: &mut [u8], at: usize) -> Retyped
    requires { AccountInRange a × (at + line_most ≤ length out.old) }
    ensures retypes { Retypes (typed_by 1 a book.now) out.old out.new at result }
    ensures written_bound { (result.written ≤ at + line_most) × (result.taken ≤ length book.now) × AccountInRange result.account }
{
    let mut lines = [0u8; LINES_MOST];
    let t = next_record(a, book, &mut lines);
    let after = t.account;
    if (t.size == 0) | (after.stage == 3) {
        return Retyped {
            account: after,
            taken: 0,
            written: at,
            more: false,
        };
    }
    let end = put_record(out, at, first_of(book, t.size));
    Retyped {
        account: after,
        taken: t.size,
        written: end,
        more: true,
    }
}

// The same after an account in its ranges.
fn type_records(from: Account, book: &[u8], out: &mut [u8]) -> Retyped
    requires { AccountInRange from }
    ensures retypes { Retypes (typed_by (length out.old / line_most) from book.now) out.old out.new 0 result }
    ensures taken_in_bounds { result.taken ≤ length book.now }
{
    let mut a = from;
    let mut at = 0;
    let mut end = 0;
    let most = out.len() / LINE_MOST;
    for _ in 0..most {
        let t = type_next(a, rest_of(book, at), out, end);
        a = t.account;
        at += t.taken;
        end = t.written;
        if !t.more {
            return Retyped {
                account: a,
                taken: at,
                written: end,
                more: false,
            };
        }
    }
    Retyped {
        account: a,
        taken: at,
        written: end,
        more: true,
    }
}

// The lines of the next records of book after an account, as many as the buffer has room for, from its start, up to a record that is not
// accepted. An account outside its ranges is that of no book: nothing is typed.
pub fn retype(from: Account, book: &[u8], out: &mut [u8]) -> Retyped
    ensures retypes { Retypes (retyped_by (length out.old / line_most) from book.now) out.old out.new 0 result }
    ensures taken_in_bounds { result.taken ≤ length book.now }
{
    if !from.in_range() {
        return Retyped {
            account: from,
            taken: 0,
            written: 0,
            more: false,
        };
    }
    type_records(from, book, out)
}

// Three numbers with one blank between.
fn say_three(out: &mut Text, a: u64, b: u64, c: u64)
    ensures { Says out.old out.new (joined (a ∷ b ∷ c ∷ [])) }
{
    out.say_number(a);
    out.say(b" ");
    out.say_number(b);
    out.say(b" ");
    out.say_number(c);
}

fn say_refusal(out: &mut Text, r: Refusal)
    ensures { Says out.old out.new (refused_text r) }
{
    out.say(b"refused ");
    say_three(out, r.code as u64, r.accepted as u64, r.field as u64);
    out.say(b": ");
    say_sentence(out, r.code as u64);
    out.say(b"\n");
}

fn tell_end(text: &mut Text, account: Account, behind: bool)
    ensures { Says text.old text.new (end_text account behind) }
{
    if account.stage == 3 {
        let refusal = account.refusal;
        say_refusal(text, refusal);
        return;
    }
    if account.stage != 2 {
        text.say(b"unfinished\n");
        return;
    }
    if !behind {
        text.say(b"");
        return;
    }
    say_sentence(text, 18);
    text.say(b"\n");
}

// The last word, from the start of out: none where the book is closed and nothing stands after its close.
pub fn say_end(out: &mut [u8], account: Account, behind: bool) -> usize
    ensures { Said out.old out.new 0 (end_text account behind) result }
{
    let mut text = Text::new(out);
    tell_end(&mut text, account, behind);
    text.len
}

// The status byte: 0 only where the book is closed with nothing after it, all of it was read, and everything was written.
pub fn status(account: Account, behind: bool, read: bool, written: bool) -> u8
    ensures { result ≡ status_byte account behind read written }
{
    if ((account.stage == 2) & !behind) & (read & written) {
        b'0'
    } else {
        b'1'
    }
}
