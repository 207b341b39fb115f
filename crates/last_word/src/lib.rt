// The last word on a book, what is remarked to a person beside it, and the status: all by the account that was reached.
#![tactic(auto)]

ghost use Rattle.std.specs.Prelude.{◌≡◌, ◌+◌, ◌≤◌, length};
ghost use Rattle.printing.specs.Decimal.{Put};
ghost use Rattle.printing.specs.Said.{Said};
ghost use Rattle.printing.specs.Says.{Says};
ghost use Rattle.last_word.specs.LastWord.{end_text, goes_on_lem, last_text};
ghost use Rattle.last_word.specs.Remarks.{why_text, remark_text, status_byte};

use account::Account;
use names::hints::{Given, say_hint};
use printing::text::Text;
use printing::{put_numbers, put_text, say, say_number};

// The word of the last line.
fn put_end(out: &mut [u8], at: usize, account: Account) -> usize
    requires { at + 72 ≤ length out.old }
    ensures { Put out.old out.new at (end_text account) result }
{
    if account.stage == 2 {
        return put_text(out, at, b"closed\n");
    }
    if account.stage != 3 {
        return put_text(out, at, b"unfinished\n");
    }
    let refusal = account.refusal;
    let numbers = [
        refusal.code as u64,
        refusal.accepted as u64,
        refusal.field as u64,
    ];
    let end = put_text(out, at, b"refused ");
    put_numbers(out, end, &numbers)
}

// Whether more of the input is wanted: after the book's end nothing is.
pub fn goes_on(account: Account) -> bool
    ensures { result ≡ goes_on_lem account }
{
    account.stage < 2
}

// The last word, from the start of out. Where a read or a write failed there is none: the book was not seen whole, or its lines were not; nor where
// the buffer may be too short for it.
pub fn put_last(out: &mut [u8], account: Account, read: bool, written: bool) -> usize
    ensures { Put out.old out.new 0 (last_text account read written (length out.old)) result }
{
    if read & written & (72 <= out.len()) {
        return put_end(out, 0, account);
    }
    0
}

// A refusal's number with its sentence.
fn say_why(out: &mut Text, account: Account)
    ensures { Says out.old out.new (why_text account) }
{
    if account.stage != 3 {
        return;
    }
    let refusal = account.refusal;
    let code = refusal.code as u64;
    out.say(b"refused ");
    out.say_number(code);
    out.say(b": ");
    names::say_sentence(out, code);
    out.say(b"; bin/why tells more\n");
}

// What is said to a person beside the last word, from the start of out.
pub fn say_remark(out: &mut [u8], account: Account, given: Given) -> usize
    ensures { Said out.old out.new 0 (remark_text account given) result }
{
    let mut text = Text::new(out);
    say_why(&mut text, account);
    say_hint(&mut text, given);
    text.len
}

// The status byte: 0 only where the book is closed, all of it was read, and everything was written.
pub fn status(account: Account, read: bool, written: bool) -> u8
    ensures { result ≡ status_byte account read written }
{
    if (account.stage == 2) & read & written {
        b'0'
    } else {
        b'1'
    }
}
