// Reads a book on standard input and prints the table of its records, a row for each that is accepted. The last word goes to standard error.
#![tactic(auto)]

ghost use Rattle.std.specs.Prelude.{◌≡◌, false, ◌/◌, ◌≤◌, length};
ghost use Rattle.records.specs.Table.{rows_after, rows_most};
ghost use Rattle.records_main.specs.Series.{Turned, Begins, Goes};

use account::Account;
use names::hints::{Given, look};
use program::{Input, System, report, send};

// The account after the records whose rows were printed, the bytes taken, whether no write failed, and whether more may come.
#[derive(Clone, Copy)]
struct Work {
    account: Account,
    at: usize,
    written: bool,
    more: bool,
}

// The 4,096 records that a book may have and one more are at most 114,716 bytes: what stands after them changes nothing that is printed.
fn book_buffer() -> [u8; 131072]
    ensures { length result ≡ 131072 }
{
    [0u8; 131072]
}

// The names of the columns; where they can't be written, no rows are wanted.
fn begin(rt: &impl System, text: &mut [u8]) -> Work
    ensures { (result.at ≡ 0) × (result.more ≡ result.written) }
{
    let n = records::say_header(text);
    let written = send(rt, &text[..n]);
    Work {
        account: Account::new(),
        at: 0,
        written,
        more: written,
    }
}

// The rows of some records, with one write.
fn turn(rt: &impl System, mut w: Work, book: &[u8], text: &mut [u8]) -> Work
    requires { w.at ≤ length book.now }
    ensures turned { Turned (rows_after (length text.old / rows_most) w.account w.at book.now) w result }
    ensures at_in_bounds { result.at ≤ length book.now }
{
    let at = w.at;
    let account = w.account;
    let r = records::rows(account, at, book, text);
    let next = r.account;
    let n = r.written;
    w.account = next;
    w.at = at + r.taken;
    w.written = send(rt, &text[..n]);
    w.more = r.more & w.written;
    w
}

// A series of calls, each from the account and the byte that the one before left, until nothing more may come or a write fails: together they print
// what one call with room for all would. Each turn takes a record, so that there are fewer of them than bytes.
fn run(rt: &impl System, from: Work, book: &[u8], text: &mut [u8]) -> Work
    requires { Begins book.now from × (length book.now ≤ 131072) × (rows_most ≤ length text.old) }
    ensures { Goes book.now from result × (result.more ≡ false) }
{
    let mut w = from;
    for _ in 0..131072u32 {
        if !w.more {
            return w;
        }
        w = turn(rt, w, book, text);
    }
    w
}

// What could not be read is not looked at.
fn look_at(book: &[u8], read: bool) -> Given {
    if read {
        return look(book);
    }
    Given::Book
}

// What is remarked to a person: a refusal's sentence, or a hint where the input is no book but a typed text, a sheet or nothing.
fn remark(rt: &impl System, w: Work, given: Given) {
    let mut text = [0u8; 256];
    let n = last_word::say_remark(&mut text, w.account, given);
    report(rt, &text[..n]);
}

// The last word. Where a read or a write failed there is none: the book was not seen whole, or its rows were not.
fn end(rt: &impl System, w: Work, input: Input) {
    let mut text = [0u8; 96];
    let n = last_word::put_last(&mut text, w.account, input.good, w.written);
    report(rt, &text[..n]);
}

fn answer(rt: &impl System, book: &[u8], input: Input)
    requires { length book.now ≤ 131072 }
{
    let mut text = io::large_buffer();
    let start = begin(rt, &mut text);
    let last = run(rt, start, book, &mut text);
    remark(rt, last, look_at(book, input.good));
    end(rt, last, input);
    program::tell_status(
        rt,
        last_word::status(last.account, input.good, last.written),
    );
}

fn main(rt: HostRuntime) {
    let mut book = book_buffer();
    let input = program::read_all(&rt, &mut rt.input(), b"standard input", &mut book);
    let n = input.len;
    answer(&rt, &book[..n], input);
}
