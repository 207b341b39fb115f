// Reads a book on standard input and prints it as typed lines, one for each accepted record. The last word goes to standard error.
#![tactic(auto)]

ghost use Rattle.std.specs.Prelude.{◌≡◌, false, ◌/◌, ◌≤◌, length, drop};
ghost use Rattle.retype.specs.Book.{retyped_by, line_most};
ghost use Rattle.retype_main.specs.Series.{Turned, Begins, Goes};

use account::Account;
use names::hints::{look, say_hint_alone};
use program::{Input, System, report, send};

// The account after the records that were typed, the bytes taken, whether no write failed, and whether more may come.
#[derive(Clone, Copy)]
struct Work {
    account: Account,
    at: usize,
    written: bool,
    more: bool,
}

// The 4,096 records that a book may have and one more are at most 114,716 bytes: what stands after them changes nothing that is printed.
fn book_buffer() -> [u8; 131072]
    ensures { length result ≡ 131072 }
{
    [0u8; 131072]
}

// The lines of some records, with one write.
fn turn(rt: &impl System, mut w: Work, book: &[u8], text: &mut [u8]) -> Work
    requires { w.at ≤ length book.now }
    ensures turned { Turned (retyped_by (length text.old / line_most) w.account (drop w.at book.now)) w result }
    ensures at_in_bounds { result.at ≤ length book.now }
{
    let at = w.at;
    let account = w.account;
    let r = retype::retype(account, &book[at..], text);
    let next = r.account;
    let n = r.written;
    w.account = next;
    w.at = at + r.taken;
    w.written = send(rt, &text[..n]);
    w.more = r.more & w.written;
    w
}

// A series of calls, each from the account and the bytes that the one before left, until nothing more may come or a write fails: together they print
// what one call with room for all would. Each turn takes a record, so that there are fewer of them than bytes.
fn run(rt: &impl System, from: Work, book: &[u8], text: &mut [u8]) -> Work
    requires { Begins book.now from × (length book.now ≤ 131072) × (line_most ≤ length text.old) }
    ensures { Goes book.now from result × (result.more ≡ false) }
{
    let mut w = from;
    for _ in 0..131072u32 {
        if !w.more {
            return w;
        }
        w = turn(rt, w, book, text);
    }
    w
}

// The last word. Where a read or a write failed there is none: the book was not seen whole, or its lines were not.
fn end(rt: &impl System, w: Work, input: Input, book: &[u8]) {
    if !input.good {
        return;
    }
    if !w.written {
        return;
    }
    let mut text = [0u8; 512];
    let n = retype::say_end(&mut text, w.account, w.at < input.len);
    report(rt, &text[..n]);
    tell_hint(rt, book);
}

// A hint where the input is no book but a typed text, a sheet or nothing.
fn tell_hint(rt: &impl System, book: &[u8]) {
    let mut text = [0u8; 256];
    let n = say_hint_alone(&mut text, look(book));
    report(rt, &text[..n]);
}

fn tell_status(rt: &impl System, w: Work, input: Input) {
    program::tell_status(
        rt,
        retype::status(w.account, w.at < input.len, input.good, w.written),
    );
}

fn answer(rt: &impl System, book: &[u8], input: Input)
    requires { length book.now ≤ 131072 }
{
    let mut text = io::large_buffer();
    let start = Work {
        account: Account::new(),
        at: 0,
        written: true,
        more: true,
    };
    let last = run(rt, start, book, &mut text);
    end(rt, last, input, book);
    tell_status(rt, last, input);
}

fn main(rt: HostRuntime) {
    let mut book = book_buffer();
    let input = program::read_all(&rt, &mut rt.input(), b"standard input", &mut book);
    let n = input.len;
    answer(&rt, &book[..n], input);
}
