// A book read record by record, and where its parts end.
ghost use Rattle.std.specs.Prelude.{◌≡◌, ◌||◌, ◌+◌, ◌≤◌, ◌<◌, eqb, length, take, drop, IfSome, IfNone};
ghost use Rattle.line_bytes.specs.Lines.{lines_most};
ghost use Rattle.account.specs.Range.{AccountInRange};
ghost use Rattle.account.specs.Judge.{kind_byte};
ghost use Rattle.compare.specs.Inner.{Valid, Turned, Written};
ghost use Rattle.compare.specs.Places.{start as start_place, left_of, one_on_lem, onward, stands_in, part_of, part_end_lem, no_group, group_at};
ghost use Rattle.compare.specs.Places.{subtotal_of, close_lines, last_line_lem};

use crate::records::{kind_of, values};
use account::Account;
use base::{first_of, rest_of};
use codec::kinds::{CLOSE, HEADING};
use line_bytes::{LINE_SIZE, LINES_MOST, TOTAL_SIZE};
use walk::next_record;

// Where a walk through a book has come to: the account, the bytes read, and how many records they are.
#[derive(Clone, Copy)]
pub struct Place {
    pub account: Account,
    pub at: usize,
    pub number: usize,
}

// The next accepted record: its bytes, those of its lines, and the account after it. No bytes: there is none.
#[derive(Clone, Copy)]
pub(crate) struct Taken {
    pub n: usize,
    pub written: usize,
    pub next: Account,
}

// Before the first record.
pub(crate) fn start() -> Place
    ensures { result ≡ start_place }
{
    let a = Account::new();
    Place {
        account: a,
        at: 0,
        number: 0,
    }
}

// Whether it is a place of the book.
pub(crate) fn stands(book: &[u8], p: Place) -> bool
    ensures { result ≡ stands_in book.now p }
{
    let a = p.account;
    a.in_range() & ((p.number <= p.at) & (p.at <= book.len()))
}

// The next accepted record of xs, and its lines at the start of a buffer that has room for those of any record.
pub(crate) fn turn(a: Account, xs: &[u8], lines: &mut [u8]) -> Taken
    requires { AccountInRange a × (lines_most ≤ length lines.old) }
    ensures turned { Turned a xs.now result }
    ensures written { Written a xs.now lines.new result }
{
    let t = next_record(a, xs, lines);
    let next = t.account;
    if (t.size == 0) | (next.stage == 3) {
        return Taken {
            n: 0,
            written: 0,
            next: a,
        };
    }
    Taken {
        n: t.size,
        written: t.written,
        next: next,
    }
}

// The same without its lines.
pub(crate) fn step(a: Account, xs: &[u8]) -> Taken
    requires { AccountInRange a }
    ensures { Turned a xs.now result }
{
    let mut lines = [0u8; LINES_MOST];
    turn(a, xs, &mut lines)
}

// After the next record, which is t.
pub(crate) fn after(book: &[u8], p: Place, t: Taken) -> Place
    requires { Valid book.now p × Turned p.account (drop p.at book.now) t × (0 < t.n) }
    ensures { (result ≡ one_on_lem book.now p) × Valid book.now result }
{
    let next = t.next;
    Place {
        account: next,
        at: p.at + t.n,
        number: p.number + 1,
    }
}

// After the next k accepted records, or after all that there are.
pub(crate) fn reach(book: &[u8], p: Place, k: usize) -> Place
    requires { Valid book.now p }
    ensures { (result ≡ onward k book.now p) × Valid book.now result }
{
    let mut q = p;
    for _i in 0..k {
        let a = q.account;
        let t = step(a, rest_of(book, q.at));
        if t.n == 0 {
            return q;
        }
        q = after(book, q, t);
    }
    q
}

// Whether a part ends before the record r: a heading or the close.
fn ends(r: &[u8]) -> bool
    requires { 4 ≤ length r.now }
    ensures { result ≡ eqb (kind_byte r.now) 2 || eqb (kind_byte r.now) 8 }
{
    let kind = kind_of(r);
    (kind == HEADING) | (kind == CLOSE)
}

// Where the part after a place ends.
pub(crate) fn end_of_part(book: &[u8], p: Place) -> Place
    requires { Valid book.now p }
    ensures value { (result ≡ part_end_lem book.now p) × Valid book.now result }
    ensures number_value { result.number ≡ p.number + length (part_of (left_of book.now p)) }
{
    let mut q = p;
    // A cursor and no count: each record has a length of its own.
    while q.at < book.len() {
        let a = q.account;
        let rest = rest_of(book, q.at);
        let t = step(a, rest);
        if t.n == 0 {
            return q;
        }
        if ends(first_of(rest, t.n)) {
            return q;
        }
        q = after(book, q, t);
    }
    q
}

// The number of the group whose heading comes next, if one does.
pub(crate) fn group_at(book: &[u8], p: Place) -> Option<u64>
    requires { Valid book.now p }
    ensures some { IfSome result (λ g. (g ≡ group_at (left_of book.now p)) × (g < no_group)) }
    ensures none { IfNone result (group_at (left_of book.now p) ≡ no_group) }
{
    let a = p.account;
    let rest = rest_of(book, p.at);
    let t = step(a, rest);
    if t.n == 0 {
        return None;
    }
    let r = first_of(rest, t.n);
    if kind_of(r) != HEADING {
        return None;
    }
    let v = values(r);
    Some(v[0])
}

// The subtotal at the end of a group, at the start of a buffer.
pub(crate) fn subtotal(book: &[u8], p: Place, grouped: bool, lines: &mut [u8]) -> usize
    requires { Valid book.now p × (lines_most ≤ length lines.old) }
    ensures lines_after { take result lines.new ≡ subtotal_of grouped (left_of book.now p) }
    ensures upper_bound { result ≤ length lines.new }
{
    if !grouped {
        return 0;
    }
    let a = p.account;
    let t = turn(a, rest_of(book, p.at), lines);
    base::least(t.written, LINE_SIZE)
}

// The lines of the close, where it comes next, at the start of a buffer.
pub(crate) fn close_lines(book: &[u8], p: Place, lines: &mut [u8]) -> usize
    requires { Valid book.now p × (lines_most ≤ length lines.old) }
    ensures lines_after { take result lines.new ≡ close_lines (left_of book.now p) }
    ensures upper_bound { result ≤ length lines.new }
{
    let a = p.account;
    let rest = rest_of(book, p.at);
    let t = turn(a, rest, lines);
    if t.n == 0 {
        return 0;
    }
    if kind_of(first_of(rest, t.n)) != CLOSE {
        return 0;
    }
    t.written
}

// The last of the close's lines.
pub(crate) fn last_line(lines: &[u8]) -> &[u8]
    ensures { result.now ≡ last_line_lem lines.now }
{
    let n = lines.len();
    if n <= TOTAL_SIZE {
        return lines;
    }
    rest_of(lines, n - TOTAL_SIZE)
}
