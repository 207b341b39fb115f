// Why a book is refused: which record, which rule, and the two numbers that the rule compares; or that it is accepted, or what is missing of it.
#![tactic(auto)]

pub mod remarks; // remarks.rt: what machines and people are told
mod compared; // compared.rt: the value and the limit
mod field_values; // field_values.rt: a field's value and its range

ghost use Rattle.std.specs.Prelude.{◌≡◌, ◌+◌, ◌≤◌, length, take};
ghost use Rattle.codec.specs.Codec.{val_at};
ghost use Rattle.account.specs.Judge.{judge};
ghost use Rattle.book.specs.Front.{whole, front};
ghost use Rattle.why.specs.Why.{reason, why_of};
ghost use Rattle.why.specs.Inner.{Faulty, unread, ended};

use crate::compared::{compared, outside};
use account::Account;
use base::{first_of, rest_of};
use book::front::bad_length;
use by_row::table::row_of;
use codec::LENGTH_MOST;
use codec::numbers::be16;
use walk::next_alone;

// The two numbers that a rule compares.
#[derive(Clone, Copy)]
pub struct Numbers {
    pub value: u64,
    pub limit: u64,
}

// Why a record is refused: the rule's number, the record's number and its first and last byte, all from 0; the field from 1, with 7 alone; the kind
// byte; the row of the table by which its fields are named; the group of the heading before it, 0 where there is none; and what the rule compares,
// where it compares numbers.
#[derive(Clone, Copy)]
pub struct Reason {
    pub code: u8,
    pub number: u16,
    pub first: usize,
    pub last: usize,
    pub field: u8,
    pub kind: u8,
    pub row: u8,
    pub group: u16,
    pub compares: Option<Numbers>,
}

// What there is to say of a book. An accepted one has its first byte after the close at end, if there are more bytes. An unfinished one lacks so
// many bytes of its last record, or the next record's length is not there yet.
#[derive(Clone, Copy)]
pub enum Verdict {
    Accepted { end: usize, more: bool },
    Missing(usize),
    NextLength,
    Refused(Reason),
}

// A length that no record has, in the two bytes from at on.
fn broken_length(a: Account, at: usize, rest: &[u8]) -> Reason
    requires { (2 ≤ length rest.now) × (at + length rest.now ≤ 18446744073709551615) }
    ensures { result ≡ reason 1 a.records 0 at a (take 2 rest.now) }
{
    let n = be16(rest, 0);
    let numbers = outside(4, LENGTH_MOST, n);
    let heading = a.heading;
    Reason {
        code: 1,
        number: a.records,
        first: at,
        last: at + 1,
        field: 0,
        kind: 0,
        row: 0,
        group: heading.group,
        compares: numbers,
    }
}

// The rest of a book, from the byte at on, has no whole record at its front.
fn unread(a: Account, at: usize, rest: &[u8]) -> Verdict
    requires { (front rest.now ≡ whole → ⊥) × (at + length rest.now ≤ 18446744073709551615) }
    ensures { result ≡ unread (front rest.now) a at rest.now }
{
    if rest.len() < 2 {
        return Verdict::NextLength;
    }
    let n = be16(rest, 0);
    if bad_length(n) {
        return Verdict::Refused(broken_length(a, at, rest));
    }
    Verdict::Missing(n as usize + 2 - rest.len())
}

// The record r, at the byte at, is refused by that number and field.
fn broken(a: Account, at: usize, r: &[u8], code: u8, field: u8) -> Reason
    requires { Faulty a r.now code field × (at + length r.now ≤ 18446744073709551615) }
    ensures { result ≡ reason code a.records field at a r.now }
{
    let numbers = compared(a, r, code, field);
    let number = a.records;
    let row = row_of(r[2], r[3]);
    let heading = a.heading;
    Reason {
        code: code,
        number: number,
        first: at,
        last: at + r.len() - 1,
        field: field,
        kind: r[3],
        row: row,
        group: heading.group,
        compares: numbers,
    }
}

// The record r, at the byte at, closes the book, which has so many bytes, or is refused.
fn ended(a: Account, at: usize, r: &[u8], next: Account, many: usize) -> Verdict
    requires faulty { next.stage ≡ 3 → Faulty a r.now next.refusal.code next.refusal.field }
    requires le_stage { (2 ≤ next.stage) × (next.stage ≤ 3) × (at + length r.now ≤ 18446744073709551615) }
    ensures { result ≡ ended a at r.now next many }
{
    if next.stage == 2 {
        let end = at + r.len();
        let more = end < many;
        return Verdict::Accepted { end, more };
    }
    let f = next.refusal;
    Verdict::Refused(broken(a, at, r, f.code, f.field))
}

// Why the book is refused, if it is: its records are judged one after the other, each once.
pub fn why(book: &[u8]) -> Verdict
    ensures { result ≡ why_of book.now }
{
    let mut a = Account::new();
    let mut at = 0;
    // A cursor and no count: each record has a length of its own.
    while at < book.len() {
        let rest = rest_of(book, at);
        let t = next_alone(a, rest);
        let n = t.size;
        if n == 0 {
            return unread(a, at, rest);
        }
        let next = t.account;
        if 2 <= next.stage {
            let r = first_of(rest, n);
            return ended(a, at, r, next, book.len());
        }
        a = next;
        at += n;
    }
    Verdict::NextLength
}
