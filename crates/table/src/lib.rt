// A table of many books, as comma-separated text: what is seen of a book, the sums over the closed ones, and the rows.
#![tactic(auto)]

pub mod rows; // rows.rt: the header, a file's row, the last row
pub mod remarks; // remarks.rt: which names can stand in it, what is said of others, the status
pub mod sums; // sums.rt: the running sums

ghost use Rattle.std.specs.Prelude.{◌≡◌};
ghost use Rattle.line_rows.specs.Rows.{line_numbers};
ghost use Rattle.account.specs.Range.{AccountInRange};
ghost use Rattle.account.specs.Line.{total_of};
ghost use Rattle.table.specs.Seen.{end_of, farm_values, state_of, seen_of, not_read, is_closed};

use account::Account;
use base::rest_of;
use grams::farm::Factors;
use line_bytes::{TOTAL_NUMBERS, TOTAL_SIZE, put_total};
use walk::next_alone;

// The bytes of a farm record up to its fields, and those of the fields that it has in version 1 at least.
const FARM_BYTES: usize = 4 + 7;

// Where a book ended: a refusal with its number. Of a file that could not be read nothing else is seen.
#[derive(Clone, Copy, Debug, PartialEq, Eq)]
pub enum State {
    Unreadable,
    Unfinished,
    Closed,
    Refused(u8),
}

// What is seen of a file: where the book ended; the records accepted; farm number and year; and the numbers of its total line, which count where it is
// closed. Farm and year are no Option: the theorem `table-farm` speaks of both as numbers, and they are shown where `records` is not 0.
#[derive(Clone, Copy)]
pub struct Seen {
    pub state: State,
    pub records: u16,
    pub farm: u64,
    pub year: u64,
    pub numbers: [u64; TOTAL_NUMBERS],
}

// The account that a book comes to.
fn end_of(book: &[u8]) -> Account
    ensures is { result ≡ end_of book.now }
    ensures range { AccountInRange result }
{
    let mut a = Account::new();
    let mut at = 0;
    // A cursor and no count: each record has a length of its own.
    while at < book.len() {
        let t = next_alone(a, rest_of(book, at));
        a = t.account;
        if t.size == 0 {
            return a;
        }
        at += t.size;
    }
    a
}

// Where an account stands that no record follows.
fn state_of(a: Account) -> State
    ensures { result ≡ state_of a }
{
    if a.stage == 2 {
        return State::Closed;
    }
    if a.stage == 3 {
        return State::Refused(a.refusal.code);
    }
    State::Unfinished
}

// The values of the farm record with which a book begins.
fn farm_values(book: &[u8]) -> [u64; 3]
    ensures { result ≡ farm_values book.now }
{
    if book.len() < FARM_BYTES {
        return [0u64; 3];
    }
    values::farm::read(book, 4)
}

// The numbers of an account's total line.
fn total_numbers(a: Account) -> [u64; TOTAL_NUMBERS]
    requires { AccountInRange a }
    ensures { result ≡ line_numbers (total_of a) }
{
    let sums = a.sums;
    let n2o = sums.n2o;
    let co2 = sums.co2;
    let grazing = sums.grazing;
    let w = Factors {
        ch4: a.farm.ch4,
        n2o: a.farm.n2o,
    };
    let co2e = grams::farm::co2e(w, co2, sums.ch4, n2o, grazing);
    let mut line = [0u8; TOTAL_SIZE];
    put_total(&mut line, 0, sums.listed(), co2e.word());
    line_bytes::total_numbers(&line)
}

// What is seen of a book.
pub fn look(book: &[u8]) -> Seen
    ensures { result ≡ seen_of book.now }
{
    let a = end_of(book);
    let f = farm_values(book);
    let numbers = total_numbers(a);
    Seen {
        state: state_of(a),
        records: a.records,
        farm: f[0],
        year: f[1],
        numbers,
    }
}

// What is seen of a file that could not be read.
pub fn not_read() -> Seen
    ensures { result ≡ not_read }
{
    Seen {
        state: State::Unreadable,
        records: 0,
        farm: 0,
        year: 0,
        numbers: [0u64; TOTAL_NUMBERS],
    }
}

pub fn is_closed(s: Seen) -> bool
    ensures { result ≡ is_closed s }
{
    matches!(s.state, State::Closed)
}
