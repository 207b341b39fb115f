// A damaged book saved: a clean book of the records that are kept, and a list of those that are dropped.
#![tactic(auto)]

pub mod how_far; // how_far.rt: where the reading ends
pub mod lines; // lines.rt: a line for each record that was dropped
pub mod remarks; // remarks.rt: the last words
mod moves;
mod passes;
mod turns;

ghost use Rattle.std.specs.Prelude.{◌≡◌, length};
ghost use Rattle.salvage.specs.Salvage.{start, number_of, answer_for, book_after, list_after, Inside};

use crate::passes::{measure, write};
use account::Account;

// The reading so far: the account of the kept records, whether the last record of kind byte 2 was dropped, its number, and the next record's number.
#[derive(Clone, Copy)]
pub struct Reading {
    pub account: Account,
    pub lost: bool,
    pub heading: u64,
    pub number: u64,
}

impl Reading {
    // Before any record.
    pub fn new() -> Reading
        ensures { result ≡ start }
    {
        let account = Account::new();
        Reading {
            account: account,
            lost: false,
            heading: 0,
            number: 0,
        }
    }
}

// How many bytes the clean book and the list have.
#[derive(Clone, Copy)]
pub struct Lengths {
    pub book: usize,
    pub list: usize,
}

// Why nothing is saved: no farm record is among those kept, or the book or the list has no room.
#[derive(Clone, Copy)]
pub enum Unsaved {
    NoFarm,
    NoRoom,
}

impl Unsaved {
    // The refusal's number.
    pub fn number(self) -> u8
        ensures { result ≡ number_of self }
    {
        match self {
            Unsaved::NoFarm => 19,
            Unsaved::NoRoom => 16,
        }
    }
}

// The clean book goes to the start of book and the list to the start of list, or neither does: both lengths are known before a byte is written.
pub fn salvage(damaged: &[u8], book: &mut [u8], list: &mut [u8]) -> Result<Lengths, Unsaved>
    ensures answer { result ≡ answer_for damaged.now book.old list.old }
    ensures clean { book.new ≡ book_after damaged.now book.old list.old }
    ensures dropped { list.new ≡ list_after damaged.now book.old list.old }
    ensures inside { Inside result (length book.new) (length list.new) }
{
    let m = measure(damaged);
    if m.kept == 0 {
        return Err(Unsaved::NoFarm);
    }
    if (book.len() < m.book) | (list.len() / 9 < m.dropped) {
        return Err(Unsaved::NoRoom);
    }
    write(damaged, book, list);
    Ok(Lengths {
        book: m.book,
        list: m.dropped * 9,
    })
}
