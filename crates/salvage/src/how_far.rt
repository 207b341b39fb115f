// How far the reading of a damaged book goes, and what ends it.
ghost use Rattle.std.specs.Prelude.{◌≡◌, ◌&&◌, ◌+◌, ◌≤◌, min, length, leb};
ghost use Rattle.base.specs.Choice.{pick};
ghost use Rattle.codec.specs.Codec.{val_at};
ghost use Rattle.book.specs.Front.{bad, front};
ghost use Rattle.salvage.specs.declared.how_far.Ending.TheVariants.{NoLength, NotWhole};
ghost use Rattle.salvage.specs.HowFar.{close_bytes, ending_at, end_of, followed_by, all_read_lem};
ghost use Rattle.salvage.specs.Inner.{Open, Reaches};

use crate::Reading;
use crate::turns::KEPT_MOST;
use base::rest_of;
use book::front::bad_length;
use codec::kinds::CLOSE;
use codec::numbers::be16;

// What ends a reading: the end of the bytes, a close that nothing drops, 4,095 kept records, a length that no record has, a record that is not whole.
#[derive(Clone, Copy)]
pub enum Ending {
    AtEnd,
    AtClose,
    Full,
    NoLength(u64),
    NotWhole,
}

// The end of a reading: the byte where the record begins that ended it, why it did, and how many bytes were not read.
#[derive(Clone, Copy)]
pub struct ReadingEnd {
    pub at: usize,
    pub why: Ending,
    pub unread: u64,
}

// The reading at its end, and the bytes that are read.
#[derive(Clone, Copy)]
pub(crate) struct Reached {
    pub reading: Reading,
    pub at: usize,
}

fn reach(damaged: &[u8]) -> Reached
    ensures { Reaches damaged.now result }
{
    let mut s = Reading::new();
    let mut at = 0;
    // A cursor and no count: each record has a length of its own.
    while at < damaged.len() {
        let rest = rest_of(damaged, at);
        let t = s.turn(rest);
        if t.n == 0 {
            return Reached { reading: s, at: at };
        }
        s = t.next;
        at += t.n;
    }
    Reached { reading: s, at: at }
}

// Why no whole record lies at the front of xs.
fn unreadable(xs: &[u8]) -> Ending
    ensures { result ≡ pick (leb 2 (length xs.now) && bad xs.now) (NoLength (val_at xs.now 0 2)) NotWhole }
{
    if xs.len() < 2 {
        return Ending::NotWhole;
    }
    let n = be16(xs, 0);
    if bad_length(n) {
        return Ending::NoLength(n);
    }
    Ending::NotWhole
}

impl Reading {
    // The bytes of the close at the front of xs, if nothing drops it.
    fn close_bytes(self, xs: &[u8]) -> usize
        requires { Open self }
        ensures value { result ≡ close_bytes (front xs.now) self xs.now }
        ensures upper_bound { result ≤ length xs.now }
    {
        let v = self.see(xs);
        if (v.kind == CLOSE as u8) & v.code.is_none() {
            return v.size;
        }
        0
    }

    // Which end it is, by the bytes that were not read and the close at their front.
    fn ending_at(self, xs: &[u8], close: usize) -> Ending
        ensures { result ≡ ending_at self xs.now close }
    {
        if xs.len() == 0 {
            return Ending::AtEnd;
        }
        if 0 < close {
            return Ending::AtClose;
        }
        let a = self.account;
        if KEPT_MOST <= a.records {
            return Ending::Full;
        }
        unreadable(xs)
    }
}

// Where the reading of a damaged book ends. Where a longest record would have room after the bytes read, nothing that comes later changes what is
// found (proofs/AfterEnd).
pub fn reading_end(damaged: &[u8]) -> ReadingEnd
    ensures { result ≡ end_of damaged.now }
{
    let r = reach(damaged);
    let s = r.reading;
    let at = r.at;
    let rest = rest_of(damaged, at);
    let close = s.close_bytes(rest);
    let why = s.ending_at(rest, close);
    ReadingEnd {
        at: at,
        why: why,
        unread: (rest.len() - close) as u64,
    }
}

impl ReadingEnd {
    // n more bytes stand after those that were looked at.
    pub fn followed(self, n: usize) -> ReadingEnd
        ensures { result ≡ followed_by self n }
    {
        let why = self.why;
        ReadingEnd {
            at: self.at,
            why: why,
            unread: together(self.unread, n as u64),
        }
    }

    // Whether all was read.
    pub fn all_read(self) -> bool
        ensures { result ≡ all_read_lem self }
    {
        self.unread == 0
    }
}

// A count that is full stays.
fn together(a: u64, b: u64) -> u64
    ensures { result ≡ min (a + b) 18446744073709551615 }
{
    if u64::MAX - a < b { u64::MAX } else { a + b }
}
