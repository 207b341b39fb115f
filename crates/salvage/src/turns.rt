// One record of a damaged book: it is kept, it is dropped, or the reading ends before it.
ghost use Rattle.std.specs.Prelude.{◌≡◌, ◌<◌, None, is_some, eqb};
ghost use Rattle.base.specs.Choice.{pick};
ghost use Rattle.account.specs.Sorts.{is_of_group};
ghost use Rattle.account.specs.Judge.{first};
ghost use Rattle.salvage.specs.Salvage.{drops};
ghost use Rattle.salvage.specs.Inner.{Open, as_told, Sees, Turned};

use crate::Reading;
use account::Account;
use account::sort::is_of_group;
use base::first_of;
use codec::kinds::{CLOSE, HEADING};
use walk::next_alone;

// So many kept records end the reading: with its close a clean book has as many as a book can have.
pub(crate) const KEPT_MOST: u16 = 4095;

// The record at the front of some bytes: its size, 0 where no whole one is there, its kind byte, the number that drops it, if one does, and the
// account with it.
#[derive(Clone, Copy)]
pub(crate) struct Seen {
    pub size: usize,
    pub kind: u8,
    pub code: Option<u8>,
    pub account: Account,
}

// What becomes of one record: its bytes, the number that drops it, if one does, and the reading behind it. No bytes: the reading ends.
#[derive(Clone, Copy)]
pub(crate) struct Turn {
    pub n: usize,
    pub code: Option<u8>,
    pub next: Reading,
}

// The number that drops a record of a kind byte that would get a code.
fn dropped_by(code: u8, kind: u8, lost: bool) -> Option<u8>
    ensures { result ≡ as_told (first (drops code kind lost)) }
{
    if (2 <= code) & (code <= 4) {
        return Some(code);
    }
    if lost & is_of_group(kind as u64) {
        return Some(6);
    }
    if (6 <= code) & (code <= 11) {
        return Some(code);
    }
    None
}

// Whether the last record of kind byte 2 was dropped, once a record has got that number.
fn lost_by(kind: u8, code: Option<u8>, lost: bool) -> bool
    ensures { result ≡ pick (eqb kind 2) (is_some code) lost }
{
    if kind == HEADING as u8 {
        code.is_some()
    } else {
        lost
    }
}

// The number of the last record of kind byte 2, once the record of that number is read.
fn heading_by(kind: u8, number: u64, heading: u64) -> u64
    ensures { result ≡ pick (eqb kind 2) number heading }
{
    if kind == HEADING as u8 {
        number
    } else {
        heading
    }
}

impl Reading {
    // The record at the front of xs.
    pub(crate) fn see(self, xs: &[u8]) -> Seen
        requires { Open self }
        ensures { Sees self xs.now result }
    {
        let a = self.account;
        let t = next_alone(a, xs);
        let n = t.size;
        if n == 0 {
            return Seen {
                size: 0,
                kind: 0,
                code: None,
                account: a,
            };
        }
        let r = first_of(xs, n);
        let kind = r[3];
        let after = t.account;
        let code = dropped_by(after.refusal.code, kind, self.lost);
        Seen {
            size: n,
            kind: kind,
            code: code,
            account: after,
        }
    }

    // The reading ends.
    fn ended(self) -> Turn
        ensures { result ≡ record { n = 0; code = None; next = self } }
    {
        Turn {
            n: 0,
            code: None,
            next: self,
        }
    }

    // What becomes of the record at the front of xs.
    pub(crate) fn turn(self, xs: &[u8]) -> Turn
        requires { Open self × (self.number < 18446744073709551615) }
        ensures { Turned self xs.now result }
    {
        let a = self.account;
        let v = self.see(xs);
        let kind = v.kind;
        let code = v.code;
        if (v.size == 0) | (KEPT_MOST <= a.records) | ((kind == CLOSE as u8) & code.is_none()) {
            return self.ended();
        }
        let lost = lost_by(kind, code, self.lost);
        let heading = heading_by(kind, self.number, self.heading);
        let number = self.number + 1;
        let kept = v.account;
        match code {
            None => Turn {
                n: v.size,
                code,
                next: Reading {
                    account: kept,
                    lost,
                    heading,
                    number,
                },
            },
            Some(_) => Turn {
                n: v.size,
                code,
                next: Reading {
                    account: a,
                    lost,
                    heading,
                    number,
                },
            },
        }
    }
}
