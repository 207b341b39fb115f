// Two passes over a damaged book: one finds both lengths, the other writes.
ghost use Rattle.std.specs.Prelude.{◌≡◌, [], ◌∷◌, ◌+◌, ◌≤◌, length};
ghost use Rattle.std.proofs.lemmas.List.Edits.{sets};
ghost use Rattle.codec.specs.Codec.{record_bytes};
ghost use Rattle.salvage.specs.Salvage.{start, found_in, book_of, list_of};
ghost use Rattle.salvage.specs.Inner.{Open, Measured};

use crate::Reading;
use crate::moves::{by_code, copy, note};
use base::rest_of;

// How much there is: kept records, bytes of the clean book, entries of the list.
#[derive(Clone, Copy)]
pub(crate) struct Sizes {
    pub kept: u16,
    pub book: usize,
    pub dropped: usize,
}

// How much there is in a damaged book. The clean book has its close in any case, of six bytes.
pub(crate) fn measure(damaged: &[u8]) -> Sizes
    ensures { Measured (found_in start damaged.now) result }
{
    let mut s = Reading::new();
    let mut at = 0;
    let mut book = 6;
    let mut dropped = 0;
    // A cursor and no count: each record has a length of its own.
    while at < damaged.len() {
        let rest = rest_of(damaged, at);
        let t = s.turn(rest);
        if t.n == 0 {
            let a = s.account;
            return Sizes {
                kept: a.records,
                book: book,
                dropped: dropped,
            };
        }
        book += by_code(t.code, t.n, 0);
        dropped += by_code(t.code, 0, 1);
        s = t.next;
        at += t.n;
    }
    let a = s.account;
    Sizes {
        kept: a.records,
        book: book,
        dropped: dropped,
    }
}

impl Reading {
    // The close, which counts the kept records, goes to the book from w on.
    fn close(self, book: &mut [u8], w: usize)
        requires { Open self × (w + 6 ≤ length book.old) }
        ensures { book.new ≡ sets book.old w (record_bytes 8 (self.account.records ∷ [])) }
    {
        let a = self.account;
        let count = [a.records as u64];
        by_row::write(book, w, 8, &count);
    }
}

// The clean book and the list, each to the start of its buffer.
pub(crate) fn write(damaged: &[u8], book: &mut [u8], list: &mut [u8])
    requires damaged_in_bounds { length (book_of (found_in start damaged.now).kept) ≤ length book.old }
    requires damaged_in_bounds_2 { length (list_of (found_in start damaged.now).dropped) ≤ length list.old }
    ensures clean { book.new ≡ sets book.old 0 (book_of (found_in start damaged.now).kept) }
    ensures dropped { list.new ≡ sets list.old 0 (list_of (found_in start damaged.now).dropped) }
{
    let mut s = Reading::new();
    let mut at = 0;
    let mut w = 0;
    let mut v = 0;
    // A cursor and no count: each record has a length of its own.
    while at < damaged.len() {
        let rest = rest_of(damaged, at);
        let t = s.turn(rest);
        if t.n == 0 {
            s.close(book, w);
            return;
        }
        let k = by_code(t.code, t.n, 0);
        copy(book, w, rest, k);
        v += note(list, v, s.number, t.code);
        w += k;
        s = t.next;
        at += t.n;
    }
    s.close(book, w);
}
