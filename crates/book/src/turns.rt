// One turn of a call: as many records as lie together in the input, or the record that the held bytes begin.
ghost use Rattle.std.specs.Prelude.{◌≡◌, [], ◌+◌, ◌-◌, ◌≤◌, ◌<◌, min, length, take, drop};
ghost use Rattle.codec.specs.Table.{record_most};
ghost use Rattle.book.specs.Front.{bad, need};
ghost use Rattle.book.specs.State.{InRange, held_of, holding};
ghost use Rattle.book.specs.Run.{book, run};
ghost use Rattle.book.specs.Inner.{Begins, Gathered, Offered, Turned, left_by};

use crate::State;
use crate::bytes::{fill, kept};
use crate::front::bad_length;
use crate::records::judge_all;
use account::Account;
use base::{first_of, least, rest_of};
use codec::numbers::be16;
use codec::{LENGTH_MOST, RECORD_MOST};

// What one turn does: the state after it, the bytes taken and written, and whether the next line does not fit.
#[derive(Clone, Copy)]
pub(crate) struct Turn {
    pub state: State,
    pub taken: usize,
    pub written: usize,
    pub full: bool,
}

// The first n bytes of s are held.
fn hold(account: Account, s: &[u8], n: usize) -> State
    requires { (n ≤ 27) × (n ≤ length s.now) }
    ensures { result ≡ holding account (take n s.now) }
{
    let held = kept(s, n);
    let same = account.by_fields();
    State {
        account: same,
        held: held,
        count: n,
    }
}

// Nothing is held.
fn idle(account: Account) -> State
    ensures { result ≡ holding account [] }
{
    let same = account.by_fields();
    State {
        account: same,
        held: [0; 27],
        count: 0,
    }
}

// Of n bytes at the front of s, those of the first record alone.
fn first_record(s: &[u8], n: usize) -> usize
    requires { (2 ≤ length s.now) × (n ≤ record_most) }
    ensures { result ≡ min n (need s.now) }
{
    let length = be16(s, 0);
    if LENGTH_MOST < length {
        return n;
    }
    least(n, (length as usize) + 2)
}

impl State {
    // The bytes held and the next of src, as many as the longest record has at most: any record that the held bytes begin is whole in them. How many
    // they are.
    fn gather(self, bytes: &mut [u8; RECORD_MOST], src: &[u8]) -> usize
        requires { InRange self × (0 < length src.now) × (length bytes.old ≡ record_most) }
        ensures { Gathered (held_of self) src.now bytes.new result }
    {
        let held = self.held;
        let count = self.count;
        fill(bytes, 0, 27, &held);
        let k = fill(bytes, count, RECORD_MOST, src);
        count + k
    }

    // What is left where no record was judged: a bad length is refused, a record whose lines do not fit held but for its last byte.
    fn left(self, account: Account, src: &[u8]) -> Turn
        requires { Begins self src.now }
        ensures { result ≡ left_by (bad src.now) account self.count src.now }
    {
        let length = be16(src, 0);
        if bad_length(length) {
            let refused = account.refuse(1, 0);
            let s = idle(refused);
            return Turn {
                state: s,
                taken: 2 - self.count,
                written: 0,
                full: false,
            };
        }
        let n = (length as usize) + 1;
        let s = hold(account, src, n);
        Turn {
            state: s,
            taken: n - self.count,
            written: 0,
            full: true,
        }
    }

    // What the bytes of src do, which begins with the bytes held.
    fn turn(self, src: &[u8], out: &mut [u8]) -> Turn
        requires { Begins self src.now }
        ensures { Turned (λ n. book self.account (take (self.count + n) src.now)) (length src.now - self.count)
            out.old out.new result }
    {
        let a = self.account;
        let r = judge_all(a, src, out);
        let b = r.account;
        if r.at == 0 {
            return self.left(b, src);
        }
        let s = idle(b);
        Turn {
            state: s,
            taken: r.at - self.count,
            written: r.w,
            full: false,
        }
    }

    // One turn over the input from i on.
    pub(crate) fn next(self, input: &[u8], i: usize, out: &mut [u8]) -> Turn
        requires { Offered self input.now i }
        ensures { Turned (λ n. run self (take n (drop i input.now))) (length input.now - i) out.old
            out.new result }
    {
        let rest = rest_of(input, i);
        if self.count == 0 {
            self.turn(rest, out)
        } else {
            let mut bytes = [0u8; RECORD_MOST];
            let n = self.gather(&mut bytes, rest);
            // only the record that was cut: those behind it are judged where they lie
            let cut = first_record(&bytes, n);
            let src = first_of(&bytes, cut);
            self.turn(src, out)
        }
    }
}
