// A farm's yearly book, read in calls: the state that goes from one call to the next, and what one call does.
#![tactic(auto)]

pub mod front; // front.rt: where a record ends
mod bytes;
mod records;
mod turns;

ghost use Rattle.std.specs.Prelude.{◌≡◌, ◌++◌, ◌+◌, ◌≤◌, length};
ghost use Rattle.book.specs.State.{InRange, held_of, holding, in_range, no_record_yet};
ghost use Rattle.book.specs.Call.{answer_of, call, fed_of, lines_laid, outside};
ghost use Rattle.book.specs.Inner.{fed};

use crate::bytes::{put_behind, zeroed};
use crate::front::{Front, front_of, unfinished};
use account::{Account, Refusal};
use base::rest_of;

// What the records before have made, and the first bytes of the record that is not whole yet: count of them, zeros behind.
#[derive(Clone, Copy)]
pub struct State {
    pub account: Account,
    pub held: [u8; 27],
    pub count: usize,
}

// A call's answer. A refusal goes with its number, the records accepted before it, and the field.
#[derive(Clone, Copy)]
pub enum Answer {
    More,
    Full,
    Closed,
    Refused(Refusal),
}

// What a call hands back: the new state, the bytes taken and written, and the answer.
#[derive(Clone, Copy)]
pub struct Fed {
    pub state: State,
    pub taken: usize,
    pub written: usize,
    pub answer: Answer,
}

// By the account reached; while the book is open, by whether all n bytes are taken.
fn answered(account: Account, taken: usize, n: usize) -> Answer
    ensures { result ≡ answer_of account taken n }
{
    if account.stage < 2 {
        if taken == n {
            Answer::More
        } else {
            Answer::Full
        }
    } else if account.stage == 2 {
        Answer::Closed
    } else {
        let refusal = account.refusal;
        Answer::Refused(refusal)
    }
}

impl State {
    // No record yet, and nothing held.
    pub fn new() -> State
        ensures { result ≡ no_record_yet }
    {
        let account = Account::new();
        State {
            account: account,
            held: [0; 27],
            count: 0,
        }
    }

    // Whether the state is inside the ranges.
    pub fn in_range(self) -> bool
        ensures { result ≡ in_range self }
    {
        let a = self.account;
        let held = self.held;
        let n = self.count;
        if 27 < n {
            return false;
        }
        if !a.in_range() {
            return false;
        }
        if !zeroed(held, n) {
            return false;
        }
        match front_of(&held, n) {
            Front::Unfinished => (a.stage < 2) | (n == 0),
            _ => false,
        }
    }

    // The same, its account moved field by field.
    fn by_fields(self) -> State
        ensures { result ≡ self }
    {
        let a = self.account;
        let account = a.by_fields();
        let held = self.held;
        State {
            account: account,
            held: held,
            count: self.count,
        }
    }

    // Refusal 13: nothing taken, nothing written, and the state as it came.
    fn outside(self) -> Fed
        ensures { result ≡ fed_of (outside self) }
    {
        let refusal = Refusal {
            code: 13,
            accepted: 0,
            field: 0,
        };
        let same = self.by_fields();
        Fed {
            state: same,
            taken: 0,
            written: 0,
            answer: Answer::Refused(refusal),
        }
    }

    // The answer to n bytes, with so many taken and written.
    fn fed(self, taken: usize, written: usize, n: usize) -> Fed
        ensures { result ≡ fed self taken written n }
    {
        let same = self.by_fields();
        let a = same.account;
        let answer = answered(a, taken, n);
        Fed {
            state: same,
            taken: taken,
            written: written,
            answer: answer,
        }
    }

    // The bytes of rest are held too.
    fn hold_more(self, rest: &[u8]) -> State
        requires { InRange self × (self.count + length rest.now ≤ 27) }
        ensures { result ≡ holding self.account (held_of self ++ rest.now) }
    {
        let before = self.held;
        let held = put_behind(before, self.count, rest);
        let a = self.account;
        let account = a.by_fields();
        State {
            account: account,
            held: held,
            count: self.count + rest.len(),
        }
    }

    // One call: it takes the longest beginning of the input whose lines fit out.
    pub fn feed(mut self, input: &[u8], out: &mut [u8]) -> Fed
        ensures result { result ≡ fed_of (call self input.now (length out.old)) }
        ensures lines { out.new ≡ lines_laid (call self input.now (length out.old)) out.old }
        ensures counts { (result.taken ≤ length input.now) × (result.written ≤ length out.old) }
    {
        if !self.in_range() {
            return self.outside();
        }
        let mut i = 0;
        let mut w = 0;
        // A cursor and no count: each turn takes as many bytes as it can.
        while i < input.len() {
            let a = self.account;
            if 2 <= a.stage {
                return self.fed(i, w, input.len());
            }
            // Most small calls end here: a turn costs more than holding the bytes.
            let rest = rest_of(input, i);
            let held = self.held;
            if unfinished(held, self.count, rest) {
                let longer = self.hold_more(rest);
                return longer.fed(input.len(), w, input.len());
            }
            let t = self.next(input, i, &mut out[w..]);
            self = t.state;
            w += t.written;
            i += t.taken;
            if t.full {
                return self.fed(i, w, input.len());
            }
        }
        self.fed(i, w, input.len())
    }
}
