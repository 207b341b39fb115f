// Pairs of records, one of either book: how many are the same at the beginning and at the end, and how many of them give other lines.
ghost use Rattle.std.specs.Prelude.{◌≡◌, ◌+◌, ◌≤◌, ◌<◌, length, take};
ghost use Rattle.base.specs.Choice.{pick};
ghost use Rattle.account.specs.Range.{AccountInRange};
ghost use Rattle.compare.specs.Records.{same};
ghost use Rattle.compare.specs.Places.{left_of};
ghost use Rattle.compare.specs.Plans.{one_more_lem, runs_of};
ghost use Rattle.compare.specs.Inner.{Valid};
ghost use Rattle.compare.specs.InnerPairs.{Looked, CountsIn};

use crate::places::{Place, turn};
use crate::records::same;
use account::Account;
use base::{first_of, rest_of};
use line_bytes::LINES_MOST;

// How many pairs there are, how many of the first and of the last ones are the same, and how many of these and of all that are the same give
// other lines.
#[derive(Clone, Copy)]
pub struct Counts {
    pub pairs: usize,
    pub leading: usize,
    pub trailing: usize,
    pub first: usize,
    pub last: usize,
    pub others: usize,
}

// The next pair: the bytes of either record, the accounts after them, and whether the records and their lines are the same.
#[derive(Clone, Copy)]
pub struct Pair {
    pub old: usize,
    pub new: usize,
    pub a: Account,
    pub b: Account,
    pub records: bool,
    pub lines: bool,
}

// Whether the first n bytes of xs and the first m of ys are the same.
fn alike(xs: &[u8], n: usize, ys: &[u8], m: usize) -> bool
    requires { (n ≤ length xs.now) × (m ≤ length ys.now) }
    ensures { result ≡ same (take n xs.now) (take m ys.now) }
{
    same(first_of(xs, n), first_of(ys, m))
}

// The next pair of records of xs and ys; no bytes of the first where either has no more.
pub(crate) fn look(a: Account, xs: &[u8], b: Account, ys: &[u8]) -> Pair
    requires { AccountInRange a × AccountInRange b }
    ensures { Looked a b xs.now ys.now result }
{
    let mut left = [0u8; LINES_MOST];
    let mut right = [0u8; LINES_MOST];
    let t = turn(a, xs, &mut left);
    let u = turn(b, ys, &mut right);
    if (t.n == 0) | (u.n == 0) {
        return Pair {
            old: 0,
            new: 0,
            a: a,
            b: b,
            records: false,
            lines: false,
        };
    }
    let records = alike(xs, t.n, ys, u.n);
    let lines = alike(&left, t.written, &right, u.written);
    let next = t.next;
    let other = u.next;
    Pair {
        old: t.n,
        new: u.n,
        a: next,
        b: other,
        records: records,
        lines: lines,
    }
}

// One more where it is so.
pub(crate) fn one_if(b: bool, n: usize) -> usize
    requires { n < 18446744073709551615 }
    ensures { result ≡ pick b (n + 1) n }
{
    if b { n + 1 } else { n }
}

// As many where it is so, else none.
fn kept(b: bool, n: usize) -> usize
    ensures value { result ≡ pick b n 0 }
    ensures most { result ≤ n }
{
    if b { n } else { 0 }
}

// One pair more.
fn one_more(u: Counts, records: bool, lines: bool) -> Counts
    requires { CountsIn u 18446744073709551614 }
    ensures { result ≡ one_more_lem u records lines }
{
    let lead = records & (u.leading == u.pairs);
    let leading = one_if(lead, u.leading);
    let trailing = one_if(records, kept(records, u.trailing));
    let first = one_if(lead & !lines, u.first);
    let last = one_if(records & !lines, kept(records, u.last));
    let others = one_if(records & !lines, u.others);
    Counts {
        pairs: u.pairs + 1,
        leading: leading,
        trailing: trailing,
        first: first,
        last: last,
        others: others,
    }
}

// At most so many pairs of records after two places, up to the end of either book.
pub(crate) fn runs(old: &[u8], p: Place, new: &[u8], q: Place, many: usize) -> Counts
    requires { Valid old.now p × Valid new.now q }
    ensures { result ≡ runs_of (take many (left_of old.now p)) (take many (left_of new.now q)) }
{
    let mut a = p.account;
    let mut b = q.account;
    let mut at = p.at;
    let mut to = q.at;
    let mut u = Counts {
        pairs: 0,
        leading: 0,
        trailing: 0,
        first: 0,
        last: 0,
        others: 0,
    };
    for _k in 0..many {
        let l = look(a, rest_of(old, at), b, rest_of(new, to));
        if l.old == 0 {
            return u;
        }
        u = one_more(u, l.records, l.lines);
        a = l.a;
        b = l.b;
        at += l.old;
        to += l.new;
    }
    u
}
