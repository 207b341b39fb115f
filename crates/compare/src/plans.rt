// Two runs of records, one of either book, compared.
ghost use Rattle.std.specs.Prelude.{◌≡◌, ◌+◌, ◌-◌, ◌≤◌, length, take, drop};
ghost use Rattle.base.specs.Choice.{pick};
ghost use Rattle.compare.specs.Inner.{Valid};
ghost use Rattle.compare.specs.Places.{left_of};
ghost use Rattle.compare.specs.Plans.{runs_of, plan_of, old_told, new_told, moved_many};

use crate::moved::moved;
use crate::places::{Place, reach};
use crate::runs::{Counts, runs};
use base::least;

// The records of either book; how many of them are the same at the beginning and at the end; whether those between are the same details in another
// order, or go one by one; and how many are the same and give other lines.
#[derive(Clone, Copy)]
pub struct Plan {
    pub old: usize,
    pub new: usize,
    pub front: usize,
    pub back: usize,
    pub moved: bool,
    pub paired: bool,
    pub others: usize,
}

// How many records of n stand between the first and the last ones.
pub(crate) fn between(n: usize, front: usize, back: usize) -> usize
    ensures { result ≡ n - front - back }
{
    n.saturating_sub(front).saturating_sub(back)
}

// The last so many of the n records after a place and of the m after another, in pairs.
fn back_runs(old: &[u8], p: Place, n: usize, new: &[u8], q: Place, m: usize, most: usize) -> Counts
    requires valid { Valid old.now p × Valid new.now q }
    requires n_in_bounds { (n ≤ length (left_of old.now p)) × (m ≤ length (left_of new.now q)) × (most ≤ n) × (most ≤ m) }
    ensures { result ≡ runs_of (drop (n - most) (take n (left_of old.now p))) (drop (m - most) (take m (left_of new.now q))) }
{
    let s = reach(old, p, n - most);
    let t = reach(new, q, m - most);
    runs(old, s, new, t, most)
}

// How many are the same and give other lines.
fn others_of(paired: bool, r: Counts, s: Counts) -> usize
    requires { r.first + s.last ≤ 18446744073709551615 }
    ensures { result ≡ pick paired r.others (r.first + s.last) }
{
    if paired {
        return r.others;
    }
    r.first + s.last
}

// The n records after a place of the old book and the m after a place of the new one.
pub(crate) fn planned(old: &[u8], p: Place, n: usize, new: &[u8], q: Place, m: usize) -> Plan
    requires valid { Valid old.now p × Valid new.now q }
    requires n_in_bounds { (n ≤ length (left_of old.now p)) × (m ≤ length (left_of new.now q)) }
    ensures { result ≡ plan_of (take n (left_of old.now p)) (take m (left_of new.now q)) }
{
    let least = least(n, m);
    let first = runs(old, p, new, q, least);
    let last = back_runs(old, p, n, new, q, m, least - first.leading);
    let front = first.leading;
    let back = last.trailing;
    let same = moved(old, p, n, new, q, m, front, back);
    let paired = !same & (n == m);
    let others = others_of(paired, first, last);
    Plan {
        old: n,
        new: m,
        front: front,
        back: back,
        moved: same,
        paired: paired,
        others: others,
    }
}

// How many records of either book are told, and how many are only in another order.
pub(crate) fn old_told(p: Plan) -> usize
    ensures { result ≡ old_told p }
{
    if p.moved {
        return 0;
    }
    between(p.old, p.front, p.back)
}

pub(crate) fn new_told(p: Plan) -> usize
    ensures { result ≡ new_told p }
{
    if p.moved {
        return 0;
    }
    between(p.new, p.front, p.back)
}

pub(crate) fn moved_many(p: Plan) -> usize
    ensures { result ≡ moved_many p }
{
    if !p.moved {
        return 0;
    }
    between(p.old, p.front, p.back)
}
