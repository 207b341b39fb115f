// Runs of records that are the same details in another order. Each record of the one takes its partner in the other. One that finds none is counted
// in both; only where that leaves the answer open, each is.
ghost use Rattle.std.specs.Prelude.{◌≡◌, ◌-◌, ◌≤◌, length, take};
ghost use Rattle.book.specs.WholeRecords.{records_of};
ghost use Rattle.compare.specs.Inner.{Valid};
ghost use Rattle.compare.specs.InnerMoved.{Noted};
ghost use Rattle.compare.specs.Places.{left_of};
ghost use Rattle.compare.specs.Moved.{times_in, as_often, each_as_often, same_details};
ghost use Rattle.compare.specs.Plans.{moved_of};

use crate::partners::{LINKS, RECORDS, note_places, take_partner};
use crate::places::{Place, reach};
use crate::plans::between;
use crate::records::{detail, same};
use crate::runs::one_if;
use base::{first_of, rest_of};
use book::front::ready;

// How often the record r stands among the first many records of xs.
pub(crate) fn times(r: &[u8], xs: &[u8], many: usize) -> usize
    ensures { result ≡ times_in r.now (take many (records_of xs.now)) }
{
    let mut at = 0;
    let mut n = 0;
    for _i in 0..many {
        let rest = rest_of(xs, at);
        let size = ready(rest);
        if size == 0 {
            return n;
        }
        n = one_if(same(r, first_of(rest, size)), n);
        at += size;
    }
    n
}

// Whether the record r is a detail and stands as often among the first m records of xs as among the first n of ys.
fn as_often(r: &[u8], xs: &[u8], m: usize, ys: &[u8], n: usize) -> bool
    requires { 4 ≤ length r.now }
    ensures { result ≡ as_often (take m (records_of xs.now)) (take n (records_of ys.now)) r.now }
{
    if !detail(r) {
        return false;
    }
    times(r, xs, m) == times(r, ys, n)
}

// Whether each of the first m records of xs does.
fn all_as_often(xs: &[u8], m: usize, ys: &[u8], n: usize) -> bool
    ensures { result ≡ each_as_often (take m (records_of xs.now)) (take n (records_of ys.now)) }
{
    let mut at = 0;
    for _i in 0..m {
        let rest = rest_of(xs, at);
        let size = ready(rest);
        if size == 0 {
            return true;
        }
        if !as_often(first_of(rest, size), xs, m, ys, n) {
            return false;
        }
        at += size;
    }
    true
}

// Whether the first m records of xs and the first n of ys are the same details, each counted in both.
fn counted(xs: &[u8], m: usize, ys: &[u8], n: usize) -> bool
    ensures { result ≡ same_details (take m (records_of xs.now)) (take n (records_of ys.now)) }
{
    if !all_as_often(xs, m, ys, n) {
        return false;
    }
    all_as_often(ys, n, xs, m)
}

// The same, where the first m places are those of the n records of ys: each record of xs takes its partner out of them. One that finds none is
// counted first.
fn by_partners(
    xs: &[u8],
    m: usize,
    ys: &[u8],
    n: usize,
    places: &mut [usize],
    links: &mut [u16],
) -> bool
    requires { Noted ys.now n places.old m × (length links.old ≡ 8192) }
    ensures { result ≡ same_details (take m (records_of xs.now)) (take n (records_of ys.now)) }
{
    let mut at = 0;
    for _i in 0..m {
        let rest = rest_of(xs, at);
        let size = ready(rest);
        if size == 0 {
            return counted(xs, m, ys, n);
        }
        let r = first_of(rest, size);
        if !take_partner(r, ys, m, places, links) {
            if !as_often(r, xs, m, ys, n) {
                return false;
            }
            return counted(xs, m, ys, n);
        }
        at += size;
    }
    true
}

// Whether the first m records of xs and the first n of ys are the same details.
fn same_details(xs: &[u8], m: usize, ys: &[u8], n: usize) -> bool
    ensures { result ≡ same_details (take m (records_of xs.now)) (take n (records_of ys.now)) }
{
    if RECORDS < n {
        return counted(xs, m, ys, n);
    }
    let mut places = [0usize; RECORDS];
    let mut links = [u16::MAX; LINKS];
    let many = note_places(ys, n, &mut places, &mut links);
    if many != m {
        return counted(xs, m, ys, n);
    }
    by_partners(xs, m, ys, n, &mut places, &mut links)
}

// Whether the records between the first and the last ones, of the n after a place and of the m after another, are the same details in another order.
pub(crate) fn moved(
    old: &[u8],
    p: Place,
    n: usize,
    new: &[u8],
    q: Place,
    m: usize,
    front: usize,
    back: usize,
) -> bool
    requires valid { Valid old.now p × Valid new.now q }
    requires n_in_bounds { (n ≤ length (left_of old.now p)) × (m ≤ length (left_of new.now q)) }
    ensures { result ≡ moved_of front back (take n (left_of old.now p)) (take m (left_of new.now q)) }
{
    let o = between(n, front, back);
    if o == 0 {
        return false;
    }
    if n != m {
        return false;
    }
    let c = reach(old, p, front);
    let d = reach(new, q, front);
    same_details(
        rest_of(old, c.at),
        o,
        rest_of(new, d.at),
        between(m, front, back),
    )
}
