// A partner for each record of a run: the same record of another run, and for no other one. A table has the places where the records of that run
// begin. Links lead from record to record to those that may be the same. A link decides nothing: what it leads to is looked at.
ghost use Rattle.std.specs.Prelude.{◌≡◌, ◌≤◌, ◌<◌, length, IfSome};
ghost use Rattle.compare.specs.InnerMoved.{stands_at, LeadsTo, Noted, Takes};

use crate::moved::times;
use crate::records::detail;
use base::{first_of, rest_of};
use book::front::ready;

// A book has no more records.
pub(crate) const RECORDS: usize = 4096;

// A link for each record, and after them as many first links. A link above all records is none: an Option in each would double the fixed memory.
pub(crate) const LINKS: usize = 8192;

// The first link for a record, by its bytes. 2531 spreads records that differ by little.
fn first_link(r: &[u8]) -> usize
    ensures { result < 8192 }
{
    let mut k = 0;
    for byte in r {
        k = (k * 2531 + *byte as usize) % RECORDS;
    }
    RECORDS + k
}

// Whether the record r begins at a place of ys.
fn stands_at(r: &[u8], ys: &[u8], at: usize) -> bool
    ensures { result ≡ stands_at r.now ys.now at }
{
    if ys.len() < at {
        return false;
    }
    times(r, rest_of(ys, at), 1) == 1
}

// The link that leads to one of the places where a record of ys is the same as r. None: no link was found, and perhaps there is one.
fn link_to(r: &[u8], ys: &[u8], places: &[usize], links: &[u16]) -> Option<usize>
    requires { (length places.now ≤ 4096) × (length links.now ≡ 8192) }
    ensures { IfSome result (λ link. LeadsTo r.now ys.now places.now links.now link) }
{
    let mut link = first_link(r);
    for _ in 0..places.len() {
        let j = links[link] as usize;
        if places.len() <= j {
            return None;
        }
        if stands_at(r, ys, places[j]) {
            return Some(link);
        }
        link = j;
    }
    None
}

// Takes a partner for r out of the first many places, and its link goes on past it. False where r is no detail, or no partner was found.
pub(crate) fn take_partner(
    r: &[u8],
    ys: &[u8],
    many: usize,
    places: &mut [usize],
    links: &mut [u16],
) -> bool
    requires { (4 ≤ length r.now) × (many ≤ 4096) × (length places.old ≡ 4096) × (length links.old ≡ 8192) }
    ensures { Takes r.now ys.now many places.old places.new result }
{
    if !detail(r) {
        return false;
    }
    match link_to(r, ys, &places[..many], links) {
        Some(link) => {
            let j = links[link] as usize;
            places[j] = ys.len();
            links[link] = links[j];
            true
        }
        None => false,
    }
}

// A first link leads to record i, whose bytes are r, and from there on to where it led before: a hint.
fn add_link(links: &mut [u16], r: &[u8], i: usize)
    requires { (i < 4096) × (length links.old ≡ 8192) }
{
    let first = first_link(r);
    links[i] = links[first];
    links[first] = i as u16;
}

// Notes the places of the first n records of ys, with a link to each, and gives their number.
pub(crate) fn note_places(ys: &[u8], n: usize, places: &mut [usize], links: &mut [u16]) -> usize
    requires { (n ≤ 4096) × (length places.old ≡ 4096) × (length links.old ≡ 8192) }
    ensures { Noted ys.now n places.new result }
{
    let mut at = 0;
    for i in 0..n {
        let rest = rest_of(ys, at);
        let size = ready(rest);
        if size == 0 {
            return i;
        }
        add_link(links, first_of(rest, size), i);
        places[i] = at;
        at += size;
    }
    n
}
