// The member's page of a book: one total, and three tables that each end in it; of a book that is not closed, why there are no figures.
#![tactic(auto)]

mod bars; // bars.rt: the cascade
mod sums; // sums.rt: what the figures are
mod gases; // gases.rt: the table of the gases
mod head; // head.rt: head, total, head of the groups
mod notice; // notice.rt: the page of a book that is not closed
mod rest; // rest.rt: what stands below the groups
mod rows; // rows.rt: a group's row
mod by_source; // by_source.rt: the table of the sources
mod style; // style.rt: type, colours and sizes
mod text; // text.rt: kilograms and cells

ghost use Rattle.std.specs.Prelude.{◌≡◌, ◌+◌, ◌≤◌, length};
ghost use Rattle.printing.specs.Said.{Said};
ghost use Rattle.printing.specs.Says.{Says};
ghost use Rattle.account.specs.Range.{AccountInRange};
ghost use Rattle.page.specs.Figures.{survey_of, group_scale};
ghost use Rattle.page.specs.Page.{is_refused, first_text, last_text, no_place, row_by, stopped_at, moved_by, place_after, row_at};

use crate::bars::{LOWEST_STEP, group_scale};
use crate::sums::{group_of, group_step, is_ended, kind_of};
use account::Account;
use base::rest_of;
use codec::kinds::HEADING;
use printing::text::Text;
use walk::next_alone;
use why::Verdict;

// What the records of a kind add to the sums: whether there is one, grams of each gas, the word of CO2, and CO2e of grazing.
// `seen` guards no value, so there is no Option: the sums of no records are zero, and page_sums adds them up as they are.
#[derive(Clone, Copy)]
pub struct Sum {
    pub seen: bool,
    pub ch4: u64,
    pub n2o: u64,
    pub co2: u64,
    pub grazing: u64,
}

// A row of the sources: grams, of CO2 and CO2e the words of signed grams; and the steps between which its bar stands.
#[derive(Clone, Copy)]
pub struct Source {
    pub seen: bool,
    pub ch4: u64,
    pub n2o: u64,
    pub co2: u64,
    pub co2e: u64,
    pub from: u64,
    pub to: u64,
}

// The rows of the sources, in the order of the table.
#[derive(Clone, Copy)]
pub struct Sources {
    pub enteric: Source,
    pub cattle: Source,
    pub pig: Source,
    pub grazing: Source,
    pub energy: Source,
    pub soil: Source,
    pub tillage: Source,
}

// A row of the groups.
#[derive(Clone, Copy)]
pub struct Group {
    pub group: u64,
    pub class: u64,
    pub head: u64,
    pub excreted: u64,
    pub land: u64,
    pub ch4: u64,
    pub n2o: u64,
    pub grazing: u64,
    pub co2e: u64,
    pub from: u64,
    pub to: u64,
}

// The lowest step of a cascade, and what a thousandth of its way stands for.
#[derive(Clone, Copy)]
pub struct Scale {
    pub lo: u64,
    pub unit: u64,
}

// A farm's number and the year of its book.
#[derive(Clone, Copy)]
pub struct Named {
    pub farm: u64,
    pub year: u64,
}

// All figures of the page but those of the groups: whether the book is closed; the farm and the year, where they are known; the accepted records; the
// factors of CH4 and N2O; the total's figures; CO2e of its CH4 and N2O, and of all; the step that the groups come to; the sources.
#[derive(Clone, Copy)]
pub struct Survey {
    pub closed: bool,
    pub name: Option<Named>,
    pub records: u64,
    pub a: u64,
    pub b: u64,
    pub ch4: u64,
    pub n2o: u64,
    pub co2: u64,
    pub excreted: u64,
    pub land: u64,
    pub grazing: u64,
    pub methane: u64,
    pub oxide: u64,
    pub total: u64,
    pub groups: u64,
    pub sources: Sources,
}

// How far the rows of the groups have come: the account after the records so far and the byte after them; the step and grazing's sum at the last
// heading; and whether there may be more. The flag is no Option of the place: `rows_by` and the theorem `page-in-parts` go on from the last one too.
#[derive(Clone, Copy)]
pub struct Place {
    pub account: Account,
    pub at: usize,
    pub from: u64,
    pub grazed: u64,
    pub more: bool,
}

// The place after a record, and the end of the row in the buffer.
#[derive(Clone, Copy)]
pub struct Row {
    pub place: Place,
    pub written: usize,
}

// All figures of the page but those of the groups.
pub fn figures(book: &[u8]) -> Survey
    ensures { result ≡ survey_of book.now }
{
    sums::all(book)
}

// Whether a book is refused, rather than unfinished.
fn refused(v: Verdict) -> bool
    ensures { result ≡ is_refused v }
{
    matches!(v, Verdict::Refused(_))
}

fn tell_first(text: &mut Text, s: Survey, v: Verdict)
    ensures { Says text.old text.new (first_text s v) }
{
    if s.closed {
        head::say_top(text, s);
        return;
    }
    notice::say_before(text, s, refused(v));
}

// The page up to the rows of its groups, or to why there are none, from the start of out.
pub fn say_first(out: &mut [u8], s: Survey, v: Verdict) -> usize
    ensures { Said out.old out.new 0 (first_text s v) result }
{
    let mut text = Text::new(out);
    tell_first(&mut text, s, v);
    text.len
}

fn tell_last(text: &mut Text, s: Survey, v: Verdict)
    ensures { Says text.old text.new (last_text s v) }
{
    if s.closed {
        rest::say_rest(text, s);
        return;
    }
    notice::say_after(text, s, refused(v));
}

// The page after them.
pub fn say_last(out: &mut [u8], s: Survey, v: Verdict) -> usize
    ensures { Said out.old out.new 0 (last_text s v) result }
{
    let mut text = Text::new(out);
    tell_last(&mut text, s, v);
    text.len
}

// Before the first record.
pub fn start() -> Place
    ensures { result ≡ no_place }
{
    Place {
        account: Account::new(),
        at: 0,
        from: LOWEST_STEP,
        grazed: 0,
        more: true,
    }
}

fn tell_row(text: &mut Text, p: Place, kind: u64, s: Survey)
    requires { AccountInRange p.account }
    ensures { Says text.old text.new (row_by (group_scale s) p.from p.grazed p.account kind) }
{
    let a = p.account;
    if !is_ended(a, kind) {
        return;
    }
    let sc = group_scale(s);
    let g = group_of(a, p.from, p.grazed);
    rows::say_group(text, sc, g);
}

// The row of the group that a record of the kind ends, where it ends one.
fn say_row(out: &mut [u8], p: Place, kind: u64, s: Survey) -> usize
    requires { AccountInRange p.account }
    ensures { Said out.old out.new 0 (row_by (group_scale s) p.from p.grazed p.account kind) result }
{
    let mut text = Text::new(out);
    tell_row(&mut text, p, kind, s);
    text.len
}

// The same place, after which nothing comes.
fn stopped(p: Place) -> Row
    ensures { (result.place ≡ stopped_at p) × (result.written ≡ 0) }
{
    Row {
        place: Place { more: false, ..p },
        written: 0,
    }
}

// The place after a record of the kind, which has so many bytes and leaves the account after it.
fn moved(p: Place, kind: u64, after: Account, size: usize) -> Place
    requires { AccountInRange p.account × (p.at + size ≤ 18446744073709551615) }
    ensures { result ≡ moved_by p kind after size }
{
    let next = Place {
        account: after,
        at: p.at + size,
        more: true,
        ..p
    };
    if kind != HEADING {
        return next;
    }
    Place {
        from: group_step(p.account),
        grazed: p.account.sums.grazing.grams(),
        ..next
    }
}

// The next record at a place: the place after it, and the row of the group that it ends, from the start of out. A place of no book has none.
pub fn next_row(book: &[u8], p: Place, s: Survey, out: &mut [u8]) -> Row
    ensures place_value { result.place ≡ place_after p book.now }
    ensures said { Said out.old out.new 0 (row_at (group_scale s) p book.now) result.written }
{
    let a = p.account;
    if !a.in_range() | (book.len() < p.at) {
        return stopped(p);
    }
    let rest = rest_of(book, p.at);
    let t = next_alone(a, rest);
    let after = t.account;
    if (t.size == 0) | (after.stage == 3) {
        return stopped(p);
    }
    let kind = kind_of(rest);
    let n = say_row(out, p, kind, s);
    Row {
        place: moved(p, kind, after, t.size),
        written: n,
    }
}
