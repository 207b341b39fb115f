// What the figures of the page are: sums over the accepted records, by kind, and the figures of a group.
ghost use Rattle.std.specs.Prelude.{◌≡◌, ◌*◌, ◌^◌, ◌≤◌, length, ◌==◌};
ghost use Rattle.account.specs.Range.{AccountInRange};
ghost use Rattle.page.specs.Figures.{warmed, group_step, group_of, with_record, sum_of, SumIn, last_of, source_of, sources_of, survey_of};
ghost use Rattle.base.specs.Choice.{pick};
ghost use Rattle.grams.specs.Units.{co2_word};
ghost use Rattle.account.specs.Judge.{kind_byte};
ghost use Rattle.account.specs.Line.{co2e_in};
ghost use Rattle.page.specs.Figures.{name_of, SumsRise, source_by, survey_with};
ghost use Rattle.page.specs.Page.{ends_group};

use crate::bars::LOWEST_STEP;
use crate::{Group, Named, Source, Sources, Sum, Survey};
use account::{Account, Farm, Figures};
use base::rest_of;
use codec::kinds::{CATTLE, CLOSE, ENERGY, ENTERIC, GRAZING, HEADING, PIG, SOIL, TILLAGE};
use grams::farm::{Factors, co2e};
use grams::units::{Grazed, N2o, NO_CO2};
use walk::next_alone;

// The account after the accepted records of a book, and what those of a kind add to its sums.
#[derive(Clone, Copy)]
struct Gathered {
    account: Account,
    sum: Sum,
}

const NO_SUM: Sum = Sum {
    seen: false,
    ch4: 0,
    n2o: 0,
    co2: 0,
    grazing: 0,
};

// CO2e of CH4, N2O and grazing, by the farm's factors.
fn warmed(f: Farm, ch4: u64, n2o: u64, grazing: u64) -> u64
    requires { (f.ch4 ≤ 1000) × (f.n2o ≤ 1000) × (ch4 ≤ 4096 * 10 ^ 11) × (n2o ≤ 4096 * 10 ^ 10) × (grazing ≤ 4096 * 10 ^ 11) }
    ensures { result ≡ warmed f ch4 n2o grazing }
{
    let w = Factors {
        ch4: f.ch4,
        n2o: f.n2o,
    };
    co2e(w, NO_CO2, ch4, N2o::of(n2o), Grazed::of(grazing)).word()
}

// The step that the groups have come to.
pub(crate) fn group_step(a: Account) -> u64
    requires { AccountInRange a }
    ensures { result ≡ group_step a }
{
    let f = a.sums;
    let n2o = f.n2o.grams();
    let grazing = f.grazing.grams();
    let farm = a.farm;
    LOWEST_STEP.wrapping_add(warmed(farm, f.ch4, n2o, grazing))
}

// Whether a record of the kind ends a group.
pub(crate) fn is_ended(a: Account, kind: u64) -> bool
    ensures { result ≡ ends_group a kind }
{
    let h = a.heading;
    ((kind == HEADING) | (kind == CLOSE)) & (h.group != 0)
}

// A group, before the record that ends it.
pub(crate) fn group_of(a: Account, from: u64, grazed: u64) -> Group
    requires { AccountInRange a }
    ensures { result ≡ group_of a from grazed }
{
    let h = a.heading;
    let s = a.subtotal;
    let n2o = s.n2o.grams();
    let all = a.sums.grazing.grams();
    let grazing = all.saturating_sub(grazed);
    let farm = a.farm;
    let co2e = warmed(farm, s.ch4, n2o, grazing);
    let to = group_step(a);
    Group {
        group: u64::from(h.group),
        class: u64::from(h.class),
        head: u64::from(h.head),
        excreted: s.excreted,
        land: s.land,
        ch4: s.ch4,
        n2o,
        grazing,
        co2e,
        from,
        to,
    }
}

// A sum with a record that leads from the sums f to the sums g.
fn with_record(s: Sum, f: Figures, g: Figures) -> Sum
    requires { SumIn s f × SumsRise f g }
    ensures { result ≡ with_record s f g }
{
    let co2 = g.co2.word().wrapping_sub(f.co2.word());
    Sum {
        seen: true,
        ch4: s.ch4 + (g.ch4 - f.ch4),
        n2o: s.n2o + (g.n2o.grams() - f.n2o.grams()),
        co2: s.co2.wrapping_add(co2),
        grazing: s.grazing + (g.grazing.grams() - f.grazing.grams()),
    }
}

// The same where the record is of the kind.
fn add_kind(s: Sum, f: Figures, g: Figures, found: u64, kind: u64) -> Sum
    requires { SumIn s f × SumsRise f g }
    ensures { (result ≡ pick (found == kind) (with_record s f g) s) × SumIn result g }
{
    if found == kind {
        return with_record(s, f, g);
    }
    s
}

// The kind of the record at the front.
pub(crate) fn kind_of(r: &[u8]) -> u64
    requires { 4 ≤ length r.now }
    ensures { result ≡ kind_byte r.now }
{
    u64::from(r[3])
}

// The account after the accepted records of a book, and what those of a kind add to its sums.
fn gather(book: &[u8], kind: u64) -> Gathered
    ensures account_value { (result.account ≡ last_of book.now) × (result.sum ≡ sum_of kind book.now) }
    ensures account_in_range { AccountInRange result.account × SumIn result.sum result.account.sums }
{
    let mut a = Account::new();
    let mut s = NO_SUM;
    let mut at = 0;
    // A cursor and no count: each record has a length of its own.
    while at < book.len() {
        let rest = rest_of(book, at);
        let t = next_alone(a, rest);
        let after = t.account;
        if (t.size == 0) | (after.stage == 3) {
            return Gathered { account: a, sum: s };
        }
        let found = kind_of(rest);
        let f = a.sums;
        let g = after.sums;
        s = add_kind(s, f, g, found, kind);
        a = after;
        at += t.size;
    }
    Gathered { account: a, sum: s }
}

// A source, whose bar begins at a step.
fn of_kind(book: &[u8], kind: u64, from: u64) -> Source
    ensures { result ≡ source_of kind book.now from }
{
    let g = gather(book, kind);
    let s = g.sum;
    let a = g.account;
    let farm = a.farm;
    let gases = warmed(farm, s.ch4, s.n2o, s.grazing);
    let co2e = gases.wrapping_add(s.co2);
    let to = from.wrapping_add(co2e);
    Source {
        seen: s.seen,
        ch4: s.ch4,
        n2o: s.n2o,
        co2: s.co2,
        co2e,
        from,
        to,
    }
}

// All sources, in the order of the table.
fn all_sources(book: &[u8]) -> Sources
    ensures { result ≡ sources_of book.now }
{
    let enteric = of_kind(book, ENTERIC, LOWEST_STEP);
    let cattle = of_kind(book, CATTLE, enteric.to);
    let pig = of_kind(book, PIG, cattle.to);
    let grazing = of_kind(book, GRAZING, pig.to);
    let energy = of_kind(book, ENERGY, grazing.to);
    let soil = of_kind(book, SOIL, energy.to);
    let tillage = of_kind(book, TILLAGE, soil.to);
    Sources {
        enteric,
        cattle,
        pig,
        grazing,
        energy,
        soil,
        tillage,
    }
}

// CO2e of the sums.
fn total(a: Account) -> u64
    requires { AccountInRange a }
    ensures { result ≡ co2_word (co2e_in a) }
{
    let w = Factors {
        ch4: a.farm.ch4,
        n2o: a.farm.n2o,
    };
    let f = a.sums;
    let n2o = f.n2o;
    let co2 = f.co2;
    let grazing = f.grazing;
    co2e(w, co2, f.ch4, n2o, grazing).word()
}

// The farm's number and year, where they are known.
fn name_of(a: Account, book: &[u8]) -> Option<Named>
    ensures { result ≡ name_of a book.now }
{
    if (a.records == 0) | (book.len() < 11) {
        return None;
    }
    let v = values::farm::read(book, 4);
    Some(Named {
        farm: v[0],
        year: v[1],
    })
}

// All figures of the page but those of the groups, after the last accepted record.
fn by_account(a: Account, name: Option<Named>, sources: Sources) -> Survey
    requires { AccountInRange a }
    ensures { result ≡ survey_with a name sources }
{
    let f = a.sums;
    let farm = a.farm;
    let n2o = f.n2o.grams();
    let co2 = f.co2.word();
    let grazing = f.grazing.grams();
    let methane = warmed(farm, f.ch4, 0, 0);
    let oxide = warmed(farm, 0, n2o, 0);
    let groups = group_step(a);
    let total = total(a);
    Survey {
        closed: a.stage == 2,
        name,
        records: u64::from(a.records),
        a: u64::from(a.farm.ch4),
        b: u64::from(a.farm.n2o),
        ch4: f.ch4,
        n2o,
        co2,
        excreted: f.excreted,
        land: f.land,
        grazing,
        methane,
        oxide,
        total,
        groups,
        sources,
    }
}

// All figures of the page but those of the groups.
pub(crate) fn all(book: &[u8]) -> Survey
    ensures { result ≡ survey_of book.now }
{
    let g = gather(book, 0);
    let a = g.account;
    let n = name_of(a, book);
    let s = all_sources(book);
    by_account(a, n, s)
}
