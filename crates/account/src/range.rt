// The test of an account's ranges, clause by clause.
ghost use Rattle.std.specs.Prelude.{◌≡◌};
ghost use Rattle.account.specs.Range.{counted_test, factor_test, started_test, used_test, unused_test, headed_test, unheaded_test, grouped_test};
ghost use Rattle.account.specs.Range.{ungrouped_test, under_test, bounded_test, numbered_test, unrefused_test, ended_test, account_in_range};

use crate::{Account, Figures, Heading, Refusal, Subtotal, Used};

fn counted(stage: u8, records: u16) -> bool
    ensures { result ≡ counted_test stage records }
{
    (stage <= 3)
        & (records <= 4096)
        & (!(stage == 0) | (records == 0))
        & (!(stage == 1) | (1 <= records))
        & (!(stage == 2) | (2 <= records))
}

fn factor_in(factor: u16, records: u16) -> bool
    ensures { result ≡ factor_test factor records }
{
    (factor <= 1000) & (!(factor == 0) | (records == 0)) & (!(records == 0) | (factor == 0))
}

fn used_in(u: Used) -> bool
    ensures { result ≡ used_test u }
{
    (u.enteric <= 366) & (u.nitrogen <= 366) & (u.pig <= 366) & (u.grazed <= 10000)
}

fn unused(u: Used) -> bool
    ensures { result ≡ unused_test u }
{
    (u.enteric == 0) & (u.nitrogen == 0) & (u.pig == 0) & (u.grazed == 0)
}

fn headed(h: Heading, u: Used, records: u16) -> bool
    ensures { result ≡ headed_test h u records }
{
    (1 <= h.group)
        & (h.group <= 65535)
        & (1 <= h.class)
        & (h.class <= 4)
        & (h.head <= 20000)
        & (2 <= records)
        & used_in(u)
}

fn unheaded(h: Heading, u: Used) -> bool
    ensures { result ≡ unheaded_test h u }
{
    (h.group == 0) & (h.class == 0) & (h.head == 0) & unused(u)
}

fn bounded(f: Figures, records: u16) -> bool
    ensures { result ≡ bounded_test f records }
{
    let n = records as u64;
    (f.ch4 <= n * 100000000000)
        & (f.n2o.grams() <= n * 10000000000)
        & f.co2.within(n)
        & (f.excreted <= n * 100000000000)
        & (f.land <= n * 100000000000)
        & (f.grazing.grams() <= n * 100000000000)
}

fn grouped(s: Subtotal, records: u16) -> bool
    ensures { result ≡ grouped_test s records }
{
    let n = records as u64;
    (s.ch4 <= n * 100000000000)
        & (s.n2o.grams() <= n * 10000000000)
        & (s.excreted <= n * 100000000000)
        & (s.land <= n * 100000000000)
}

fn ungrouped(s: Subtotal) -> bool
    ensures { result ≡ ungrouped_test s }
{
    (s.ch4 == 0) & (s.n2o.grams() == 0) & (s.excreted == 0) & (s.land == 0)
}

fn numbered(r: Refusal, records: u16) -> bool
    ensures { result ≡ numbered_test r records }
{
    (1 <= r.code)
        & (r.code <= 12)
        & (r.accepted == records)
        & (r.field <= 12)
        & (!(r.code == 7) | (1 <= r.field))
        & ((r.code == 7) | (r.field == 0))
}

fn unrefused(r: Refusal) -> bool
    ensures { result ≡ unrefused_test r }
{
    (r.code == 0) & (r.accepted == 0) & (r.field == 0)
}

// Stage, records and what the farm record set; those of an open book first, since all calls but a book's first and last have one.
fn started(stage: u8, records: u16, ch4: u16, n2o: u16) -> bool
    ensures { result ≡ started_test stage records (record { ch4 = ch4; n2o = n2o }) }
{
    if stage == 1 {
        return (1 <= records)
            & (records <= 4096)
            & (1 <= ch4)
            & (ch4 <= 1000)
            & (1 <= n2o)
            & (n2o <= 1000);
    }
    counted(stage, records) & factor_in(ch4, records) & factor_in(n2o, records)
}

// Heading, what is used under it and subtotal: without a group all zero, with one in their ranges.
fn under(h: Heading, u: Used, s: Subtotal, records: u16) -> bool
    ensures { result ≡ under_test h u s records }
{
    if h.group == 0 {
        return unheaded(h, u) & ungrouped(s);
    }
    headed(h, u, records) & grouped(s, records)
}

// The refusal of stage 3, or none.
fn ended(stage: u8, r: Refusal, records: u16) -> bool
    ensures { result ≡ ended_test stage r records }
{
    if stage == 3 {
        return numbered(r, records);
    }
    unrefused(r)
}

pub fn test(a: Account) -> bool
    ensures { result ≡ account_in_range a }
{
    let w = a.farm;
    let h = a.heading;
    let u = a.used;
    let s = a.subtotal;
    let f = a.sums;
    let r = a.refusal;
    started(a.stage, a.records, w.ch4, w.n2o)
        & bounded(f, a.records)
        & under(h, u, s, a.records)
        & ended(a.stage, r, a.records)
}
