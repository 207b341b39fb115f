// The what-if slip: an estimate on the screen of the CH4 of a changed ration, in double precision.
#![tactic(auto)]

ghost use Rattle.std.specs.Prelude.{◌≡◌};
ghost use Rattle.slip.specs.Slip.{within, ge_in_range, ym_in_range, head_in_range, days_in_range, factor_in_range, ration_in_range, change_in_range};
ghost use Rattle.slip.specs.Slip.{changed_by, changed_in_range, kg_ch4, refused_with, Answers};

#[derive(Clone, Copy)]
pub struct Ration {
    pub ge: f64,
    pub ym: f64,
    pub head: f64,
    pub days: u16,
}

// Feed and head go by a factor; Ym is given anew.
#[derive(Clone, Copy)]
pub enum Change {
    Feed(f64),
    Ym(f64),
    Head(f64),
}

// The code is 0, 14 or 15. A number and no error: the ration comes back beside each of them (specs/Slip, `what_if`).
#[derive(Clone, Copy)]
pub struct Slip {
    pub code: u8,
    pub ration: Ration,
    pub kg: f64,
}

const MJ_PER_KG: f64 = 55.65;

// False at a NaN, which no comparison lets through.
fn in_range(x: f64, lo: f64, hi: f64) -> bool
    ensures { result ≡ within lo hi x }
{
    (lo <= x) & (x <= hi)
}

fn ge_in_range(ge: f64) -> bool
    ensures { result ≡ ge_in_range ge }
{
    in_range(ge, 1.0, 1000.0)
}

fn ym_in_range(ym: f64) -> bool
    ensures { result ≡ ym_in_range ym }
{
    in_range(ym, 0.5, 20.0)
}

fn head_in_range(head: f64) -> bool
    ensures { result ≡ head_in_range head }
{
    in_range(head, 1.0, 20000.0)
}

fn days_in_range(days: u16) -> bool
    ensures { result ≡ days_in_range days }
{
    (1 <= days) & (days <= 366)
}

fn factor_in_range(factor: f64) -> bool
    ensures { result ≡ factor_in_range factor }
{
    in_range(factor, 0.5, 2.0)
}

fn ration_in_range(r: Ration) -> bool
    ensures { result ≡ ration_in_range r }
{
    ge_in_range(r.ge) & ym_in_range(r.ym) & head_in_range(r.head) & days_in_range(r.days)
}

fn change_in_range(change: Change) -> bool
    ensures { result ≡ change_in_range change }
{
    match change {
        Change::Feed(factor) => factor_in_range(factor),
        Change::Ym(ym) => ym_in_range(ym),
        Change::Head(factor) => factor_in_range(factor),
    }
}

fn changed(r: Ration, change: Change) -> Ration
    ensures { result ≡ changed_by r change }
{
    match change {
        Change::Feed(factor) => Ration {
            ge: r.ge * factor,
            ym: r.ym,
            head: r.head,
            days: r.days,
        },
        Change::Ym(ym) => Ration {
            ge: r.ge,
            ym,
            head: r.head,
            days: r.days,
        },
        Change::Head(factor) => Ration {
            ge: r.ge,
            ym: r.ym,
            head: r.head * factor,
            days: r.days,
        },
    }
}

// Whether the one value of n that the change made is in its range.
fn changed_in_range(n: Ration, change: Change) -> bool
    ensures { result ≡ changed_in_range n change }
{
    match change {
        Change::Feed(_) => ge_in_range(n.ge),
        Change::Ym(_) => ym_in_range(n.ym),
        Change::Head(_) => head_in_range(n.head),
    }
}

fn kg_ch4(r: Ration) -> f64
    ensures { result ≡ kg_ch4 r }
{
    (((r.ge * (r.ym / 100.0)) * r.head) * (r.days as f64)) / MJ_PER_KG
}

fn refused(code: u8, r: Ration) -> Slip
    ensures { result ≡ refused_with code r }
{
    Slip {
        code,
        ration: r,
        kg: 0.0,
    }
}

pub fn what_if(r: Ration, change: Change) -> Slip
    ensures { Answers r change result }
{
    if !(ration_in_range(r) & change_in_range(change)) {
        return refused(14, r);
    }
    let n = changed(r, change);
    if !changed_in_range(n, change) {
        return refused(15, r);
    }
    let kg = kg_ch4(n);
    Slip {
        code: 0,
        ration: n,
        kg,
    }
}
