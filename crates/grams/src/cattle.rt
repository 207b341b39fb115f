// Cattle: enteric CH4, excreted nitrogen and storage N2O.
ghost use Rattle.std.specs.Prelude.{◌*◌, ◌^◌, ◌≤◌};
ghost use Rattle.grams.specs.Figure.{Figure, Gas};
ghost use Rattle.grams.specs.Cattle.{EntericIn, Enteric, CattleIn, Nitrogen, excreted_of, direct_of, indirect_of, storage_of};

use crate::rounding::round_div;
use crate::units::{N2o, N2oN};

// Grams of CH4.
pub fn enteric(ge: u64, ym: u64, head: u64, days: u64) -> u64
    requires { EntericIn ge ym head days }
    ensures { Enteric ge ym head days result }
{
    round_div(ge * ym * head * days, 55650)
}

// A cattle nitrogen record, in the units of the book. The pasture share enters no figure.
#[derive(Clone, Copy)]
pub struct CattleRation {
    pub days: u64,
    pub feed: u64,
    pub protein: u64,
    pub milk: u64,
    pub milkprotein: u64,
    pub gain: u64,
    pub solid: u64,
    pub liquid: u64,
}

// Grams of nitrogen excreted, and of N2O from its storage.
#[derive(Clone, Copy)]
pub struct CattleManure {
    pub excreted: u64,
    pub n2o: N2o,
}

// Grams of nitrogen, from x micrograms per head and day.
fn excreted(x: u64, head: u64, days: u64) -> u64
    requires { (x ≤ 3200000000) × (head ≤ 20000) × (days ≤ 366) }
    ensures { Figure (excreted_of x head days) (10 ^ 11) result }
{
    round_div(x * head * days, 1000000)
}

// N2O straight from the store, of n grams of nitrogen: the shares and the table's factor are hundred-millionths, the units of N2oN.
fn direct(n: u64, solid: u64, liquid: u64) -> N2o
    requires { (n ≤ 10 ^ 11) × (solid ≤ 10000) × (liquid ≤ 10000) }
    ensures { Gas (direct_of n solid liquid) (5 * 10 ^ 9) result }
{
    N2oN::of(n * 79 * (solid + liquid)).to_n2o()
}

// N2O by way of air and water, of n grams of nitrogen.
fn indirect(n: u64, solid: u64, liquid: u64) -> N2o
    requires { (n ≤ 10 ^ 11) × (solid ≤ 10000) × (liquid ≤ 10000) }
    ensures { Gas (indirect_of n solid liquid) (5 * 10 ^ 9) result }
{
    N2oN::of(n * (47 * solid + 63 * liquid)).to_n2o()
}

// Direct and indirect, each rounded for itself.
fn storage(n: u64, solid: u64, liquid: u64) -> N2o
    requires { (n ≤ 10 ^ 11) × (solid ≤ 10000) × (liquid ≤ 10000) }
    ensures { Gas (storage_of n solid liquid) (10 ^ 10) result }
{
    direct(n, solid, liquid).plus(indirect(n, solid, liquid))
}

// X is below zero where milk and gain keep more than the feed brings: a comparison, no signed number. None there.
pub fn nitrogen(r: CattleRation, head: u64) -> Option<CattleManure>
    requires { CattleIn r head }
    ensures { Nitrogen r head result }
{
    let fed = 160 * r.feed * r.protein;
    let kept = 157 * r.milk * r.milkprotein + 27000 * r.gain;
    if fed < kept {
        return None;
    }
    let n = excreted(fed - kept, head, r.days);
    let gas = storage(n, r.solid, r.liquid);
    Some(CattleManure {
        excreted: n,
        n2o: gas,
    })
}
