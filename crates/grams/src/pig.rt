// Pigs: manure CH4, excreted nitrogen, N2O and nitrogen for land.
ghost use Rattle.std.specs.Prelude.{◌+◌, ◌*◌, ◌^◌, ◌≤◌};
ghost use Rattle.grams.specs.Figure.{Figure, Gas};
ghost use Rattle.grams.specs.Pig.{PigIn, Manure, solids_of, ch4_of, pig_nitrogen_of, direct_of, indirect_of, land_of};

use crate::rounding::round_div;
use crate::units::{N2o, N2oN};

// A pig record, in the units of the book.
#[derive(Clone, Copy)]
pub struct PigRation {
    pub days: u64,
    pub feed: u64,
    pub vs: u64,
    pub vsfactor: u64,
    pub mcf: u64,
    pub protein: u64,
    pub nfactor: u64,
    pub direct: u64,
    pub volatilised: u64,
    pub volatilisedef: u64,
    pub leached: u64,
    pub leachedef: u64,
}

// Grams of CH4, of N2O, of nitrogen excreted and of nitrogen for land.
#[derive(Clone, Copy)]
pub struct PigManure {
    pub ch4: u64,
    pub n2o: N2o,
    pub excreted: u64,
    pub land: u64,
}

// V, milligrams per head and day.
fn solids(feed: u64, vs: u64, vsfactor: u64) -> u64
    requires { (feed ≤ 1000) × (vs ≤ 5000) × (vsfactor ≤ 2000) }
    ensures { Figure (solids_of feed vs vsfactor) (10 ^ 7) result }
{
    round_div(feed * vs * vsfactor, 1000)
}

// The product reaches 1.47 × 10^19: it fits 64 bits, its double does not.
fn ch4(v: u64, mcf: u64, head: u64, days: u64) -> u64
    requires { (v ≤ 10 ^ 7) × (mcf ≤ 1000) × (head ≤ 20000) × (days ≤ 366) }
    ensures { Figure (ch4_of v mcf head days) (10 ^ 11) result }
{
    round_div(v * mcf * head * days * 201, 625000000)
}

fn nitrogen(feed: u64, protein: u64, nfactor: u64, head: u64, days: u64) -> u64
    requires { (feed ≤ 1000) × (protein ≤ 4000) × (nfactor ≤ 2000) × (head ≤ 20000) × (days ≤ 366) }
    ensures { Figure (pig_nitrogen_of feed protein nfactor head days) (7 * 10 ^ 9) result }
{
    round_div(feed * protein * nfactor * head * days * 7, 62500000)
}

// n × ef is N2O-N in hundred-thousandths of a gram: times 1000 in the units of N2oN.
fn direct(n: u64, ef: u64) -> N2o
    requires { (n ≤ 7 * 10 ^ 9) × (ef ≤ 10000) }
    ensures { Gas (direct_of n ef) (5 * 10 ^ 9) result }
{
    N2oN::of(n * ef * 1000).to_n2o()
}

// The parts are in thousandths, their factors in hundred-thousandths: the units of N2oN already.
fn indirect(n: u64, volatilised: u64, volatilisedef: u64, leached: u64, leachedef: u64) -> N2o
    requires { (n ≤ 7 * 10 ^ 9) × (volatilised ≤ 1000) × (volatilisedef ≤ 10000) × (leached ≤ 1000) × (leachedef ≤ 10000) }
    ensures { Gas (indirect_of n volatilised volatilisedef leached leachedef) (5 * 10 ^ 9) result }
{
    N2oN::of(n * (volatilised * volatilisedef + leached * leachedef)).to_n2o()
}

fn land(n: u64, volatilised: u64, leached: u64) -> u64
    requires { (n ≤ 7 * 10 ^ 9) × (volatilised + leached ≤ 1000) }
    ensures { Figure (land_of n volatilised leached) (7 * 10 ^ 9) result }
{
    round_div(n * (1000 - volatilised - leached), 1000)
}

pub fn manure(p: PigRation, head: u64) -> PigManure
    requires { PigIn p head }
    ensures { Manure p head result }
{
    let v = solids(p.feed, p.vs, p.vsfactor);
    let methane = ch4(v, p.mcf, head, p.days);
    let n = nitrogen(p.feed, p.protein, p.nfactor, head, p.days);
    let straight = direct(n, p.direct);
    let later = indirect(n, p.volatilised, p.volatilisedef, p.leached, p.leachedef);
    let gas = straight.plus(later);
    let left = land(n, p.volatilised, p.leached);
    PigManure {
        ch4: methane,
        n2o: gas,
        excreted: n,
        land: left,
    }
}
