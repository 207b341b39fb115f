// Kind 4: nitrogen and N2O of a cattle group's manure.
ghost use Rattle.std.specs.Prelude.{◌≡◌, ◌<◌};
ghost use Rattle.account.specs.Figures.{cattle_ration};
ghost use Rattle.account.specs.Range.{AccountInRange};
ghost use Rattle.account.specs.Judge.{weigh};
ghost use Rattle.account.specs.Told.{TellsIn};

use crate::figures::cattle_figures;
use crate::lines::grouped_detail;
use crate::refusals::{barred, cattle_placed, stopped, wrong};
use account::{Account, Judged};
use codec::kinds::CATTLE;
use grams::cattle::CattleRation;

fn cattle_ration(v: [u64; 9]) -> CattleRation
    ensures { result ≡ cattle_ration v }
{
    CattleRation {
        days: v[0],
        feed: v[1],
        protein: v[2],
        milk: v[3],
        milkprotein: v[4],
        gain: v[5],
        solid: v[6],
        liquid: v[7],
    }
}

pub fn weigh(a: Account, v: [u64; 9], room: usize) -> Judged
    requires { AccountInRange a × (a.stage < 2) }
    ensures { TellsIn room a (weigh a 4 v) result }
{
    let h = a.heading;
    let bad = values::cattle::first_bad(v);
    let placed = cattle_placed(h.class);
    // by itself: else the compiler carries the position through the test of every record
    if bad != 0 {
        let code = barred(a.records, placed, bad);
        return stopped(a, code, bad);
    }
    let code = barred(a.records, placed, 0);
    if code != 0 {
        return stopped(a, code, 0);
    }
    let mut used = a.used;
    let sum = used.nitrogen as u64 + v[0];
    if 366 < sum {
        return wrong(a, 9, 0);
    }
    if v[6] + v[7] + v[8] != 10000 {
        return wrong(a, 10, 0);
    }
    used.nitrogen = sum as u32;
    let n = grams::cattle::nitrogen(cattle_ration(v), h.head as u64);
    match n {
        None => wrong(a, 11, 0),
        Some(m) => {
            let f = cattle_figures(m);
            grouped_detail(a, CATTLE as u8, h.group, used, f, room)
        }
    }
}
