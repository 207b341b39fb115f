// Kind 5: CH4, N2O and nitrogen of a pig group's manure.
ghost use Rattle.std.specs.Prelude.{◌≡◌, ◌<◌, ltb};
ghost use Rattle.account.specs.Figures.{pig_ration};
ghost use Rattle.account.specs.Range.{AccountInRange};
ghost use Rattle.account.specs.Judge.{weigh};
ghost use Rattle.account.specs.Told.{TellsIn};

use crate::figures::pig_figures;
use crate::lines::grouped_detail;
use crate::refusals::{barred, stopped, wrong};
use account::{Account, Judged};
use codec::kinds::PIG;
use grams::pig::PigRation;

// Under a pig heading, so that there are records before it. Class 4 is the last: asked for as a number that is not equal, the compiler would store
// it into the account again at each record.
fn pig_placed(class: u8) -> bool
    ensures { result ≡ ltb 3 class }
{
    3 < class
}

fn pig_ration(v: [u64; 12]) -> PigRation
    ensures { result ≡ pig_ration v }
{
    PigRation {
        days: v[0],
        feed: v[1],
        vs: v[2],
        vsfactor: v[3],
        mcf: v[4],
        protein: v[5],
        nfactor: v[6],
        direct: v[7],
        volatilised: v[8],
        volatilisedef: v[9],
        leached: v[10],
        leachedef: v[11],
    }
}

pub fn weigh(a: Account, v: [u64; 12], room: usize) -> Judged
    requires { AccountInRange a × (a.stage < 2) }
    ensures { TellsIn room a (weigh a 5 v) result }
{
    let h = a.heading;
    let bad = values::pig::first_bad(v);
    let code = barred(a.records, pig_placed(h.class), bad);
    if code != 0 {
        return stopped(a, code, bad);
    }
    let mut used = a.used;
    let sum = used.pig as u64 + v[0];
    if 366 < sum {
        return wrong(a, 9, 0);
    }
    if 1000 < v[8] + v[10] {
        return wrong(a, 10, 0);
    }
    used.pig = sum as u32;
    let m = grams::pig::manure(pig_ration(v), h.head as u64);
    let f = pig_figures(m);
    grouped_detail(a, PIG as u8, h.group, used, f, room)
}
