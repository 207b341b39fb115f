// Kind 1 opens the book: with the warming factors of its set, or in version 2 with its own.
ghost use Rattle.std.specs.Prelude.{◌<◌};
ghost use Rattle.codec.specs.Table.{last_row};
ghost use Rattle.account.specs.Range.{AccountInRange};
ghost use Rattle.account.specs.Judge.{weigh};
ghost use Rattle.account.specs.Told.{TellsIn};

use crate::lines::silent;
use crate::refusals::{barred, stopped};
use account::{Account, Judged};
use grams::farm::factors_of;

// Version 1.
pub fn weigh(a: Account, v: [u64; 3], room: usize) -> Judged
    requires { AccountInRange a × (a.stage < 2) }
    ensures { TellsIn room a (weigh a 1 v) result }
{
    let bad = values::farm::first_bad(v);
    let code = barred(a.records, a.records == 0, bad);
    if code != 0 {
        return stopped(a, code, bad);
    }
    let factors = factors_of(v[2]);
    let mut next = a.by_fields();
    next.stage = 1;
    next.records = a.records + 1;
    // field by field: of a copy the compiler makes one word, which it takes apart at each record
    next.farm.ch4 = factors.ch4;
    next.farm.n2o = factors.n2o;
    silent(next)
}

// Version 2.
pub fn weigh_factors(a: Account, v: [u64; 4], room: usize) -> Judged
    requires { AccountInRange a × (a.stage < 2) }
    ensures { TellsIn room a (weigh a last_row v) result }
{
    let bad = values::farm_factors::first_bad(v);
    let code = barred(a.records, a.records == 0, bad);
    if code != 0 {
        return stopped(a, code, bad);
    }
    let ch4 = v[2] as u16;
    let n2o = v[3] as u16;
    let mut next = a.by_fields();
    next.stage = 1;
    next.records = a.records + 1;
    next.farm.ch4 = ch4;
    next.farm.n2o = n2o;
    silent(next)
}
