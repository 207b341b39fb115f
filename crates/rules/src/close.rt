// Kind 8 closes the book: the last group's line, and the sums with their CO2e.
ghost use Rattle.std.specs.Prelude.{◌≡◌, ◌<◌};
ghost use Rattle.grams.specs.Farm.{FactorsMost};
ghost use Rattle.account.specs.Account.{factors_of};
ghost use Rattle.account.specs.Range.{AccountInRange, Bounded};
ghost use Rattle.account.specs.Judge.{weigh};
ghost use Rattle.account.specs.Told.{TellsIn, in_room, closing};

use crate::figures::group_figures;
use crate::lines::full;
use crate::refusals::{barred, begun, stopped, wrong};
use account::{Account, Judged, line};
use grams::farm::Factors;

// The close's lines: the last group's subtotal, where there is a heading, and the sums with their CO2e.
fn totalled(a: Account, room: usize) -> Judged
    requires { (a.records < 4096) × Bounded a.sums 4096 × FactorsMost (factors_of a.farm) }
    ensures { result ≡ in_room room a (closing a) }
{
    let sums = a.sums;
    let n2o = sums.n2o;
    let co2 = sums.co2;
    let grazing = sums.grazing;
    // field by field: of a copy the compiler makes one word, which it takes apart at each record
    let w = Factors {
        ch4: a.farm.ch4,
        n2o: a.farm.n2o,
    };
    let co2e = grams::farm::co2e(w, co2, sums.ch4, n2o, grazing);
    let h = a.heading;
    let s = a.subtotal;
    let f = group_figures(s);
    let line = line::closing(h.group, f, co2e);
    if room < line.given {
        return full(a, line);
    }
    let mut next = a.by_fields();
    next.stage = 2;
    next.records = a.records + 1;
    Judged {
        account: next,
        line: line,
    }
}

pub fn weigh(a: Account, v: [u64; 1], room: usize) -> Judged
    requires { AccountInRange a × (a.stage < 2) }
    ensures { TellsIn room a (weigh a 8 v) result }
{
    let bad = values::close::first_bad(v);
    let code = barred(a.records, begun(a.records), bad);
    if code != 0 {
        return stopped(a, code, bad);
    }
    if v[0] != a.records as u64 {
        return wrong(a, 12, 0);
    }
    totalled(a, room)
}
