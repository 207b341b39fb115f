// Kind 10: CO2e of what a cattle group grazes.
ghost use Rattle.std.specs.Prelude.{◌<◌};
ghost use Rattle.account.specs.Range.{AccountInRange};
ghost use Rattle.account.specs.Judge.{weigh};
ghost use Rattle.account.specs.Told.{TellsIn};

use crate::figures::grazing_alone;
use crate::lines::grouped_detail;
use crate::refusals::{barred, cattle_placed, stopped, wrong};
use account::{Account, Judged};
use codec::kinds::GRAZING;

pub fn weigh(a: Account, v: [u64; 4], room: usize) -> Judged
    requires { AccountInRange a × (a.stage < 2) }
    ensures { TellsIn room a (weigh a 10 v) result }
{
    let h = a.heading;
    let bad = values::grazing::first_bad(v);
    let code = barred(a.records, cattle_placed(h.class), bad);
    if code != 0 {
        return stopped(a, code, bad);
    }
    let sum = a.used.grazed as u64 + v[3];
    if 10000 < sum {
        return wrong(a, 10, 0);
    }
    let co2e = grams::grazing::grazing(v[0], v[1], v[2], v[3], h.head as u64);
    let f = grazing_alone(co2e);
    let mut used = a.used;
    used.grazed = sum as u32;
    grouped_detail(a, GRAZING as u8, h.group, used, f, room)
}
