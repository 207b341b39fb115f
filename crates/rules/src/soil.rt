// Kind 7: CO2 of organic soil, which belongs to the farm.
ghost use Rattle.std.specs.Prelude.{◌<◌};
ghost use Rattle.account.specs.Range.{AccountInRange};
ghost use Rattle.account.specs.Judge.{weigh};
ghost use Rattle.account.specs.Told.{TellsIn};

use crate::figures::co2_alone;
use crate::lines::detailed;
use crate::refusals::{barred, begun, stopped};
use account::{Account, Judged};
use codec::kinds::SOIL;

pub fn weigh(a: Account, v: [u64; 1], room: usize) -> Judged
    requires { AccountInRange a × (a.stage < 2) }
    ensures { TellsIn room a (weigh a 7 v) result }
{
    let bad = values::soil::first_bad(v);
    let code = barred(a.records, begun(a.records), bad);
    if code != 0 {
        return stopped(a, code, bad);
    }
    let co2 = grams::farm::soil(v[0]);
    let f = co2_alone(co2);
    let used = a.used;
    let subtotal = a.subtotal;
    detailed(a, SOIL as u8, 0, used, subtotal, f, room)
}
