// Kind 6: CO2 of energy, which belongs to the farm.
ghost use Rattle.std.specs.Prelude.{◌<◌};
ghost use Rattle.account.specs.Range.{AccountInRange};
ghost use Rattle.account.specs.Judge.{weigh};
ghost use Rattle.account.specs.Told.{TellsIn};

use crate::figures::co2_alone;
use crate::lines::detailed;
use crate::refusals::{barred, begun, stopped};
use account::{Account, Judged};
use codec::kinds::ENERGY;

pub fn weigh(a: Account, v: [u64; 3], room: usize) -> Judged
    requires { AccountInRange a × (a.stage < 2) }
    ensures { TellsIn room a (weigh a 6 v) result }
{
    let bad = values::energy::first_bad(v);
    let code = barred(a.records, begun(a.records), bad);
    if code != 0 {
        return stopped(a, code, bad);
    }
    let co2 = grams::farm::energy(v[1], v[2]);
    let f = co2_alone(co2);
    let used = a.used;
    let subtotal = a.subtotal;
    detailed(a, ENERGY as u8, 0, used, subtotal, f, room)
}
