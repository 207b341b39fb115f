// Kind 3: CH4 of a cattle group's rations.
ghost use Rattle.std.specs.Prelude.{◌<◌};
ghost use Rattle.account.specs.Range.{AccountInRange};
ghost use Rattle.account.specs.Judge.{weigh};
ghost use Rattle.account.specs.Told.{TellsIn};

use crate::figures::ch4_alone;
use crate::lines::grouped_detail;
use crate::refusals::{barred, cattle_placed, stopped, wrong};
use account::{Account, Judged};
use codec::kinds::ENTERIC;

pub fn weigh(a: Account, v: [u64; 3], room: usize) -> Judged
    requires { AccountInRange a × (a.stage < 2) }
    ensures { TellsIn room a (weigh a 3 v) result }
{
    let h = a.heading;
    let bad = values::enteric::first_bad(v);
    let code = barred(a.records, cattle_placed(h.class), bad);
    if code != 0 {
        return stopped(a, code, bad);
    }
    let mut used = a.used;
    let sum = used.enteric as u64 + v[0];
    if 366 < sum {
        return wrong(a, 9, 0);
    }
    used.enteric = sum as u32;
    let ch4 = grams::cattle::enteric(v[1], v[2], h.head as u64, v[0]);
    let f = ch4_alone(ch4);
    grouped_detail(a, ENTERIC as u8, h.group, used, f, room)
}
