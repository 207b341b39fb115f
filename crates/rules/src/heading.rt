// Kind 2 heads a group: the line of the group before, then nothing used and no subtotal yet.
ghost use Rattle.std.specs.Prelude.{◌≡◌, ◌<◌};
ghost use Rattle.account.specs.Range.{AccountInRange};
ghost use Rattle.account.specs.Judge.{weigh};
ghost use Rattle.account.specs.Told.{TellsIn, in_room, heading};

use crate::lines::{full, group_line};
use crate::refusals::{barred, begun, stopped, wrong};
use account::{Account, Heading, Judged, NO_SUBTOTAL, NONE_USED};

// Under a new heading, with nothing used and no subtotal yet, and the line of the group before.
fn headed(a: Account, h: Heading, room: usize) -> Judged
    requires { a.records < 4096 }
    ensures { result ≡ in_room room a (heading a h.group h.class h.head) }
{
    let last = a.heading;
    let s = a.subtotal;
    let line = group_line(last.group, s);
    if room < line.given {
        return full(a, line);
    }
    let none = NONE_USED;
    let zero = NO_SUBTOTAL;
    let mut next = a.by_fields();
    next.records = a.records + 1;
    next.heading = h;
    next.used = none;
    next.subtotal = zero;
    Judged {
        account: next,
        line: line,
    }
}

pub fn weigh(a: Account, v: [u64; 3], room: usize) -> Judged
    requires { AccountInRange a × (a.stage < 2) }
    ensures { TellsIn room a (weigh a 2 v) result }
{
    let bad = values::heading::first_bad(v);
    let code = barred(a.records, begun(a.records), bad);
    if code != 0 {
        return stopped(a, code, bad);
    }
    let group = v[0] as u16;
    let last = a.heading;
    if group <= last.group {
        return wrong(a, 8, 0);
    }
    let h = Heading {
        group: group,
        class: v[1] as u8,
        head: v[2] as u16,
    };
    headed(a, h, room)
}
