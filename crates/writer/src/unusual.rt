// Values that are unusual: they go in and are told.
ghost use Rattle.std.specs.Prelude.{◌≡◌, ◌≤◌, length};
ghost use Rattle.base.specs.Choice.{pick, one_more_lem};
ghost use Rattle.printing.specs.Says.{Says};
ghost use Rattle.writer.specs.Unusual.{who_for, is_looked_at, outside, is_unusual, unusual_after, what_text, value_remark, one_remark};
ghost use Rattle.writer.specs.Unusual.{unusual_remarks};

use crate::typed_line::Entry;
use account::Account;
use base::one_more;
use codec::kinds::{CATTLE, GRAZING};
use names::usual::{Usual, say_usual, usual_range};
use names::{say_field, say_kind, say_unit, say_value};
use printing::text::Text;
use printing::{say, say_number};

// Grazing goes by its column, all others by the heading's class.
fn who_for(a: Account, e: Entry) -> usize
    requires { length e.values ≡ 13 }
    ensures { result ≡ who_for a e }
{
    let h = a.heading;
    if e.kind == GRAZING {
        return e.values[1] as usize;
    }
    h.class as usize
}

// Milk protein is looked at only where there is milk.
fn is_looked_at(e: Entry, i: usize) -> bool
    requires { length e.values ≡ 13 }
    ensures { result ≡ is_looked_at e i }
{
    let milk = e.values[3];
    !(((e.kind == CATTLE) & (i == 4)) & (milk == 0))
}

// Nothing is outside where no values are usual.
fn outside(usual: Option<Usual>, v: u64) -> bool
    ensures { result ≡ outside usual v }
{
    match usual {
        None => false,
        Some(u) => !((u.low <= v) & (v <= u.high)),
    }
}

fn is_unusual(who: usize, e: Entry, i: usize) -> bool
    requires { (length e.values ≡ 13) × (i ≤ 12) }
    ensures { result ≡ is_unusual who e i }
{
    let v = e.values[i];
    is_looked_at(e, i) & outside(usual_range(e.kind, i, who), v)
}

fn more_if(test: bool, count: u64) -> u64
    ensures { result ≡ pick test (one_more_lem count) count }
{
    if test { one_more(count) } else { count }
}

// How many values were unusual up to the entry and with it.
pub(crate) fn unusual_after(a: Account, e: Entry, before: u64) -> u64
    requires { length e.values ≡ 13 }
    ensures { result ≡ unusual_after a e before }
{
    let who = who_for(a, e);
    let n = by_row::table::values_of(e.kind);
    let mut count = before;
    for i in 0..n {
        count = more_if(is_unusual(who, e, i), count);
    }
    count
}

fn say_what(out: &mut Text, e: Entry, i: usize)
    requires { (length e.values ≡ 13) × (i ≤ 12) }
    ensures { Says out.old out.new (what_text e i) }
{
    let v = e.values[i];
    say_kind(out, e.kind);
    out.say(b",");
    say_field(out, e.kind, i);
    out.say(b" ");
    say_value(out, e.kind, i, v);
    say_unit(out, e.kind, i);
}

fn say_value_remark(out: &mut Text, number: u64, who: usize, e: Entry, i: usize)
    requires { (length e.values ≡ 13) × (i ≤ 12) }
    ensures { Says out.old out.new (value_remark number who e i) }
{
    out.say(b"line ");
    out.say_number(number);
    out.say(b": unusual: ");
    say_what(out, e, i);
    out.say(b": ");
    say_usual(out, e.kind, i, who);
    out.say(b"\n");
}

// The first 20 are told.
fn say_one(out: &mut Text, number: u64, who: usize, e: Entry, i: usize, count: u64)
    requires { (length e.values ≡ 13) × (i ≤ 12) }
    ensures { Says out.old out.new (one_remark number who e i count) }
{
    if is_unusual(who, e, i) & !(20 <= count) {
        say_value_remark(out, number, who, e, i);
        return;
    }
}

// What is told of the values of the entry in line `number`.
pub(crate) fn say_unusual(out: &mut Text, number: u64, a: Account, e: Entry, before: u64)
    requires { length e.values ≡ 13 }
    ensures { Says out.old out.new (unusual_remarks number a e before) }
{
    let who = who_for(a, e);
    let n = by_row::table::values_of(e.kind);
    let mut count = before;
    for i in 0..n {
        say_one(out, number, who, e, i, count);
        count = more_if(is_unusual(who, e, i), count);
    }
}
