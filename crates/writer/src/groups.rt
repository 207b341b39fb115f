// What is told of a group: its days and its gases.
ghost use Rattle.std.specs.Prelude.{◌≤◌, length};
ghost use Rattle.base.specs.Choice.{pick};
ghost use Rattle.printing.specs.Ascii.{ascii};
ghost use Rattle.printing.specs.Says.{Says};
ghost use Rattle.writer.specs.Remarks.{of_year, days_text, all_days, head_text, a_head, gas_text, gases_text, group_name, group_text};

use account::{Account, Used};
use grams::rounding::round_div;
use printing::text::Text;
use printing::{say, say_number, say_pointed};

fn say_of_year(out: &mut Text, days: u64, year: Option<u64>)
    ensures { Says out.old out.new (of_year days year) }
{
    match year {
        None => (),
        Some(whole) => {
            if days == whole {
                return;
            }
            out.say(b" of ");
            out.say_number(whole);
        }
    }
}

fn say_between(out: &mut Text, first: bool)
    ensures { Says out.old out.new (pick first (ascii " ") (ascii ", ")) }
{
    if first {
        out.say(b" ");
        return;
    }
    out.say(b", ");
}

fn say_days(out: &mut Text, first: bool, kind: u64, days: u64, year: Option<u64>)
    ensures { Says out.old out.new (days_text first kind days year) }
{
    if days == 0 {
        return;
    }
    say_between(out, first);
    names::say_kind(out, kind);
    out.say(b" ");
    out.say_number(days);
    out.say(b" days");
    say_of_year(out, days, year);
}

fn say_all_days(out: &mut Text, d: Used, year: Option<u64>)
    ensures { Says out.old out.new (all_days d year) }
{
    if (d.enteric == 0) & ((d.nitrogen == 0) & (d.pig == 0)) {
        out.say(b" no days");
        return;
    }
    say_days(out, true, 3, d.enteric as u64, year);
    say_days(out, d.enteric == 0, 4, d.nitrogen as u64, year);
    say_days(
        out,
        (d.enteric == 0) & (d.nitrogen == 0),
        5,
        d.pig as u64,
        year,
    );
}

fn say_head(out: &mut Text, class: u64, head: u64)
    ensures { Says out.old out.new (head_text class head) }
{
    names::say_class(out, class);
    out.say(b", ");
    out.say_number(head);
    out.say(b" head:");
}

// Grams of a head, in tenths of a kilogram.
fn say_a_head(out: &mut Text, grams: u64, head: u64)
    requires { head ≤ 65535 }
    ensures { Says out.old out.new (a_head grams head) }
{
    if head == 0 {
        return;
    }
    out.say(b", ");
    out.say_pointed(round_div(grams, head * 100), 1);
    out.say(b" kg a head");
}

// Grams of a gas, after its name.
fn say_gas(out: &mut Text, name: &[u8], grams: u64, head: u64)
    requires { head ≤ 65535 }
    ensures { Says out.old out.new (gas_text name.now grams head) }
{
    if grams == 0 {
        return;
    }
    out.say(name);
    out.say_pointed(grams, 3);
    out.say(b" kg");
    say_a_head(out, grams, head);
}

fn say_gases(out: &mut Text, a: Account)
    ensures { Says out.old out.new (gases_text a) }
{
    let h = a.heading;
    let s = a.subtotal;
    let n = s.n2o;
    let n2o = n.grams();
    say_gas(out, b"; CH4 ", s.ch4, h.head as u64);
    say_gas(out, b"; N2O ", n2o, h.head as u64);
}

fn say_group_name(out: &mut Text, group: u64)
    ensures { Says out.old out.new (group_name group) }
{
    out.say(b"group ");
    out.say_number(group);
    out.say(b" ");
}

pub(crate) fn say_group(out: &mut Text, a: Account, year: Option<u64>)
    ensures { Says out.old out.new (group_text a year) }
{
    let h = a.heading;
    if h.group == 0 {
        return;
    }
    let days = a.used;
    say_group_name(out, h.group as u64);
    say_head(out, h.class as u64, h.head as u64);
    say_all_days(out, days, year);
    say_gases(out, a);
    out.say(b"\n");
}
