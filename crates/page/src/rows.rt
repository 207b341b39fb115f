// A group's row.
ghost use Rattle.std.specs.Prelude.{◌<◌, ◌≤◌, length};
ghost use Rattle.printing.specs.Says.{Says};
ghost use Rattle.page.specs.Parts.{bars_text, count_text, figures_text, group_text, heading_text, per_head, together_text};

use crate::bars::say_bar;
use crate::text::{say_cell, say_kilograms};
use crate::{Group, Scale};
use grams::rounding::round_div;
use names::say_class;
use printing::text::Text;
use printing::{say, say_number};

// A group's number and class.
fn say_heading(out: &mut Text, group: u64, class: u64)
    ensures { Says out.old out.new (heading_text group class) }
{
    out.say(b"<tbody><tr data-group=\"");
    out.say_number(group);
    out.say(b"\"><th><b>Group ");
    out.say_number(group);
    out.say(b"</b> ");
    say_class(out, class);
    out.say(b"</th>");
}

// CO2e per head, nothing without head.
fn say_per_head(out: &mut Text, co2e: u64, head: u64)
    ensures { Says out.old out.new (per_head co2e head) }
{
    if head == 0 {
        return;
    }
    say_kilograms(out, round_div(co2e, head));
}

// Its head, and CO2e per head.
fn say_count(out: &mut Text, head: u64, co2e: u64)
    ensures { Says out.old out.new (count_text head co2e) }
{
    out.say(b"<td data-l=\"head\">");
    out.say_number(head);
    out.say(b"</td><td data-l=\"CO&#8322;e per head\">");
    say_per_head(out, co2e, head);
    out.say(b"</td>");
}

// Both nitrogens, both gases and grazing.
pub(crate) fn say_figures(
    out: &mut Text,
    excreted: u64,
    land: u64,
    ch4: u64,
    n2o: u64,
    grazing: u64,
)
    ensures { Says out.old out.new (figures_text excreted land ch4 n2o grazing) }
{
    say_cell(out, b"nitrogen excreted", excreted);
    say_cell(out, b"nitrogen for land", land);
    say_cell(out, b"CH&#8324;", ch4);
    say_cell(out, b"N&#8322;O", n2o);
    say_cell(out, b"grazing, CO&#8322;e", grazing);
}

// CO2e together.
pub(crate) fn say_together(out: &mut Text, co2e: u64)
    ensures { Says out.old out.new (together_text co2e) }
{
    out.say(b"<td class=\"co2e\">");
    say_kilograms(out, co2e);
}

// A row's end, and its bar below it.
pub(crate) fn say_bars(out: &mut Text, columns: u64, sc: Scale, from: u64, to: u64, up: bool)
    requires { 0 < sc.unit }
    ensures { Says out.old out.new (bars_text columns sc from to up) }
{
    out.say(
        b"</td></tr>
<tr class=\"bars\"><td colspan=\"",
    );
    out.say_number(columns);
    out.say(b"\">");
    say_bar(out, sc, from, to, up);
    out.say(b"</td></tr></tbody>\n");
}

// A group's row.
pub(crate) fn say_group(out: &mut Text, sc: Scale, g: Group)
    requires { 0 < sc.unit }
    ensures { Says out.old out.new (group_text sc g) }
{
    say_heading(out, g.group, g.class);
    say_count(out, g.head, g.co2e);
    say_figures(out, g.excreted, g.land, g.ch4, g.n2o, g.grazing);
    say_together(out, g.co2e);
    say_bars(out, 9, sc, g.from, g.to, false);
}
