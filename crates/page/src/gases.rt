// The table of the gases.
ghost use Rattle.std.specs.Prelude.{◌≤◌, length};
ghost use Rattle.printing.specs.Says.{Says};
ghost use Rattle.page.specs.Parts.{carbon_text, factors_text, gas_table, gas_text};

use crate::Survey;
use crate::text::{say_figure, say_kilograms};
use printing::text::Text;
use printing::{say, say_number};

// A gas: its kilograms, its factor and its CO2e.
fn say_gas(out: &mut Text, grams: u64, factor: u64, co2e: u64)
    ensures { Says out.old out.new (gas_text grams factor co2e) }
{
    say_figure(out, grams);
    out.say(b"</td><td>&times; ");
    out.say_number(factor);
    out.say(b"</td><td class=\"co2e\">");
    say_kilograms(out, co2e);
}

// The head of the gases.
fn say_factors(out: &mut Text, s: Survey)
    ensures { Says out.old out.new (factors_text s) }
{
    out.say(
        b"<section>
<h2>How the gases add up</h2>
<p>A kilogram of methane warms as much as ",
    );
    out.say_number(s.a);
    out.say(b" kilograms of CO<sub>2</sub>, a kilogram of nitrous oxide as much as ");
    out.say_number(s.b);
    out.say(
        b".
These are the warming factors that the book of the farm names.</p>
<table id=\"gases\">
<thead><tr><th>Gas</th><th>Kilograms</th><th>Factor</th><th>CO<sub>2</sub>e</th></tr></thead>
<tbody><tr><th><b>Methane</b> CH<sub>4</sub></th><td>",
    );
}

// CO2, and grazing.
fn say_carbon(out: &mut Text, s: Survey)
    ensures { Says out.old out.new (carbon_text s) }
{
    out.say(
        b"</td></tr>
<tr><th><b>Carbon dioxide</b> CO<sub>2</sub></th><td>",
    );
    say_figure(out, s.co2);
    out.say(b"</td><td>&times; 1</td><td class=\"co2e\">");
    say_kilograms(out, s.co2);
    out.say(
        b"</td></tr>
<tr><th><b>Grazing</b> CO<sub>2</sub>e from the start</th><td></td><td></td><td class=\"co2e\">",
    );
    say_kilograms(out, s.grazing);
}

// The table of the gases.
pub(crate) fn say_gas_table(out: &mut Text, s: Survey)
    ensures { Says out.old out.new (gas_table s) }
{
    say_factors(out, s);
    say_gas(out, s.ch4, s.a, s.methane);
    out.say(
        b"</td></tr>
<tr><th><b>Nitrous oxide</b> N<sub>2</sub>O</th><td>",
    );
    say_gas(out, s.n2o, s.b, s.oxide);
    say_carbon(out, s);
    out.say(
        b"</td></tr></tbody>
<tfoot><tr><th>Total</th><td></td><td></td><td class=\"co2e\">",
    );
    say_kilograms(out, s.total);
    out.say(
        b"</td></tr></tfoot>
</table>
</section>
",
    );
}
