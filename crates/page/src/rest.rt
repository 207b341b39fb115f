// What stands below the groups.
ghost use Rattle.std.specs.Prelude.{◌≤◌, length};
ghost use Rattle.printing.specs.Says.{Says};
ghost use Rattle.page.specs.Parts.{farm_text, foot_text, groups_foot, counted_text, exact_text, rest_text};

use crate::Survey;
use crate::bars::{group_scale, of_farm};
use crate::by_source::say_sources;
use crate::gases::say_gas_table;
use crate::head::say_name;
use crate::rows::{say_bars, say_figures, say_together};
use crate::text::{is_below, say_kilograms};
use printing::text::Text;
use printing::{say, say_number};

// The row of the farm, where the book has a record of energy, organic soil or tillage.
fn say_farm(out: &mut Text, s: Survey)
    ensures { Says out.old out.new (farm_text s) }
{
    if !of_farm(s) {
        return;
    }
    let sc = group_scale(s);
    let end = s.groups.wrapping_add(s.co2);
    out.say(
        b"<tbody><tr><th colspan=\"8\"><b>The farm as a whole</b> energy, soil, tillage</th><td class=\"co2e\">",
    );
    say_kilograms(out, s.co2);
    say_bars(out, 9, sc, s.groups, end, is_below(s.co2));
}

// The sums below the groups.
fn say_groups_foot(out: &mut Text, s: Survey)
    ensures { Says out.old out.new (groups_foot s) }
{
    out.say(b"<tfoot><tr><th>Total</th><td></td><td></td>");
    say_figures(out, s.excreted, s.land, s.ch4, s.n2o, s.grazing);
    say_together(out, s.total);
    out.say(
        b"</td></tr></tfoot>
</table>
</section>
",
    );
}

// What is counted, and what is left out.
fn say_counted(out: &mut Text)
    ensures { Says out.old out.new counted_text }
{
    out.say(
        b"<section class=\"two\">
<div>
<h2>Counted</h2>
<ul>
<li>methane from the digestion of cattle</li>
<li>nitrous oxide from cattle manure in store</li>
<li>methane, nitrous oxide and nitrogen for land of pig manure</li>
<li>CO<sub>2</sub> of energy and of organic soil</li>
<li>CO<sub>2</sub> that a change of tillage takes up or gives off</li>
<li>what cattle graze, in CO<sub>2</sub>e</li>
</ul>
</div>
<div>
<h2>Left out</h2>
<ul>
<li>methane from the digestion of pigs</li>
<li>methane from cattle manure</li>
<li>crops</li>
<li>trees</li>
<li>other credits</li>
</ul>
</div>
</section>
",
    );
}

// How exact it is.
fn say_exact(out: &mut Text)
    ensures { Says out.old out.new exact_text }
{
    out.say(
        b"<section>
<h2>How exact this is</h2>
<p class=\"note\">Each record of the book gives whole grams, the third decimal here. From there on everything is added, and nothing is
rounded: the parts of each table make its total to the gram. Only CO<sub>2</sub>e per head is a quotient, rounded to the gram. The figures
are as right as what was entered: feed, head, days and shares.</p>
</section>
",
    );
}

// The foot.
fn say_foot(out: &mut Text, s: Survey)
    ensures { Says out.old out.new (foot_text s) }
{
    out.say(
        b"<footer>
<p id=\"verdict\">",
    );
    say_name(out, s);
    out.say(b". Made from the closed book of ");
    out.say_number(s.records);
    out.say(
        b" records.</p>
</footer>
</main>
</body>
</html>
",
    );
}

// The page of a closed book after the row of its last group.
pub(crate) fn say_rest(out: &mut Text, s: Survey)
    ensures { Says out.old out.new (rest_text s) }
{
    say_farm(out, s);
    say_groups_foot(out, s);
    say_sources(out, s);
    say_gas_table(out, s);
    say_counted(out);
    say_exact(out);
    say_foot(out, s);
}
