// The table of the sources.
ghost use Rattle.std.specs.Prelude.{◌<◌, ◌≤◌, length};
ghost use Rattle.printing.specs.Says.{Says};
ghost use Rattle.page.specs.Parts.{animals_text, gases_text, land_text, source_head, source_name, source_text, sources_foot, sources_text};
ghost use Rattle.page.specs.Parts.{words_text};

use crate::bars::scale;
use crate::rows::{say_bars, say_together};
use crate::text::{is_below, say_cell};
use crate::{Scale, Source, Sources, Survey};
use codec::kinds::{CATTLE, ENERGY, ENTERIC, GRAZING, PIG, SOIL, TILLAGE};
use printing::text::Text;
use printing::{say, say_number};
use typed_words::part;

// What gives off or takes up.
fn say_source_name(out: &mut Text, kind: u64)
    ensures { Says out.old out.new (source_name kind) }
{
    let name = part(
        b"


Digestion of cattle
Cattle manure
Pig manure
Energy
Organic soil

Change of tillage
Grazing",
        b'\n',
        kind as usize,
    );
    out.say(name);
}

// None in the book, or that it takes up, or its own words.
fn say_words(out: &mut Text, kind: u64, seen: bool, up: bool)
    ensures { Says out.old out.new (words_text kind seen up) }
{
    if !seen {
        out.say(b"none in the book");
        return;
    }
    if up {
        out.say(b"takes up");
        return;
    }
    let words = part(
        b"


enteric methane
in store





already CO<sub>2</sub>e",
        b'\n',
        kind as usize,
    );
    out.say(words);
}

// A source, by its kind.
fn say_source_head(out: &mut Text, kind: u64, seen: bool, up: bool)
    ensures { Says out.old out.new (source_head kind seen up) }
{
    out.say(b"<tbody><tr data-kind=\"");
    out.say_number(kind);
    out.say(b"\"><th><b>");
    say_source_name(out, kind);
    out.say(b"</b> ");
    say_words(out, kind, seen, up);
    out.say(b"</th>");
}

// The three gases.
pub(crate) fn say_gases(out: &mut Text, ch4: u64, n2o: u64, co2: u64)
    ensures { Says out.old out.new (gases_text ch4 n2o co2) }
{
    say_cell(out, b"CH&#8324;", ch4);
    say_cell(out, b"N&#8322;O", n2o);
    say_cell(out, b"CO&#8322;", co2);
}

// A source's row.
fn say_source(out: &mut Text, sc: Scale, kind: u64, x: Source)
    requires { 0 < sc.unit }
    ensures { Says out.old out.new (source_text sc kind x) }
{
    let up = is_below(x.co2e);
    say_source_head(out, kind, x.seen, up);
    say_gases(out, x.ch4, x.n2o, x.co2);
    say_together(out, x.co2e);
    say_bars(out, 5, sc, x.from, x.to, up);
}

// The head of the table, and what the animals give off.
fn say_animals(out: &mut Text, sc: Scale, s: Sources)
    requires { 0 < sc.unit }
    ensures { Says out.old out.new (animals_text sc s) }
{
    out.say(
        b"<section>
<h2>Where it comes from</h2>
<p>The same total by source, in kilograms. A minus means that CO<sub>2</sub> is taken up.</p>
<table id=\"sources\" class=\"wide\">
<thead><tr><th>Source</th><th>Methane<br>CH<sub>4</sub></th><th>Nitrous oxide<br>N<sub>2</sub>O</th>
<th>Carbon dioxide<br>CO<sub>2</sub></th><th>Together<br>CO<sub>2</sub>e</th></tr></thead>
",
    );
    say_source(out, sc, ENTERIC, s.enteric);
    say_source(out, sc, CATTLE, s.cattle);
    say_source(out, sc, PIG, s.pig);
    say_source(out, sc, GRAZING, s.grazing);
}

// Energy, organic soil and tillage.
fn say_land(out: &mut Text, sc: Scale, s: Sources)
    requires { 0 < sc.unit }
    ensures { Says out.old out.new (land_text sc s) }
{
    say_source(out, sc, ENERGY, s.energy);
    say_source(out, sc, SOIL, s.soil);
    say_source(out, sc, TILLAGE, s.tillage);
}

// The sums below the sources.
fn say_sources_foot(out: &mut Text, s: Survey)
    ensures { Says out.old out.new (sources_foot s) }
{
    out.say(b"<tfoot><tr><th>Total</th>");
    say_gases(out, s.ch4, s.n2o, s.co2);
    say_together(out, s.total);
    out.say(
        b"</td></tr></tfoot>
</table>
</section>
",
    );
}

// The table of the sources.
pub(crate) fn say_sources(out: &mut Text, s: Survey)
    ensures { Says out.old out.new (sources_text s) }
{
    let x = s.sources;
    let peak = x.soil.to;
    let end = x.tillage.to;
    let sc = scale(peak, end);
    say_animals(out, sc, x);
    say_land(out, sc, x);
    say_sources_foot(out, s);
}
