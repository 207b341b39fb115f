// The head, the total and the head of the groups.
ghost use Rattle.std.specs.Prelude.{◌≤◌, length};
ghost use Rattle.printing.specs.Says.{Says};
ghost use Rattle.page.specs.Parts.{groups_head, head_text, name_text, title_text, top_text, total_text};

use crate::Survey;
use crate::style::say_style;
use crate::text::say_kilograms;
use printing::text::Text;
use printing::{say, say_number};

// The farm and the year, where the farm record was accepted.
pub(crate) fn say_name(out: &mut Text, s: Survey)
    ensures { Says out.old out.new (name_text s) }
{
    let Some(name) = s.name else {
        out.say(b"No farm");
        return;
    };
    out.say(b"Farm ");
    out.say_number(name.farm);
    out.say(b", ");
    out.say_number(name.year);
}

// What it is.
fn say_title(out: &mut Text, closed: bool)
    ensures { Says out.old out.new (title_text closed) }
{
    if closed {
        out.say(b": greenhouse gas statement");
        return;
    }
    out.say(b": not for members");
}

// What stands above everything else, on either page.
pub(crate) fn say_head(out: &mut Text, s: Survey)
    ensures { Says out.old out.new (head_text s) }
{
    out.say(
        b"<!doctype html>
<html lang=\"en\">
<head>
<meta charset=\"utf-8\">
<meta name=\"viewport\" content=\"width=device-width\">
<title>",
    );
    say_name(out, s);
    say_title(out, s.closed);
    say_style(out);
    say_name(out, s);
    out.say(
        b"\"; font:8pt sans-serif; color:#566059 } } }
</style>
</head>
<body>
<main>
<header>
<h1>",
    );
    say_name(out, s);
    out.say(
        b"</h1>
<p>Greenhouse gas statement</p>
</header>
",
    );
}

// The total.
fn say_total(out: &mut Text, s: Survey)
    ensures { Says out.old out.new (total_text s) }
{
    out.say(
        b"<div class=\"total\">
<p>Total of the year</p>
<p id=\"total\" class=\"sum\">",
    );
    say_kilograms(out, s.total);
    out.say(
        b" <span>kg CO<sub>2</sub>e</span></p>
<p class=\"soft\">CO<sub>2</sub>e makes the gases comparable: it says how many kilograms of CO<sub>2</sub> warm as much.
Three tables show how the total is made up, and each ends in it.</p>
</div>
",
    );
}

// The head of the groups.
fn say_groups_head(out: &mut Text, s: Survey)
    ensures { Says out.old out.new (groups_head s) }
{
    out.say(
        b"<section>
<h2>By group</h2>
<p>In kilograms. CO<sub>2</sub>e is ",
    );
    out.say_number(s.a);
    out.say(b" &times; CH<sub>4</sub> + ");
    out.say_number(s.b);
    out.say(
        b" &times; N<sub>2</sub>O + grazing. The bars, end to end, make the total.</p>
<table id=\"groups\" class=\"wide\">
<thead><tr><th>Group</th><th>Head</th><th>CO<sub>2</sub>e<br>per head</th><th>Nitrogen<br>excreted</th><th>Nitrogen<br>for land</th>
<th>Methane<br>CH<sub>4</sub></th><th>Nitrous oxide<br>N<sub>2</sub>O</th><th>Grazing<br>CO<sub>2</sub>e</th>
<th>Together<br>CO<sub>2</sub>e</th></tr></thead>
",
    );
}

// The page of a closed book up to the row of its first group.
pub(crate) fn say_top(out: &mut Text, s: Survey)
    ensures { Says out.old out.new (top_text s) }
{
    say_head(out, s);
    say_total(out, s);
    say_groups_head(out, s);
}
