// The page of a book that is not closed.
ghost use Rattle.std.specs.Prelude.{◌≤◌, length};
ghost use Rattle.printing.specs.Says.{Says};
ghost use Rattle.page.specs.Parts.{advice_text, after_text, before_text, made_of, warning_text};

use crate::Survey;
use crate::head::{say_head, say_name};
use printing::text::Text;
use printing::{say, say_number};

// That it is not for members, up to why.
fn say_warning(out: &mut Text, refused: bool)
    ensures { Says out.old out.new (warning_text refused) }
{
    if refused {
        out.say(
            b"<div class=\"not\">
<h2>Not for members</h2>
<p><b>The book of this farm is refused.</b> There are no figures on this page, because a record of the book is wrong. Please do not mail it.</p>
</div>
<section>
<h2>Why</h2>
<p>",
        );
        return;
    }
    out.say(
        b"<div class=\"not\">
<h2>Not for members</h2>
<p><b>The book of this farm is not closed.</b> There are no figures on this page, because the year may still change. Please do not mail it.</p>
</div>
<section>
<h2>Why</h2>
<p>",
    );
}

// What to do.
fn say_advice(out: &mut Text, refused: bool)
    ensures { Says out.old out.new (advice_text refused) }
{
    if refused {
        out.say(
            b"</p>
</section>
<section>
<h2>What to do</h2>
<ol>
<li>Mend the record that is named here, or write the book again.</li>
<li>Close the book. It is then read once more from the first record to the last.</li>
<li>Make this page again: it will have the figures.</li>
</ol>
</section>
",
        );
        return;
    }
    out.say(
        b"</p>
</section>
<section>
<h2>What to do</h2>
<ol>
<li>Open the book and enter what is missing.</li>
<li>Close the book. It is then read once more from the first record to the last.</li>
<li>Make this page again: it will have the figures.</li>
</ol>
</section>
",
    );
}

// Of how many records.
fn say_made_of(out: &mut Text, refused: bool)
    ensures { Says out.old out.new (made_of refused) }
{
    if refused {
        out.say(b". Made from a book that is refused after ");
        return;
    }
    out.say(b". Made from a book that is not closed, of ");
}

// Up to why's sentence.
pub(crate) fn say_before(out: &mut Text, s: Survey, refused: bool)
    ensures { Says out.old out.new (before_text s refused) }
{
    say_head(out, s);
    say_warning(out, refused);
}

// After why's sentence.
pub(crate) fn say_after(out: &mut Text, s: Survey, refused: bool)
    ensures { Says out.old out.new (after_text s refused) }
{
    say_advice(out, refused);
    out.say(
        b"<footer>
<p id=\"verdict\">",
    );
    say_name(out, s);
    say_made_of(out, refused);
    out.say_number(s.records);
    out.say(
        b" records.</p>
</footer>
</main>
</body>
</html>
",
    );
}
