// Kilograms to the gram, figures and cells.
ghost use Rattle.std.specs.Prelude.{◌≡◌, ◌≤◌, length};
ghost use Rattle.printing.specs.Says.{Says};
ghost use Rattle.page.specs.Text.{last_three, threes_by, amount_text, below, kilograms, figure_text, cell_text};

use printing::text::Text;
use printing::{say, say_number};

// The last three digits, zeros among them.
fn say_three(out: &mut Text, v: u64)
    ensures { Says out.old out.new (last_three v) }
{
    let digits = [
        48 + (v / 100 % 10) as u8,
        48 + (v / 10 % 10) as u8,
        48 + (v % 10) as u8,
    ];
    out.say(&digits);
}

// The digits in threes, with a thin space between, at most so many.
fn say_threes(out: &mut Text, v: u64, most: usize)
    ensures { Says out.old out.new (threes_by most v) }
{
    if most == 0 {
        out.say_number(v);
        return;
    }
    if v < 1000 {
        out.say_number(v);
        return;
    }
    say_threes(out, v / 1000, most - 1);
    out.say(b"\xe2\x80\xaf");
    say_three(out, v);
}

// Grams as kilograms, the grams in softer ink.
fn say_amount(out: &mut Text, v: u64)
    ensures { Says out.old out.new (amount_text v) }
{
    say_threes(out, v / 1000, 6);
    out.say(b"<small>.");
    say_three(out, v);
    out.say(b"</small>");
}

// Whether a word stands for a number below zero.
pub(crate) fn is_below(w: u64) -> bool
    ensures { result ≡ below w }
{
    9223372036854775808 <= w
}

// The grams that a word stands for, as kilograms.
pub(crate) fn say_kilograms(out: &mut Text, w: u64)
    ensures { Says out.old out.new (kilograms w) }
{
    if is_below(w) {
        out.say(b"\xe2\x88\x92");
        say_amount(out, w.wrapping_neg());
        return;
    }
    say_amount(out, w);
}

// Nothing where there are none.
pub(crate) fn say_figure(out: &mut Text, w: u64)
    ensures { Says out.old out.new (figure_text w) }
{
    if w == 0 {
        return;
    }
    say_kilograms(out, w);
}

// A cell, which bears its label for narrow screens.
pub(crate) fn say_cell(out: &mut Text, label: &[u8], w: u64)
    ensures { Says out.old out.new (cell_text label.now w) }
{
    out.say(b"<td data-l=\"");
    out.say(label);
    out.say(b"\">");
    say_figure(out, w);
    out.say(b"</td>");
}
