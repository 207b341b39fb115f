// The figures of a line in kilograms, and sums that one book has or both.
ghost use Rattle.std.specs.Prelude.{◌≡◌, ◌+◌, ◌≤◌, length};
ghost use Rattle.line_bytes.specs.Lines.{figure_count};
ghost use Rattle.printing.specs.Says.{Says};
ghost use Rattle.compare.specs.Figures.{figure_of, figure_name, kilograms, raised, change_text, named_text, now_text, single_text, figure_text};
ghost use Rattle.compare.specs.Figures.{figures_text, only_text, two_sums_text, sum_text};

use crate::records::same;
use codec::numbers::be64;
use line_rows::{FIGURE_NAMES, is_signed};
use printing::text::Text;
use printing::{say, say_pointed};
use typed_words::part;

// Half of the words: of a figure with a sign those from here on are numbers below 0.
const HALF: u64 = 9223372036854775808;

// The word of figure f of a line, 0 where it has no such figure.
fn figure(line: &[u8], f: usize) -> u64
    requires { f ≤ figure_count }
    ensures { result ≡ figure_of line.now f }
{
    let at = 6 + 8 * f;
    if line.len() < at + 8 {
        return 0;
    }
    be64(line, at)
}

// The word of grams in kilograms.
fn say_kilograms(out: &mut Text, f: usize, w: u64)
    requires { f ≤ figure_count }
    ensures { Says out.old out.new (kilograms f w) }
{
    if is_signed(2 + f) & (HALF <= w) {
        out.say(b"-");
        out.say_pointed(u64::MAX - w + 1, 3);
        return;
    }
    out.say_pointed(w, 3);
}

// The number of a word, with 2^63 added where it has a sign.
fn raised(f: usize, w: u64) -> u64
    requires { f ≤ figure_count }
    ensures { result ≡ raised f w }
{
    if !is_signed(2 + f) {
        return w;
    }
    if w < HALF { w + HALF } else { w - HALF }
}

// The new less the old, with its sign.
fn say_change(out: &mut Text, f: usize, x: u64, y: u64)
    requires { f ≤ figure_count }
    ensures { Says out.old out.new (change_text f x y) }
{
    let old = raised(f, x);
    let new = raised(f, y);
    if new < old {
        out.say(b"-");
        out.say_pointed(old - new, 3);
        return;
    }
    out.say(b"+");
    out.say_pointed(new - old, 3);
}

// The name of figure f.
fn say_name(out: &mut Text, f: usize)
    ensures { Says out.old out.new (figure_name f) }
{
    let name = part(&FIGURE_NAMES, b'\n', f);
    out.say(name);
}

// A figure with its name.
fn say_named(out: &mut Text, f: usize, x: u64)
    requires { f ≤ figure_count }
    ensures { Says out.old out.new (named_text f x) }
{
    out.say(b"  ");
    say_name(out, f);
    out.say(b" ");
    say_kilograms(out, f, x);
    out.say(b" kg");
}

// What it is now, and the difference.
fn say_now(out: &mut Text, f: usize, x: u64, y: u64)
    requires { f ≤ figure_count }
    ensures { Says out.old out.new (now_text f x y) }
{
    out.say(b", now ");
    say_kilograms(out, f, y);
    out.say(b", ");
    say_change(out, f, x, y);
}

// A figure alone, where it is not 0.
fn say_single(out: &mut Text, f: usize, x: u64)
    requires { f ≤ figure_count }
    ensures { Says out.old out.new (single_text f x) }
{
    if x == 0 {
        return;
    }
    say_named(out, f, x);
    out.say(b"\n");
}

// A figure alone, or with what it is now, where there is something to tell.
fn say_figure(out: &mut Text, alone: bool, f: usize, x: u64, y: u64)
    requires { f ≤ figure_count }
    ensures { Says out.old out.new (figure_text alone f x y) }
{
    if alone {
        say_single(out, f, x);
        return;
    }
    if x == y {
        return;
    }
    say_named(out, f, x);
    say_now(out, f, x, y);
    out.say(b"\n");
}

// The first n figures of the line s, alone or with those of the line t.
pub(crate) fn say_figures(out: &mut Text, n: usize, alone: bool, s: &[u8], t: &[u8])
    requires { n ≤ figure_count + 1 }
    ensures { Says out.old out.new (figures_text n alone s.now t.now) }
{
    for f in 0..n {
        say_figure(out, alone, f, figure(s, f), figure(t, f));
    }
}

// A sum that only one book has.
fn say_only(out: &mut Text, word: &[u8], n: usize, which: &[u8], s: &[u8])
    requires { n ≤ figure_count + 1 }
    ensures { Says out.old out.new (only_text word.now n which.now s.now) }
{
    out.say(word);
    out.say(which);
    say_figures(out, n, true, s, s);
}

// A sum that both books have.
fn say_two_sums(out: &mut Text, word: &[u8], n: usize, s: &[u8], t: &[u8])
    requires { n ≤ figure_count + 1 }
    ensures { Says out.old out.new (two_sums_text word.now n s.now t.now) }
{
    if same(s, t) {
        return;
    }
    out.say(word);
    out.say(b":\n");
    say_figures(out, n, false, s, t);
}

// A sum, by its line in the old book and in the new one.
pub(crate) fn say_sum(out: &mut Text, word: &[u8], n: usize, s: &[u8], t: &[u8])
    requires { n ≤ figure_count + 1 }
    ensures { Says out.old out.new (sum_text word.now n s.now t.now) }
{
    if s.len() == 0 {
        if t.len() == 0 {
            return;
        }
        say_only(out, word, n, b", only in new:\n", t);
        return;
    }
    if t.len() == 0 {
        say_only(out, word, n, b", only in old:\n", s);
        return;
    }
    say_two_sums(out, word, n, s, t);
}
