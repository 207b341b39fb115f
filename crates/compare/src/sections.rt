// The steps of a section: its beginning, its records one after the other, and its end.
ghost use Rattle.std.specs.Prelude.{◌≡◌, ◌+◌, ◌≤◌, length};
ghost use Rattle.printing.specs.Ascii.{ascii};
ghost use Rattle.printing.specs.Said.{Said};
ghost use Rattle.printing.specs.Says.{Says};
ghost use Rattle.compare.specs.Inner.{Valid};
ghost use Rattle.compare.specs.InnerSides.{ValidSide, Opens};
ghost use Rattle.compare.specs.Places.{left_of};
ghost use Rattle.line_bytes.specs.Lines.{figure_count};
ghost use Rattle.compare.specs.Figures.{sum_text};
ghost use Rattle.compare.specs.Values.{first_alone, first_pair};
ghost use Rattle.compare.specs.Sections.{span_text, moved_now, moved_under, moved_text, others_text};
ghost use Rattle.compare.specs.Steps.{Steps, side_after, opened, one_told, subtotal_at, is_silent, before_step, old_step, new_step, pair_step};
ghost use Rattle.compare.specs.Steps.{tail_step};
ghost use Rattle.compare.specs.Steps.{section_step};

use crate::figures::say_sum;
use crate::in_words::{say_alone, say_pair};
use crate::places::{Place, end_of_part, reach, subtotal, turn};
use crate::plans::{moved_many, new_told, old_told, planned};
use crate::records::same;
use crate::{Cursor, Side, Stage, Step, at_places};
use base::{first_of, rest_of};
use line_bytes::{FIGURES, LINES_MOST};
use printing::text::Text;
use printing::{say, say_number};

// One book's side of a section: so many records are told after the first ones of a part.
fn side(book: &[u8], p: Place, front: usize, told: usize, end: Place, grouped: bool) -> Side
    requires { Valid book.now p × Valid book.now end }
    ensures { (result ≡ side_after book.now p front told end grouped) × ValidSide book.now result }
{
    let place = reach(book, p, front);
    Side {
        place: place,
        left: told,
        end: end,
        grouped: grouped,
    }
}

// The parts after two places, compared.
pub(crate) fn open(grouped: bool, old: &[u8], p: Place, new: &[u8], q: Place) -> Cursor
    requires { Valid old.now p × Valid new.now q }
    ensures value { result ≡ opened grouped old.now p new.now q }
    ensures opens { Opens old.now new.now result }
{
    let s = end_of_part(old, p);
    let t = end_of_part(new, q);
    let both = planned(old, p, s.number - p.number, new, q, t.number - q.number);
    let first = side(old, p, both.front, old_told(both), s, grouped);
    let second = side(new, q, both.front, new_told(both), t, grouped);
    let moved = moved_many(both);
    Cursor {
        stage: Stage::Section,
        old: first,
        new: second,
        paired: both.paired,
        moved: moved,
        others: both.others,
    }
}

// Numbers from i on, so many.
fn say_span(out: &mut Text, word: &[u8], i: usize, many: usize)
    requires { (1 ≤ many) × (i + many ≤ 18446744073709551615) }
    ensures { Says out.old out.new (span_text word.now i many) }
{
    out.say(word);
    out.say_number(i as u64);
    out.say(b" to ");
    out.say_number((i + many - 1) as u64);
}

// The numbers in the new book, where they are others.
fn say_moved_now(out: &mut Text, i: usize, j: usize, many: usize)
    requires { (1 ≤ many) × (j + many ≤ 18446744073709551615) }
    ensures { Says out.old out.new (moved_now i j many) }
{
    if i == j {
        return;
    }
    say_span(out, b", now ", j, many);
}

fn say_moved_under(out: &mut Text, under: bool)
    ensures { Says out.old out.new (moved_under under) }
{
    if under {
        out.say(b", with the same lines\n");
        return;
    }
    out.say(b", under a changed heading\n");
}

// Records that are only in another order.
pub(crate) fn say_moved(out: &mut Text, under: bool, i: usize, j: usize, many: usize)
    requires { (i + many ≤ 18446744073709551615) × (j + many ≤ 18446744073709551615) }
    ensures { Says out.old out.new (moved_text under i j many) }
{
    if many == 0 {
        return;
    }
    say_span(out, b"records ", i, many);
    out.say(b" are the same in another order");
    say_moved_now(out, i, j, many);
    say_moved_under(out, under);
}

// The same of a section that is just opened.
pub(crate) fn say_moved_in(out: &mut Text, under: bool, old: &[u8], new: &[u8], c: Cursor)
    requires { Opens old.now new.now c }
    ensures { Says out.old out.new (moved_text under c.old.place.number c.new.place.number c.moved) }
{
    let first = c.old;
    let second = c.new;
    let p = first.place;
    let q = second.place;
    say_moved(out, under, p.number, q.number, c.moved);
}

// Whether nothing is to tell in a section.
pub(crate) fn is_silent(under: bool, old: &[u8], new: &[u8], c: Cursor) -> bool
    requires { ValidSide old.now c.old × ValidSide new.now c.new }
    ensures { result ≡ is_silent under old.now new.now c }
{
    let first = c.old;
    let second = c.new;
    let mut left = [0u8; LINES_MOST];
    let mut right = [0u8; LINES_MOST];
    let n = subtotal(old, first.end, first.grouped, &mut left);
    let m = subtotal(new, second.end, second.grouped, &mut right);
    let sums = same(first_of(&left, n), first_of(&right, m));
    let records = (first.left == 0) & ((second.left == 0) & ((c.moved == 0) & (c.others == 0)));
    under & (records & sums)
}

// The beginning of what stands before the groups.
pub(crate) fn before_step(old: &[u8], new: &[u8], c: Cursor, out: &mut [u8]) -> Step
    requires { ValidSide old.now c.old × ValidSide new.now c.new }
    ensures { Steps (before_step old.now new.now c) out.old out.new result }
{
    let first = c.old;
    let second = c.new;
    let d = open(false, old, first.place, new, second.place);
    if is_silent(true, old, new, d) {
        return Step {
            cursor: d,
            written: 0,
        };
    }
    let mut text = Text::new(out);
    text.say(b"before the groups:\n");
    say_moved_in(&mut text, true, old, new, d);
    Step {
        cursor: d,
        written: text.len,
    }
}

// The next record of a book, alone.
fn say_next_alone(out: &mut Text, new: bool, book: &[u8], p: Place)
    requires { Valid book.now p }
    ensures { Says out.old out.new (first_alone new p.number (left_of book.now p)) }
{
    let a = p.account;
    let mut lines = [0u8; LINES_MOST];
    let rest = rest_of(book, p.at);
    let t = turn(a, rest, &mut lines);
    if t.n == 0 {
        return;
    }
    say_alone(
        out,
        new,
        p.number,
        first_of(rest, t.n),
        first_of(&lines, t.written),
    );
}

// The next pair of records.
pub(crate) fn say_next_pair(out: &mut Text, old: &[u8], p: Place, new: &[u8], q: Place)
    requires { Valid old.now p × Valid new.now q }
    ensures { Says out.old out.new (first_pair p.number (left_of old.now p) q.number (left_of new.now q)) }
{
    let a = p.account;
    let b = q.account;
    let mut left = [0u8; LINES_MOST];
    let mut right = [0u8; LINES_MOST];
    let xs = rest_of(old, p.at);
    let ys = rest_of(new, q.at);
    let t = turn(a, xs, &mut left);
    let u = turn(b, ys, &mut right);
    if (t.n == 0) | (u.n == 0) {
        return;
    }
    say_pair(
        out,
        p.number,
        first_of(xs, t.n),
        first_of(&left, t.written),
        q.number,
        first_of(ys, u.n),
        first_of(&right, u.written),
    );
}

// One record on.
fn one_told(book: &[u8], s: Side) -> Side
    requires { ValidSide book.now s }
    ensures { result ≡ one_told book.now s }
{
    let mut next = s;
    let place = reach(book, s.place, 1);
    next.place = place;
    next.left = s.left.saturating_sub(1);
    next
}

// The next record of the old book, of the new one, or of both.
fn old_step(old: &[u8], c: Cursor, out: &mut [u8]) -> Step
    requires { ValidSide old.now c.old }
    ensures { Steps (old_step old.now c) out.old out.new result }
{
    let side = c.old;
    let mut text = Text::new(out);
    say_next_alone(&mut text, false, old, side.place);
    let next = one_told(old, side);
    let mut d = c;
    d.stage = Stage::Section;
    d.old = next;
    Step {
        cursor: d,
        written: text.len,
    }
}

fn new_step(new: &[u8], c: Cursor, out: &mut [u8]) -> Step
    requires { ValidSide new.now c.new }
    ensures { Steps (new_step new.now c) out.old out.new result }
{
    let side = c.new;
    let mut text = Text::new(out);
    say_next_alone(&mut text, true, new, side.place);
    let next = one_told(new, side);
    let mut d = c;
    d.stage = Stage::Section;
    d.new = next;
    Step {
        cursor: d,
        written: text.len,
    }
}

fn pair_step(old: &[u8], new: &[u8], c: Cursor, out: &mut [u8]) -> Step
    requires { ValidSide old.now c.old × ValidSide new.now c.new }
    ensures { Steps (pair_step old.now new.now c) out.old out.new result }
{
    let first = c.old;
    let second = c.new;
    let mut text = Text::new(out);
    say_next_pair(&mut text, old, first.place, new, second.place);
    let next = one_told(old, first);
    let other = one_told(new, second);
    let mut d = c;
    d.stage = Stage::Section;
    d.old = next;
    d.new = other;
    Step {
        cursor: d,
        written: text.len,
    }
}

fn say_others(out: &mut Text, n: usize)
    ensures { Says out.old out.new (others_text n) }
{
    if n == 0 {
        return;
    }
    if n == 1 {
        out.say(b"1 record is the same and gives another line\n");
        return;
    }
    out.say_number(n as u64);
    out.say(b" records are the same and give other lines\n");
}

// The subtotals of a section.
fn say_subtotals(out: &mut Text, old: &[u8], s: Side, new: &[u8], t: Side)
    requires { ValidSide old.now s × ValidSide new.now t }
    ensures { Says out.old out.new (sum_text (ascii "subtotal") figure_count (subtotal_at old.now s) (subtotal_at new.now t)) }
{
    let mut left = [0u8; LINES_MOST];
    let mut right = [0u8; LINES_MOST];
    let n = subtotal(old, s.end, s.grouped, &mut left);
    let m = subtotal(new, t.end, t.grouped, &mut right);
    say_sum(
        out,
        b"subtotal",
        FIGURES,
        first_of(&left, n),
        first_of(&right, m),
    );
}

// The end of a section.
fn tail_step(old: &[u8], new: &[u8], c: Cursor, out: &mut [u8]) -> Step
    requires { ValidSide old.now c.old × ValidSide new.now c.new }
    ensures { Steps (tail_step old.now new.now c) out.old out.new result }
{
    let first = c.old;
    let second = c.new;
    let mut text = Text::new(out);
    say_others(&mut text, c.others);
    say_subtotals(&mut text, old, first, new, second);
    let d = at_places(Stage::NextGroup, first.end, second.end);
    Step {
        cursor: d,
        written: text.len,
    }
}

// The next step of a section.
pub(crate) fn section_step(old: &[u8], new: &[u8], c: Cursor, out: &mut [u8]) -> Step
    requires { ValidSide old.now c.old × ValidSide new.now c.new }
    ensures { Steps (section_step old.now new.now c) out.old out.new result }
{
    let first = c.old;
    let second = c.new;
    if first.left == 0 {
        if second.left == 0 {
            return tail_step(old, new, c, out);
        }
        return new_step(new, c, out);
    }
    if c.paired {
        return pair_step(old, new, c, out);
    }
    old_step(old, c, out)
}
