// The steps between sections: the verdicts, the next group, the total and the last word.
ghost use Rattle.std.specs.Prelude.{◌≡◌, true, ◌≤◌, ◌<◌, length};
ghost use Rattle.printing.specs.Says.{Says};
ghost use Rattle.printing.specs.Said.{Said};
ghost use Rattle.walk.specs.Walk.{entries_of};
ghost use Rattle.compare.specs.Inner.{Valid};
ghost use Rattle.compare.specs.InnerSides.{Opens};
ghost use Rattle.compare.specs.Records.{same};
ghost use Rattle.compare.specs.Places.{left_of, onward, group_at, first_bytes};
ghost use Rattle.compare.specs.Sections.{group_title, total_text, same_each, last_text};
ghost use Rattle.compare.specs.Steps.{Steps, opened, alone_side, removed_step, added_step, both_step, last_step_lem, group_step};
ghost use Rattle.compare.specs.Steps.{name_step, verdict_step};

use crate::figures::say_sum;
use crate::places::{
    Place, after, close_lines, end_of_part, group_at, last_line, reach, start, step,
};
use crate::records::same;
use crate::remarks::say_book;
use crate::sections::{is_silent, open, say_moved_in, say_next_pair};
use crate::{Cursor, Side, Stage, Step, alike_on, at_places, at_stage};
use base::{first_of, rest_of};
use line_bytes::{FIGURES, LINES_MOST};
use printing::text::Text;
use printing::{say, say_number};

// The title of a group's section.
fn say_title(out: &mut Text, group: u64, word: &[u8])
    ensures { Says out.old out.new (group_title group word.now) }
{
    out.say(b"group ");
    out.say_number(group);
    out.say(word);
}

// A group alone: its heading and its part.
fn alone_side(book: &[u8], p: Place) -> Side
    requires { Valid book.now p }
    ensures { result ≡ alone_side book.now p }
{
    let heading = reach(book, p, 1);
    let end = end_of_part(book, heading);
    let left = end.number.saturating_sub(p.number);
    Side {
        place: p,
        left: left,
        end: end,
        grouped: true,
    }
}

// A group that only the old book has, and one that only the new one has.
fn removed_step(old: &[u8], p: Place, q: Place, group: u64, out: &mut [u8]) -> Step
    requires { Valid old.now p × (group ≡ group_at (left_of old.now p)) }
    ensures { Steps (removed_step old.now p q) out.old out.new result }
{
    let mut text = Text::new(out);
    say_title(&mut text, group, b", removed:\n");
    let side = alone_side(old, p);
    let mut d = at_places(Stage::Section, p, q);
    d.old = side;
    Step {
        cursor: d,
        written: text.len,
    }
}

fn added_step(new: &[u8], p: Place, q: Place, group: u64, out: &mut [u8]) -> Step
    requires { Valid new.now q × (group ≡ group_at (left_of new.now q)) }
    ensures { Steps (added_step new.now p q) out.old out.new result }
{
    let mut text = Text::new(out);
    say_title(&mut text, group, b", added:\n");
    let side = alone_side(new, q);
    let mut d = at_places(Stage::Section, p, q);
    d.new = side;
    Step {
        cursor: d,
        written: text.len,
    }
}

// Whether the next records of two books are the same.
fn same_first(old: &[u8], p: Place, new: &[u8], q: Place) -> bool
    requires { Valid old.now p × Valid new.now q }
    ensures { result ≡ same (first_bytes (left_of old.now p)) (first_bytes (left_of new.now q)) }
{
    let a = p.account;
    let b = q.account;
    let xs = rest_of(old, p.at);
    let ys = rest_of(new, q.at);
    let t = step(a, xs);
    let u = step(b, ys);
    same(first_of(xs, t.n), first_of(ys, u.n))
}

// The parts of a group that both books have.
fn open_both(old: &[u8], p: Place, new: &[u8], q: Place) -> Cursor
    requires { Valid old.now p × Valid new.now q }
    ensures value { result ≡ opened true old.now (onward 1 old.now p) new.now (onward 1 new.now q) }
    ensures opens { Opens old.now new.now result }
{
    let s = reach(old, p, 1);
    let t = reach(new, q, 1);
    open(true, old, s, new, t)
}

// A group that both books have.
fn both_step(old: &[u8], new: &[u8], p: Place, q: Place, group: u64, out: &mut [u8]) -> Step
    requires { Valid old.now p × Valid new.now q × (group ≡ group_at (left_of old.now p)) }
    ensures { Steps (both_step old.now new.now p q) out.old out.new result }
{
    let under = same_first(old, p, new, q);
    let d = open_both(old, p, new, q);
    if is_silent(under, old, new, d) {
        return Step {
            cursor: d,
            written: 0,
        };
    }
    let mut text = Text::new(out);
    say_title(&mut text, group, b":\n");
    say_next_pair(&mut text, old, p, new, q);
    say_moved_in(&mut text, under, old, new, d);
    Step {
        cursor: d,
        written: text.len,
    }
}

// The totals of both books.
fn say_totals(out: &mut Text, old: &[u8], p: Place, new: &[u8], q: Place)
    requires { Valid old.now p × Valid new.now q }
    ensures { Says out.old out.new (total_text (left_of old.now p) (left_of new.now q)) }
{
    let mut left = [0u8; LINES_MOST];
    let mut right = [0u8; LINES_MOST];
    let n = close_lines(old, p, &mut left);
    let m = close_lines(new, q, &mut right);
    let s = last_line(first_of(&left, n));
    let t = last_line(first_of(&right, m));
    say_sum(out, b"total", FIGURES + 1, s, t);
}

// Whether the accepted records are the same, one for one.
fn same_each(old: &[u8], new: &[u8]) -> bool
    ensures { result ≡ same_each (entries_of old.now) (entries_of new.now) }
{
    let mut p = start();
    let mut q = start();
    // A cursor in either book and no count: each record has a length of its own.
    while p.at < old.len() {
        let a = p.account;
        let b = q.account;
        let xs = rest_of(old, p.at);
        let ys = rest_of(new, q.at);
        let t = step(a, xs);
        let u = step(b, ys);
        if (t.n == 0) | (u.n == 0) {
            return (t.n == 0) & (u.n == 0);
        }
        if !same(first_of(xs, t.n), first_of(ys, u.n)) {
            return false;
        }
        p = after(old, p, t);
        q = after(new, q, u);
    }
    let b = q.account;
    let u = step(b, rest_of(new, q.at));
    u.n == 0
}

// The last word; alike is whether the bytes after these are the same in both.
fn say_last(out: &mut Text, old: &[u8], new: &[u8], alike: bool)
    ensures { Says out.old out.new (last_text alike old.now new.now) }
{
    if alike_on(alike, old, new) {
        out.say(b"nothing differs\n");
        return;
    }
    if same_each(old, new) {
        out.say(b"no accepted record differs\n");
        return;
    }
    out.say(b"all else is the same\n");
}

// The total, and the last word.
fn last_step(old: &[u8], new: &[u8], alike: bool, p: Place, q: Place, out: &mut [u8]) -> Step
    requires { Valid old.now p × Valid new.now q }
    ensures { Steps (last_step_lem alike old.now new.now p q) out.old out.new result }
{
    let mut text = Text::new(out);
    say_totals(&mut text, old, p, new, q);
    say_last(&mut text, old, new, alike);
    let d = at_stage(Stage::End);
    Step {
        cursor: d,
        written: text.len,
    }
}

// The next group, or the end.
pub(crate) fn group_step(
    old: &[u8],
    new: &[u8],
    alike: bool,
    p: Place,
    q: Place,
    out: &mut [u8],
) -> Step
    requires { Valid old.now p × Valid new.now q }
    ensures { Steps (group_step alike old.now new.now p q) out.old out.new result }
{
    match (group_at(old, p), group_at(new, q)) {
        (None, None) => last_step(old, new, alike, p, q, out),
        (Some(g), None) => removed_step(old, p, q, g, out),
        (None, Some(h)) => added_step(new, p, q, h, out),
        (Some(g), Some(h)) => {
            if g < h {
                return removed_step(old, p, q, g, out);
            }
            if h < g {
                return added_step(new, p, q, h, out);
            }
            both_step(old, new, p, q, g, out)
        }
    }
}

// A book's name, before its verdict.
pub(crate) fn name_step(new: bool, next: Stage, out: &mut [u8]) -> Step
    ensures { Steps (name_step new next) out.old out.new result }
{
    let mut text = Text::new(out);
    say_book(&mut text, new);
    let d = at_stage(next);
    Step {
        cursor: d,
        written: text.len,
    }
}

// A book's verdict.
pub(crate) fn verdict_step(book: &[u8], next: Stage, out: &mut [u8]) -> Step
    ensures { Steps (verdict_step book.now next) out.old out.new result }
{
    let n = why::remarks::say_first(out, why::why(book));
    let d = at_stage(next);
    Step {
        cursor: d,
        written: n,
    }
}
