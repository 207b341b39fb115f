// The cascade: steps of CO2e, counted from 2^63 on, and the bars between them.
ghost use Rattle.std.specs.Prelude.{◌≡◌, ◌<◌, ◌≤◌, length};
ghost use Rattle.printing.specs.Says.{Says};
ghost use Rattle.page.specs.Bars.{unit_of, scale_of, place_of, rect_text, mark_text, bar_text};
ghost use Rattle.page.specs.Figures.{of_farm, group_scale};

use crate::{Scale, Survey};
use printing::text::Text;
use printing::{say, say_number};

// The step before any row.
pub(crate) const LOWEST_STEP: u64 = 9223372036854775808;

// A thousandth of the way, rounded up, and at least 1.
fn unit(way: u64) -> u64
    ensures { (result ≡ unit_of way) × (0 < result) }
{
    way.div_ceil(1000).max(1)
}

// The scale of a cascade that rises to a peak and then goes to its end.
pub(crate) fn scale(peak: u64, end: u64) -> Scale
    ensures { (result ≡ scale_of peak end) × (0 < result.unit) }
{
    let lo = LOWEST_STEP.min(end);
    let hi = peak.max(end);
    let unit = unit(hi.saturating_sub(lo));
    Scale { lo, unit }
}

// The scale of the groups.
pub(crate) fn group_scale(s: Survey) -> Scale
    ensures { (result ≡ group_scale s) × (0 < result.unit) }
{
    scale(s.groups, s.groups.wrapping_add(s.co2))
}

// Whether a record is the farm's.
pub(crate) fn of_farm(s: Survey) -> bool
    ensures { result ≡ of_farm s }
{
    let x = s.sources;
    x.energy.seen | (x.soil.seen | x.tillage.seen)
}

// Where a step stands, of 1000.
fn place(sc: Scale, step: u64) -> u64
    requires { 0 < sc.unit }
    ensures { result ≡ place_of sc step }
{
    step.saturating_sub(sc.lo) / sc.unit
}

// From the smaller to the greater of two places; hollow where CO2 is taken up.
fn say_rect(out: &mut Text, up: bool, p: u64, q: u64)
    ensures { Says out.old out.new (rect_text up p q) }
{
    if up {
        out.say(b" class=\"up\" x=\"");
        out.say_number(p.min(q));
        out.say(b"\" y=\"1\" width=\"");
        out.say_number(p.abs_diff(q));
        out.say(b"\" height=\"6\"");
        return;
    }
    out.say(b" x=\"");
    out.say_number(p.min(q));
    out.say(b"\" y=\"0\" width=\"");
    out.say_number(p.abs_diff(q));
    out.say(b"\" height=\"8\"");
}

// A mark at zero, where a step is below it.
fn say_mark(out: &mut Text, sc: Scale)
    requires { 0 < sc.unit }
    ensures { Says out.old out.new (mark_text sc) }
{
    if LOWEST_STEP <= sc.lo {
        return;
    }
    let z = place(sc, LOWEST_STEP);
    out.say(b"<line class=\"zero\" x1=\"");
    out.say_number(z);
    out.say(b"\" y1=\"0\" x2=\"");
    out.say_number(z);
    out.say(b"\" y2=\"8\"></line>");
}

// The bar of a row that leads from one step to another.
pub(crate) fn say_bar(out: &mut Text, sc: Scale, from: u64, to: u64, up: bool)
    requires { 0 < sc.unit }
    ensures { Says out.old out.new (bar_text sc from to up) }
{
    let p = place(sc, from);
    let q = place(sc, to);
    out.say(b"<svg viewBox=\"0 0 1000 8\" preserveAspectRatio=\"none\" aria-hidden=\"true\"><rect");
    say_rect(out, up, p, q);
    out.say(b"></rect>");
    say_mark(out, sc);
    out.say(b"</svg>");
}
