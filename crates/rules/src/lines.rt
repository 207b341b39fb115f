// What a record that is not refused leaves: the account after it with its line, as far as the line fits the room.
ghost use Rattle.std.specs.Prelude.{◌≡◌, ◌<◌, eqb};
ghost use Rattle.base.specs.Choice.{pick};
ghost use Rattle.line_bytes.specs.Lines.{subtotal_kind};
ghost use Rattle.account.specs.Figures.{grouped, group_figures};
ghost use Rattle.account.specs.Range.{Bounded, Grouped};
ghost use Rattle.account.specs.Told.{Small, in_room, no_line_lem, one_line_lem, quiet, detailing};

use crate::figures::{group_figures, sub_summed};
use account::line::Line;
use account::{Account, Figures, Judged, Subtotal, Used, line};

// No line.
pub(crate) fn silent(a: Account) -> Judged
    ensures { result ≡ quiet a }
{
    let none = line::none();
    Judged {
        account: a,
        line: none,
    }
}

// The lines do not fit: the account as it was, and what they would be.
pub(crate) fn full(a: Account, line: Line) -> Judged
    ensures { result ≡ record { account = a; line = line } }
{
    let same = a.by_fields();
    Judged {
        account: same,
        line: line,
    }
}

// One record more, with what is used, the group's subtotal, its figures and its line.
pub(crate) fn detailed(
    a: Account,
    kind: u8,
    group: u16,
    used: Used,
    subtotal: Subtotal,
    f: Figures,
    room: usize,
) -> Judged
    requires { (a.records < 4096) × Bounded a.sums 4096 × Small f }
    ensures { result ≡ in_room room a (detailing a kind group used subtotal f) }
{
    let line = line::one(kind, group, f);
    if room < line_bytes::LINE_SIZE {
        return full(a, line);
    }
    let sums = a.sums;
    let more = sums.plus(f);
    let mut next = a.by_fields();
    next.records = a.records + 1;
    next.used = used;
    next.subtotal = subtotal;
    next.sums = more;
    Judged {
        account: next,
        line: line,
    }
}

// The same under a heading, whose subtotal takes the figures too.
pub(crate) fn grouped_detail(
    a: Account,
    kind: u8,
    group: u16,
    used: Used,
    f: Figures,
    room: usize,
) -> Judged
    requires { (a.records < 4096) × Bounded a.sums 4096 × Grouped a.subtotal 4096 × Small f }
    ensures { result ≡ in_room room a (detailing a kind group used (grouped a.subtotal f) f) }
{
    let s = a.subtotal;
    let subtotal = sub_summed(s, f);
    detailed(a, kind, group, used, subtotal, f, room)
}

// The line of a group with this subtotal; no line where there was no heading.
pub(crate) fn group_line(group: u16, s: Subtotal) -> Line
    ensures { result ≡ pick (eqb group 0) no_line_lem (one_line_lem subtotal_kind group (group_figures s)) }
{
    if group == 0 {
        return line::none();
    }
    let f = group_figures(s);
    line::one(line_bytes::SUBTOTAL, group, f)
}
