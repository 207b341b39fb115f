// The lines of a record before they are written: their values, not their bytes.
ghost use Rattle.std.specs.Prelude.{◌≡◌, ◌+◌, ◌≤◌, length, eqb};
ghost use Rattle.std.proofs.lemmas.List.Edits.{sets};
ghost use Rattle.std.proofs.Math.Seq.{paste};
ghost use Rattle.base.specs.Choice.{pick};
ghost use Rattle.line_bytes.specs.Lines.{line_size, total_size, lines_most};
ghost use Rattle.account.specs.Line.{line_with, total_with, bytes_of};
ghost use Rattle.account.specs.Told.{no_line_lem, one_line_lem, closing_line};

use crate::{Figures, Judged, NO_FIGURES};
use grams::units::{Co2, NO_CO2};

// given: how many bytes, and by that what they are: 0 none, LINE_SIZE a detail's line or a subtotal, TOTAL_SIZE the total (the account's sums
// and co2e), LINES_MOST a subtotal and the total. Only this file goes by it (docs/DECISIONS.md, "A line's count of bytes stays its tag").
#[derive(Clone, Copy)]
pub struct Line {
    pub given: usize,
    pub kind: u8,
    pub group: u16,
    pub figures: Figures,
    pub co2e: Co2,
}

pub fn none() -> Line
    ensures { result ≡ no_line_lem }
{
    Line {
        given: 0,
        kind: 0,
        group: 0,
        figures: NO_FIGURES,
        co2e: NO_CO2,
    }
}

// A detail's line or a subtotal.
pub fn one(kind: u8, group: u16, f: Figures) -> Line
    ensures { result ≡ one_line_lem kind group f }
{
    Line {
        given: line_bytes::LINE_SIZE,
        kind: kind,
        group: group,
        figures: f,
        co2e: NO_CO2,
    }
}

// The bytes of the close's lines.
fn closing_size(group: u16) -> usize
    ensures { result ≡ pick (eqb group 0) total_size lines_most }
{
    if group == 0 {
        line_bytes::TOTAL_SIZE
    } else {
        line_bytes::LINES_MOST
    }
}

// The close's: the total, and before it the subtotal of the last group, where there is one.
pub fn closing(group: u16, f: Figures, co2e: Co2) -> Line
    ensures { result ≡ closing_line group f co2e }
{
    let given = closing_size(group);
    Line {
        given: given,
        kind: line_bytes::SUBTOTAL,
        group: group,
        figures: f,
        co2e: co2e,
    }
}

// A detail's line or a subtotal, at w.
fn put_line(out: &mut [u8], w: usize, kind: u8, group: u16, f: Figures)
    requires { w + line_size ≤ length out.old }
    ensures { out.new ≡ sets out.old w (line_with kind group f) }
{
    line_bytes::put_line(out, w, kind, group, f.listed());
}

// The total, at w.
fn put_total(out: &mut [u8], w: usize, f: Figures, co2e: Co2)
    requires { w + total_size ≤ length out.old }
    ensures { out.new ≡ sets out.old w (total_with f co2e) }
{
    line_bytes::put_total(out, w, f.listed(), co2e.word());
}

// Writes a record's lines at w.
pub fn write(out: &mut [u8], w: usize, j: Judged)
    requires { (w + j.line.given ≤ length out.old) × (length (bytes_of j) ≡ j.line.given) }
    ensures { out.new ≡ paste out.old w (bytes_of j) j.line.given }
{
    let line = j.line;
    if line.given == 0 {
        return;
    }
    let f = line.figures;
    if line.given == line_bytes::LINE_SIZE {
        put_line(out, w, line.kind, line.group, f);
        return;
    }
    let account = j.account;
    let s = account.sums;
    let co2e = line.co2e;
    if line.given == line_bytes::TOTAL_SIZE {
        put_total(out, w, s, co2e);
        return;
    }
    put_line(out, w, line.kind, line.group, f);
    put_total(out, w + line_bytes::LINE_SIZE, s, co2e);
}
