// A line's bytes from its figures, and its numbers from its bytes: the fields are those of specs/Lines.antt.
#![tactic(auto)]

ghost use Rattle.std.specs.Prelude.{◌≡◌, ◌∷◌, ◌+◌, ◌-◌, ◌*◌, ◌≤◌, drop, length, replicate};
ghost use Rattle.std.proofs.lemmas.List.Edits.{sets};
ghost use Rattle.codec.specs.Codec.{val_at, values_at, bytes_of};
ghost use Rattle.line_bytes.specs.Lines.{figure, line_fields, line_size, total_fields, total_size, front_size, line_bytes_lem, total_bytes};
ghost use Rattle.line_bytes.specs.Lines.{figure_count, size_of_kind, number_width, is_line_kind, numbers_bytes, is_line};

use codec::kinds::CLOSE;
use codec::numbers::{be8, be16, be64, put2, put8};
use codec::start::put_start;

// How many figures a line has: here alone, and in specs/Lines.antt.
pub const FIGURES: usize = 6;

// The bytes of a line, of the close's line, and the most that one record gives: a subtotal and the close's line.
pub const LINE_SIZE: usize = 6 + 8 * FIGURES;

pub const TOTAL_SIZE: usize = LINE_SIZE + 8;

pub const LINES_MOST: usize = LINE_SIZE + TOTAL_SIZE;

// Kind, group and the figures; and CO2e in the close's line.
pub const LINE_NUMBERS: usize = 2 + FIGURES;

pub const TOTAL_NUMBERS: usize = LINE_NUMBERS + 1;

// The kind of a group's subtotal, a line that no record has the kind of.
pub const SUBTOTAL: u8 = 16;

// Figures, one after the other.
fn put_figures(out: &mut [u8], at: usize, f: &[u64])
    requires { at + 8 * length f.now ≤ length out.old }
    ensures { out.new ≡ sets out.old at (bytes_of (replicate (length f.now) figure) f.now 0) }
{
    let mut p = at;
    for figure in f {
        put8(out, p, *figure);
        p += 8;
    }
}

// The line of a detail or of a subtotal.
pub fn put_line(out: &mut [u8], at: usize, kind: u8, group: u16, f: [u64; FIGURES])
    requires { at + line_size ≤ length out.old }
    ensures { out.new ≡ sets out.old at (line_bytes_lem kind group f) }
{
    put_start(out, at, (LINE_SIZE - 2) as u64, kind as u64);
    put2(out, at + 4, group as u64);
    put_figures(out, at + 6, &f);
}

// The line of the close.
pub fn put_total(out: &mut [u8], at: usize, f: [u64; FIGURES], co2e: u64)
    requires { at + total_size ≤ length out.old }
    ensures { out.new ≡ sets out.old at (total_bytes f co2e) }
{
    put_start(out, at, (TOTAL_SIZE - 2) as u64, CLOSE);
    put2(out, at + 4, 0);
    put_figures(out, at + 6, &f);
    put8(out, at + LINE_SIZE, co2e);
}

// Kind, group and what figures stand behind them.
fn read_numbers(line: &[u8], v: &mut [u64])
    requires { (2 ≤ length v.old) × (8 * length v.old ≤ length line.now + 10) }
    ensures { v.new ≡ val_at line.now 3 1 ∷ val_at line.now 4 2
        ∷ values_at (replicate (length v.old - 2) figure) line.now 6 }
{
    v[0] = be8(line, 3);
    v[1] = be16(line, 4);
    let mut p = 6;
    for i in 2..v.len() {
        v[i] = be64(line, p);
        p += 8;
    }
}

// Kind, group and the figures.
pub fn detail_numbers(line: &[u8]) -> [u64; LINE_NUMBERS]
    requires { line_size ≤ length line.now }
    ensures { result ≡ drop 2 (values_at line_fields line.now 0) }
{
    let mut v = [0; LINE_NUMBERS];
    read_numbers(line, &mut v);
    v
}

// Kind, group, the sums and CO2e.
pub fn total_numbers(line: &[u8]) -> [u64; TOTAL_NUMBERS]
    requires { total_size ≤ length line.now }
    ensures { result ≡ drop 2 (values_at total_fields line.now 0) }
{
    let mut v = [0; TOTAL_NUMBERS];
    read_numbers(line, &mut v);
    v
}

// The bytes of the line at the front of s.
pub fn front_size(s: &[u8]) -> usize
    requires { line_size ≤ length s.now }
    ensures { result ≡ front_size s.now }
{
    if s[3] == CLOSE as u8 {
        TOTAL_SIZE
    } else {
        LINE_SIZE
    }
}

// The bytes of a line of a kind.
pub fn size_of_kind(kind: u64) -> usize
    ensures value { result ≡ size_of_kind kind }
    ensures lower_bound { (line_size ≤ result) × (result ≤ total_size) }
{
    if kind == CLOSE { TOTAL_SIZE } else { LINE_SIZE }
}

// The bytes of a line's number by its place: kind, group, then the figures.
pub fn number_width(place: usize) -> usize
    ensures value { result ≡ number_width place }
    ensures upper_bound { result ≤ 8 }
{
    if place == 0 {
        return 1;
    }
    if place == 1 { 2 } else { 8 }
}

pub fn is_line_kind(kind: u64) -> bool
    ensures { result ≡ is_line_kind kind }
{
    (3 <= kind) & (kind <= codec::LAST_KIND) | (kind == SUBTOTAL as u64)
}

// Whether s begins with a whole line.
pub fn is_line(s: &[u8]) -> bool
    ensures { result ≡ is_line s.now }
{
    if s.len() < LINE_SIZE {
        return false;
    }
    let size = front_size(s);
    if s.len() < size {
        return false;
    }
    (be16(s, 0) == size as u64 - 2) & (s[2] == 1) & is_line_kind(be8(s, 3))
}

// A line from its numbers: kind, group and the figures. The last, CO2e, stands in the close's line alone.
pub fn put_numbers(out: &mut [u8], at: usize, kind: u64, v: &[u64])
    requires kind_in_bounds { at + size_of_kind kind ≤ length out.old }
    requires figure_count_in_bounds { 3 + figure_count ≤ length v.now }
    ensures { out.new ≡ sets out.old at (numbers_bytes kind v.now) }
{
    let size = size_of_kind(kind);
    put_start(out, at, size as u64 - 2, v[0]);
    put2(out, at + 4, v[1]);
    let end = 2 + (size - 6) / 8;
    put_figures(out, at + 6, &v[2..end]);
}
