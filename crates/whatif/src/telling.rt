// What people are told: the slip of a line, what is wrong with one that gives none, and the counts at the end.
ghost use Rattle.std.specs.Prelude.{◌≡◌, ◌-◌, ◌≤◌, length};
ghost use Rattle.typed_words.specs.Words.{nth_word};
ghost use Rattle.printing.specs.Said.{Said};
ghost use Rattle.printing.specs.Says.{Says};
ghost use Rattle.slip.specs.Slip.{within, what_if, double};
ghost use Rattle.whatif.specs.Asked.{unless};
ghost use Rattle.whatif.specs.Told.{columns, number_row, row_at, row_of, expected, quoted, no_number_lem, wrong_number, fault_text, line_start, unread_text};
ghost use Rattle.whatif.specs.Told.{out_of_ration, changed_place, out_place, changed_word, out_text, refused_text, refusal_text, slip_text};
ghost use Rattle.whatif.specs.Told.{answer_text, remark_text, answered_by, with_slip, counted_of, counts_text, status_of};

use crate::{Asked, Counts, Fault, change_in, put_slip, read_line};
use base::first_of;
use printing::text::Text;
use slip::{Change, Ration};

fn say_quoted(out: &mut Text, word: &[u8])
    ensures { Says out.old out.new (quoted word.now) }
{
    out.say(b"\"");
    names::say_shown(out, word);
    out.say(b"\"");
}

fn say_column(out: &mut Text, place: usize)
    ensures { Says out.old out.new (nth_word place columns) }
{
    out.say(typed_words::word(b"GE Ym head days CHANGE X", place));
}

fn say_expected(out: &mut Text, row: usize)
    ensures { Says out.old out.new (expected row) }
{
    let table =
        b" 1 to 1000 MJ; 0.5 to 20 per cent; 1 to 20000; a whole number, 1 to 366; 0.5 to 2";
    out.say(b"; expected");
    out.say(typed_words::part(table, b';', row));
}

fn number_row(change: Change) -> usize
    ensures { result ≡ number_row change }
{
    match change {
        Change::Feed(_) => 4,
        Change::Ym(_) => 1,
        Change::Head(_) => 4,
    }
}

// The row of the word at a place; X with no change has a factor's.
fn row_at(line: &[u8], place: usize) -> usize
    ensures { result ≡ row_at place line.now }
{
    if place != 5 {
        return place;
    }
    match change_in(line) {
        Some(change) => number_row(change),
        None => 4,
    }
}

fn row_of(place: usize, change: Change) -> usize
    ensures { result ≡ row_of place change }
{
    if place == 5 {
        return number_row(change);
    }
    place
}

fn say_no_number(out: &mut Text, place: usize)
    ensures { Says out.old out.new (no_number_lem place) }
{
    if place == 3 {
        out.say(b" is no count of days");
        return;
    }
    out.say(b" is no number");
}

fn say_wrong_number(out: &mut Text, line: &[u8], place: usize)
    ensures { Says out.old out.new (wrong_number place line.now) }
{
    let row = row_at(line, place);
    say_column(out, place);
    out.say(b": ");
    say_quoted(out, typed_words::word(line, place));
    say_no_number(out, place);
    say_expected(out, row);
}

fn say_fault(out: &mut Text, line: &[u8], fault: Fault)
    ensures { Says out.old out.new (fault_text fault line.now) }
{
    match fault {
        Fault::TooLong => out.say(b"the line is too long: at most 1023 bytes before its #"),
        Fault::TooFew => out.say(b"expected GE Ym head days CHANGE X"),
        Fault::TooMany => {
            out.say(b"one word too many: ");
            say_quoted(out, typed_words::word(line, 6));
        }
        Fault::NoChange => {
            say_quoted(out, typed_words::word(line, 4));
            out.say(b" is no change; expected feed, ym or head");
        }
        Fault::NoNumber(place) => say_wrong_number(out, line, place),
    }
}

fn say_start(out: &mut Text, number: u64)
    ensures { Says out.old out.new (line_start number) }
{
    out.say(b"line ");
    out.say_number(number);
}

fn say_unread(out: &mut Text, number: u64, line: &[u8], fault: Fault)
    ensures { Says out.old out.new (unread_text number fault line.now) }
{
    say_start(out, number);
    out.say(b": not read: ");
    say_fault(out, line, fault);
    out.say(b"\n");
}

// A NaN is in no range.
fn in_range(x: f64, lo: f64, hi: f64) -> bool
    ensures { result ≡ within lo hi x }
{
    (lo <= x) & (x <= hi)
}

// The place where a test fails, else the other.
fn place_unless(good: bool, place: usize, other: usize) -> usize
    ensures { result ≡ unless good place other }
{
    if good { other } else { place }
}

fn out_of_ration(r: Ration) -> usize
    ensures { result ≡ out_of_ration r }
{
    let days = place_unless((1 <= r.days) & (r.days <= 366), 3, 5);
    let head = place_unless(in_range(r.head, 1.0, 20000.0), 2, days);
    let ym = place_unless(in_range(r.ym, 0.5, 20.0), 1, head);
    place_unless(in_range(r.ge, 1.0, 1000.0), 0, ym)
}

fn changed_place(change: Change) -> usize
    ensures { result ≡ changed_place change }
{
    match change {
        Change::Feed(_) => 0,
        Change::Ym(_) => 1,
        Change::Head(_) => 2,
    }
}

fn out_place(code: u8, r: Ration, change: Change) -> usize
    ensures { result ≡ out_place code r change }
{
    if code == 15 {
        return changed_place(change);
    }
    out_of_ration(r)
}

fn say_changed(out: &mut Text, code: u8)
    ensures { Says out.old out.new (changed_word code) }
{
    if code == 15 {
        out.say(b"the changed ");
        return;
    }
}

fn say_out(out: &mut Text, code: u8, ration: Ration, change: Change)
    ensures { Says out.old out.new (out_text code ration change) }
{
    let place = out_place(code, ration, change);
    let row = row_of(place, change);
    say_changed(out, code);
    say_column(out, place);
    out.say(b" is out of its range");
    say_expected(out, row);
}

fn say_refused(out: &mut Text, number: u64, code: u8, ration: Ration, change: Change)
    ensures { Says out.old out.new (refused_text number code ration change) }
{
    say_start(out, number);
    out.say(b": refused ");
    out.say_number(code as u64);
    out.say(b": ");
    say_out(out, code, ration, change);
    out.say(b"\n");
}

fn say_refusal(out: &mut Text, number: u64, ration: Ration, change: Change)
    ensures { Says out.old out.new (refusal_text number ration change) }
{
    let slip = slip::what_if(ration, change);
    if slip.code == 0 {
        return;
    }
    say_refused(out, number, slip.code, ration, change);
}

fn tell_remark(text: &mut Text, number: u64, line: &[u8])
    ensures { Says text.old text.new (remark_text number line.now) }
{
    let asked = read_line(line);
    match asked {
        Asked::Nothing => (),
        Asked::Estimate(ration, change) => say_refusal(text, number, ration, change),
        Asked::Wrong(fault) => say_unread(text, number, line, fault),
    }
}

// What standard error is told of a line.
pub fn say_remark(out: &mut [u8], number: u64, line: &[u8]) -> usize
    ensures { Said out.old out.new 0 (remark_text number line.now) result }
{
    let mut text = Text::new(out);
    tell_remark(&mut text, number, line);
    text.len
}

// The kg before the change is that of feed times 1.
fn say_slip(out: &mut Text, ration: Ration, change: Change)
    ensures { Says out.old out.new (slip_text ration change) }
{
    let mut line = [0u8; 193];
    let slip = slip::what_if(ration, change);
    let before = slip::what_if(ration, Change::Feed(1.0));
    let n = put_slip(&mut line, 0, slip, before.kg);
    out.say(first_of(&line, n));
}

fn tell_answer(text: &mut Text, line: &[u8])
    ensures { Says text.old text.new (answer_text line.now) }
{
    let asked = read_line(line);
    match asked {
        Asked::Nothing => (),
        Asked::Estimate(ration, change) => say_slip(text, ration, change),
        Asked::Wrong(_) => (),
    }
}

// What standard output is told of a line.
pub fn say_answer(out: &mut [u8], line: &[u8]) -> usize
    ensures { Said out.old out.new 0 (answer_text line.now) result }
{
    let mut text = Text::new(out);
    tell_answer(&mut text, line);
    text.len
}

fn is_answered(ration: Ration, change: Change) -> bool
    ensures { result ≡ answered_by ration change }
{
    let slip = slip::what_if(ration, change);
    slip.code == 0
}

// The counts with one line more.
pub fn counted(counts: Counts, line: &[u8]) -> Counts
    ensures { result ≡ counted_of counts line.now }
{
    let asked = read_line(line);
    match asked {
        Asked::Nothing => counts,
        Asked::Estimate(ration, change) => with_slip(counts, is_answered(ration, change)),
        Asked::Wrong(_) => Counts {
            answered: counts.answered,
            refused: counts.refused,
            unread: base::one_more(counts.unread),
        },
    }
}

fn with_slip(counts: Counts, answered: bool) -> Counts
    ensures { result ≡ with_slip counts answered }
{
    if answered {
        return Counts {
            answered: base::one_more(counts.answered),
            refused: counts.refused,
            unread: counts.unread,
        };
    }
    Counts {
        answered: counts.answered,
        refused: base::one_more(counts.refused),
        unread: counts.unread,
    }
}

pub fn say_counts(out: &mut [u8], counts: Counts) -> usize
    ensures { Said out.old out.new 0 (counts_text counts) result }
{
    let mut text = Text::new(out);
    text.say_number(counts.answered);
    text.say(b" answered, ");
    text.say_number(counts.refused);
    text.say(b" refused, ");
    text.say_number(counts.unread);
    text.say(b" not read\n");
    text.len
}

// The byte 0 where nothing failed and every line was answered, else 1.
pub fn status(counts: Counts, done: bool) -> u8
    ensures { result ≡ status_of counts done }
{
    if done & (counts.refused == 0) & (counts.unread == 0) {
        return b'0';
    }
    b'1'
}
