// The what-if slip as text: a typed line read as a ration and a change, and a slip put on a line.
#![tactic(auto)]

mod telling;

ghost use Rattle.std.specs.Prelude.{◌≡◌, ◌+◌, ◌≤◌, [], ◌∷◌, length};
ghost use Rattle.printing.specs.Decimal.{decimal, Put};
ghost use Rattle.typed_words.specs.Words.{nth_word};
ghost use Rattle.whatif.specs.Asked.{number_at, change_named, change_in, days_of, ration_read, change_read, words_read, fault_of, asked_of};
ghost use Rattle.std.specs.Result.{result_err};
ghost use Rattle.whatif.specs.Shown.{grams_of, shown, spaced_shown, ration_text, difference, compared, slip_line};

use slip::{Change, Ration, Slip};
pub use telling::{counted, say_answer, say_counts, say_remark, status};

// What is wrong with a line; a word by its place, counted from 0.
#[derive(Clone, Copy)]
pub enum Fault {
    TooLong,
    TooFew,
    TooMany,
    NoNumber(usize),
    NoChange,
}

// What a line asks: nothing where it has no word; where something is wrong, what.
#[derive(Clone, Copy)]
pub enum Asked {
    Nothing,
    Estimate(Ration, Change),
    Wrong(Fault),
}

// Lines so far that were answered, refused and not read.
#[derive(Clone, Copy)]
pub struct Counts {
    pub answered: u64,
    pub refused: u64,
    pub unread: u64,
}

// The word at a place as a number.
fn number_at(line: &[u8], place: usize) -> Result<f64, Fault>
    ensures { result ≡ number_at place line.now }
{
    typed_words::read_decimal(typed_words::word(line, place)).ok_or(Fault::NoNumber(place))
}

// Whole days that a ration can carry.
fn read_days(line: &[u8]) -> Option<u16>
    ensures { result ≡ days_of (nth_word 3 line.now) }
{
    let days = typed_words::read_whole(typed_words::word(line, 3))?;
    if 65535 < days {
        return None;
    }
    Some(days as u16)
}

// The change of this name, capitals or not, with its number.
fn named_change(name: &[u8], x: f64) -> Option<Change>
    ensures { result ≡ change_named name.now x }
{
    if typed_words::is_name(name, b"feed") {
        return Some(Change::Feed(x));
    }
    if typed_words::is_name(name, b"ym") {
        return Some(Change::Ym(x));
    }
    if typed_words::is_name(name, b"head") {
        return Some(Change::Head(x));
    }
    None
}

// The change that a line names; its number is 0 where that is none.
pub(crate) fn change_in(line: &[u8]) -> Option<Change>
    ensures { result ≡ change_in line.now }
{
    let x = typed_words::read_decimal(typed_words::word(line, 5));
    named_change(typed_words::word(line, 4), x.unwrap_or(0.0))
}

fn read_ration(line: &[u8]) -> Result<Ration, Fault>
    ensures { result ≡ ration_read line.now }
{
    let ge = number_at(line, 0)?;
    let ym = number_at(line, 1)?;
    let head = number_at(line, 2)?;
    let days = read_days(line).ok_or(Fault::NoNumber(3))?;
    Ok(Ration { ge, ym, head, days })
}

// The change, its number, and no word behind.
fn read_change(line: &[u8]) -> Result<Change, Fault>
    ensures { result ≡ change_read line.now }
{
    let change = change_in(line).ok_or(Fault::NoChange)?;
    let _x = number_at(line, 5)?;
    if typed_words::word(line, 6).len() != 0 {
        return Err(Fault::TooMany);
    }
    Ok(change)
}

// The six words of a line: the first fault from the left.
fn read_words(line: &[u8]) -> Result<(Ration, Change), Fault>
    ensures value { result ≡ words_read line.now }
    ensures fault { result_err result ≡ fault_of line.now }
{
    if typed_words::word(line, 5).len() == 0 {
        return Err(Fault::TooFew);
    }
    let ration = read_ration(line)?;
    let change = read_change(line)?;
    Ok((ration, change))
}

// GE Ym head days CHANGE X, on a line of at most 1,023 bytes.
pub fn read_line(line: &[u8]) -> Asked
    ensures { result ≡ asked_of line.now }
{
    if 1024 <= line.len() {
        return Asked::Wrong(Fault::TooLong);
    }
    if typed_words::word(line, 0).len() == 0 {
        return Asked::Nothing;
    }
    match read_words(line) {
        Ok((ration, change)) => Asked::Estimate(ration, change),
        Err(fault) => Asked::Wrong(fault),
    }
}

// Thousandths of x, to the nearest, where x can be shown.
fn in_grams(x: f64) -> Option<u64>
    ensures { result ≡ grams_of x }
{
    let y = x * 1000.0 + 0.5;
    if (-1.0 < y) & (y < 1000000000000000.0) {
        return Some(std::num::truncating_f64_to_u64(y));
    }
    None
}

// Three decimals, or a dash.
fn put_shown(out: &mut [u8], at: usize, x: f64) -> usize
    requires { at + 24 ≤ length out.old }
    ensures put { Put out.old out.new at (shown x) result }
    ensures upper_bound { result ≤ at + 24 }
{
    match in_grams(x) {
        Some(grams) => printing::put_thousandths(out, at, grams),
        None => printing::put_byte(out, at, b'-'),
    }
}

fn put_spaced_shown(out: &mut [u8], at: usize, x: f64) -> usize
    requires { at + 25 ≤ length out.old }
    ensures put { Put out.old out.new at (spaced_shown x) result }
    ensures upper_bound { result ≤ at + 25 }
{
    let after = printing::put_byte(out, at, b' ');
    put_shown(out, after, x)
}

fn put_ration(out: &mut [u8], at: usize, r: Ration) -> usize
    requires { at + 96 ≤ length out.old }
    ensures put { Put out.old out.new at (ration_text r) result }
    ensures upper_bound { result ≤ at + 96 }
{
    let ge = put_spaced_shown(out, at, r.ge);
    let ym = put_spaced_shown(out, ge, r.ym);
    let head = put_spaced_shown(out, ym, r.head);
    let after = printing::put_byte(out, head, b' ');
    printing::put_decimal(out, after, r.days as u64)
}

// After less before, from the numbers as they are shown, so that the columns add up.
fn put_difference(out: &mut [u8], at: usize, after: f64, before: f64) -> usize
    requires { at + 25 ≤ length out.old }
    ensures put { Put out.old out.new at (difference after before) result }
    ensures upper_bound { result ≤ at + 25 }
{
    let (Some(a), Some(b)) = (in_grams(after), in_grams(before)) else {
        return printing::put_byte(out, at, b'-');
    };
    if a < b {
        let minus = printing::put_byte(out, at, b'-');
        return printing::put_thousandths(out, minus, b - a);
    }
    printing::put_thousandths(out, at, a - b)
}

// The kg before the change and the difference; a refused slip has dashes.
fn put_compared(out: &mut [u8], at: usize, s: Slip, before: f64) -> usize
    requires { at + 51 ≤ length out.old }
    ensures put { Put out.old out.new at (compared s before) result }
    ensures upper_bound { result ≤ at + 51 }
{
    if s.code != 0 {
        return printing::put_text(out, at, b" - -");
    }
    let kg = put_spaced_shown(out, at, before);
    let space = printing::put_byte(out, kg, b' ');
    put_difference(out, space, s.kg, before)
}

// One line of at most 193 bytes: the slip, and beside it the kg before the change.
pub fn put_slip(out: &mut [u8], at: usize, s: Slip, before: f64) -> usize
    requires { at + 193 ≤ length out.old }
    ensures put { Put out.old out.new at (slip_line s before) result }
    ensures upper_bound { result ≤ at + 193 }
{
    let ration = s.ration;
    let code = printing::put_decimal(out, at, s.code as u64);
    let days = put_ration(out, code, ration);
    let kg = put_spaced_shown(out, days, s.kg);
    let both = put_compared(out, kg, s, before);
    printing::put_byte(out, both, b'\n')
}
