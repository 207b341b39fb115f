// Decimal text: numbers written into a buffer that the caller lends.
#![tactic(auto)]

pub mod text; // text.rt: a text in a buffer that the caller lends

ghost use Rattle.std.specs.Prelude.{◌≡◌, ◌+◌, ◌*◌, ◌≤◌, ◌<◌, length, take, drop, ◌∷◌, []};
ghost use Rattle.base.specs.Signed.{signed_of};
ghost use Rattle.printing.specs.Decimal.{digit, decimal, signed, thousandths, last_digits, without_last, pointed, spaced, numbers_line, Put};
ghost use Rattle.printing.specs.Said.{Said};

use base::first_of;

// The digits before the last, then the last.
fn put_digits(out: &mut [u8], at: usize, v: u64) -> usize
    requires { at + length (decimal v) ≤ length out.old }
    ensures { Put out.old out.new at (decimal v) result }
{
    if v < 10 {
        return put_byte(out, at, 48 + v as u8);
    }
    let end = put_digits(out, at, v / 10);
    put_byte(out, end, 48 + (v % 10) as u8)
}

pub fn put_byte(out: &mut [u8], at: usize, b: u8) -> usize
    requires { at < length out.old }
    ensures { Put out.old out.new at (b ∷ []) result }
{
    out[at] = b;
    at + 1
}

pub fn put_decimal(out: &mut [u8], at: usize, v: u64) -> usize
    requires { at + 20 ≤ length out.old }
    ensures put { Put out.old out.new at (decimal v) result }
    ensures upper_bound { result ≤ at + 20 }
{
    put_digits(out, at, v)
}

// The signed number that stands in w in two's complement.
pub fn put_signed(out: &mut [u8], at: usize, w: u64) -> usize
    requires { at + 20 ≤ length out.old }
    ensures put { Put out.old out.new at (signed (signed_of w)) result }
    ensures upper_bound { result ≤ at + 20 }
{
    if w < 9223372036854775808 {
        return put_decimal(out, at, w);
    }
    let minus = put_byte(out, at, b'-');
    put_digits(out, minus, u64::MAX - w + 1)
}

fn put_spaced(out: &mut [u8], at: usize, v: u64) -> usize
    requires { at + 21 ≤ length out.old }
    ensures put { Put out.old out.new at (32 ∷ decimal v) result }
    ensures upper_bound { result ≤ at + 21 }
{
    let after = put_byte(out, at, b' ');
    put_decimal(out, after, v)
}

// The numbers, each with a space before it.
fn put_rest(out: &mut [u8], at: usize, values: &[u64]) -> usize
    requires { at + 21 * length values.now ≤ length out.old }
    ensures put { Put out.old out.new at (spaced values.now) result }
    ensures upper_bound { result ≤ at + 21 * length values.now }
{
    let mut end = at;
    for &v in values {
        end = put_spaced(out, end, v);
    }
    end
}

// One line: at most 21 bytes for each number, and one more.
pub fn put_numbers(out: &mut [u8], at: usize, values: &[u64]) -> usize
    requires { at + 21 * length values.now < length out.old }
    ensures put { Put out.old out.new at (numbers_line values.now) result }
    ensures upper_bound { result ≤ at + 21 * length values.now + 1 }
{
    if values.len() == 0 {
        return put_byte(out, at, b'\n');
    }
    let first = put_decimal(out, at, values[0]);
    let end = put_rest(out, first, &values[1..]);
    put_byte(out, end, b'\n')
}

fn put_digit(out: &mut [u8], at: usize, d: u64) -> usize
    requires { (at < length out.old) × (d < 10) }
    ensures { Put out.old out.new at (digit d ∷ []) result }
{
    put_byte(out, at, 48 + d as u8)
}

// v thousandths: kilograms of v grams, to the gram.
pub fn put_thousandths(out: &mut [u8], at: usize, v: u64) -> usize
    requires { at + 24 ≤ length out.old }
    ensures put { Put out.old out.new at (thousandths v) result }
    ensures upper_bound { result ≤ at + 24 }
{
    let whole = put_decimal(out, at, v / 1000);
    let point = put_byte(out, whole, b'.');
    let tenth = put_digit(out, point, v / 100 % 10);
    let hundredth = put_digit(out, tenth, v / 10 % 10);
    put_digit(out, hundredth, v % 10)
}

// The last d digits of v.
fn put_last(out: &mut [u8], at: usize, v: u64, d: usize) -> usize
    requires { at + d ≤ length out.old }
    ensures { Put out.old out.new at (last_digits d v) result }
{
    if d == 0 {
        return at;
    }
    let end = put_last(out, at, v / 10, d - 1);
    put_byte(out, end, 48 + (v % 10) as u8)
}

// v without its last d digits.
fn without_last(v: u64, d: usize) -> u64
    ensures { result ≡ without_last d v }
{
    if d == 0 {
        return v;
    }
    without_last(v / 10, d - 1)
}

// v as a number with d decimals, in units of the last.
pub fn put_pointed(out: &mut [u8], at: usize, v: u64, d: usize) -> usize
    requires { at + 21 + d ≤ length out.old }
    ensures put { Put out.old out.new at (pointed d v) result }
    ensures upper_bound { result ≤ at + 21 + d }
{
    let whole = put_decimal(out, at, without_last(v, d));
    if d == 0 {
        return whole;
    }
    let point = put_byte(out, whole, b'.');
    put_last(out, point, v, d)
}

pub fn put_text(out: &mut [u8], at: usize, text: &[u8]) -> usize
    requires { at + length text.now ≤ length out.old }
    ensures { Put out.old out.new at text.now result }
{
    let end = at + text.len();
    out[at..end].copy_from_slice(text);
    end
}

// As much of the text as fits: what is said to people is cut off at the buffer's end.
pub fn say(out: &mut [u8], at: usize, text: &[u8]) -> usize
    requires { at ≤ length out.old }
    ensures { Said out.old out.new at text.now result }
{
    let room = out.len() - at;
    if text.len() <= room {
        return put_text(out, at, text);
    }
    put_text(out, at, first_of(text, room))
}

pub fn say_number(out: &mut [u8], at: usize, v: u64) -> usize
    requires { at ≤ length out.old }
    ensures { Said out.old out.new at (decimal v) result }
{
    let mut digits = [0u8; 20];
    let n = put_decimal(&mut digits, 0, v);
    say(out, at, first_of(&digits, n))
}

// The number with up to 15 decimals, as far as there is room.
pub fn say_pointed(out: &mut [u8], at: usize, v: u64, d: usize) -> usize
    requires { (at ≤ length out.old) × (d ≤ 15) }
    ensures { Said out.old out.new at (pointed d v) result }
{
    let mut digits = [0u8; 36];
    let n = put_pointed(&mut digits, 0, v, d);
    say(out, at, first_of(&digits, n))
}
