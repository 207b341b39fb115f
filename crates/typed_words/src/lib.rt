// What a person types: the words of a line, names, whole numbers, decimals as their nearest doubles, and numbers with a field's decimals.
#![tactic(auto)]

ghost use Rattle.std.specs.Prelude.{◌≡◌, ◌+◌, ◌^◌, ◌≤◌, ◌<◌, length, take, drop, replicate, IfSome, Some};
ghost use Rattle.typed_words.specs.Words.{is_blank, leading_of, trimmed, first_word, past_word, nth_word, same_text_lem, lowered, nth_part};
ghost use Rattle.typed_words.specs.Numbers.{takes, digits_from, whole_of, decimal_of, double};
ghost use Rattle.typed_words.specs.Amounts.{with_digit, number_from, amount_of};

use base::{find, first_of, rest_of};

// Space, tab, and the carriage return that some lines end in.
fn is_blank(b: u8) -> bool
    ensures { result ≡ is_blank b }
{
    (b == b' ') | (b == 9) | (b == 13)
}

// How many bytes at the start of s are blanks, or are none.
fn leading(s: &[u8], blanks: bool) -> usize
    ensures value { result ≡ leading_of blanks s.now }
    ensures upper_bound { result ≤ length s.now }
{
    s.iter()
        .position(|b| is_blank(*b) != blanks)
        .unwrap_or(s.len())
}

fn past_blanks(s: &[u8]) -> &[u8]
    ensures { result.now ≡ trimmed s.now }
{
    rest_of(s, leading(s, true))
}

fn first_word(s: &[u8]) -> &[u8]
    ensures { result.now ≡ first_word s.now }
{
    let t = past_blanks(s);
    first_of(t, leading(t, false))
}

fn past_word(s: &[u8]) -> &[u8]
    ensures { result.now ≡ past_word s.now }
{
    let t = past_blanks(s);
    rest_of(t, leading(t, false))
}

// The word behind n others: empty where there are no more.
pub fn word(s: &[u8], n: usize) -> &[u8]
    ensures { result.now ≡ nth_word n s.now }
{
    if n == 0 {
        return first_word(s);
    }
    word(past_word(s), n - 1)
}

// 10^15 stands for all that is more, which no field holds.
const ALL_MORE: u64 = 1_000_000_000_000_000;

// v with one more digit behind its own.
fn with_digit(v: u64, b: u8) -> u64
    requires v_bound { v ≤ 1000000000000000 }
    requires le_b { 48 ≤ b }
    ensures { result ≡ with_digit v b }
{
    (v * 10 + (b - 48) as u64).min(ALL_MORE)
}

// The digits of s behind those of start, any count of them.
fn number(start: u64, s: &[u8]) -> Option<u64>
    requires { start ≤ 1000000000000000 }
    ensures value { result ≡ number_from start s.now }
    ensures value_bound { IfSome result (λ v. v ≤ 1000000000000000) }
{
    let mut v = start;
    for &b in s {
        if !b.is_ascii_digit() {
            return None;
        }
        v = with_digit(v, b);
    }
    Some(v)
}

// Whether b is a digit that v can take behind its own, of which there are at most 14.
fn takes_digit(v: u64, b: u8) -> bool
    ensures { result ≡ takes v b }
{
    b.is_ascii_digit() & (v < 100_000_000_000_000)
}

// The digits of s behind those of start, at most 15 of them in all, leading zeros not counted. No twin of `number`: it stops at the first that is one
// too many, however many come after it.
fn digits(start: u64, s: &[u8]) -> Option<u64>
    requires { start < 1000000000000000 }
    ensures value { result ≡ digits_from start s.now }
    ensures value_bound { IfSome result (λ v. v < 1000000000000000) }
{
    let mut v = start;
    for &b in s {
        if !takes_digit(v, b) {
            return None;
        }
        v = v * 10 + (b - 48) as u64;
    }
    Some(v)
}

// A whole number below 10^15.
pub fn read_whole(s: &[u8]) -> Option<u64>
    ensures { result ≡ whole_of s.now }
{
    if s.len() == 0 {
        return None;
    }
    digits(0, s)
}

// Both numbers are doubles exactly, so the one rounding of the quotient gives the nearest.
fn nearest(n: u64, k: usize) -> f64
    requires n_bound { n < 1000000000000000 }
    requires k_bound { k ≤ 15 }
    ensures { result ≡ double n (10 ^ k) }
{
    let power = 10u64.pow(k as u32);
    (n as f64) / (power as f64)
}

// What stands behind the point at index p, or nothing where there is none.
fn behind_point(s: &[u8], p: usize) -> &[u8]
    requires { p ≤ length s.now }
    ensures { result.now ≡ drop (p + 1) s.now }
{
    if p == s.len() {
        return rest_of(s, p);
    }
    rest_of(s, p + 1)
}

// A decimal's nearest double.
pub fn read_decimal(s: &[u8]) -> Option<f64>
    ensures { result ≡ decimal_of s.now }
{
    let p = find(s, b'.');
    let fraction = behind_point(s, p);
    let places = fraction.len();
    let is_decimal = (0 < p) & (places <= 15);
    if !is_decimal {
        return None;
    }
    let whole = digits(0, first_of(s, p))?;
    let all = digits(whole, fraction)?;
    Some(nearest(all, places))
}

pub fn is_word(s: &[u8], word: &[u8]) -> bool
    ensures { result ≡ same_text_lem s.now word.now }
{
    s == word
}

// Whether the word is the name, capitals or not.
pub fn is_name(word: &[u8], name: &[u8]) -> bool
    ensures { result ≡ same_text_lem (lowered word.now) name.now }
{
    word.len() == name.len()
        && word
            .iter()
            .map(|b| b.to_ascii_lowercase())
            .zip(name)
            .all(|(small, b)| small == *b)
}

// The piece behind n separators: empty where there are not so many.
pub fn part(s: &[u8], sep: u8, n: usize) -> &[u8]
    ensures { result.now ≡ nth_part sep n s.now }
{
    let p = find(s, sep);
    if n == 0 {
        return first_of(s, p);
    }
    part(behind_point(s, p), sep, n - 1)
}

// v with k zeros behind it.
fn with_zeros(v: u64, k: usize) -> u64
    requires { v ≤ 1000000000000000 }
    ensures { number_from v (replicate k 48) ≡ Some result }
{
    let mut end = v;
    for i in 0..k {
        end = with_digit(end, b'0');
    }
    end
}

// A number with at most so many decimals, in units of the last.
pub fn read_amount(word: &[u8], decimals: usize) -> Option<u64>
    ensures { result ≡ amount_of decimals word.now }
{
    let p = find(word, b'.');
    let fraction = behind_point(word, p);
    let places = fraction.len();
    let places_fit = (0 < p) & ((p == word.len()) | (0 < places)) & (places <= decimals);
    if !places_fit {
        return None;
    }
    let whole = number(0, first_of(word, p))?;
    let all = number(whole, fraction)?;
    Some(with_zeros(all, decimals - places))
}
