// Whole grams as people read them: kilograms with three decimals, thin spaces between thousands, a real minus sign.
#![tactic(auto)]

mod lines;

ghost use Rattle.std.specs.Prelude.{◌≡◌, ◌-◌, ◌≤◌, length, drop, replicate};
ghost use Rattle.printing.specs.Says.{Says};
ghost use Rattle.kilograms.specs.Kilograms.{space_before, in_threes, pointed_before, amount_text, is_below, digits_in, is_grams, sign_text, kilograms_text};

use base::{first_of, rest_of};
pub use lines::{is_right, say_line, say_remark, status};
use printing::say;
use printing::text::Text;

// A thin space before the last n digits, where they are whole threes.
fn say_space(out: &mut Text, n: usize)
    ensures { Says out.old out.new (space_before n) }
{
    if (0 < n) & (n % 3 == 0) {
        out.say(b"\xe2\x80\xaf");
        return;
    }
}

// The last n digits in threes.
fn say_threes(out: &mut Text, digits: &[u8], n: usize)
    requires { n ≤ length digits.now }
    ensures { Says out.old out.new (in_threes (drop (length digits.now - n) digits.now)) }
{
    if n == 0 {
        return;
    }
    let from = rest_of(digits, digits.len() - n);
    out.say(first_of(from, 1));
    say_space(out, n - 1);
    say_threes(out, digits, n - 1);
}

// The first n digits in threes, a point, and the others.
fn say_pointed(out: &mut Text, digits: &[u8], n: usize)
    requires { n ≤ length digits.now }
    ensures { Says out.old out.new (pointed_before n digits.now) }
{
    say_threes(out, first_of(digits, n), n);
    out.say(b".");
    out.say(rest_of(digits, n));
}

// Fewer than four digits are filled up with zeros.
fn say_amount(out: &mut Text, digits: &[u8])
    ensures { Says out.old out.new (amount_text digits.now) }
{
    if 4 <= digits.len() {
        say_pointed(out, digits, digits.len() - 3);
        return;
    }
    out.say(b"0.");
    out.say(first_of(b"000", 3 - digits.len()));
    out.say(digits);
}

fn is_below(word: &[u8]) -> bool
    ensures { result ≡ is_below word.now }
{
    if word.len() == 0 {
        return false;
    }
    word[0] == b'-'
}

fn digits_in(word: &[u8]) -> &[u8]
    ensures { result.now ≡ digits_in word.now }
{
    if is_below(word) {
        return rest_of(word, 1);
    }
    word
}

pub(crate) fn is_grams(word: &[u8]) -> bool
    ensures { result ≡ is_grams word.now }
{
    let digits = digits_in(word);
    (digits.len() <= 20) & typed_words::read_amount(digits, 0).is_some()
}

fn say_sign(out: &mut Text, word: &[u8])
    ensures { Says out.old out.new (sign_text word.now) }
{
    if is_below(word) {
        out.say(b"\xe2\x88\x92");
        return;
    }
}

pub(crate) fn say_kilograms(out: &mut Text, word: &[u8])
    ensures { Says out.old out.new (kilograms_text word.now) }
{
    say_sign(out, word);
    say_amount(out, digits_in(word));
}
