// What is told of a line that is not read or refused.
ghost use Rattle.std.specs.Prelude.{◌≡◌, ◌++◌, ◌-◌, ◌≤◌, eqb, length, is_some};
ghost use Rattle.base.specs.Choice.{pick};
ghost use Rattle.printing.specs.Ascii.{ascii};
ghost use Rattle.printing.specs.Says.{Says};
ghost use Rattle.typed_words.specs.Words.{nth_word};
ghost use Rattle.typed_words.specs.Amounts.{amount_of};
ghost use Rattle.names.specs.Names.{expected, sentence};
ghost use Rattle.writer.specs.Remarks.{quoted, no_kind_text, field_text, expected_text, is_number, after_comma, has_comma, none_text, fault_text};
ghost use Rattle.writer.specs.Remarks.{no_value_text, unread_text};
ghost use Rattle.writer.specs.Remarks.{range_text, either_text, many_text, takes_text, names_text, kind_takes, values_here, count_text, sum_of};
ghost use Rattle.writer.specs.Remarks.{made_text, together_text, used_days, days_over_text};
ghost use Rattle.writer.specs.Remarks.{shares_text, parts_text, grazed_text, over_text, ground_text, refused_text};

use crate::typed_line::{Entry, has_field};
use account::{Account, Refusal, Used};
use codec::kinds::{CATTLE, ENTERIC, FARM, FARM_FACTORS, PIG};
use printing::text::Text;
use printing::{say, say_number, say_pointed};

fn say_quoted(out: &mut Text, word: &[u8])
    ensures { Says out.old out.new (quoted word.now) }
{
    out.say(b"\"");
    names::say_shown(out, word);
    out.say(b"\"");
}

// The word behind n others.
fn say_word(out: &mut Text, text: &[u8], n: usize)
    ensures { Says out.old out.new (quoted (nth_word n text.now)) }
{
    say_quoted(out, typed_words::word(text, n));
}

fn say_no_kind(out: &mut Text, text: &[u8])
    ensures { Says out.old out.new (no_kind_text text.now) }
{
    out.say(b"not read: ");
    say_word(out, text, 0);
    out.say(b" is no kind of record; expected ");
    names::say_kinds(out);
    out.say(b" or its number");
}

fn say_field(out: &mut Text, row: u64, i: usize)
    ensures { Says out.old out.new (field_text row i) }
{
    if !has_field(row, i) {
        return;
    }
    out.say(b",");
    names::say_field(out, row, i);
}

fn say_expected(out: &mut Text, row: u64, i: usize)
    ensures { Says out.old out.new (expected_text row i) }
{
    if !has_field(row, i) {
        return;
    }
    out.say(b"; expected");
    names::say_expected(out, row, i);
}

// A number, however many decimals it has.
fn is_number(word: &[u8]) -> bool
    ensures { result ≡ is_number word.now }
{
    typed_words::read_amount(word, word.len()).is_some()
}

fn is_whole(word: &[u8]) -> bool
    ensures { result ≡ is_some (amount_of 0 word.now) }
{
    typed_words::read_amount(word, 0).is_some()
}

// What stands after the first comma.
fn after_comma(word: &[u8]) -> &[u8]
    ensures { result.now ≡ after_comma word.now }
{
    let p = base::find(word, b',');
    if p == word.len() {
        return base::rest_of(word, p);
    }
    base::rest_of(word, p + 1)
}

// A comma stands where the point should.
fn has_comma(word: &[u8], decimals: usize) -> bool
    ensures { result ≡ has_comma decimals word.now }
{
    let places = after_comma(word);
    (is_whole(typed_words::part(word, b',', 0)) & is_whole(places)) & (places.len() <= decimals)
}

// What the word for field i is not.
fn say_none(out: &mut Text, row: u64, i: usize, word: &[u8])
    ensures { Says out.old out.new (none_text row i word.now) }
{
    let decimals = names::decimals(row, i);
    if decimals == 0 {
        out.say(b" is no whole number");
        return;
    }
    if is_number(word) {
        out.say(b" has too many decimals: at most ");
        out.say_number(decimals as u64);
        return;
    }
    if has_comma(word, decimals) {
        out.say(b" is no number: use a point");
        return;
    }
    out.say(b" is no number");
}

fn say_fault(out: &mut Text, row: u64, i: usize, word: &[u8])
    ensures { Says out.old out.new (fault_text row i word.now) }
{
    if names::is_choice(row, i) {
        out.say(b" is none of ");
        names::say_choices(out, row, i);
        return;
    }
    say_none(out, row, i, word);
    say_expected(out, row, i);
}

fn say_no_value(out: &mut Text, row: u64, i: usize, text: &[u8])
    requires { 1 ≤ i }
    ensures { Says out.old out.new (no_value_text row i text.now) }
{
    let value = i - 1;
    out.say(b"not read: ");
    names::say_kind(out, row);
    say_field(out, row, value);
    out.say(b": ");
    say_word(out, text, i);
    say_fault(out, row, value, typed_words::word(text, i));
}

pub(crate) fn say_unread(out: &mut Text, kind: u64, place: usize, text: &[u8])
    ensures { Says out.old out.new (unread_text kind place text.now) }
{
    if place == 0 {
        out.say(b"not read: the line is too long: at most 1023 bytes before its #");
        return;
    }
    if place == 1 {
        say_no_kind(out, text);
        return;
    }
    let row = crate::typed_line::row_of_line(kind, text);
    say_no_value(out, row, place - 1, text);
}

fn say_range(out: &mut Text, row: u64, field: usize, text: &[u8])
    ensures { Says out.old out.new (range_text row field text.now) }
{
    let i = field.saturating_sub(1);
    out.say(b" field ");
    out.say_number(field as u64);
    out.say(b":");
    names::say_field(out, row, i);
    out.say(b": ");
    say_word(out, text, field);
    say_out_of_range(out, row, i);
}

fn say_out_of_range(out: &mut Text, row: u64, i: usize)
    ensures { Says out.old out.new (ascii " is out of its range; expected" ++ expected row i) }
{
    out.say(b" is out of its range; expected");
    names::say_expected(out, row, i);
}

// The values of a farm record of either version.
fn say_either(out: &mut Text)
    ensures { Says out.old out.new either_text }
{
    names::say_fields(out, 1);
    out.say(b", or");
    names::say_fields(out, codec::LAST_ROW);
}

fn say_many(out: &mut Text, n: u64)
    ensures { Says out.old out.new (many_text n) }
{
    out.say_number(n);
    if n == 1 {
        out.say(b" value");
        return;
    }
    out.say(b" values");
}

// How many values the kind takes.
fn say_takes(out: &mut Text, kind: u64, row: u64)
    ensures { Says out.old out.new (takes_text kind row) }
{
    if kind == FARM {
        out.say_number(by_row::table::values_of(FARM) as u64);
        out.say(b" or ");
        say_many(out, by_row::table::values_of(FARM_FACTORS) as u64);
        return;
    }
    say_many(out, by_row::table::values_of(row) as u64);
}

fn say_names(out: &mut Text, kind: u64, row: u64)
    ensures { Says out.old out.new (names_text kind row) }
{
    if kind == FARM {
        say_either(out);
        return;
    }
    names::say_fields(out, row);
}

fn say_here(out: &mut Text, count: u64)
    ensures { Says out.old out.new (pick (eqb count 1) (ascii " is here; expected") (ascii " are here; expected")) }
{
    if count == 1 {
        out.say(b" is here; expected");
        return;
    }
    out.say(b" are here; expected");
}

fn say_kind_takes(out: &mut Text, kind: u64, row: u64)
    ensures { Says out.old out.new (kind_takes kind row) }
{
    out.say(b": ");
    names::say_kind(out, kind);
    out.say(b" takes ");
    say_takes(out, kind, row);
}

fn say_values_here(out: &mut Text, kind: u64, row: u64, count: u64)
    ensures { Says out.old out.new (values_here kind row count) }
{
    out.say(b", and ");
    out.say_number(count);
    say_here(out, count);
    say_names(out, kind, row);
}

fn say_count(out: &mut Text, kind: u64, row: u64, count: u64)
    ensures { Says out.old out.new (count_text kind row count) }
{
    say_kind_takes(out, kind, row);
    say_values_here(out, kind, row, count);
}

fn sum(a: u64, b: u64) -> u64
    ensures { result ≡ sum_of a b }
{
    if u64::MAX - a < b {
        return u64::MAX;
    }
    a + b
}

// What there was before, what is typed, and both.
fn say_made(out: &mut Text, d: usize, before: u64, typed: u64)
    requires { d ≤ 15 }
    ensures { Says out.old out.new (made_text d before typed) }
{
    out.say_pointed(before, d);
    out.say(b" and ");
    out.say_pointed(typed, d);
    out.say(b" make ");
    out.say_pointed(sum(before, typed), d);
}

fn say_together(out: &mut Text, d: usize, before: u64, typed: u64, most: u64)
    requires { d ≤ 15 }
    ensures { Says out.old out.new (together_text d before typed most) }
{
    say_made(out, d, before, typed);
    out.say(b", and ");
    out.say_pointed(most, d);
    out.say(b" are the most");
}

fn used_days(u: Used, kind: u64) -> u64
    ensures { result ≡ used_days u kind }
{
    if kind == ENTERIC {
        return u.enteric as u64;
    }
    if kind == CATTLE {
        return u.nitrogen as u64;
    }
    u.pig as u64
}

fn say_days_over(out: &mut Text, a: Account, e: Entry)
    requires { length e.values ≡ 13 }
    ensures { Says out.old out.new (days_over_text a e) }
{
    let typed = e.values[0];
    let used = a.used;
    let before = used_days(used, e.kind);
    out.say(b": days: ");
    say_together(out, 0, before, typed, 366);
}

fn say_shares(out: &mut Text, e: Entry)
    requires { length e.values ≡ 13 }
    ensures { Says out.old out.new (shares_text e) }
{
    let solid = e.values[6];
    let liquid = e.values[7];
    let pasture = e.values[8];
    out.say(b": the three shares must make 100.00 per cent: together ");
    out.say_pointed(sum(sum(solid, liquid), pasture), 2);
}

fn say_parts(out: &mut Text, e: Entry)
    requires { length e.values ≡ 13 }
    ensures { Says out.old out.new (parts_text e) }
{
    let volatilised = e.values[8];
    let leached = e.values[10];
    out.say(b": the volatilised and the leached part must make at most 1.000: together ");
    out.say_pointed(sum(volatilised, leached), 3);
}

fn say_grazed(out: &mut Text, a: Account, e: Entry)
    requires { length e.values ≡ 13 }
    ensures { Says out.old out.new (grazed_text a e) }
{
    let typed = e.values[3];
    let used = a.used;
    out.say(b": fraction: ");
    say_together(out, 2, used.grazed as u64, typed, 10000);
}

fn say_over(out: &mut Text, a: Account, e: Entry)
    requires { length e.values ≡ 13 }
    ensures { Says out.old out.new (over_text a e) }
{
    if e.kind == CATTLE {
        say_shares(out, e);
        return;
    }
    if e.kind == PIG {
        say_parts(out, e);
        return;
    }
    say_grazed(out, a, e);
}

fn say_sentence(out: &mut Text, code: u64)
    ensures { Says out.old out.new (ascii ": " ++ sentence code) }
{
    out.say(b": ");
    names::say_sentence(out, code);
}

fn say_ground(out: &mut Text, refusal: Refusal, a: Account, e: Entry, text: &[u8])
    requires { length e.values ≡ 13 }
    ensures { Says out.old out.new (ground_text refusal a e text.now) }
{
    let row = crate::typed_line::row_of_line(e.kind, text);
    if refusal.code == 7 {
        say_range(out, row, refusal.field as usize, text);
        return;
    }
    if refusal.code == 4 {
        say_count(out, e.kind, row, e.count as u64);
        return;
    }
    if refusal.code == 9 {
        say_days_over(out, a, e);
        return;
    }
    if refusal.code == 10 {
        say_over(out, a, e);
        return;
    }
    say_sentence(out, refusal.code as u64);
}

pub(crate) fn say_refused(out: &mut Text, refusal: Refusal, a: Account, e: Entry, text: &[u8])
    requires { length e.values ≡ 13 }
    ensures { Says out.old out.new (refused_text refusal a e text.now) }
{
    out.say(b"refused ");
    out.say_number(refusal.code as u64);
    say_ground(out, refusal, a, e, text);
}
