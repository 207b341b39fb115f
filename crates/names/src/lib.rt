// The names of kinds, fields and classes, what is expected of a field, and the sentences of the numbers: the one table of them, for every program.
#![tactic(auto)]

pub mod hints; // hints.rt: what was given in place of a book
pub mod usual; // usual.rt: which values are usual

ghost use Rattle.std.specs.Prelude.{◌≡◌, ◌++◌, ◌-◌, ◌≤◌, length, get_or, drop};
ghost use Rattle.codec.specs.Table.{fields};
ghost use Rattle.printing.specs.Ascii.{ascii};
ghost use Rattle.printing.specs.Said.{Said};
ghost use Rattle.printing.specs.Says.{Says};
ghost use Rattle.typed_words.specs.Words.{same_text_lem, lowered};
ghost use Rattle.names.specs.Names.{table_line, kind_name, kind_names, field_names, field_name, cell_of, is_choice, choices_of, word_for};
ghost use Rattle.names.specs.Names.{choice_word, choices_most, chosen_from, chosen, label_of, unit_of, help_of};
ghost use Rattle.names.specs.Names.{expected_table, choices_text, expected, decimals_at, unit_text, value_text, class_name};
ghost use Rattle.names.specs.Names.{sentence_table, sentence, printed_byte, shown};

use base::rest_of;
use line_rows::say_form;
use printing::text::Text;
use printing::{say, say_pointed};
use typed_words::{is_name, part, word};

// The line of what is no row of the book's table.
const NO_ROW: u64 = codec::LAST_ROW + 1;

// No field has more words.
const CHOICES_MOST: usize = 9;

// The names of the kinds, a line for each, and one for the farm record of version 2.
const KINDS: [u8; 84] = *b"record
farm
heading
enteric
cattle
pig
energy
soil
close
tillage
grazing
farm
record";

// The names of each kind's fields, a line for each row, with a comma between.
const FIELD_NAMES: [u8; 454] = *b"
 farm number, year, warming set
 group, class, head
 days, GE, Ym
 days, feed, protein, milk, milk protein, gain, solid share, liquid share, pasture share
 days, feed, VS excretion, VS factor, MCF, protein, N factor, direct EF, volatilised part, volatilised EF, leached part, leached EF
 source, amount, factor
 area
 records before it
 zone, texture, change, years, area
 region, column, live weight, fraction
 farm number, year, CH4 factor, N2O factor";

// The words of the fields that are one of a few named things, by row and field, with a comma between.
const CHOICES: [u8; 434] = *b"

;milking, dry, heifer, pig;






boreal-shield-west, atlantic-maritime, boreal-plains, boreal-shield-east, mixedwood-plains, semiarid-prairies, montane-cordillera, \
pacific-maritime, subhumid-prairies;coarse, medium, fine;\
intensive-to-reduced, reduced-to-no, intensive-to-no, reduced-to-intensive, no-to-reduced, no-to-intensive;;
atlantic, quebec, ontario, manitoba, saskatchewan, alberta, british-columbia;cows, heifers, calves;;
";

// The unit of each field that has one, by row and field, with a blank before it.
const UNITS: [u8; 157] = *b"


; MJ; per cent
; kg; per cent; kg; per cent; g; per cent; per cent; per cent
; kg;;;; per cent;;;;;;
; units; g CO2 per unit
 ha

;;;; ha
;; kg; per cent
";

// The line k of a text, counted from 0; from the last on all are the same.
fn line_of(text: &[u8], last: u64, k: u64) -> &[u8]
    ensures { result.now ≡ table_line last k text.now }
{
    part(text, b'\n', k.min(last) as usize)
}

// The name of the row's kind; what is no row of the book's is a record.
pub fn say_kind(out: &mut Text, kind: u64)
    ensures { Says out.old out.new (kind_name kind) }
{
    out.say(line_of(&KINDS, NO_ROW, kind));
}

// Whether the word is the kind's name, capitals or not.
pub fn is_kind_name(word: &[u8], kind: u64) -> bool
    ensures { result ≡ same_text_lem (lowered word.now) (kind_name kind) }
{
    is_name(word, line_of(&KINDS, NO_ROW, kind))
}

fn say_next(out: &mut Text, kind: u64)
    ensures { Says out.old out.new (ascii ", " ++ kind_name kind) }
{
    out.say(b", ");
    say_kind(out, kind);
}

// The names of all kinds.
pub fn say_kinds(out: &mut Text)
    ensures { Says out.old out.new kind_names }
{
    say_kind(out, 1);
    for kind in 2..codec::LAST_KIND + 1 {
        say_next(out, kind);
    }
}

// The names of the kind's fields.
pub fn say_fields(out: &mut Text, kind: u64)
    ensures { Says out.old out.new (field_names kind) }
{
    out.say(line_of(&FIELD_NAMES, NO_ROW, kind));
}

// The name of field i, counted from 0, with a blank before it.
pub fn say_field(out: &mut Text, kind: u64, i: usize)
    ensures { Says out.old out.new (field_name kind i) }
{
    out.say(part(line_of(&FIELD_NAMES, NO_ROW, kind), b',', i));
}

// A text without its first byte.
fn without_first(text: &[u8]) -> &[u8]
    ensures { result.now ≡ drop 1 text.now }
{
    if text.len() == 0 {
        return text;
    }
    rest_of(text, 1)
}

// The name of field i without the blank.
pub fn say_label(out: &mut Text, kind: u64, i: usize)
    ensures { Says out.old out.new (label_of kind i) }
{
    out.say(without_first(part(line_of(&FIELD_NAMES, NO_ROW, kind), b',', i)));
}

// The text of field i of a row, in a table with a semicolon between fields.
fn cell(table: &[u8], row: u64, i: usize) -> &[u8]
    ensures { result.now ≡ cell_of row i table.now }
{
    part(line_of(table, NO_ROW, row), b';', i)
}

// Whether field i is one of a few named things.
pub fn is_choice(row: u64, i: usize) -> bool
    ensures { result ≡ is_choice row i }
{
    let words = cell(&CHOICES, row, i);
    0 < words.len()
}

// The words of field i, with a comma between.
pub fn say_choices(out: &mut Text, row: u64, i: usize)
    ensures { Says out.old out.new (choices_of row i) }
{
    out.say(cell(&CHOICES, row, i));
}

// The word for the number v in a list of words.
fn nth_choice(words: &[u8], v: usize) -> &[u8]
    ensures { result.now ≡ word_for words.now v }
{
    word(part(words, b',', v.saturating_sub(1)), 0)
}

// The word of field i for the number v.
pub fn say_choice(out: &mut Text, row: u64, i: usize, v: u64)
    ensures { Says out.old out.new (choice_word row i v) }
{
    out.say(nth_choice(cell(&CHOICES, row, i), v as usize));
}

// The number of the word in a list of words, capitals or not, where it is one of them.
fn choice_in(words: &[u8], typed: &[u8]) -> Option<u64>
    ensures { result ≡ chosen_from choices_most 0 words.now (lowered typed.now) }
{
    for k in 0..CHOICES_MOST {
        if is_name(typed, nth_choice(words, k + 1)) {
            return Some((k + 1) as u64);
        }
    }
    None
}

// The number of the word among those of field i, where it is one of them.
pub fn choice(typed: &[u8], row: u64, i: usize) -> Option<u64>
    ensures { result ≡ chosen row i typed.now }
{
    choice_in(cell(&CHOICES, row, i), typed)
}

fn say_range(out: &mut Text, row: u64, i: usize)
    ensures { Says out.old out.new (cell_of row i expected_table) }
{
    let text = cell(
        b"
 0 to 4294967295; 1900 to 2200; 1 or 2 (or the CH4 and the N2O factor in its place)
 1 to 65535; 1 to 4; 0 to 20000
 1 to 366; 0 to 1000.00 MJ per head and day; 0 to 20.00 per cent
 1 to 366; 0 to 50.00 kg per head and day; 0 to 40.00 per cent; 0 to 80.00 kg per head and day; 0 to 8.00 per cent; \
0 to 3000 g per head and day; 0 to 100.00 per cent; 0 to 100.00 per cent; 0 to 100.00 per cent
 1 to 366; 0 to 10.00 kg per head and day; 0 to 0.5000; 0 to 2.000; 0 to 1.000; 0 to 40.00 per cent; 0 to 2.000; \
0 to 0.10000; 0 to 1.000; 0 to 0.10000; 0 to 1.000; 0 to 0.10000
 1 to 8 (the documents give no names); 0 to 1000000.0 units; 0 to 10000000 g CO2 per unit
 0 to 100000.00 ha
 0 to 65535
 1 to 9; 1 to 3; 1 to 6; 1 to 100; 0 to 100000.00 ha
 1 to 7; 1 to 3; 0 to 2000 kg; 0 to 100.00 per cent
 0 to 4294967295; 1900 to 2200; 1 to 1000; 1 to 1000",
        row,
        i,
    );
    out.say(text);
}

fn say_bracketed(out: &mut Text, row: u64, i: usize)
    ensures { Says out.old out.new (choices_text row i) }
{
    if !is_choice(row, i) {
        return;
    }
    out.say(b" (");
    say_choices(out, row, i);
    out.say(b")");
}

// What is expected of field i, with a blank before it.
pub fn say_expected(out: &mut Text, row: u64, i: usize)
    ensures { Says out.old out.new (expected row i) }
{
    say_range(out, row, i);
    say_bracketed(out, row, i);
}

// The unit of field i, with a blank before it.
pub fn say_unit(out: &mut Text, row: u64, i: usize)
    ensures { Says out.old out.new (unit_text row i) }
{
    out.say(cell(&UNITS, row, i));
}

// The unit of field i without the blank.
pub fn say_unit_name(out: &mut Text, row: u64, i: usize)
    ensures { Says out.old out.new (unit_of row i) }
{
    out.say(without_first(cell(&UNITS, row, i)));
}

// What field i is, in a few words.
pub fn say_help(out: &mut Text, row: u64, i: usize)
    ensures { Says out.old out.new (help_of row i) }
{
    let text = cell(
        b"
number of the farm;year of the book;1 for the factors 21 and 310 or 2 for 23 and 296
number of the group above those before it;what animals the group has;animals in the group
days that the ration was fed;gross energy a head and day;part of the gross energy that becomes CH4
days that the ration was fed;dry matter a head and day;crude protein of the dry matter;milk a head and day;protein of the milk;\
weight gained a head and day;share of the manure stored solid;share of the manure stored liquid;share of the manure left on pasture
days that the ration was fed;feed a head and day;volatile solids excreted by kg of feed;volatile solids adjusted to the diet;\
methane conversion factor of the handling;crude protein of the feed;excreted nitrogen adjusted to the diet;\
N2O-N straight from the store by kg of N;part of the N that goes into the air;N2O-N by kg of that part;\
part of the N that is leached;N2O-N by kg of that part
number of the energy source (the documents give no names);units used in the year;CO2 of a unit
area of organic soil
records before the close (left out it is filled in)
ecozone of the land;texture of the soil;change of tillage;years since the change;area of the change
region of the farm;which animals graze;live weight of an animal;part of the yearly intake that is grazed
number of the farm;year of the book;CO2e of a kg of CH4;CO2e of a kg of N2O",
        row,
        i,
    );
    out.say(text);
}

// The value of field i as it is typed.
pub fn say_value(out: &mut Text, row: u64, i: usize, v: u64)
    ensures { Says out.old out.new (value_text row i v) }
{
    if is_choice(row, i) {
        say_choice(out, row, i, v);
        return;
    }
    let d = decimals(row, i);
    out.say_pointed(v, d);
}

// The digit at index i; 0 where there is none.
fn digit_at(digits: &[u8], i: usize) -> usize
    ensures { result ≡ get_or digits.now i 0 - 48 }
{
    if digits.len() <= i {
        return 0;
    }
    digits[i].saturating_sub(b'0') as usize
}

// How many decimals field i has; 0 where there is no such field.
pub fn decimals(kind: u64, i: usize) -> usize
    ensures value { result ≡ decimals_at kind i }
    ensures upper_bound { result ≤ 5 }
{
    let digits = line_of(
        b"
000
000
022
022220222
024332353535
010
2
0
00002
0002
0000",
        NO_ROW,
        kind,
    );
    digit_at(digits, i)
}

pub fn say_class(out: &mut Text, class: u64)
    ensures { Says out.old out.new (class_name class) }
{
    say_choice(out, 2, 1, class);
}

fn say_line(out: &mut Text, code: u64)
    ensures { Says out.old out.new (table_line 24 code sentence_table) }
{
    let words = line_of(
        b"closed
a length that no record has: it is 4 to 26
the version is not 1, nor 2 of a farm record
no such kind of record: kinds are 1 to 10
a wrong length or count of values
the book has 4096 records, and no more go in
out of its place: the one farm record is first; enteric, cattle and grazing need a milking, dry or heifer heading, \
pig a pig heading
a value is out of its range
the group number must be above that of the heading before
more than 366 days of this kind under the heading
cattle shares must be 100.00 per cent together, grazing fractions under a heading at most that; \
a pig's volatilised and leached parts at most 1.000
more nitrogen in milk and gain than in the feed
the close counts other records than there are before it; left out, the count is filled in
a state outside its ranges
a number of the ration or the change is out of its range
the changed value is out of its range
no room
the bytes end before the close
bytes stand after the close
no such number
not a sheet
a number is outside its field: kind 3 to 10 or 16, group to 65535, \
a figure to 18446744073709551615, co2 and co2e -9223372036854775808 to 9223372036854775807
the book is closed already
the bytes are no run of whole lines, as the herd desk gives them: for a book use bin/sheet
no such number",
        24,
        code,
    );
    out.say(words);
}

// The sentence of a number.
pub fn say_sentence(out: &mut Text, code: u64)
    ensures { Says out.old out.new (sentence code) }
{
    say_line(out, code);
    if code == 20 {
        out.say(b": ");
        say_form(out);
        return;
    }
}

fn printed(b: u8) -> u8
    ensures { result ≡ printed_byte b }
{
    if b.is_ascii_graphic() { b } else { b'?' }
}

// So much of a typed word as is shown, as far as there is room.
fn put_shown(out: &mut [u8], at: usize, word: &[u8]) -> usize
    requires { at ≤ length out.old }
    ensures { Said out.old out.new at (shown word.now) result }
{
    let n = word.len().min(24).min(out.len() - at);
    for i in 0..n {
        out[at + i] = printed(word[i]);
    }
    at + n
}

// A word told back: its first 24 bytes, with a ? for each that does not print.
pub fn say_shown(out: &mut Text, word: &[u8])
    ensures { Says out.old out.new (shown word.now) }
{
    out.len = put_shown(out.buffer, out.len, word);
}
