// Which values are usual: a person is asked to look at any other again.
ghost use Rattle.std.specs.Prelude.{◌≡◌, ◌-◌, ◌≤◌, length, unwrap_or};
ghost use Rattle.printing.specs.Says.{Says};
ghost use Rattle.typed_words.specs.Words.{nth_word};
ghost use Rattle.typed_words.specs.Amounts.{amount_of};
ghost use Rattle.names.specs.Names.{decimals_at};
ghost use Rattle.names.specs.Usual.{usual_ranges, goes_by, range_for, usual_of, for_text, to_text, usual_text};

use crate::{cell, decimals, say_value};
use base::find;
use printing::say;
use printing::text::Text;
use typed_words::{part, read_amount, word};

// Which values of a field are usual, from low to high, in the book's unit.
#[derive(Clone, Copy)]
pub struct Usual {
    pub low: u64,
    pub high: u64,
}

// The ranges of each field that has some, by row.
const USUAL: [u8; 265] = *b"


;milking 100 650|dry 60 400|heifer 15 350;3 9
;milking 5 35|dry 3 22|heifer 0.5 20;6 26;milking 3 70|dry 0 0|heifer 0 0;2 5;0 1500;;;
;0.3 8;0.04 0.2;0.8 1.2;0 0.5;10 26;0.5 1.2;0 0.01;0 0.7;0 0.02;0 0.3;0 0.015




;;cows 350 900|heifers 150 650|calves 30 350;
";

// Whether the ranges go by class or column.
fn goes_by(ranges: &[u8]) -> bool
    ensures { result ≡ goes_by ranges.now }
{
    find(ranges, b'|') < ranges.len()
}

// The range for the class or column `who`.
fn range_for(ranges: &[u8], who: usize) -> &[u8]
    ensures { result.now ≡ range_for ranges.now who }
{
    if goes_by(ranges) {
        return part(ranges, b'|', who.saturating_sub(1));
    }
    ranges
}

// The number that the word n of a range types for field i; 0 where it is none.
fn limit(range: &[u8], n: usize, row: u64, i: usize) -> u64
    ensures { result ≡ unwrap_or (amount_of (decimals_at row i) (nth_word n range.now)) 0 }
{
    read_amount(word(range, n), decimals(row, i)).unwrap_or(0)
}

// What is usual of field i for the class or column `who`; of a field without ranges nothing is.
pub fn usual_range(row: u64, i: usize, who: usize) -> Option<Usual>
    ensures { result ≡ usual_of row i who }
{
    let ranges = cell(&USUAL, row, i);
    let range = range_for(ranges, who);
    if range.len() == 0 {
        return None;
    }
    if goes_by(ranges) {
        return Some(Usual {
            low: limit(range, 1, row, i),
            high: limit(range, 2, row, i),
        });
    }
    Some(Usual {
        low: limit(range, 0, row, i),
        high: limit(range, 1, row, i),
    })
}

// The ranges of field i as they are typed, with a bar between where they go by class or column.
pub fn say_ranges(out: &mut Text, row: u64, i: usize)
    ensures { Says out.old out.new (usual_ranges row i) }
{
    out.say(cell(&USUAL, row, i));
}

fn say_for(out: &mut Text, row: u64, i: usize, who: usize)
    ensures { Says out.old out.new (for_text (usual_ranges row i) who) }
{
    let ranges = cell(&USUAL, row, i);
    if !goes_by(ranges) {
        return;
    }
    out.say(b" for ");
    out.say(word(range_for(ranges, who), 0));
}

fn say_to(out: &mut Text, row: u64, i: usize, u: Usual)
    ensures { Says out.old out.new (to_text row i u) }
{
    if u.low == u.high {
        return;
    }
    out.say(b" to ");
    say_value(out, row, i, u.high);
}

// What is usual, in words; 0 where nothing is.
pub fn say_usual(out: &mut Text, row: u64, i: usize, who: usize)
    ensures { Says out.old out.new (usual_text row i who) }
{
    let u = usual_range(row, i, who).unwrap_or(Usual { low: 0, high: 0 });
    out.say(b"usual");
    say_for(out, row, i, who);
    out.say(b" is ");
    say_value(out, row, i, u.low);
    say_to(out, row, i, u);
}
