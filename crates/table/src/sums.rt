// The running sums over the closed books, a column each: a word, how often it went over 64 bits, and how many numbers below zero were added. So a sum
// that does not fit eight bytes is known, and one that fits again after a number below zero.
ghost use Rattle.std.specs.Prelude.{◌≡◌};
ghost use Rattle.base.specs.Choice.{pick, one_more_lem};
ghost use Rattle.table.specs.Sums.{sum_with, sums_with, no_totals, totals_with, fits};

use crate::{Seen, is_closed};
use base::one_more;
use line_bytes::TOTAL_NUMBERS;
use line_rows::is_signed;

// The first word that stands for a number below zero.
const HALF: u64 = 9223372036854775808;

#[derive(Clone, Copy)]
pub struct Sum {
    pub low: u64,
    pub ups: u64,
    pub downs: u64,
}

// How many books are closed, and the sums of the columns of a total line.
#[derive(Clone, Copy)]
pub struct Totals {
    pub closed: u64,
    pub sums: [Sum; TOTAL_NUMBERS],
}

fn count_if(n: u64, more: bool) -> u64
    ensures { result ≡ pick more (one_more_lem n) n }
{
    if more { one_more(n) } else { n }
}

// One word more, of a signed column or of another.
fn plus(s: Sum, w: u64, signed: bool) -> Sum
    ensures { result ≡ sum_with signed s w }
{
    let low = s.low.wrapping_add(w);
    Sum {
        low,
        ups: count_if(s.ups, low < w),
        downs: count_if(s.downs, signed & (HALF <= w)),
    }
}

// Each column with its number.
fn plus_each(from: [Sum; TOTAL_NUMBERS], numbers: [u64; TOTAL_NUMBERS]) -> [Sum; TOTAL_NUMBERS]
    ensures { result ≡ sums_with 0 from numbers }
{
    let mut sums = from;
    for k in 0..TOTAL_NUMBERS {
        let s = sums[k];
        let next = plus(s, numbers[k], is_signed(k));
        sums[k] = next;
    }
    sums
}

// The sum fits eight bytes.
pub fn fits(s: Sum, signed: bool) -> bool
    ensures { result ≡ fits signed s }
{
    if !signed {
        return s.ups == 0;
    }
    if s.low < HALF {
        return s.ups == s.downs;
    }
    if s.ups < s.downs {
        return s.downs - s.ups == 1;
    }
    false
}

impl Totals {
    // Over no books.
    pub fn new() -> Totals
        ensures { result ≡ no_totals }
    {
        let none = Sum {
            low: 0,
            ups: 0,
            downs: 0,
        };
        Totals {
            closed: 0,
            sums: [none; TOTAL_NUMBERS],
        }
    }

    // One book more: a closed one counts.
    pub fn with(self, s: Seen) -> Totals
        ensures { result ≡ totals_with self s }
    {
        if !is_closed(s) {
            return self;
        }
        let sums = self.sums;
        let numbers = s.numbers;
        let next = plus_each(sums, numbers);
        Totals {
            closed: one_more(self.closed),
            sums: next,
        }
    }
}
