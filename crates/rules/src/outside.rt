// A record of any row with a value out of its range: 5, 6 or 7 refuses it, and no kind's own function is asked.
ghost use Rattle.std.specs.Prelude.{◌≡◌};
ghost use Rattle.account.specs.Judge.{heading_serves, in_place_lem};
ghost use Rattle.account.specs.Told.{refusing_outside};

use crate::refusals::{barred, cattle_placed, stopped};
use account::sort::is_of_group;
use account::{Account, Judged};
use codec::kinds::{FARM, FARM_FACTORS, PIG};

// A heading of the class serves a record of the row.
fn serves(class: u8, row: u64) -> bool
    ensures { result ≡ heading_serves class row }
{
    if !is_of_group(row) {
        return true;
    }
    if row == PIG {
        return class == 4;
    }
    cattle_placed(class)
}

// A record of the row stands in its place.
fn placed(a: Account, row: u64) -> bool
    ensures { result ≡ in_place_lem a row }
{
    let h = a.heading;
    if (row == FARM) | (row == FARM_FACTORS) {
        return a.records == 0;
    }
    serves(h.class, row) & !(a.records == 0)
}

// What values of the row do whose first out of its range stands at that position: the first of 5, 6 and 7 that holds refuses them.
pub fn weigh(a: Account, row: u64, position: u8) -> Judged
    requires { position ≡ 0 → ⊥ }
    ensures { result ≡ refusing_outside a row position }
{
    let code = barred(a.records, placed(a, row), position);
    stopped(a, code, position)
}
