// What a record of each row is. The kinds of a group stand here and in specs/Sorts alone.
ghost use Rattle.std.specs.Prelude.{◌≡◌};
ghost use Rattle.account.specs.Sorts.{sort_of, is_of_group};

use codec::kinds::{CATTLE, CLOSE, ENTERIC, FARM, FARM_FACTORS, GRAZING, HEADING, PIG};

// It opens the book, heads a group, is a detail of the group or of the farm, or closes the book.
#[derive(Clone, Copy)]
pub enum Sort {
    Opens,
    Heads,
    OfGroup,
    OfFarm,
    Closes,
}

// The sort of a record of the row.
pub fn sort_of(row: u64) -> Sort
    ensures { result ≡ sort_of row }
{
    if (row == FARM) | (row == FARM_FACTORS) {
        return Sort::Opens;
    }
    if row == HEADING {
        return Sort::Heads;
    }
    if (row == ENTERIC) | ((row == CATTLE) | ((row == PIG) | (row == GRAZING))) {
        return Sort::OfGroup;
    }
    if row == CLOSE {
        return Sort::Closes;
    }
    Sort::OfFarm
}

// It is a detail of the group.
pub fn is_of_group(row: u64) -> bool
    ensures { result ≡ is_of_group row }
{
    matches!(sort_of(row), Sort::OfGroup)
}
