// The kinds by name, and the bytes of a record of each row: a kind, or after them the farm record of version 2.
ghost use Rattle.std.specs.Prelude.{◌≡◌, ◌+◌, ◌≤◌};
ghost use Rattle.codec.specs.Table.{last_row, length_of};

// The kinds by name: each is a kind byte and, in version 1, its row. Numbers and no enum: the table counts by them, and any byte has an answer.
pub const FARM: u64 = 1;

pub const HEADING: u64 = 2;

pub const ENTERIC: u64 = 3;

pub const CATTLE: u64 = 4;

pub const PIG: u64 = 5;

pub const ENERGY: u64 = 6;

pub const SOIL: u64 = 7;

pub const CLOSE: u64 = 8;

pub const TILLAGE: u64 = 9;

pub const GRAZING: u64 = 10;

// The last of them, and after it the row of the farm record of version 2.
pub const LAST: u64 = GRAZING;

pub const FARM_FACTORS: u64 = LAST + 1;

// How many bytes a record of the row has, the two of its length among them. Not from a table in the code: the reader asks for each record, and
// a constant array would be stored anew each time; of a `match` the compiler makes a table. The proof holds it to specs/Table.
pub fn bytes_of(row: u64) -> usize
    requires { row ≤ last_row }
    ensures { result ≡ 2 + length_of row }
{
    match row {
        FARM => 11,
        HEADING => 9,
        ENTERIC => 12,
        CATTLE => 22,
        PIG => 28,
        ENERGY => 13,
        SOIL => 8,
        CLOSE => 6,
        TILLAGE => 13,
        GRAZING => 10,
        FARM_FACTORS => 14,
        _ => 4,
    }
}
