// The table as the code has it, by row: a kind, or after them the farm record of version 2. A new kind has its fields here, and the proofs hold
// them to codec's specs/Table.
ghost use Rattle.std.specs.Prelude.{◌≡◌, ◌<◌, ◌≤◌, length};
ghost use Rattle.codec.specs.Table.{fields, field_at, row_of, row_version, row_kind, last_row};

use codec::kinds::{FARM, FARM_FACTORS};
use codec::{Field, LAST_ROW};

// The table: of each field of each row the bytes, the lowest and the highest value.
const FIELDS: [[u64; 3]; 48] = [
    // FARM: farm number, year, warming set
    [4, 0, 4294967295],
    [2, 1900, 2200],
    [1, 1, 2],
    // HEADING: group, class, head
    [2, 1, 65535],
    [1, 1, 4],
    [2, 0, 20000],
    // ENTERIC: days, GE, Ym
    [2, 1, 366],
    [4, 0, 100000],
    [2, 0, 2000],
    // CATTLE: days, feed, protein, milk, milk protein, gain, solid, liquid and pasture share
    [2, 1, 366],
    [2, 0, 5000],
    [2, 0, 4000],
    [2, 0, 8000],
    [2, 0, 800],
    [2, 0, 3000],
    [2, 0, 10000],
    [2, 0, 10000],
    [2, 0, 10000],
    // PIG: days, feed, VS excretion, VS factor, MCF, protein, N factor, direct EF, volatilised part, its EF, leached part, its EF
    [2, 1, 366],
    [2, 0, 1000],
    [2, 0, 5000],
    [2, 0, 2000],
    [2, 0, 1000],
    [2, 0, 4000],
    [2, 0, 2000],
    [2, 0, 10000],
    [2, 0, 1000],
    [2, 0, 10000],
    [2, 0, 1000],
    [2, 0, 10000],
    // ENERGY: source, amount, factor
    [1, 1, 8],
    [4, 0, 10000000],
    [4, 0, 10000000],
    // SOIL: area
    [4, 0, 10000000],
    // CLOSE: records before this one
    [2, 0, 65535],
    // TILLAGE: zone, texture, change, years since it, area
    [1, 1, 9],
    [1, 1, 3],
    [1, 1, 6],
    [2, 1, 100],
    [4, 0, 10000000],
    // GRAZING: region, column, live weight, fraction of the yearly intake
    [1, 1, 7],
    [1, 1, 3],
    [2, 0, 2000],
    [2, 0, 10000],
    // FARM_FACTORS: farm number, year, CH4 factor, N2O factor
    [4, 0, 4294967295],
    [2, 1900, 2200],
    [2, 1, 1000],
    [2, 1, 1000],
];

// Where the fields of each row begin there, and where the last end; there is no row 0.
const BEGINS: [usize; 13] = [0, 0, 3, 6, 9, 18, 30, 33, 34, 35, 40, 44, 48];

// The row of a record.
pub fn row_of(version: u8, kind: u8) -> u8
    ensures { result ≡ row_of version kind }
{
    if (version == 2) & (kind == FARM as u8) {
        return FARM_FACTORS as u8;
    }
    kind
}

// The version of the records of a row.
pub fn version_of(row: u64) -> u64
    ensures { result ≡ row_version row }
{
    if row == FARM_FACTORS { 2 } else { 1 }
}

// The kind of the records of a row.
pub fn kind_of(row: u64) -> u64
    ensures { result ≡ row_kind row }
{
    if row == FARM_FACTORS { FARM } else { row }
}

// How many values a record of the row has; 0 where there is no such row.
pub fn values_of(row: u64) -> usize
    ensures { result ≡ length (fields row) }
{
    if LAST_ROW < row {
        return 0;
    }
    let at = row as usize;
    BEGINS[at + 1] - BEGINS[at]
}

// The field i of the row, counted from 0; zeros where it has no such field.
fn field_at(row: u64, i: usize) -> Field
    requires { row ≤ last_row }
    ensures { result ≡ field_at row i }
{
    if values_of(row) <= i {
        return Field(0, 0, 0);
    }
    let f = FIELDS[BEGINS[row as usize] + i];
    Field(f[0] as usize, f[1], f[2])
}

// How many bytes the field i has, counted from 0.
pub fn width(row: u64, i: usize) -> usize
    requires { (row ≤ last_row) × (i < 12) }
    ensures { result ≡ (field_at row i).0 }
{
    field_at(row, i).0
}

// Its lowest value.
pub fn lowest(row: u64, i: usize) -> u64
    requires { (row ≤ last_row) × (i < 12) }
    ensures { result ≡ (field_at row i).1 }
{
    field_at(row, i).1
}

// Its highest.
pub fn highest(row: u64, i: usize) -> u64
    requires { (row ≤ last_row) × (i < 12) }
    ensures { result ≡ (field_at row i).2 }
{
    field_at(row, i).2
}
