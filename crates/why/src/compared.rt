// The value and the limit: what the test of a rule compares.
ghost use Rattle.std.specs.Prelude.{◌≡◌, ◌≤◌, length};
ghost use Rattle.codec.specs.Table.{length_of, last_row};
ghost use Rattle.account.specs.Judge.{record_row, values_of};
ghost use Rattle.account.specs.Compared.{numbers, outside, bad_field, range_of, value_at, days_with, values_compared, compared};
ghost use Rattle.why.specs.Why.{told};
ghost use Rattle.why.specs.Inner.{Sized, Parted, parts_told, version_told, Faulty};

use crate::Numbers;
use crate::field_values::value_at;
use account::{Account, Used};
use by_row::table::{highest, lowest, row_of};
use codec::LAST_KIND;
use codec::kinds::{CATTLE, ENTERIC, FARM, PIG, bytes_of};
use codec::numbers::{be8, be16};

fn both(value: u64, limit: u64) -> Option<Numbers>
    ensures { result ≡ told (numbers value limit) }
{
    Some(Numbers { value, limit })
}

// A value outside of lowest to highest, and the end that it crossed.
pub(crate) fn outside(lowest: u64, highest: u64, value: u64) -> Option<Numbers>
    ensures { result ≡ told (outside lowest highest value) }
{
    if value < lowest {
        return both(value, lowest);
    }
    both(value, highest)
}

// The version, which is 1 or 2 of a farm record and 1 of any other.
fn version(r: &[u8]) -> Option<Numbers>
    requires { 4 ≤ length r.now }
    ensures { result ≡ version_told r.now }
{
    let version = be8(r, 2);
    if r[3] == FARM as u8 {
        return outside(1, 2, version);
    }
    both(version, 1)
}

// The length of a record of that row.
fn length_of(row: u8) -> u64
    requires { (1 ≤ row) × (row ≤ last_row) }
    ensures { result ≡ length_of row }
{
    (bytes_of(row as u64) - 2) as u64
}

// The value of the field at that position, and the end of its range that it crossed.
fn out_of_range(r: &[u8], row: u8, position: u8) -> Option<Numbers>
    requires { Sized r.now × (row ≡ record_row r.now) × (1 ≤ position) × (position ≤ 12) }
    ensures { result ≡ told (outside (range_of row position).1 (range_of row position).2 (value_at (values_of r.now) position)) }
{
    let i = position as usize - 1;
    let value = value_at(r, row, i);
    outside(lowest(row as u64, i), highest(row as u64, i), value)
}

// The days of a kind, 3, 4 or 5, with so many more.
fn days_with(used: Used, kind: u8, more: u64) -> u64
    requires { more ≤ 366 }
    ensures { result ≡ days_with used kind more }
{
    if kind == ENTERIC as u8 {
        return used.enteric as u64 + more;
    }
    if kind == CATTLE as u8 {
        return used.nitrogen as u64 + more;
    }
    used.pig as u64 + more
}

// A cattle record's shares together, a pig record's parts, or the grazed fractions with this record's.
fn together(grazed: u32, r: &[u8], kind: u8) -> Option<Numbers>
    requires { Sized r.now × (kind ≡ record_row r.now) × (bad_field kind (values_of r.now) ≡ 0) × Parted kind }
    ensures { result ≡ parts_told grazed kind (values_of r.now) }
{
    if kind == CATTLE as u8 {
        return both(
            value_at(r, kind, 6) + value_at(r, kind, 7) + value_at(r, kind, 8),
            10000,
        );
    }
    if kind == PIG as u8 {
        return both(value_at(r, kind, 8) + value_at(r, kind, 10), 1000);
    }
    both(grazed as u64 + value_at(r, kind, 3), 10000)
}

// The numbers from 5 on: what is compared of the values.
fn of_values(a: Account, r: &[u8], code: u8, field: u8) -> Option<Numbers>
    requires { Faulty a r.now code field × (5 ≤ code) }
    ensures { result ≡ told (values_compared code a (record_row r.now) (values_of r.now)) }
{
    let row = row_of(r[2], r[3]);
    let heading = a.heading;
    let used = a.used;
    let first = value_at(r, row, 0);
    match code {
        7 => out_of_range(r, row, field),
        8 => both(first, heading.group as u64),
        9 => both(days_with(used, row, first), 366),
        10 => together(used.grazed, r, row),
        12 => both(first, a.records as u64),
        _ => None,
    }
}

// What the number that refuses the record r compares.
pub(crate) fn compared(a: Account, r: &[u8], code: u8, field: u8) -> Option<Numbers>
    requires { Faulty a r.now code field }
    ensures { result ≡ told (compared code a r.now) }
{
    match code {
        2 => version(r),
        3 => outside(1, LAST_KIND, be8(r, 3)),
        4 => both(be16(r, 0), length_of(row_of(r[2], r[3]))),
        _ => of_values(a, r, code, field),
    }
}
