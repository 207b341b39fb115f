// A record's bytes: what it is, and its values.
ghost use Rattle.std.specs.Prelude.{◌≡◌, ◌≤◌, length};
ghost use Rattle.account.specs.Judge.{kind_byte, record_row};
ghost use Rattle.promises.specs.WholeLines.{is_detail};
ghost use Rattle.compare.specs.Records.{same, Readable, values_in};

use account::sort::{Sort, sort_of};
use codec::numbers::be8;

// Whether both are the same bytes.
pub(crate) fn same(xs: &[u8], ys: &[u8]) -> bool
    ensures { result ≡ same xs.now ys.now }
{
    xs == ys
}

pub(crate) fn kind_of(r: &[u8]) -> u64
    requires { 4 ≤ length r.now }
    ensures { result ≡ kind_byte r.now }
{
    be8(r, 3)
}

// The row of a record in the table.
pub(crate) fn row_at(r: &[u8]) -> u64
    requires { 4 ≤ length r.now }
    ensures { result ≡ record_row r.now }
{
    let row = by_row::table::row_of(r[2], r[3]);
    row as u64
}

// The values of a record, zeros after them.
pub(crate) fn values(r: &[u8]) -> [u64; 12]
    requires { Readable r.now }
    ensures { result ≡ values_in r.now }
{
    by_row::read(row_at(r), r, 4)
}

// Whether the record r is a detail, of the group or of the farm.
pub(crate) fn detail(r: &[u8]) -> bool
    requires { 4 ≤ length r.now }
    ensures { result ≡ is_detail r.now }
{
    let row = by_row::table::row_of(r[2], r[3]);
    match sort_of(row as u64) {
        Sort::OfGroup => true,
        Sort::OfFarm => true,
        Sort::Opens => false,
        Sort::Heads => false,
        Sort::Closes => false,
    }
}
