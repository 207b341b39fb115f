// A record of any row, field by field as the table says: for the tools. The reader goes by codec's functions of each kind, which are faster.
#![tactic(auto)]

pub mod table; // table.rt: the table as the code has it

ghost use Rattle.std.specs.Prelude.{◌≡◌, ◌+◌, ◌≤◌, length};
ghost use Rattle.std.proofs.lemmas.List.Edits.{sets};
ghost use Rattle.codec.specs.Table.{fields, size, last_row, length_of, Of};
ghost use Rattle.codec.specs.Codec.{values_at, in_twelve, bytes_of, first_bad, as_position, record_bytes};

use codec::kinds::bytes_of;
use codec::numbers::{number, put};
use codec::start::put_versioned;
use table::{highest, kind_of, lowest, values_of, version_of, width};

// The values of a record of the row, whose fields begin at `at`; zeros behind.
pub fn read(row: u64, s: &[u8], at: usize) -> [u64; 12]
    requires { (row ≤ last_row) × (at + size (fields row) ≤ length s.now) }
    ensures { result ≡ in_twelve (values_at (fields row) s.now at) }
{
    let n = values_of(row);
    let mut v = [0u64; 12];
    let mut p = at;
    // By index: the width of a value goes by its place in the row.
    for i in 0..n {
        let w = width(row, i);
        v[i] = number(s, p, w);
        p += w;
    }
    v
}

// The position, from 1, of the first value out of its range; none where each is in its own.
pub fn first_bad(row: u64, v: &[u64]) -> Option<u8>
    requires { Of row v.now }
    ensures { result ≡ as_position (first_bad (fields row) v.now 0) }
{
    // By index: the range of a value goes by its place in the row.
    for i in 0..v.len() {
        if v[i] < lowest(row, i) {
            return Some(i as u8 + 1);
        }
        if highest(row, i) < v[i] {
            return Some(i as u8 + 1);
        }
    }
    None
}

// The fields of a record of the row, from `at` on.
fn put_fields(out: &mut [u8], at: usize, row: u64, v: &[u64])
    requires { (at + size (fields row) ≤ length out.old) × Of row v.now }
    ensures { out.new ≡ sets out.old at (bytes_of (fields row) v.now 0) }
{
    let mut p = at;
    // By index: the width of a value goes by its place in the row.
    for i in 0..v.len() {
        let w = width(row, i);
        put(out, p, w, v[i]);
        p += w;
    }
}

// The whole record at `at`.
pub fn write(out: &mut [u8], at: usize, row: u64, v: &[u64])
    requires { (at + (2 + length_of row) ≤ length out.old) × Of row v.now }
    ensures { out.new ≡ sets out.old at (record_bytes row v.now) }
{
    let size = bytes_of(row) as u64 - 2;
    let version = version_of(row);
    let kind = kind_of(row);
    put_versioned(out, at, size, version, kind);
    put_fields(out, at + 4, row, v);
}
