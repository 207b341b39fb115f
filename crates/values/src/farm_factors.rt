// The farm record of version 2, which has its warming factors in it: its values from its bytes, and the first value out of its range.
ghost use Rattle.std.specs.Prelude.{◌≡◌, ◌+◌, ◌≤◌, length};
ghost use Rattle.codec.specs.Table.{fields, last_row};
ghost use Rattle.codec.specs.Codec.{first_bad, values_at};

use codec::numbers::{be16, be32};

// The values of the fields, which begin at `at`.
pub fn read(s: &[u8], at: usize) -> [u64; 4]
    requires { at + 10 ≤ length s.now }
    ensures { result ≡ values_at (fields last_row) s.now at }
{
    let number = be32(s, at);
    let year = be16(s, at + 4);
    let ch4 = be16(s, at + 6);
    let n2o = be16(s, at + 8);
    [number, year, ch4, n2o]
}

// The position, from 1, of the first value out of its range, or 0.
pub fn first_bad(v: [u64; 4]) -> u8
    ensures { result ≡ first_bad (fields last_row) v 0 }
{
    if 4294967295 < v[0] {
        return 1;
    }
    if v[1] < 1900 {
        return 2;
    }
    if 2200 < v[1] {
        return 2;
    }
    if v[2] < 1 {
        return 3;
    }
    if 1000 < v[2] {
        return 3;
    }
    if v[3] < 1 {
        return 4;
    }
    if 1000 < v[3] {
        return 4;
    }
    0
}
