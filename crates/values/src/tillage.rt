// Kind 9, tillage: its values from its bytes, and the first value out of its range.
ghost use Rattle.std.specs.Prelude.{◌≡◌, ◌+◌, ◌≤◌, length};
ghost use Rattle.codec.specs.Table.{fields};
ghost use Rattle.codec.specs.Codec.{first_bad, values_at};

use codec::numbers::{be8, be16, be32};

// The values of the fields, which begin at `at`.
pub fn read(s: &[u8], at: usize) -> [u64; 5]
    requires { at + 9 ≤ length s.now }
    ensures { result ≡ values_at (fields 9) s.now at }
{
    let zone = be8(s, at);
    let texture = be8(s, at + 1);
    let change = be8(s, at + 2);
    let years = be16(s, at + 3);
    let area = be32(s, at + 5);
    [zone, texture, change, years, area]
}

// The position, from 1, of the first value out of its range, or 0.
pub fn first_bad(v: [u64; 5]) -> u8
    ensures { result ≡ first_bad (fields 9) v 0 }
{
    if v[0] < 1 {
        return 1;
    }
    if 9 < v[0] {
        return 1;
    }
    if v[1] < 1 {
        return 2;
    }
    if 3 < v[1] {
        return 2;
    }
    if v[2] < 1 {
        return 3;
    }
    if 6 < v[2] {
        return 3;
    }
    if v[3] < 1 {
        return 4;
    }
    if 100 < v[3] {
        return 4;
    }
    if 10000000 < v[4] {
        return 5;
    }
    0
}
