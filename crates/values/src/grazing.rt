// Kind 10, grazing: its values from its bytes, and the first value out of its range.
ghost use Rattle.std.specs.Prelude.{◌≡◌, ◌+◌, ◌≤◌, length};
ghost use Rattle.codec.specs.Table.{fields};
ghost use Rattle.codec.specs.Codec.{first_bad, values_at};

use codec::numbers::{be8, be16};

// The values of the fields, which begin at `at`.
pub fn read(s: &[u8], at: usize) -> [u64; 4]
    requires { at + 6 ≤ length s.now }
    ensures { result ≡ values_at (fields 10) s.now at }
{
    let region = be8(s, at);
    let column = be8(s, at + 1);
    let weight = be16(s, at + 2);
    let fraction = be16(s, at + 4);
    [region, column, weight, fraction]
}

// The position, from 1, of the first value out of its range, or 0.
pub fn first_bad(v: [u64; 4]) -> u8
    ensures { result ≡ first_bad (fields 10) v 0 }
{
    if v[0] < 1 {
        return 1;
    }
    if 7 < v[0] {
        return 1;
    }
    if v[1] < 1 {
        return 2;
    }
    if 3 < v[1] {
        return 2;
    }
    if 2000 < v[2] {
        return 3;
    }
    if 10000 < v[3] {
        return 4;
    }
    0
}
