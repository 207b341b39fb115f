// Kind 1, the farm: its values from its bytes, and the first value out of its range.
ghost use Rattle.std.specs.Prelude.{◌≡◌, ◌+◌, ◌≤◌, length};
ghost use Rattle.codec.specs.Table.{fields};
ghost use Rattle.codec.specs.Codec.{first_bad, values_at};

use codec::numbers::{be8, be16, be32};

// The values of the fields, which begin at `at`.
pub fn read(s: &[u8], at: usize) -> [u64; 3]
    requires { at + 7 ≤ length s.now }
    ensures { result ≡ values_at (fields 1) s.now at }
{
    let number = be32(s, at);
    let year = be16(s, at + 4);
    let set = be8(s, at + 6);
    [number, year, set]
}

// The position, from 1, of the first value out of its range, or 0.
pub fn first_bad(v: [u64; 3]) -> u8
    ensures { result ≡ first_bad (fields 1) v 0 }
{
    if 4294967295 < v[0] {
        return 1;
    }
    if v[1] < 1900 {
        return 2;
    }
    if 2200 < v[1] {
        return 2;
    }
    if v[2] < 1 {
        return 3;
    }
    if 2 < v[2] {
        return 3;
    }
    0
}
