// Kind 3, enteric: its values from its bytes, and the first value out of its range.
ghost use Rattle.std.specs.Prelude.{◌≡◌, ◌+◌, ◌≤◌, length, eqb};
ghost use Rattle.codec.specs.Table.{fields};
ghost use Rattle.codec.specs.Codec.{first_bad, values_at};

use codec::numbers::{be16, be32};

// The values of the fields, which begin at `at`.
pub fn read(s: &[u8], at: usize) -> [u64; 3]
    requires { at + 8 ≤ length s.now }
    ensures { result ≡ values_at (fields 3) s.now at }
{
    let days = be16(s, at);
    let ge = be32(s, at + 2);
    let ym = be16(s, at + 6);
    [days, ge, ym]
}

// Every value is in its range: most records are so, and with this tested first the compiler makes up no position for them.
fn in_ranges(v: [u64; 3]) -> bool
    ensures { result ≡ eqb (first_bad (fields 3) v 0) 0 }
{
    (1 <= v[0]) & (v[0] <= 366) & (v[1] <= 100000) & (v[2] <= 2000)
}

// The position, from 1, of the first value out of its range, or 0.
pub fn first_bad(v: [u64; 3]) -> u8
    ensures { result ≡ first_bad (fields 3) v 0 }
{
    if in_ranges(v) {
        return 0;
    }
    if v[0] < 1 {
        return 1;
    }
    if 366 < v[0] {
        return 1;
    }
    if 100000 < v[1] {
        return 2;
    }
    if 2000 < v[2] {
        return 3;
    }
    0
}
