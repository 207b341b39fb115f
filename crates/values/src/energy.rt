// Kind 6, energy: its values from its bytes, and the first value out of its range.
ghost use Rattle.std.specs.Prelude.{◌≡◌, ◌+◌, ◌≤◌, length};
ghost use Rattle.codec.specs.Table.{fields};
ghost use Rattle.codec.specs.Codec.{first_bad, values_at};

use codec::numbers::{be8, be32};

// The values of the fields, which begin at `at`.
pub fn read(s: &[u8], at: usize) -> [u64; 3]
    requires { at + 9 ≤ length s.now }
    ensures { result ≡ values_at (fields 6) s.now at }
{
    let source = be8(s, at);
    let amount = be32(s, at + 1);
    let factor = be32(s, at + 5);
    [source, amount, factor]
}

// The position, from 1, of the first value out of its range, or 0.
pub fn first_bad(v: [u64; 3]) -> u8
    ensures { result ≡ first_bad (fields 6) v 0 }
{
    if v[0] < 1 {
        return 1;
    }
    if 8 < v[0] {
        return 1;
    }
    if 10000000 < v[1] {
        return 2;
    }
    if 10000000 < v[2] {
        return 3;
    }
    0
}
