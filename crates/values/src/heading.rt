// Kind 2, a heading: its values from its bytes, and the first value out of its range.
ghost use Rattle.std.specs.Prelude.{◌≡◌, ◌+◌, ◌≤◌, length};
ghost use Rattle.codec.specs.Table.{fields};
ghost use Rattle.codec.specs.Codec.{first_bad, values_at};

use codec::numbers::{be8, be16};

// The values of the fields, which begin at `at`.
pub fn read(s: &[u8], at: usize) -> [u64; 3]
    requires { at + 5 ≤ length s.now }
    ensures { result ≡ values_at (fields 2) s.now at }
{
    let group = be16(s, at);
    let class = be8(s, at + 2);
    let head = be16(s, at + 3);
    [group, class, head]
}

// The position, from 1, of the first value out of its range, or 0.
pub fn first_bad(v: [u64; 3]) -> u8
    ensures { result ≡ first_bad (fields 2) v 0 }
{
    if v[0] < 1 {
        return 1;
    }
    if 65535 < v[0] {
        return 1;
    }
    if v[1] < 1 {
        return 2;
    }
    if 4 < v[1] {
        return 2;
    }
    if 20000 < v[2] {
        return 3;
    }
    0
}
