// Kind 8, the close: its values from its bytes, and the first value out of its range.
ghost use Rattle.std.specs.Prelude.{◌≡◌, ◌+◌, ◌≤◌, length};
ghost use Rattle.codec.specs.Table.{fields};
ghost use Rattle.codec.specs.Codec.{first_bad, values_at};

use codec::numbers::be16;

// The values of the fields, which begin at `at`.
pub fn read(s: &[u8], at: usize) -> [u64; 1]
    requires { at + 2 ≤ length s.now }
    ensures { result ≡ values_at (fields 8) s.now at }
{
    let before = be16(s, at);
    [before]
}

// The position, from 1, of the first value out of its range, or 0.
pub fn first_bad(v: [u64; 1]) -> u8
    ensures { result ≡ first_bad (fields 8) v 0 }
{
    if 65535 < v[0] {
        return 1;
    }
    0
}
