// Kind 7, organic soil: its values from its bytes, and the first value out of its range.
ghost use Rattle.std.specs.Prelude.{◌≡◌, ◌+◌, ◌≤◌, length};
ghost use Rattle.codec.specs.Table.{fields};
ghost use Rattle.codec.specs.Codec.{first_bad, values_at};

use codec::numbers::be32;

// The values of the fields, which begin at `at`.
pub fn read(s: &[u8], at: usize) -> [u64; 1]
    requires { at + 4 ≤ length s.now }
    ensures { result ≡ values_at (fields 7) s.now at }
{
    let area = be32(s, at);
    [area]
}

// The position, from 1, of the first value out of its range, or 0.
pub fn first_bad(v: [u64; 1]) -> u8
    ensures { result ≡ first_bad (fields 7) v 0 }
{
    if 10000000 < v[0] {
        return 1;
    }
    0
}
