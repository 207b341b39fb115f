// Kind 4, cattle nitrogen: its values from its bytes, and the first value out of its range.
ghost use Rattle.std.specs.Prelude.{◌≡◌, ◌+◌, ◌≤◌, length, eqb};
ghost use Rattle.codec.specs.Table.{fields};
ghost use Rattle.codec.specs.Codec.{first_bad, values_at};

use codec::numbers::be16;

// The values of the fields, which begin at `at`.
pub fn read(s: &[u8], at: usize) -> [u64; 9]
    requires { at + 18 ≤ length s.now }
    ensures { result ≡ values_at (fields 4) s.now at }
{
    let days = be16(s, at);
    let feed = be16(s, at + 2);
    let protein = be16(s, at + 4);
    let milk = be16(s, at + 6);
    let milk_protein = be16(s, at + 8);
    let gain = be16(s, at + 10);
    let solid = be16(s, at + 12);
    let liquid = be16(s, at + 14);
    let pasture = be16(s, at + 16);
    [
        days,
        feed,
        protein,
        milk,
        milk_protein,
        gain,
        solid,
        liquid,
        pasture,
    ]
}

// Every value is in its range: most records are so, and with this tested first the compiler makes up no position for them.
fn in_ranges(v: [u64; 9]) -> bool
    ensures { result ≡ eqb (first_bad (fields 4) v 0) 0 }
{
    (1 <= v[0])
        & (v[0] <= 366)
        & (v[1] <= 5000)
        & (v[2] <= 4000)
        & (v[3] <= 8000)
        & (v[4] <= 800)
        & (v[5] <= 3000)
        & (v[6] <= 10000)
        & (v[7] <= 10000)
        & (v[8] <= 10000)
}

// The position, from 1, of the first value out of its range, or 0.
pub fn first_bad(v: [u64; 9]) -> u8
    ensures { result ≡ first_bad (fields 4) v 0 }
{
    if in_ranges(v) {
        return 0;
    }
    if v[0] < 1 {
        return 1;
    }
    if 366 < v[0] {
        return 1;
    }
    if 5000 < v[1] {
        return 2;
    }
    if 4000 < v[2] {
        return 3;
    }
    if 8000 < v[3] {
        return 4;
    }
    if 800 < v[4] {
        return 5;
    }
    if 3000 < v[5] {
        return 6;
    }
    if 10000 < v[6] {
        return 7;
    }
    if 10000 < v[7] {
        return 8;
    }
    if 10000 < v[8] {
        return 9;
    }
    0
}
