// Kind 5, pig: its values from its bytes, and the first value out of its range.
ghost use Rattle.std.specs.Prelude.{◌≡◌, ◌+◌, ◌≤◌, drop, length, eqb};
ghost use Rattle.codec.specs.Table.{fields};
ghost use Rattle.codec.specs.Codec.{first_bad, values_at};

use codec::numbers::be16;

// The values of the fields, which begin at `at`.
pub fn read(s: &[u8], at: usize) -> [u64; 12]
    requires { at + 24 ≤ length s.now }
    ensures { result ≡ values_at (fields 5) s.now at }
{
    let days = be16(s, at);
    let feed = be16(s, at + 2);
    let vs = be16(s, at + 4);
    let vs_factor = be16(s, at + 6);
    let mcf = be16(s, at + 8);
    let protein = be16(s, at + 10);
    let n_factor = be16(s, at + 12);
    let direct = be16(s, at + 14);
    let volatilised = be16(s, at + 16);
    let volatilised_ef = be16(s, at + 18);
    let leached = be16(s, at + 20);
    let leached_ef = be16(s, at + 22);
    [
        days,
        feed,
        vs,
        vs_factor,
        mcf,
        protein,
        n_factor,
        direct,
        volatilised,
        volatilised_ef,
        leached,
        leached_ef,
    ]
}

// Every value is in its range: most records are so, and with this tested first the compiler makes up no position for them.
fn in_ranges(v: [u64; 12]) -> bool
    ensures { result ≡ eqb (first_bad (fields 5) v 0) 0 }
{
    (1 <= v[0])
        & (v[0] <= 366)
        & (v[1] <= 1000)
        & (v[2] <= 5000)
        & (v[3] <= 2000)
        & (v[4] <= 1000)
        & (v[5] <= 4000)
        & (v[6] <= 2000)
        & (v[7] <= 10000)
        & (v[8] <= 1000)
        & (v[9] <= 10000)
        & (v[10] <= 1000)
        & (v[11] <= 10000)
}

// The position, from 1, of the first value out of its range, or 0.
pub fn first_bad(v: [u64; 12]) -> u8
    ensures { result ≡ first_bad (fields 5) v 0 }
{
    if in_ranges(v) {
        return 0;
    }
    if v[0] < 1 {
        return 1;
    }
    if 366 < v[0] {
        return 1;
    }
    if 1000 < v[1] {
        return 2;
    }
    if 5000 < v[2] {
        return 3;
    }
    if 2000 < v[3] {
        return 4;
    }
    if 1000 < v[4] {
        return 5;
    }
    nitrogen_bad(v)
}

// The pig's fields from protein on: after the five that its CH4 wants.
fn nitrogen_bad(v: [u64; 12]) -> u8
    ensures { result ≡ first_bad (drop 5 (fields 5)) v 5 }
{
    if 4000 < v[5] {
        return 6;
    }
    if 2000 < v[6] {
        return 7;
    }
    if 10000 < v[7] {
        return 8;
    }
    if 1000 < v[8] {
        return 9;
    }
    if 10000 < v[9] {
        return 10;
    }
    if 1000 < v[10] {
        return 11;
    }
    if 10000 < v[11] {
        return 12;
    }
    0
}
