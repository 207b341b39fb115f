// Small functions on numbers and slices that many crates use.
#![tactic(auto)]

ghost use Rattle.std.specs.Prelude.{◌≡◌, ◌≤◌, min, length, take, drop};
ghost use Rattle.base.specs.Bytes.{index_of};
ghost use Rattle.base.specs.Choice.{one_more_lem};

pub fn least(a: usize, b: usize) -> usize
    ensures { result ≡ min a b }
{
    a.min(b)
}

// The next number: a count stays at u64's last.
pub fn one_more(n: u64) -> u64
    ensures { result ≡ one_more_lem n }
{
    n.saturating_add(1)
}

// The first n bytes of s.
pub fn first_of(s: &[u8], n: usize) -> &[u8]
    requires { n ≤ length s.now }
    ensures { result.now ≡ take n s.now }
{
    &s[..n]
}

// The bytes of s from n on.
pub fn rest_of(s: &[u8], n: usize) -> &[u8]
    requires { n ≤ length s.now }
    ensures { result.now ≡ drop n s.now }
{
    &s[n..]
}

// Where the first b stands, or the length where there is none.
pub fn find(s: &[u8], b: u8) -> usize
    ensures value { result ≡ index_of b s.now }
    ensures upper_bound { result ≤ length s.now }
{
    s.iter().position(|x| *x == b).unwrap_or(s.len())
}
