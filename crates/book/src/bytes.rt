// Bytes moved and looked at, with no regard to what they mean.
ghost use Rattle.std.specs.Prelude.{◌≡◌, ◌++◌, ◌+◌, ◌-◌, ◌≤◌, length, take, drop, replicate};
ghost use Rattle.std.proofs.Math.Seq.{paste};
ghost use Rattle.codec.specs.Table.{record_most};
ghost use Rattle.book.specs.State.{zeros};
ghost use Rattle.book.specs.Inner.{Filled};

use base::least;
use codec::RECORD_MOST;
use codec::numbers::be32;

// A place from n on, up to which all are zero: four are looked at as one number. With one byte a turn, the mixed book in parts of 64 bytes is at 1.47
// in place of 1.41. A cursor and no count: it moves by four, and where it stops is the answer.
fn past_zeros(a: [u8; 27], n: usize) -> usize
    ensures { zeros (drop result a) ≡ zeros (drop n a) }
{
    let mut i = n;
    while i < 24 {
        if be32(&a, i) != 0 {
            return i;
        }
        i += 4;
    }
    i
}

// From n on all are zero.
pub(crate) fn zeroed(a: [u8; 27], n: usize) -> bool
    ensures { result ≡ zeros (drop n a) }
{
    for i in past_zeros(a, n)..27 {
        if a[i] != 0 {
            return false;
        }
    }
    true
}

// Bytes of src from its start go into rec behind n bytes, up to goal bytes or the end of src; how many they are.
pub(crate) fn fill(rec: &mut [u8; RECORD_MOST], n: usize, goal: usize, src: &[u8]) -> usize
    requires { (n ≤ record_most) × (goal ≤ record_most) × (length rec.old ≡ record_most) }
    ensures { Filled rec.old rec.new n goal src.now result }
{
    let k = least(goal.saturating_sub(n), src.len());
    rec[n..n + k].copy_from_slice(&src[..k]);
    k
}

// The first n bytes of s, and zeros behind them.
pub(crate) fn kept(s: &[u8], n: usize) -> [u8; 27]
    requires { (n ≤ 27) × (n ≤ length s.now) }
    ensures { result ≡ take n s.now ++ replicate (27 - n) 0 }
{
    let mut held = [0u8; 27];
    held[..n].copy_from_slice(&s[..n]);
    held
}

// The same, with all of s behind the first n bytes.
pub(crate) fn put_behind(a: [u8; 27], n: usize, s: &[u8]) -> [u8; 27]
    requires { n + length s.now ≤ 27 }
    ensures { result ≡ paste a n s.now (length s.now) }
{
    let mut held = a;
    held[n..n + s.len()].copy_from_slice(s);
    held
}
