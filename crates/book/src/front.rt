// Where a record ends.
ghost use Rattle.std.specs.Prelude.{◌≡◌, ◌++◌, ◌||◌, ◌+◌, ◌*◌, ◌≤◌, length, take, ltb};
ghost use Rattle.codec.specs.Table.{length_most_lem};
ghost use Rattle.codec.specs.Codec.{val_at};
ghost use Rattle.book.specs.Front.{front};
ghost use Rattle.book.specs.State.{is_unfinished};
ghost use Rattle.book.specs.WholeRecords.{Ready};
ghost use Rattle.book.specs.Inner.{by_length_lem, told};

use codec::LENGTH_MOST;
use codec::numbers::be16;

// Length outside 4..26.
pub fn bad_length(length: u64) -> bool
    ensures { result ≡ (ltb length 4 || ltb length_most_lem length) }
{
    (length < 4) | (LENGTH_MOST < length)
}

// What some bytes are at their front: the beginning of a record, a length that no record has, or a whole record.
#[derive(Clone, Copy)]
pub enum Front {
    Unfinished,
    BadLength,
    Whole,
}

// What n bytes of this length are at their front.
fn front_by(length: u64, n: usize) -> Front
    ensures { result ≡ told (by_length_lem length n) }
{
    if bad_length(length) {
        return Front::BadLength;
    }
    if n < (length as usize) + 2 {
        Front::Unfinished
    } else {
        Front::Whole
    }
}

// What the first n bytes of s are at their front.
pub fn front_of(s: &[u8], n: usize) -> Front
    requires { n ≤ length s.now }
    ensures { result ≡ told (front (take n s.now)) }
{
    if n < 2 {
        return Front::Unfinished;
    }
    front_by(be16(s, 0), n)
}

// The bytes of the record that lies whole at the front of s; 0 where none does.
pub fn ready(s: &[u8]) -> usize
    ensures { Ready s.now result }
{
    match front_of(s, s.len()) {
        Front::Whole => (be16(s, 0) as usize) + 2,
        _ => 0,
    }
}

fn pair(high: u8, low: u8) -> u64
    ensures { result ≡ high * 256 + low }
{
    (high as u64) * 256 + low as u64
}

// The length that stands in the first two of the bytes held and of rest behind them.
fn length_of(held: [u8; 27], count: usize, rest: &[u8]) -> u64
    requires { (count ≤ 27) × (2 ≤ count + length rest.now) }
    ensures { result ≡ val_at (take count held ++ rest.now) 0 2 }
{
    if 2 <= count {
        return be16(&held, 0);
    }
    if count == 1 {
        return pair(held[0], rest[0]);
    }
    be16(rest, 0)
}

// Whether the bytes held and rest behind them are an unfinished record together.
pub(crate) fn unfinished(held: [u8; 27], count: usize, rest: &[u8]) -> bool
    requires { count ≤ 27 }
    ensures { result ≡ is_unfinished (front (take count held ++ rest.now)) }
{
    if 27 - count < rest.len() {
        return false;
    }
    let n = count + rest.len();
    if n < 2 {
        return true;
    }
    matches!(front_by(length_of(held, count, rest), n), Front::Unfinished)
}
