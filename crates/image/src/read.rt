// The state that an image tells.
ghost use Rattle.std.specs.Prelude.{◌≡◌, ◌+◌, ◌≤◌, drop, length, take};
ghost use Rattle.std.proofs.lemmas.List.Edits.{sets};
ghost use Rattle.codec.specs.Codec.{values_at};
ghost use Rattle.account.specs.Account.{account_fields};
ghost use Rattle.image.specs.Image.{image_size, place_of, state_in};

use account_numbers::{NUMBERS, account_of, width};
use book::State;
use codec::numbers::number;

fn held_in(image: &[u8]) -> [u8; 27]
    requires { length image.now ≡ image_size }
    ensures { result ≡ take 27 image.now }
{
    let mut held = [0u8; 27];
    held.copy_from_slice(&image[..27]);
    held
}

// The numbers of an account from one on and before another, from the place of the first; the place of the next.
fn read_run(image: &[u8], at: usize, v: &mut [u64], from: usize, to: usize) -> usize
    requires { (length image.now ≡ image_size) × (at ≡ place_of from) × (from ≤ to) × (to ≤ length account_fields) × (to ≤ length v.old) }
    ensures numbers { v.new ≡ sets v.old from
        (values_at (drop from (take to account_fields)) image.now (place_of from)) }
    ensures next { result ≡ place_of to }
{
    let mut p = at;
    // By index: the width of a number goes by its place in the account.
    for i in from..to {
        let w = width(i);
        v[i] = number(image, p, w);
        p += w;
    }
    p
}

// Eight numbers at a time: the turns of a longer loop the compiler would not lay out one after the other.
fn numbers_in(image: &[u8]) -> [u64; NUMBERS]
    requires { length image.now ≡ image_size }
    ensures { result ≡ values_at account_fields image.now 28 }
{
    let mut v = [0u64; NUMBERS];
    let second = read_run(image, 28, &mut v, 0, 8);
    let third = read_run(image, second, &mut v, 8, 16);
    read_run(image, third, &mut v, 16, NUMBERS);
    v
}

pub(crate) fn state_in(image: &[u8]) -> State
    requires { length image.now ≡ image_size }
    ensures { result ≡ state_in image.now }
{
    let account = account_of(numbers_in(image));
    let held = held_in(image);
    let count = number(image, 27, 1) as usize;
    State {
        account,
        held,
        count,
    }
}
