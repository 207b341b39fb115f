// The image of a state: a store for each number.
ghost use Rattle.std.specs.Prelude.{◌≡◌, [], ◌∷◌, ◌+◌, ◌≤◌, drop, length, take};
ghost use Rattle.std.proofs.lemmas.List.Edits.{sets};
ghost use Rattle.codec.specs.Codec.{bytes_of};
ghost use Rattle.account.specs.Figures.{listed};
ghost use Rattle.account.specs.Account.{account_fields, start_numbers, heading_numbers, used_numbers, subtotal_numbers, refusal_numbers};
ghost use Rattle.image.specs.Image.{front_numbers, image_of, image_size, place_of, stored};

use account::Account;
use account_numbers::{
    HEADING, REFUSAL, SUBTOTAL, SUMS, USED, of_heading, of_refusal, of_start, of_subtotal, of_used,
    width,
};
use book::State;
use codec::numbers::put;

fn put_held(image: &mut [u8], held: [u8; 27])
    requires { length image.old ≡ image_size }
    ensures { image.new ≡ sets image.old 0 held }
{
    image[..27].copy_from_slice(&held);
}

// The numbers v, which are an account's from one on, at their place; the place of the next.
fn put_run(image: &mut [u8], at: usize, from: usize, v: &[u64]) -> usize
    requires { (length image.old ≡ image_size) × (at ≡ place_of from) × (from + length v.now ≤ length account_fields) }
    ensures bytes { image.new ≡ sets image.old (place_of from)
        (bytes_of (take (length v.now) (drop from account_fields)) v.now 0) }
    ensures next { result ≡ place_of (from + length v.now) }
{
    let mut p = at;
    // By index: the width of a number goes by its place in the account.
    for i in 0..v.len() {
        let w = width(from + i);
        put(image, p, w, v[i]);
        p += w;
    }
    p
}

// The numbers before the subtotal, part by part; no part is so long that the compiler would not lay its turns out one after the other.
fn put_front(image: &mut [u8], a: Account) -> usize
    requires { length image.old ≡ image_size }
    ensures bytes { image.new ≡ stored (start_numbers a ∷ heading_numbers a.heading ∷ used_numbers a.used ∷ []) 0
        image.old }
    ensures next { result ≡ place_of (length (front_numbers a)) }
{
    let start = of_start(a);
    let heading = of_heading(a.heading);
    let used = of_used(a.used);
    let second = put_run(image, 28, 0, &start);
    let third = put_run(image, second, HEADING, &heading);
    put_run(image, third, USED, &used)
}

// The others.
fn put_back(image: &mut [u8], at: usize, a: Account)
    requires { (length image.old ≡ image_size) × (at ≡ place_of (length (front_numbers a))) }
    ensures { image.new ≡ stored (subtotal_numbers a.subtotal ∷ listed a.sums ∷ refusal_numbers a.refusal ∷ [])
        (length (front_numbers a)) image.old }
{
    let subtotal = of_subtotal(a.subtotal);
    let sums = a.sums.listed();
    let refusal = of_refusal(a.refusal);
    let second = put_run(image, at, SUBTOTAL, &subtotal);
    let third = put_run(image, second, SUMS, &sums);
    put_run(image, third, REFUSAL, &refusal);
}

pub(crate) fn put_state(image: &mut [u8], s: State)
    requires { length image.old ≡ image_size }
    ensures { image.new ≡ image_of s }
{
    let held = s.held;
    let a = s.account;
    put_held(image, held);
    put(image, 27, 1, s.count as u64);
    let at = put_front(image, a);
    put_back(image, at, a);
}
