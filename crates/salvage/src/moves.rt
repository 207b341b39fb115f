// Bytes of the clean book and of the list, written.
ghost use Rattle.std.specs.Prelude.{◌≡◌, ◌+◌, ◌≤◌, length, take};
ghost use Rattle.std.proofs.lemmas.List.Edits.{sets};
ghost use Rattle.salvage.specs.Inner.{by_told, note_told};

use codec::numbers::{put1, put8};

// One number for a kept record, another for a dropped one.
pub(crate) fn by_code(code: Option<u8>, kept: usize, dropped: usize) -> usize
    ensures { result ≡ by_told code kept dropped }
{
    match code {
        None => kept,
        Some(_) => dropped,
    }
}

// The first n bytes of src go to out from at on.
pub(crate) fn copy(out: &mut [u8], at: usize, src: &[u8], n: usize)
    requires { (n ≤ length src.now) × (at + n ≤ length out.old) }
    ensures { out.new ≡ sets out.old at (take n src.now) }
{
    out[at..at + n].copy_from_slice(&src[..n]);
}

// An entry goes to the list from at on, where a number drops the record; how many bytes it has.
pub(crate) fn note(list: &mut [u8], at: usize, number: u64, code: Option<u8>) -> usize
    requires { at + length (note_told code number) ≤ length list.old }
    ensures bytes { list.new ≡ sets list.old at (note_told code number) }
    ensures count { result ≡ length (note_told code number) }
{
    match code {
        None => 0,
        Some(why) => {
            put8(list, at, number);
            put1(list, at + 8, why as u64);
            9
        }
    }
}
