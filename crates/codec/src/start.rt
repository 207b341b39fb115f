// What every record and every line begins with.
ghost use Rattle.std.specs.Prelude.{◌≡◌, ◌+◌, ◌≤◌, length};
ghost use Rattle.std.proofs.lemmas.List.Edits.{sets};
ghost use Rattle.codec.specs.Codec.{be};

use crate::numbers::{put1, put2};

// The length, the version and the kind.
pub fn put_versioned(out: &mut [u8], at: usize, len: u64, version: u64, kind: u64)
    requires { at + 4 ≤ length out.old }
    ensures { out.new ≡ sets (sets (sets out.old at (be 2 len)) (at + 2) (be 1 version)) (at + 3) (be 1 kind) }
{
    put2(out, at, len);
    put1(out, at + 2, version);
    put1(out, at + 3, kind);
}

// The same with version 1.
pub fn put_start(out: &mut [u8], at: usize, len: u64, kind: u64)
    requires { at + 4 ≤ length out.old }
    ensures { out.new ≡ sets (sets (sets out.old at (be 2 len)) (at + 2) (be 1 1)) (at + 3) (be 1 kind) }
{
    put_versioned(out, at, len, 1, kind);
}
