// Big-endian numbers: read from a slice (be8, be16, be32, be64, by their bits), written into one (put1, put2, put4, put8, by their bytes);
// and both by a width that is known only when it runs (number, put).
ghost use Rattle.std.specs.Prelude.{◌≡◌, ◌+◌, ◌<◌, ◌≤◌, length};
ghost use Rattle.std.proofs.lemmas.List.Edits.{sets};
ghost use Rattle.codec.specs.Codec.{val_at, be, IsWidth};

pub fn be8(s: &[u8], at: usize) -> u64
    requires { at + 1 ≤ length s.now }
    ensures { result ≡ val_at s.now at 1 }
{
    s[at] as u64
}

pub fn be16(s: &[u8], at: usize) -> u64
    requires { at + 2 ≤ length s.now }
    ensures { result ≡ val_at s.now at 2 }
{
    u16::from_be_bytes([s[at], s[at + 1]]) as u64
}

pub fn be32(s: &[u8], at: usize) -> u64
    requires { at + 4 ≤ length s.now }
    ensures { result ≡ val_at s.now at 4 }
{
    u32::from_be_bytes([s[at], s[at + 1], s[at + 2], s[at + 3]]) as u64
}

// By halves: eight bytes listed would be no plainer.
pub fn be64(s: &[u8], at: usize) -> u64
    requires { at + 8 ≤ length s.now }
    ensures { result ≡ val_at s.now at 8 }
{
    let high = be32(s, at);
    let low = be32(s, at + 4);
    high * 4294967296 + low
}

pub fn put1(out: &mut [u8], at: usize, v: u64)
    requires { at + 1 ≤ length out.old }
    ensures { out.new ≡ sets out.old at (be 1 v) }
{
    out[at] = (v % 256) as u8;
}

pub fn put2(out: &mut [u8], at: usize, v: u64)
    requires { at + 2 ≤ length out.old }
    ensures { out.new ≡ sets out.old at (be 2 v) }
{
    // By bytes: by to_be_bytes as put4, whole books of kinds 3, 7 and 10 are at 0.74, 0.76 and 0.89 in place of 0.72, 0.71 and 0.88.
    out[at] = (v / 256 % 256) as u8;
    out[at + 1] = (v % 256) as u8;
}

pub fn put4(out: &mut [u8], at: usize, v: u64)
    requires { at + 4 ≤ length out.old }
    ensures { out.new ≡ sets out.old at (be 4 v) }
{
    out[at..at + 4].copy_from_slice(&((v % 4294967296) as u32).to_be_bytes());
}

pub fn bytes8(v: u64) -> [u8; 8]
    ensures { result ≡ be 8 v }
{
    v.to_be_bytes()
}

pub fn put8(out: &mut [u8], at: usize, v: u64)
    requires { at + 8 ≤ length out.old }
    ensures { out.new ≡ sets out.old at (be 8 v) }
{
    out[at..at + 8].copy_from_slice(&bytes8(v));
}

// The number in w bytes.
pub fn number(s: &[u8], at: usize, w: usize) -> u64
    requires { (at + w ≤ length s.now) × IsWidth w }
    ensures { result ≡ val_at s.now at w }
{
    match w {
        1 => be8(s, at),
        2 => be16(s, at),
        4 => be32(s, at),
        _ => be64(s, at),
    }
}

// A number as w bytes.
pub fn put(out: &mut [u8], at: usize, w: usize, v: u64)
    requires { (at + w ≤ length out.old) × IsWidth w }
    ensures { out.new ≡ sets out.old at (be w v) }
{
    match w {
        1 => put1(out, at, v),
        2 => put2(out, at, v),
        4 => put4(out, at, v),
        _ => put8(out, at, v),
    }
}
