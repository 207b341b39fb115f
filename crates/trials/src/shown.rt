// The words of an answer: hexadecimal numbers and bytes, put into a buffer. A byte that does not fit is left out, and the comparison shows it.
ghost use Rattle.std.specs.Prelude.{◌≤◌, ◌<◌, length};

pub(crate) fn put(out: &mut [u8], at: usize, b: u8) -> usize {
    if at < out.len() {
        out[at] = b;
        return at + 1;
    }
    at
}

fn hex(d: u64) -> u8
    requires { d < 16 }
{
    if d < 10 { 48 + d as u8 } else { 87 + d as u8 }
}

// The largest power of 16 that is not above v; 1 where v is 0.
fn power(v: u64) -> u64
    ensures { 0 < result }
{
    let mut p = 1152921504606846976;
    // Down the powers of 16: no count.
    while v < p {
        if p < 16 {
            return 1;
        }
        p = p / 16;
    }
    p
}

pub(crate) fn put_number(out: &mut [u8], at: usize, v: u64) -> usize {
    let mut end = at;
    let mut p = power(v);
    // The same.
    while p > 0 {
        end = put(out, end, hex(v / p % 16));
        p = p / 16;
    }
    end
}

// A number and a space.
pub(crate) fn put_word(out: &mut [u8], at: usize, v: u64) -> usize {
    let end = put_number(out, at, v);
    put(out, end, b' ')
}

fn wide(b: u8) -> u64
    ensures { result < 256 }
{
    b as u64
}

pub(crate) fn put_bytes(out: &mut [u8], at: usize, s: &[u8]) -> usize {
    let mut end = at;
    for b in s {
        let digits = wide(*b);
        end = put(out, end, hex(digits / 16));
        end = put(out, end, hex(digits % 16));
    }
    end
}

// Numbers, each with a space behind it.
pub(crate) fn put_words(out: &mut [u8], at: usize, values: &[u64]) -> usize {
    let mut end = at;
    for v in values {
        end = put_word(out, end, *v);
    }
    end
}

#[derive(Clone, Copy)]
struct Sums {
    a: u64,
    b: u64,
}

// The checksum of a line buffer.
fn checksum(s: &[u8]) -> Sums {
    let mut a = 0;
    let mut b = 0;
    for byte in s {
        a = (a + wide(*byte) + 1) % 65521;
        b = (b + a) % 65521;
    }
    Sums { a, b }
}

pub(crate) fn put_checksum(out: &mut [u8], at: usize, s: &[u8]) -> usize {
    let sums = checksum(s);
    let end = put_word(out, at, sums.a);
    put_word(out, end, sums.b)
}
