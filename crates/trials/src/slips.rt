// A trial of the slip: a ration and a change by their bits.
use crate::shown::{put, put_number, put_word};
use crate::words::read_numbers;
use slip::{Change, Ration};

// The double of a bit pattern; of a NaN's pattern, a NaN.
fn double(bits: u64) -> f64 {
    let exponent = bits % 9223372036854775808 / 4503599627370496;
    let digits = bits % 4503599627370496;
    if (exponent == 2047) & (digits != 0) {
        0.0 / 0.0
    } else {
        f64::from_bits(bits)
    }
}

// The bit pattern of a double; any NaN is nan.
fn put_double(out: &mut [u8], at: usize, x: f64) -> usize {
    if x == x {
        return put_number(out, at, f64::to_bits(x));
    }
    let first = put(out, at, b'n');
    let second = put(out, first, b'a');
    put(out, second, b'n')
}

// A double and a space.
fn put_spaced(out: &mut [u8], at: usize, x: f64) -> usize {
    let end = put_double(out, at, x);
    put(out, end, b' ')
}

fn change_of(kind: u64, x: f64) -> Change {
    match kind {
        1 => Change::Feed(x),
        2 => Change::Ym(x),
        _ => Change::Head(x),
    }
}

fn put_ration(out: &mut [u8], at: usize, r: Ration) -> usize {
    let ge = put_spaced(out, at, r.ge);
    let ym = put_spaced(out, ge, r.ym);
    let head = put_spaced(out, ym, r.head);
    put_word(out, head, r.days as u64)
}

// A trial of the slip, from the word behind its letter on; how many bytes of answers are in the buffer.
pub(crate) fn replay(line: &[u8], at: usize, out: &mut [u8], w: usize) -> usize {
    let mut v = [0u64; 6];
    read_numbers(line, at, &mut v);
    let ration = Ration {
        ge: double(v[0]),
        ym: double(v[1]),
        head: double(v[2]),
        days: (v[3] % 65536) as u16,
    };
    let change = change_of(v[4], double(v[5]));
    let slip = slip::what_if(ration, change);
    let after = slip.ration;
    let code = put_word(out, w, slip.code as u64);
    let body = put_ration(out, code, after);
    let end = put_double(out, body, slip.kg);
    put(out, end, b'\n')
}
