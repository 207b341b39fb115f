// The words of a trial: hexadecimal numbers and bytes, read from a line. Nothing is promised of them but that reading is safe: what comes of
// them is compared with the second program's answers.
ghost use Rattle.std.specs.Prelude.{◌≡◌, ◌≤◌, length};

// Bytes read, and where the next word begins.
#[derive(Clone, Copy)]
pub(crate) struct Bytes {
    pub n: usize,
    pub next: usize,
}

// A number read, and where the next word begins.
#[derive(Clone, Copy)]
pub(crate) struct Number {
    pub value: u64,
    pub next: usize,
}

fn digit(b: u8) -> u64
    ensures { result ≤ 15 }
{
    match b {
        b'0'..=b'9' => (b - b'0') as u64,
        b'a'..=b'f' => (b - b'a' + 10) as u64,
        _ => 0,
    }
}

fn nibble(line: &[u8], i: usize) -> u64
    ensures { result ≤ 15 }
{
    match line.get(i) {
        Some(b) => digit(*b),
        None => 0,
    }
}

fn pair(high: u64, low: u64) -> u8
    requires { (high ≤ 15) × (low ≤ 15) }
{
    (high * 16 + low) as u8
}

// Where the word from at on ends.
fn end_of(line: &[u8], at: usize) -> usize
    ensures { at ≤ result }
{
    for i in at..line.len() {
        if line[i] == b' ' {
            return i;
        }
    }
    at.max(line.len())
}

// Past the space behind a word.
fn past(line: &[u8], end: usize) -> usize {
    if end < line.len() { end + 1 } else { end }
}

pub(crate) fn read_number(line: &[u8], at: usize) -> Number {
    let end = end_of(line, at);
    let mut value = 0;
    for i in at..end {
        value = value % 1152921504606846976 * 16 + nibble(line, i);
    }
    let next = past(line, end);
    Number { value, next }
}

// As many numbers as the slice has places; where the next word begins.
pub(crate) fn read_numbers(line: &[u8], at: usize, into: &mut [u64]) -> usize {
    let mut next = at;
    for place in into.iter_mut() {
        let n = read_number(line, next);
        *place = n.value;
        next = n.next;
    }
    next
}

pub(crate) fn read_bytes(line: &[u8], at: usize, into: &mut [u8]) -> Bytes
    ensures { result.n ≤ length into.old }
{
    let end = end_of(line, at);
    let n = ((end - at) / 2).min(into.len());
    for k in 0..n {
        let high = nibble(line, at + 2 * k);
        let low = nibble(line, at + 2 * k + 1);
        into[k] = pair(high, low);
    }
    let next = past(line, end);
    Bytes { n, next }
}
