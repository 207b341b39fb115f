// Numbers read off a text, from an index on. Text and index stay two: what is read gives an index, so that a struct of both would be built anew
// for each call, and a slice in an answer has its address, which two answers need not share (proofs/OneAnswer).
ghost use Rattle.std.specs.Prelude.{◌≡◌, ℕ, ◌+◌, ◌-◌, ◌*◌, ◌≤◌, ◌<◌, length, get_or, drop};
ghost use Rattle.sheet.specs.Numbers.{half, Number, digits, positive, unsigned, in_field, unsigned_cell, signed_cell};
ghost use Rattle.sheet.specs.Code.{held, in_bits, number_of, is_formed, IsRun, IsRead};

// Why a column has no number that counts: it is not of the form, or the number is outside its field.
#[derive(Clone, Copy)]
pub enum CellFault {
    Malformed,
    Outside,
}

// A number read, and the index past it.
#[derive(Clone, Copy)]
pub struct Read {
    pub number: Result<u64, CellFault>,
    pub end: usize,
}

impl Read {
    // Whether what was read is of the form, also where its number is outside its field.
    pub(crate) fn is_formed(self) -> bool
        ensures { result ≡ is_formed self.number }
    {
        match self.number {
            Err(CellFault::Malformed) => false,
            _ => true,
        }
    }
}

pub fn byte(text: &[u8], at: usize) -> u8
    ensures { result ≡ get_or text.now at 0 }
{
    if at < text.len() {
        return text[at];
    }
    0
}

// One digit more, where 64 bits hold it.
fn more(number: Option<u64>, digit: u8) -> Option<u64>
    requires { (48 ≤ digit) × (digit ≤ 57) }
    ensures { (w : ℕ) → number ≡ held w → result ≡ held (w * 10 + (digit - 48)) }
{
    number?.checked_mul(10)?.checked_add((digit - 48) as u64)
}

// The number v goes on with the digits from `at` on.
fn go_on(text: &[u8], at: usize, v: u64) -> Read
    requires { at ≤ length text.now }
    ensures { IsRun text.now (digits v (drop at text.now)) result }
{
    let mut number = Some(v);
    for i in at..text.len() {
        let b = text[i];
        if !b.is_ascii_digit() {
            return Read {
                number: number.ok_or(CellFault::Outside),
                end: i,
            };
        }
        number = more(number, b);
    }
    Read {
        number: number.ok_or(CellFault::Outside),
        end: text.len(),
    }
}

fn read_positive(text: &[u8], at: usize) -> Read
    requires { at ≤ length text.now }
    ensures { IsRun text.now (positive (drop at text.now)) result }
{
    let none = Read {
        number: Err(CellFault::Malformed),
        end: at,
    };
    let b = byte(text, at);
    if b < 49 {
        return none;
    }
    if 57 < b {
        return none;
    }
    go_on(text, at + 1, (b - 48) as u64)
}

fn read_unsigned(text: &[u8], at: usize) -> Read
    requires { at ≤ length text.now }
    ensures { IsRun text.now (unsigned (drop at text.now)) result }
{
    if byte(text, at) == 48 {
        return Read {
            number: Ok(0),
            end: at + 1,
        };
    }
    read_positive(text, at)
}

// A number up to the highest of its field.
fn in_field(number: Result<u64, CellFault>, highest: u64) -> Result<u64, CellFault>
    ensures { (m : Number) → number ≡ in_bits m → result ≡ number_of (in_field m highest m.value) }
{
    let n = number?;
    if highest < n {
        return Err(CellFault::Outside);
    }
    Ok(n)
}

pub fn unsigned_cell(text: &[u8], at: usize, highest: u64) -> Read
    requires { at ≤ length text.now }
    ensures { IsRead text.now (unsigned_cell highest (drop at text.now)) result }
{
    let n = read_unsigned(text, at);
    Read {
        number: in_field(n.number, highest),
        end: n.end,
    }
}

pub fn signed_cell(text: &[u8], at: usize, highest: u64) -> Read
    requires { (at ≤ length text.now) × (highest < half) }
    ensures { IsRead text.now (signed_cell highest (drop at text.now)) result }
{
    if byte(text, at) != 45 {
        return unsigned_cell(text, at, highest);
    }
    let n = read_positive(text, at + 1);
    match in_field(n.number, highest + 1) {
        Ok(number) => Read {
            number: Ok(number.wrapping_neg()),
            end: n.end,
        },
        Err(fault) => Read {
            number: Err(fault),
            end: n.end,
        },
    }
}
