// Records written from their values: what the writer gives is what the reader would make of the same values.
#![tactic(auto)]

mod kinds;

ghost use Rattle.std.specs.Prelude.{◌≡◌, ◌≤◌, length};
ghost use Rattle.book.specs.State.{holding};
ghost use Rattle.make_record.specs.Write.{refusal_by, refusing, row_for, write, written_of, record_laid};

use account::Refusal;
use book::State;
use by_row::table::values_of;
use codec::LAST_KIND;
use codec::kinds::{FARM, FARM_FACTORS, bytes_of};

// What the writer hands back: the state, the count of bytes written, and the answer. A refusal goes with its number, the records accepted before it,
// and the field.
#[derive(Clone, Copy)]
pub struct Written {
    pub state: State,
    pub written: usize,
    pub answer: Result<(), Refusal>,
}

// Nothing is written, and the state is kept.
fn refused(state: State, refusal: Refusal) -> Written
    ensures { result ≡ written_of (refusing state refusal) }
{
    Written {
        state: state,
        written: 0,
        answer: Err(refusal),
    }
}

// Refused by a number that goes with the records accepted, and with no field.
fn refused_by(state: State, code: u8) -> Written
    ensures { result ≡ written_of (refusing state (refusal_by code state.account.records)) }
{
    let a = state.account;
    let refusal = Refusal {
        code: code,
        accepted: a.records,
        field: 0,
    };
    refused(state, refusal)
}

// Refusal 13: the numbers that the state holds are not to be trusted.
fn outside(state: State) -> Written
    ensures { result ≡ written_of (refusing state (refusal_by 13 0)) }
{
    let refusal = Refusal {
        code: 13,
        accepted: 0,
        field: 0,
    };
    refused(state, refusal)
}

// The row of the table that so many values of the kind are of.
fn row_for(kind: u64, count: usize) -> u64
    ensures { result ≡ row_for kind count }
{
    if (kind == FARM) & (count == 4) {
        return FARM_FACTORS;
    }
    kind
}

// What writing the values into a buffer of that many bytes gives, but for the bytes.
fn answered(state: State, kind: u64, values: &[u64], room: usize) -> Written
    ensures { result ≡ written_of (write state kind values.now room) }
{
    if !state.in_range() {
        return outside(state);
    }
    let a = state.account;
    if a.stage == 3 {
        let own = a.refusal;
        return refused(state, own);
    }
    if (a.stage == 2) | (state.count != 0) {
        return refused_by(state, 22);
    }
    if (kind < 1) | (LAST_KIND < kind) {
        return refused_by(state, 3);
    }
    let row = row_for(kind, values.len());
    if values.len() != values_of(row) {
        return refused_by(state, 4);
    }
    let j = crate::kinds::weighed(a, row, values);
    let next = j.account;
    if next.stage == 3 {
        let readers = next.refusal;
        return refused(state, readers);
    }
    let bytes = bytes_of(row);
    if room < bytes {
        return refused_by(state, 16);
    }
    Written {
        state: State {
            account: next,
            held: [0; 27],
            count: 0,
        },
        written: bytes,
        answer: Ok(()),
    }
}

// Writes a record of the kind with these values at the start of out, after the records of the state.
pub fn write(state: State, kind: u64, values: &[u64], out: &mut [u8]) -> Written
    ensures result { result ≡ written_of (write state kind values.now (length out.old)) }
    ensures buffer { out.new ≡ record_laid (write state kind values.now (length out.old)) out.old }
    ensures count { result.written ≤ length out.old }
{
    let w = answered(state, kind, values, out.len());
    if w.written != 0 {
        by_row::write(out, 0, row_for(kind, values.len()), values);
    }
    w
}
