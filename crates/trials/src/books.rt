// A trial of the book reader: a state, bytes, and the calls that offer them.
ghost use Rattle.std.specs.Prelude.{◌≤◌, length};

use crate::shown::{put, put_bytes, put_checksum, put_word, put_words};
use crate::words::{read_bytes, read_number, read_numbers};
use account::{Account, Refusal};
use account_numbers::{
    NUMBERS, account_of, of_heading, of_refusal, of_start, of_subtotal, of_used,
};
use book::{Answer, State};

// A state read, and where the next word begins.
#[derive(Clone, Copy)]
pub(crate) struct Resumed {
    pub state: State,
    pub next: usize,
}

// What one call gave: the state, the bytes taken, and the bytes of answer so far.
#[derive(Clone, Copy)]
struct Called {
    state: State,
    taken: usize,
    w: usize,
}

// The same, and where the next word begins.
#[derive(Clone, Copy)]
struct Stepped {
    state: State,
    next: usize,
    taken: usize,
    w: usize,
}

pub(crate) fn read_state(line: &[u8], at: usize) -> Resumed {
    let mut values = [0u64; NUMBERS];
    let mut held = [0u8; 27];
    let after = read_numbers(line, at, &mut values);
    let count = read_number(line, after);
    let h = read_bytes(line, count.next, &mut held);
    let account = account_of(values);
    let state = State {
        account: account,
        held: held,
        count: count.value as usize,
    };
    Resumed {
        state: state,
        next: h.next,
    }
}

pub(crate) fn put_refusal(out: &mut [u8], at: usize, r: Refusal) -> usize {
    let values = of_refusal(r);
    put_words(out, at, &values)
}

// A state but for its held bytes: its numbers, part by part.
fn put_account(out: &mut [u8], at: usize, a: Account) -> usize {
    let start = put_words(out, at, &of_start(a));
    let heading = put_words(out, start, &of_heading(a.heading));
    let used = put_words(out, heading, &of_used(a.used));
    let subtotal = put_words(out, used, &of_subtotal(a.subtotal));
    let sums = put_words(out, subtotal, &a.sums.listed());
    put_refusal(out, sums, a.refusal)
}

// A state on a line of its own.
pub(crate) fn put_state(out: &mut [u8], at: usize, s: State) -> usize {
    let a = s.account;
    let held = s.held;
    let body = put_account(out, at, a);
    let count = put_word(out, body, s.count as u64);
    let end = put_bytes(out, count, &held);
    put(out, end, b'\n')
}

// The answer's number, then a refusal's code, record and field.
fn put_answer(out: &mut [u8], at: usize, answer: Answer) -> usize {
    match answer {
        Answer::More => put_words(out, at, &[0, 0, 0, 0]),
        Answer::Full => put_words(out, at, &[1, 0, 0, 0]),
        Answer::Closed => put_words(out, at, &[2, 0, 0, 0]),
        Answer::Refused(r) => {
            let end = put_word(out, at, 3);
            put_refusal(out, end, r)
        }
    }
}

// The bytes written, where there are 1 to 200 of them.
pub(crate) fn put_lines(out: &mut [u8], at: usize, lines: &[u8]) -> usize {
    if lines.is_empty() | (200 < lines.len()) {
        return put(out, at, b'-');
    }
    put_bytes(out, at, lines)
}

// One call, its line buffer filled before it, and its line of answer.
fn call(state: State, src: &[u8], room: &mut [u8], out: &mut [u8], at: usize) -> Called
    ensures { result.taken ≤ length src.now }
{
    fill(room);
    let fed = state.feed(src, room);
    let answer = fed.answer;
    let next = fed.state;
    let n = fed.written;
    let head = put_answer(out, at, answer);
    let counts = put_words(out, head, &[fed.taken as u64, n as u64]);
    let sums = put_checksum(out, counts, room);
    let lines = put_lines(out, sums, &room[..n]);
    let end = put(out, lines, b'\n');
    Called {
        state: next,
        taken: fed.taken,
        w: end,
    }
}

pub(crate) fn fill(room: &mut [u8]) {
    room.fill(165);
}

// Writes the answers out where they begin to fill the buffer; how many bytes are left in it.
pub(crate) fn flushed(rt: &impl Print, out: &[u8], w: usize) -> usize {
    if w < 32768 {
        return w;
    }
    if w <= out.len() {
        let _ = rt.write_all(&out[..w]);
    }
    0
}

pub(crate) fn least(a: u64, b: usize) -> usize
    ensures { result ≤ b }
{
    a.min(b as u64) as usize
}

// One call as the line has it from at on: how many bytes of the rest it offers, and the room of its line buffer.
fn step(
    state: State,
    line: &[u8],
    at: usize,
    rest: &[u8],
    room: &mut [u8],
    out: &mut [u8],
    w: usize,
) -> Stepped
    ensures { result.taken ≤ length rest.now }
{
    let mut part = [0u64; 2];
    let next = read_numbers(line, at, &mut part);
    let n = least(part[0], rest.len());
    let size = least(part[1], room.len());
    let called = call(state, &rest[..n], &mut room[..size], out, w);
    let after = called.state;
    Stepped {
        state: after,
        next: next,
        taken: called.taken,
        w: called.w,
    }
}

// The calls of a trial over the input, whose count stands in the line at at; then the last state.
fn calls(
    rt: &impl Print,
    from: State,
    line: &[u8],
    at: usize,
    input: &[u8],
    room: &mut [u8],
    out: &mut [u8],
    w: usize,
) -> usize {
    let count = read_number(line, at);
    let mut state = from;
    let mut next = count.next;
    let mut end = w;
    let mut i = 0;
    for _ in 0..count.value {
        let s = step(state, line, next, &input[i..], room, out, end);
        state = s.state;
        next = s.next;
        i += s.taken;
        end = flushed(rt, out, s.w);
    }
    put_state(out, end, state)
}

// A trial of the reader, from the word behind its letter on; how many bytes of answers are in the buffer.
pub(crate) fn replay(
    rt: &impl Print,
    line: &[u8],
    at: usize,
    input: &mut [u8],
    room: &mut [u8],
    out: &mut [u8],
    w: usize,
) -> usize {
    let resumed = read_state(line, at);
    let state = resumed.state;
    let read = read_bytes(line, resumed.next, input);
    let n = read.n;
    let end = calls(rt, state, line, read.next, &input[..n], room, out, w);
    flushed(rt, out, end)
}
