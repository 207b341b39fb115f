// A trial of the writer: a state, a kind, the room of the buffer, and values.
use crate::books::{fill, flushed, least, put_lines, put_refusal, put_state, read_state};
use crate::shown::{put, put_checksum, put_word, put_words};
use crate::words::read_numbers;
use account::Refusal;
use book::State;

// What one writing gave: the state, and the bytes of answer so far.
#[derive(Clone, Copy)]
struct Wrote {
    state: State,
    w: usize,
}

// A refusal's number, record and field; zeros where the record is written.
fn put_answer(out: &mut [u8], at: usize, answer: Result<(), Refusal>) -> usize {
    match answer {
        Ok(()) => put_words(out, at, &[0, 0, 0]),
        Err(r) => put_refusal(out, at, r),
    }
}

// One record written, its buffer filled before it, and the line of answer.
fn write(
    state: State,
    kind: u64,
    values: &[u64],
    room: &mut [u8],
    out: &mut [u8],
    at: usize,
) -> Wrote {
    fill(room);
    let done = make_record::write(state, kind, values, room);
    let answer = done.answer;
    let next = done.state;
    let n = done.written;
    let head = put_answer(out, at, answer);
    let count = put_word(out, head, n as u64);
    let sums = put_checksum(out, count, room);
    let bytes = put_lines(out, sums, &room[..n]);
    let end = put(out, bytes, b'\n');
    Wrote {
        state: next,
        w: end,
    }
}

// A trial of the writer, from the word behind its letter on; how many bytes of answers are in the buffer.
pub(crate) fn replay(
    rt: &impl Print,
    line: &[u8],
    at: usize,
    room: &mut [u8],
    out: &mut [u8],
    w: usize,
) -> usize {
    let resumed = read_state(line, at);
    let state = resumed.state;
    let mut head = [0u64; 3];
    let mut values = [0u64; 32];
    let next = read_numbers(line, resumed.next, &mut head);
    read_numbers(line, next, &mut values);
    let size = least(head[1], room.len());
    let n = least(head[2], 32);
    let wrote = write(state, head[0], &values[..n], &mut room[..size], out, w);
    let after = wrote.state;
    let end = put_state(out, wrote.w, after);
    flushed(rt, out, end)
}
