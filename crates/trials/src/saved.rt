// A trial of the salvage: damaged bytes, and the room of the buffers for the book and for the list.
ghost use Rattle.std.specs.Prelude.{◌≤◌};

use crate::books::{fill, flushed, least, put_lines};
use crate::shown::{put, put_checksum, put_words};
use crate::words::{read_bytes, read_numbers};
use salvage::{Lengths, Unsaved};

// The number that refuses it, and both lengths; zeros where there are none.
fn put_answer(out: &mut [u8], at: usize, answer: Result<Lengths, Unsaved>) -> usize {
    match answer {
        Ok(l) => put_words(out, at, &[0, l.book as u64, l.list as u64]),
        Err(why) => put_words(out, at, &[why.number() as u64, 0, 0]),
    }
}

// How many bytes of the list are written.
fn listed(answer: Result<Lengths, Unsaved>, most: usize) -> usize
    ensures { result ≤ most }
{
    match answer {
        Ok(l) => l.list.min(most),
        Err(_) => 0,
    }
}

// One salvage, both buffers filled before it.
fn filled(damaged: &[u8], book: &mut [u8], list: &mut [u8]) -> Result<Lengths, Unsaved> {
    fill(book);
    fill(list);
    salvage::salvage(damaged, book, list)
}

// The line of answer: the answer, a checksum of each buffer, and the list.
fn put_saved(
    out: &mut [u8],
    at: usize,
    answer: Result<Lengths, Unsaved>,
    book: &[u8],
    list: &[u8],
) -> usize {
    let n = listed(answer, list.len());
    let head = put_answer(out, at, answer);
    let first = put_checksum(out, head, book);
    let second = put_checksum(out, first, list);
    let bytes = put_lines(out, second, &list[..n]);
    put(out, bytes, b'\n')
}

fn save(damaged: &[u8], book: &mut [u8], list: &mut [u8], out: &mut [u8], at: usize) -> usize {
    let answer = filled(damaged, book, list);
    put_saved(out, at, answer, book, list)
}

// A trial of the salvage, from the word behind its letter on; how many bytes of answers are in the buffer.
pub(crate) fn replay(
    rt: &impl Print,
    line: &[u8],
    at: usize,
    input: &mut [u8],
    room: &mut [u8],
    out: &mut [u8],
    w: usize,
) -> usize {
    let mut list = [0u8; 4096];
    let mut rooms = [0u64; 2];
    let read = read_bytes(line, at, input);
    let n = read.n;
    read_numbers(line, read.next, &mut rooms);
    let book_room = least(rooms[0], room.len());
    let list_room = least(rooms[1], 4096);
    let end = save(
        &input[..n],
        &mut room[..book_room],
        &mut list[..list_room],
        out,
        w,
    );
    flushed(rt, out, end)
}
