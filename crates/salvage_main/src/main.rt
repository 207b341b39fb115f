// Reads a damaged book on standard input and writes a clean one on standard output. What was dropped, and where the reading ended, is reported on
// standard error. With two arguments the list of what was dropped goes to a descriptor of its own.
#![tactic(auto)]

ghost use Rattle.std.specs.Prelude.{◌≡◌, length};

use names::hints::{look, say_hint_alone};
use program::{System, report, send};
use salvage::how_far::{ReadingEnd, reading_end};
use salvage::lines::report_lines;
use salvage::{Lengths, Reading, Unsaved, remarks};
use std::fs::OpenOptions;
use std::io::{Error, Write};
use std::rt::Files;

// The most bytes that are read, kept or dropped: a full book has 114,688, so that at least 585 dropped records have room beside it.
const MOST: usize = 131072;

// The bytes that are looked at: a longest record more than the most.
const LOOKED: usize = 131100;

// Where a caller that gives two arguments wants the list: its descriptor 4, by its name among the files.
const LIST_FILE: &str = "/dev/fd/4";

// Whether a book was saved and went out, with its list where that is asked for; whether all of the damaged one was read, and whether all was told.
#[derive(Clone, Copy)]
struct Done {
    saved: bool,
    read: bool,
    told: bool,
}

// The end of the reading, and whether no read failed after it.
#[derive(Clone, Copy)]
struct Rest {
    end: ReadingEnd,
    good: bool,
}

// The lines of the dropped records: the reading, the bytes gone through, whether no write failed, and whether there may be more.
#[derive(Clone, Copy)]
struct Work {
    reading: Reading,
    at: usize,
    written: bool,
    more: bool,
}

// Where the reading ends a longest record before all of this, what comes after changes nothing (salvage, proofs/AfterEnd).
fn damaged_buffer() -> [u8; 131100]
    ensures { length result ≡ 131100 }
{
    [0u8; 131100]
}

// A clean book has at most 4,096 records of at most 28 bytes.
fn book_buffer() -> [u8; 114688]
    ensures { length result ≡ 114688 }
{
    [0u8; 114688]
}

// An entry of nine bytes for each record of a damaged book: a record has at least six.
fn list_buffer() -> [u8; 196608]
    ensures { length result ≡ 196608 }
{
    [0u8; 196608]
}

// The bytes after those that were looked at are counted.
fn count_rest(rt: &impl System, from: ReadingEnd) -> Rest {
    let mut part = io::large_buffer();
    let mut end = from;
    let mut stdin = rt.input();
    let mut r = program::Reading::new();
    // By the turns of the reading, which end with the input: no count of this loop.
    while r.turns > 0 {
        r = r.next(rt, &mut stdin, b"standard input", &mut part);
        end = end.followed(r.len);
    }
    Rest {
        end: end,
        good: r.good,
    }
}

// There are none where the input ended before.
fn rest_after(rt: &impl System, end: ReadingEnd, looked: usize) -> Rest {
    if looked < LOOKED {
        return Rest {
            end: end,
            good: true,
        };
    }
    count_rest(rt, end)
}

// The lines of some records, with one write.
fn turn(rt: &impl System, mut w: Work, damaged: &[u8], text: &mut [u8]) -> Work {
    let at = w.at;
    if damaged.len() < at {
        w.more = false;
        return w;
    }
    let reading = w.reading;
    let r = report_lines(reading, &damaged[at..], text);
    let next = r.reading;
    let n = r.written;
    w.reading = next;
    w.at = at + r.taken;
    w.more = r.more;
    if !report(rt, &text[..n]) {
        w.written = false;
        w.more = false;
    }
    w
}

// Each turn takes a record, so that there are fewer of them than bytes.
fn run(rt: &impl System, from: Work, damaged: &[u8], text: &mut [u8]) -> Work {
    let mut w = from;
    for _ in 0..LOOKED {
        if !w.more {
            return w;
        }
        w = turn(rt, w, damaged, text);
    }
    w
}

// A line for each dropped record.
fn tell_lines(rt: &impl System, damaged: &[u8]) -> bool {
    let mut text = io::large_buffer();
    let reading = Reading::new();
    let start = Work {
        reading: reading,
        at: 0,
        written: true,
        more: true,
    };
    let last = run(rt, start, damaged, &mut text);
    last.written
}

// The last words.
fn tell_end(
    rt: &impl System,
    answer: Result<Lengths, Unsaved>,
    end: ReadingEnd,
    book: &[u8],
) -> bool {
    let mut text = [0u8; 512];
    let n = remarks::say_answer(&mut text, answer, end, book);
    report(rt, &text[..n])
}

fn tell_too_long(rt: &impl System) {
    let mut text = [0u8; 512];
    let n = remarks::say_too_long(&mut text);
    report(rt, &text[..n]);
}

fn write_list(rt: &impl Files, list: &[u8]) -> Result<(), Error> {
    let mut file = OpenOptions::new().append(true).open(rt, LIST_FILE)?;
    file.write_all(list)
}

// The list, where it is asked for.
fn give_list(rt: &(impl System + Files), list: &[u8]) -> bool {
    if program::arg_count(rt) < 3 {
        return true;
    }
    match write_list(rt, list) {
        Ok(()) => true,
        Err(why) => {
            program::fail(rt, b"the list", &why);
            false
        }
    }
}

// Where the list or the clean book can't go out, nothing more is printed.
fn give(
    rt: &(impl System + Files),
    lengths: Lengths,
    rest: Rest,
    damaged: &[u8],
    book: &[u8],
    list: &[u8],
) -> Done {
    let end = rest.end;
    let read = rest.good & end.all_read();
    if !give_list(rt, list) {
        return unsaved();
    }
    if !send(rt, book) {
        return unsaved();
    }
    let lines = tell_lines(rt, damaged);
    let last = tell_end(rt, Ok(lengths), end, book);
    Done {
        saved: true,
        read: read,
        told: lines & last,
    }
}

fn unsaved() -> Done {
    Done {
        saved: false,
        read: false,
        told: false,
    }
}

fn save(rt: &(impl System + Files), damaged: &[u8]) -> Done {
    let end = reading_end(damaged);
    if MOST < end.at {
        tell_too_long(rt);
        return unsaved();
    }
    let mut book = book_buffer();
    let mut list = list_buffer();
    let answer = salvage::salvage(damaged, &mut book, &mut list);
    match answer {
        Ok(l) => {
            let rest = rest_after(rt, end, damaged.len());
            give(rt, l, rest, damaged, &book[..l.book], &list[..l.list])
        }
        Err(why) => {
            tell_end(rt, Err(why), end, b"");
            unsaved()
        }
    }
}

// A hint where the input is no book but a typed text, a sheet or nothing.
fn tell_hint(rt: &impl System, damaged: &[u8]) {
    let mut text = [0u8; 256];
    let n = say_hint_alone(&mut text, look(damaged));
    report(rt, &text[..n]);
}

fn tell_status(rt: &impl System, done: Done) {
    program::tell_status(rt, remarks::status(done.saved, done.read, done.told));
}

fn answer(rt: &(impl System + Files), damaged: &[u8]) -> Done {
    let done = save(rt, damaged);
    if !done.saved {
        tell_hint(rt, damaged);
    }
    done
}

fn main(rt: HostRuntime) {
    let mut damaged = damaged_buffer();
    let input = program::read_all(&rt, &mut rt.input(), b"standard input", &mut damaged);
    if !input.good {
        tell_status(&rt, unsaved());
        return;
    }
    let n = input.len;
    tell_status(&rt, answer(&rt, &damaged[..n]));
}
