// The table of the books that are named after the word `status`, on standard output: a row for each file, and the sums over the closed books.
#![tactic(auto)]

ghost use Rattle.std.specs.Prelude.{◌≡◌, length};
ghost use Rattle.io.specs.Counts.{IsPrefixLen};

use program::{Input, System, report, send};
use std::fs::File;
use std::io::{Error, ErrorKind};
use std::rt::Files;
use std::str::from_utf8;
use table::sums::Totals;
use table::{Seen, is_closed, remarks, rows};

// The program's own name and the word `status` come before the files.
const FIRST: usize = 2;

// The status byte where a name can't stand in the table, or none is given: nothing was printed.
const MISUSED: u8 = b'3';

// The sums so far, whether all books were closed, and whether all was written.
#[derive(Clone, Copy)]
struct Work {
    totals: Totals,
    closed: bool,
    written: bool,
}

// The 4,096 records that a book may have and one more, of 28 bytes each: what stands after them changes no answer.
fn book_buffer() -> [u8; 114716]
    ensures { length result ≡ 114716 }
{
    [0u8; 114716]
}

fn tell_no_file(rt: &impl System) {
    let mut text = [0u8; 64];
    let n = remarks::say_no_file(&mut text);
    report(rt, &text[..n]);
}

fn tell_wrong_name(rt: &impl System, name: &[u8]) {
    let mut text = [0u8; 8192];
    let n = remarks::say_wrong_name(&mut text, name);
    report(rt, &text[..n]);
}

// Whether the file i has a name that can stand in the table.
fn is_named(rt: &impl System, i: usize) -> bool {
    let mut name = io::buffer();
    let Ok(n) = rt.arg(i, &mut name) else {
        report(rt, b"the name of a file: File name too long\n");
        return false;
    };
    if remarks::is_name(&name[..n]) {
        return true;
    }
    tell_wrong_name(rt, &name[..n]);
    false
}

// Every file, before anything is printed.
fn are_named(rt: &impl System, count: usize) -> bool {
    (FIRST..count).all(|i| is_named(rt, i))
}

// The bytes of a file, up to as many as decide; where it can't be read, that is reported.
fn read_file<R: System + Files>(rt: &R, name: &[u8], book: &mut [u8]) -> Input
    ensures { IsPrefixLen result.len book.new }
{
    match open_read(rt, name) {
        Ok(mut file) => program::read_all(rt, &mut file, name, book),
        Err(why) => {
            program::fail(rt, name, &why);
            Input {
                len: 0,
                good: false,
            }
        }
    }
}

// std takes no other name.
fn open_read<R: Files>(rt: &R, name: &[u8]) -> Result<R::File, Error> {
    match from_utf8(name) {
        Ok(path) => File::open(rt, path),
        Err(_) => Err(Error::new(ErrorKind::InvalidInput, "the name is not UTF-8")),
    }
}

// What is seen of a file.
fn look(rt: &(impl System + Files), name: &[u8], book: &mut [u8]) -> Seen {
    let input = read_file(rt, name, book);
    if !input.good {
        return table::not_read();
    }
    let n = input.len;
    table::look(&book[..n])
}

fn tell_header(rt: &impl System) -> bool {
    let mut text = [0u8; 256];
    let n = rows::say_header(&mut text);
    send(rt, &text[..n])
}

// The row of a file, with one write: a name has at most 4,096 bytes.
fn tell_row(rt: &impl System, name: &[u8], s: Seen) -> bool {
    let mut text = [0u8; 8192];
    let n = rows::say_row(&mut text, name, s);
    send(rt, &text[..n])
}

fn tell_last(rt: &impl System, totals: Totals) -> bool {
    let mut text = [0u8; 512];
    let n = rows::say_last(&mut text, totals);
    send(rt, &text[..n])
}

// The file i.
fn turn(rt: &(impl System + Files), w: Work, i: usize, book: &mut [u8]) -> Work {
    let mut name = io::buffer();
    let n = rt.arg(i, &mut name).unwrap_or(0);
    let s = look(rt, &name[..n], book);
    let totals = w.totals;
    let next = totals.with(s);
    Work {
        totals: next,
        closed: w.closed & is_closed(s),
        written: tell_row(rt, &name[..n], s),
    }
}

// File after file, until a write fails.
fn run(rt: &(impl System + Files), from: Work, count: usize, book: &mut [u8]) -> Work {
    let mut w = from;
    for i in FIRST..count {
        if !w.written {
            return w;
        }
        w = turn(rt, w, i, book);
    }
    w
}

fn start(rt: &impl System) -> Work {
    let none = Totals::new();
    Work {
        totals: none,
        closed: true,
        written: tell_header(rt),
    }
}

// The whole table.
fn tell_table(rt: &(impl System + Files), count: usize) -> u8 {
    let mut book = book_buffer();
    let last = run(rt, start(rt), count, &mut book);
    let totals = last.totals;
    if !last.written {
        return remarks::status(last.closed, false);
    }
    remarks::status(last.closed, tell_last(rt, totals))
}

fn main(rt: HostRuntime) {
    let count = program::arg_count(&rt);
    if count <= FIRST {
        tell_no_file(&rt);
        program::tell_status(&rt, MISUSED);
        return;
    }
    if !are_named(&rt, count) {
        program::tell_status(&rt, MISUSED);
        return;
    }
    program::tell_status(&rt, tell_table(&rt, count));
}
