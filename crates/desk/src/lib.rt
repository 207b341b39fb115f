// The herd desk: a whole book and a line buffer from a C program, one number back; or an image that it keeps, and a part of a book. desk_c has its
// functions for C.
#![tactic(auto)]

ghost use Rattle.std.specs.Prelude.{◌≡◌, ◌≤◌, length};
ghost use Rattle.book.specs.Call.{lines_laid};
ghost use Rattle.image.specs.Calls.{call_on, image_after, started};
ghost use Rattle.desk.specs.Desk.{call_number, desk_code, desk_call, desk_number, start_number};

use book::Answer;
use image::{call, start};

// The code of an answer, with so many bytes of the book left.
fn code_of(answer: Answer, left: usize) -> u64
    ensures { (result ≡ desk_code answer left) × (result ≤ 255) }
{
    match answer {
        Answer::Closed => { if left == 0 { 0 } else { 18 } }
        Answer::Full => 16,
        Answer::More => 17,
        Answer::Refused(refusal) => refusal.code as u64,
    }
}

// Code times 2^32, plus the bytes written.
pub fn herd_desk(book: &[u8], lines: &mut [u8]) -> u64
    ensures number { result ≡ desk_number book.now (length lines.old) }
    ensures lines { lines.new ≡ lines_laid (desk_call book.now (length lines.old)) lines.old }
{
    // No record yet is an image of zeros. With herd_call there is one caller of the reader, so that the compiler makes both of them one function.
    let mut image = [0u8; image::SIZE];
    let whole = call(&mut image, book, lines);
    let answer = whole.answer;
    let code = code_of(answer, book.len() - whole.taken);
    code * 4294967296 + whole.written as u64
}

// The image of no record yet: 0, or 13 times 2^32 where its length is another, and the image untouched.
pub fn herd_start(image: &mut [u8]) -> u64
    ensures number { result ≡ start_number image.old }
    ensures image { image.new ≡ started image.old }
{
    if start(image) { 0 } else { 55834574848 }
}

// A part of a book, read on from an image: code times 2^32, plus the bytes written.
pub fn herd_call(image: &mut [u8], part: &[u8], lines: &mut [u8], taken: &mut u64) -> u64
    ensures number { result ≡ call_number (call_on image.old part.now (length lines.old)) }
    ensures taken { taken.new ≡ (call_on image.old part.now (length lines.old)).taken }
    ensures image { image.new ≡ image_after image.old part.now (length lines.old) }
    ensures lines { lines.new ≡ lines_laid (call_on image.old part.now (length lines.old))
        lines.old }
{
    let called = call(image, part, lines);
    let answer = called.answer;
    let code = image::code_of(answer);
    *taken = called.taken as u64;
    code * 4294967296 + called.written as u64
}
