// A state in bytes that the caller owns, at fixed offsets, and a call that works on them.
#![tactic(auto)]

mod read;
mod write;

ghost use Rattle.std.specs.Prelude.{◌≡◌, ◌≤◌, length, eqb};
ghost use Rattle.book.specs.Call.{lines_laid};
ghost use Rattle.image.specs.Image.{image_size};
ghost use Rattle.image.specs.Calls.{call_on, called_of, answer_code, image_after, no_image, started};

use account::Refusal;
use book::{Answer, State};
use read::state_in;
use write::put_state;

// The one length of an image: 27 held bytes, one of their count, and the account's numbers.
pub const SIZE: usize = 28 + account_numbers::BYTES;

// What a call hands back beside the image: the bytes taken and written, and the answer.
#[derive(Clone, Copy)]
pub struct Called {
    pub taken: usize,
    pub written: usize,
    pub answer: Answer,
}

// Refusal 13: nothing taken, nothing written.
fn no_image() -> Called
    ensures { result ≡ no_image }
{
    let refusal = Refusal {
        code: 13,
        accepted: 0,
        field: 0,
    };
    Called {
        taken: 0,
        written: 0,
        answer: Answer::Refused(refusal),
    }
}

// The number of an answer.
pub fn code_of(answer: Answer) -> u64
    ensures { (result ≡ answer_code answer) × (result ≤ 255) }
{
    match answer {
        Answer::Closed => 0,
        Answer::Full => 16,
        Answer::More => 17,
        Answer::Refused(refusal) => refusal.code as u64,
    }
}

// The image of no record yet; false, and the image untouched, where its length is another.
pub fn start(image: &mut [u8]) -> bool
    ensures long { result ≡ eqb (length image.old) image_size }
    ensures image { image.new ≡ started image.old }
{
    if image.len() != SIZE {
        return false;
    }
    let state = State::new();
    put_state(image, state);
    true
}

// One call. 13 is told by the state's own test, which comes first in feed; the image is written where it is not.
pub fn call(image: &mut [u8], part: &[u8], lines: &mut [u8]) -> Called
    ensures result { result ≡ called_of (call_on image.old part.now (length lines.old)) }
    ensures image { image.new ≡ image_after image.old part.now (length lines.old) }
    ensures lines { lines.new ≡ lines_laid (call_on image.old part.now (length lines.old))
        lines.old }
    ensures counts { (result.taken ≤ length part.now) × (result.written ≤ length lines.old) }
{
    let size = image.len();
    if size != SIZE {
        return no_image();
    }
    let state = state_in(image);
    let fed = state.feed(part, lines);
    let answer = fed.answer;
    let code = code_of(answer);
    if code == 13 {
        return no_image();
    }
    let next = fed.state;
    put_state(image, next);
    Called {
        taken: fed.taken,
        written: fed.written,
        answer: answer,
    }
}
