// A book on standard input, in parts, as rows of text on standard output: the lister and the sheet are this program in their forms.
// The last word is the lister's last row; beside a sheet it goes to standard error, as remarks do.
ghost use Rattle.std.specs.Prelude.{◌≤◌, length};

use book::State;
use line_rows::Form;
use names::hints::{Given, look};
use program::{Reading, System, report, send};

// The bytes that are read first: by them an input that is no book is known, however it comes.
const FIRST: usize = 16;

// The state after what was read, what the input looks like, whether no read and no write has failed, and whether more may come.
#[derive(Clone, Copy)]
struct Work {
    state: State,
    given: Given,
    read: bool,
    written: bool,
    more: bool,
}

// What one call made of it, and the bytes that it took.
#[derive(Clone, Copy)]
struct Taken {
    work: Work,
    taken: usize,
}

// One call of the book, and one write of its rows.
fn take_once(rt: &impl System, form: Form, mut w: Work, rest: &[u8], text: &mut [u8]) -> Taken
    ensures { result.taken ≤ length rest.now }
{
    let state = w.state;
    let listed = crate::list(form, state, rest, text);
    let next = listed.state;
    w.state = next;
    let n = listed.written;
    w.written = send(rt, &text[..n]);
    Taken {
        work: w,
        taken: listed.taken,
    }
}

// After the book's end no more rows come, and after a write that failed none are wanted.
fn is_done(w: Work) -> bool {
    let state = w.state;
    !(w.written & last_word::goes_on(state.account))
}

// After the book's end, or a write that failed, nothing more is read.
fn go_on(mut w: Work) -> Work {
    w.more = w.more & !is_done(w);
    w
}

// The rows of a part; a part of 2,048 bytes never fills the line buffer, so that one call takes it. There are no more calls than bytes, since
// each takes one.
fn take_part(rt: &impl System, form: Form, from: Work, part: &[u8], text: &mut [u8]) -> Work {
    let mut w = from;
    let mut i = 0;
    for call in 0..part.len() {
        let done = take_once(rt, form, w, &part[i..], text);
        w = done.work;
        i += done.taken;
        if (i == part.len()) | is_done(w) {
            return w;
        }
    }
    w
}

// Part after part, up to the end of the input or of the book, or to a read or a write that fails.
fn read_on(rt: &impl System, form: Form, from: Work, text: &mut [u8]) -> Work {
    let mut w = from;
    let mut part = [0u8; 2048];
    let mut stdin = rt.input();
    let mut input = Reading::new();
    // No count by hand: a reading counts its own turns, one for each part that it reads.
    while 0 < input.turns {
        if !w.more {
            return w;
        }
        input = input.next(rt, &mut stdin, b"standard input", &mut part);
        w.read = input.good;
        let n = input.len;
        w = go_on(take_part(rt, form, w, &part[..n], text));
    }
    w
}

// What could not be read is not looked at.
fn look_at(first: &[u8], read: bool) -> Given {
    if read {
        return look(first);
    }
    Given::Book
}

// Where the first bytes are fewer than were asked for they are all.
fn start(first: &[u8], read: bool, written: bool) -> Work {
    Work {
        state: State::new(),
        given: look_at(first, read),
        read,
        written,
        more: read & (first.len() == FIRST),
    }
}

// What stands before the rows, even of an empty book, and the rows of the first bytes.
fn begin(rt: &impl System, form: Form, first: &[u8], read: bool, text: &mut [u8]) -> Work {
    let n = crate::begin(text, form);
    let begun = start(first, read, send(rt, &text[..n]));
    if begun.written {
        return go_on(take_part(rt, form, begun, first, text));
    }
    go_on(begun)
}

// A last word beside a sheet is for people: whether it goes out changes nothing.
fn give_last(rt: &impl System, form: Form, word: &[u8]) -> bool {
    match form {
        Form::Listing => send(rt, word),
        Form::Sheet => {
            report(rt, word);
            true
        }
    }
}

// The last word, where all was read and written.
fn end(rt: &impl System, form: Form, mut w: Work, text: &mut [u8]) -> Work {
    let state = w.state;
    let n = last_word::put_last(text, state.account, w.read, w.written);
    let given = give_last(rt, form, &text[..n]);
    w.written = w.written & given;
    w
}

fn remark(rt: &impl System, w: Work) {
    let mut text = [0u8; 256];
    let state = w.state;
    let given = w.given;
    let n = last_word::say_remark(&mut text, state.account, given);
    report(rt, &text[..n]);
}

fn tell_status(rt: &impl System, w: Work) {
    let state = w.state;
    program::tell_status(rt, last_word::status(state.account, w.read, w.written));
}

// The last word is the lister's last row, before its remark; beside a sheet it is the last line that people read, after it.
fn finish(rt: &impl System, form: Form, w: Work, text: &mut [u8]) -> Work {
    match form {
        Form::Listing => {
            let done = end(rt, form, w, text);
            remark(rt, done);
            done
        }
        Form::Sheet => {
            remark(rt, w);
            end(rt, form, w, text)
        }
    }
}

// The whole program.
pub fn run(rt: &impl System, form: Form) {
    let mut text = io::large_buffer();
    let mut first = [0u8; FIRST];
    let input = program::read_all(rt, &mut rt.input(), b"standard input", &mut first);
    let n = input.len;
    let begun = begin(rt, form, &first[..n], input.good, &mut text);
    let last = read_on(rt, form, begun, &mut text);
    tell_status(rt, finish(rt, form, last, &mut text));
}
