// A book typed line by line: what becomes of each line, and what the person who types is told.
#![tactic(auto)]

pub mod typed_line; // typed_line.rt: what a typed line says
mod enter; // enter.rt: what becomes of a line, and of the end
mod lines; // lines.rt: what is told of a line that failed
mod groups; // groups.rt: what is told of a group
mod unusual; // unusual.rt: values that are unusual
pub mod remarks; // remarks.rt: what is told, and the verdict

ghost use Rattle.std.specs.Prelude.{◌≡◌, ◌≤◌, length};
ghost use Rattle.text_lines.specs.Lines.{cut_in};
ghost use Rattle.printing.specs.Said.{Said};
ghost use Rattle.writer.specs.Typist.{beginning};
ghost use Rattle.writer.specs.Remarks.{verdict_text, status_of};
ghost use Rattle.writer.specs.Parts.{line_by, call_of, last_of, end_of, laid_in};

use account::Refusal;
use book::State;
use text_lines::Cut;

// How a line lost the heading: its kind is a heading, or it may have been one and was not read, or was refused.
#[derive(Clone, Copy)]
pub enum Cause {
    Heading,
    Unread,
    Refused,
}

// The line that lost the heading, and how.
#[derive(Clone, Copy)]
pub struct Lost {
    pub line: u64,
    pub cause: Cause,
}

// The first and the last line of a run without heading.
#[derive(Clone, Copy)]
pub struct Run {
    pub first: u64,
    pub last: u64,
}

// The line of a close that waits for the end of the text, and the run without heading that is open.
#[derive(Clone, Copy)]
pub struct Waiting {
    pub close: Option<u64>,
    pub run: Option<Run>,
}

// How many lines were written, refused, not read and without heading, how many values were unusual, and how many messages there were.
#[derive(Clone, Copy)]
pub struct Counts {
    pub written: u64,
    pub refused: u64,
    pub unread: u64,
    pub without: u64,
    pub unusual: u64,
    pub told: u64,
}

// Whether some line had a word, and whether one was a close.
#[derive(Clone, Copy)]
pub struct Heard {
    pub words: bool,
    pub close: bool,
}

// The state after the records written; the days of the book's year, after its farm record; where a line lost the heading, which; and the first line
// that failed.
#[derive(Clone, Copy)]
pub struct Typist {
    pub state: State,
    pub year: Option<u64>,
    pub lost: Option<Lost>,
    pub failed: Option<u64>,
    pub waiting: Waiting,
    pub counts: Counts,
    pub heard: Heard,
}

// What becomes of a line. Not read: the kind, 0 where it can't be read, and the place of the wrong word, counted from 1, 0 where the line is too
// long.
#[derive(Clone, Copy)]
pub enum Fate {
    Nothing,
    Unread(u64, usize),
    Withheld,
    Waits,
    Without,
    Refused(u64, Refusal),
    Wrote(u64),
}

// The typist behind a line, what became of it, and the count of bytes written.
#[derive(Clone, Copy)]
pub struct Entered {
    pub typist: Typist,
    pub fate: Fate,
    pub written: usize,
}

// The typist, and the line being read.
#[derive(Clone, Copy)]
pub struct Typing {
    pub typist: Typist,
    pub cut: Cut,
}

// What a line does: the typist behind it, and the counts of bytes written and said.
#[derive(Clone, Copy)]
pub struct Lined {
    pub typist: Typist,
    pub written: usize,
    pub told: usize,
}

// What a call does: the same, with the line being read and how many bytes of the part are taken.
#[derive(Clone, Copy)]
pub struct Typed {
    pub typing: Typing,
    pub taken: usize,
    pub written: usize,
    pub told: usize,
}

impl Typist {
    pub fn new(state: State) -> Self
        ensures { result ≡ beginning state }
    {
        Self {
            state: state,
            year: None,
            lost: None,
            failed: None,
            waiting: Waiting {
                close: None,
                run: None,
            },
            counts: Counts {
                written: 0,
                refused: 0,
                unread: 0,
                without: 0,
                unusual: 0,
                told: 0,
            },
            heard: Heard {
                words: false,
                close: false,
            },
        }
    }
}

// Line `number`, which says `text`: its record goes to the start of out, what is said of it to the start of remarks.
fn type_line(t: Typist, number: u64, text: &[u8], out: &mut [u8], remarks: &mut [u8]) -> Lined
    ensures typist { result.typist ≡ (line_by t number text.now (length out.old)).typist }
    ensures bytes { result.written ≡ length (line_by t number text.now (length out.old)).bytes }
    ensures record { out.new ≡ laid_in (line_by t number text.now (length out.old)).bytes out.old }
    ensures remark { Said remarks.old remarks.new 0
        (line_by t number text.now (length out.old)).remark result.told }
{
    let line = crate::typed_line::read_line(text);
    let e = enter::enter(t, number, line, out);
    let fate = e.fate;
    let typist = e.typist;
    let entry = line.entry;
    let told = remarks::say_remark(remarks, t, number, fate, entry, text);
    Lined {
        typist: typist,
        written: e.written,
        told,
    }
}

// Goes on with a text from `typing`, up to the end of a line or of the part: `line` keeps the line being read (1,027 bytes hold any), a record goes
// to the start of out (28 bytes hold any), and what is said to the start of remarks.
pub fn type_part(
    typing: Typing,
    line: &mut [u8],
    part: &[u8],
    out: &mut [u8],
    remarks: &mut [u8],
) -> Typed
    ensures typing { result.typing ≡ (call_of typing line.old part.now (length out.old)).typing }
    ensures taken { result.taken ≡ (call_of typing line.old part.now (length out.old)).taken }
    ensures written { result.written ≡ length (call_of typing line.old part.now (length out.old)).bytes }
    ensures kept { line.new ≡ cut_in line.old typing.cut part.now }
    ensures record { out.new ≡ laid_in (call_of typing line.old part.now (length out.old)).bytes
        out.old }
    ensures remark { Said remarks.old remarks.new 0
        (call_of typing line.old part.now (length out.old)).remark result.told }
    ensures inside { result.taken ≤ length part.now }
{
    let t = typing.typist;
    let cut = typing.cut;
    let c = text_lines::cut_line(line, cut, part);
    let here = c.cut;
    if !c.ended {
        let going = Typing {
            typist: t,
            cut: here,
        };
        return Typed {
            typing: going,
            taken: c.taken,
            written: 0,
            told: 0,
        };
    }
    let l = type_line(t, here.number, text_lines::whole(line, here), out, remarks);
    let typist = l.typist;
    let next = Typing {
        typist: typist,
        cut: here.next(),
    };
    Typed {
        typing: next,
        taken: c.taken,
        written: l.written,
        told: l.told,
    }
}

// The line that is unfinished where the text ends.
pub fn type_last(typing: Typing, line: &[u8], out: &mut [u8], remarks: &mut [u8]) -> Lined
    ensures typist { result.typist ≡ (last_of typing line.now (length out.old)).typist }
    ensures written { result.written ≡ length (last_of typing line.now (length out.old)).bytes }
    ensures record { out.new ≡ laid_in (last_of typing line.now (length out.old)).bytes out.old }
    ensures remark { Said remarks.old remarks.new 0
        (last_of typing line.now (length out.old)).remark result.told }
{
    let t = typing.typist;
    let cut = typing.cut;
    type_line(t, cut.number, text_lines::whole(line, cut), out, remarks)
}

// The end of the text, all of which was read where it is good: a close that waits goes to the start of out.
pub fn type_end(t: Typist, good: bool, out: &mut [u8], remarks: &mut [u8]) -> Lined
    ensures typist { result.typist ≡ (end_of good t (length out.old)).typist }
    ensures written { result.written ≡ length (end_of good t (length out.old)).bytes }
    ensures record { out.new ≡ laid_in (end_of good t (length out.old)).bytes out.old }
    ensures remark { Said remarks.old remarks.new 0 (end_of good t (length out.old)).remark result.told }
{
    let e = enter::end(t, good, out);
    let fate = e.fate;
    let typist = e.typist;
    let told = remarks::say_end_remark(remarks, t, fate);
    Lined {
        typist: typist,
        written: e.written,
        told,
    }
}
