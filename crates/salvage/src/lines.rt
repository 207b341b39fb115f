// The line of each record that was dropped: a damaged book is gone through once more, as many records at a time as a buffer has room for.
ghost use Rattle.std.specs.Prelude.{◌≡◌, ◌+◌, ◌/◌, ◌≤◌, ◌<◌, length};
ghost use Rattle.printing.specs.Says.{Says};
ghost use Rattle.printing.specs.Said.{Said};
ghost use Rattle.salvage.specs.Lines.{dropped_text, heading_text, words_for, tell_by, usable, told_by, Tells, line_most};
ghost use Rattle.salvage.specs.Inner.{Open, line_told};

use crate::Reading;
use account::sort::is_of_group;
use base::rest_of;
use names::say_sentence;
use printing::text::Text;
use printing::{say, say_number};

// A line has at most so many bytes.
const LINE_MOST: usize = 256;

// Some records: the reading after them, their bytes, the end of their lines in the buffer, and whether there may be more.
#[derive(Clone, Copy)]
pub struct Reported {
    pub reading: Reading,
    pub taken: usize,
    pub written: usize,
    pub more: bool,
}

fn say_heading(out: &mut Text, heading: u64)
    ensures { Says out.old out.new (heading_text heading) }
{
    out.say(b"its heading, record ");
    out.say_number(heading);
    out.say(b", was dropped");
}

impl Reading {
    // The words for a record of that kind byte and code.
    fn say_words(self, out: &mut Text, kind: u8, code: u8)
        ensures { Says out.old out.new (words_for self kind code) }
    {
        if self.lost & (is_of_group(kind as u64) & (code == 6)) {
            say_heading(out, self.heading);
            return;
        }
        say_sentence(out, code as u64);
    }

    // Its line, where that number drops it; nothing where it is kept.
    fn say_line(self, out: &mut Text, kind: u8, dropped_by: Option<u8>)
        ensures { Says out.old out.new (line_told self kind dropped_by) }
    {
        match dropped_by {
            None => (),
            Some(code) => {
                out.say(b"record ");
                out.say_number(self.number);
                out.say(b": dropped ");
                out.say_number(code as u64);
                out.say(b": ");
                self.say_words(out, kind, code);
                out.say(b"\n");
            }
        }
    }

    fn put_line(self, out: &mut [u8], at: usize, kind: u8, dropped_by: Option<u8>) -> usize
        requires { at ≤ length out.old }
        ensures { Said out.old out.new at (line_told self kind dropped_by) result }
    {
        let mut text = Text::behind(out, at);
        self.say_line(&mut text, kind, dropped_by);
        text.len
    }

    // The line of the record at the front of xs, from index at on.
    fn report_next(self, xs: &[u8], out: &mut [u8], at: usize) -> Reported
        requires { Open self × (self.number + length xs.now < 18446744073709551615) × (at + line_most ≤ length out.old) }
        ensures tells { Tells (tell_by 1 self xs.now) out.old out.new at result }
        ensures written_bound { (result.written ≤ at + line_most) × (result.taken ≤ length xs.now) × Open result.reading }
        ensures number_bound { result.reading.number ≤ self.number + result.taken }
    {
        let t = self.turn(xs);
        if t.n == 0 {
            return Reported {
                reading: self,
                taken: 0,
                written: at,
                more: false,
            };
        }
        let end = self.put_line(out, at, xs[3], t.code);
        let next = t.next;
        Reported {
            reading: next,
            taken: t.n,
            written: end,
            more: true,
        }
    }
}

// The same for as many records as the buffer has room for, after a reading that is usable.
fn report_some(from: Reading, xs: &[u8], out: &mut [u8]) -> Reported
    requires { Open from × (from.number + length xs.now < 18446744073709551615) }
    ensures tells { Tells (tell_by (length out.old / line_most) from xs.now) out.old out.new 0 result }
    ensures taken_in_bounds { result.taken ≤ length xs.now }
{
    let mut s = from;
    let mut at = 0;
    let mut end = 0;
    let most = out.len() / LINE_MOST;
    for told in 0..most {
        let t = s.report_next(rest_of(xs, at), out, end);
        s = t.reading;
        at += t.taken;
        end = t.written;
        if !t.more {
            return Reported {
                reading: s,
                taken: at,
                written: end,
                more: false,
            };
        }
    }
    Reported {
        reading: s,
        taken: at,
        written: end,
        more: true,
    }
}

// Whether a reading is one of an open book, with its last heading before it, and the records of xs can be numbered on.
fn is_usable(s: Reading, xs: &[u8]) -> bool
    ensures { result ≡ usable s xs.now }
{
    let a = s.account;
    if !a.in_range() {
        return false;
    }
    (a.stage < 2) & ((s.heading <= s.number) & (s.number < u64::MAX - xs.len() as u64))
}

// The lines of the next records of a damaged book, as many as the buffer has room for, from its start. Another reading is that of no book: nothing is
// told.
pub fn report_lines(from: Reading, xs: &[u8], out: &mut [u8]) -> Reported
    ensures tells { Tells (told_by (length out.old / line_most) from xs.now) out.old out.new 0 result }
    ensures taken_in_bounds { result.taken ≤ length xs.now }
{
    if !is_usable(from, xs) {
        return Reported {
            reading: from,
            taken: 0,
            written: 0,
            more: false,
        };
    }
    report_some(from, xs, out)
}
