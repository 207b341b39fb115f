// What the person who types is told after each line and at the end.
ghost use Rattle.std.specs.Prelude.{◌≡◌, Bool, [], ◌++◌, ◌≤◌, eqb, length};
ghost use Rattle.base.specs.Choice.{pick};
ghost use Rattle.printing.specs.Ascii.{ascii};
ghost use Rattle.printing.specs.Said.{Said};
ghost use Rattle.printing.specs.Says.{Says};
ghost use Rattle.writer.specs.Typist.{run_ended};
ghost use Rattle.writer.specs.Remarks.{withheld_text, line_head, early_text, may_text, lost_text, run_head, run_text};
ghost use Rattle.writer.specs.Remarks.{is_told, words_of, kind_written};
ghost use Rattle.writer.specs.Remarks.{ended_text};
ghost use Rattle.writer.specs.Remarks.{written_text, own_text, goes_on_lem, has_word, remark_text, end_remark};
ghost use Rattle.writer.specs.Remarks.{status_of, more_text, left_out_text, no_close_text, others_text, counts_text, open_text, verdict_text};

use crate::enter::{early, run_ended};
use crate::groups::say_group;
use crate::lines::{say_refused, say_unread};
use crate::typed_line::Entry;
use crate::unusual::say_unusual;
use crate::{Cause, Counts, Fate, Lost, Typist};
use codec::kinds::{CLOSE, HEADING};
use printing::text::Text;
use printing::{say, say_number};

fn say_withheld(out: &mut Text, failed: u64)
    ensures { Says out.old out.new (withheld_text failed) }
{
    out.say(b"close withheld: line ");
    out.say_number(failed);
    out.say(b" failed, and a book with a failed line is not closed");
}

fn say_line(out: &mut Text, number: u64)
    ensures { Says out.old out.new (line_head number) }
{
    out.say(b"line ");
    out.say_number(number);
    out.say(b": ");
}

// The close that waits is too early, since line `number` has a word.
fn say_early(out: &mut Text, t: Typist, number: u64)
    ensures { Says out.old out.new (early_text t number) }
{
    let c = t.counts;
    let w = t.waiting;
    match w.close {
        None => (),
        Some(close) => {
            if 20 <= c.told {
                return;
            }
            say_line(out, close);
            out.say(b"close too early: line ");
            out.say_number(number);
            out.say(b" comes after it\n");
        }
    }
}

// A line that may have been a heading, and what became of it.
fn say_may(out: &mut Text, line: u64, became: &[u8])
    ensures { Says out.old out.new (may_text line became.now) }
{
    out.say(b"line ");
    out.say_number(line);
    out.say(b", which may have been a heading, was ");
    out.say(became);
}

// By which line the heading was lost.
fn say_lost(out: &mut Text, l: Lost)
    ensures { Says out.old out.new (lost_text l) }
{
    match l.cause {
        Cause::Heading => {
            out.say(b"the heading in line ");
            out.say_number(l.line);
            out.say(b" was not written");
        }
        Cause::Unread => say_may(out, l.line, b"not read"),
        Cause::Refused => say_may(out, l.line, b"refused"),
    }
}

fn say_run_head(out: &mut Text, first: u64, last: u64)
    ensures { Says out.old out.new (run_head first last) }
{
    if first == last {
        say_line(out, first);
        return;
    }
    out.say(b"lines ");
    out.say_number(first);
    out.say(b" to ");
    out.say_number(last);
    out.say(b": ");
}

// The run without heading that is open: none is where no line lost the heading.
fn say_run(out: &mut Text, t: Typist)
    ensures { Says out.old out.new (run_text t) }
{
    let c = t.counts;
    let w = t.waiting;
    match w.run {
        None => (),
        Some(run) => {
            if 20 <= c.told {
                return;
            }
            let lost = t.lost.unwrap_or(Lost {
                line: 0,
                cause: Cause::Heading,
            });
            say_run_head(out, run.first, run.last);
            out.say(b"without heading: ");
            say_lost(out, lost);
            out.say(b"\n");
        }
    }
}

fn say_words(out: &mut Text, t: Typist, fate: Fate, e: Entry, text: &[u8])
    requires { length e.values ≡ 13 }
    ensures { Says out.old out.new (words_of fate t e text.now) }
{
    let state = t.state;
    let a = state.account;
    match fate {
        Fate::Unread(kind, place) => say_unread(out, kind, place, text),
        Fate::Withheld => say_withheld(out, t.failed.unwrap_or(0)),
        Fate::Refused(_, refusal) => say_refused(out, refusal, a, e, text),
        Fate::Nothing => (),
        Fate::Waits => (),
        Fate::Without => (),
        Fate::Wrote(_) => (),
    }
}

// 0 is none: `last_heading` (proofs/Headings) speaks of it as a number.
fn kind_written(fate: Fate) -> u64
    ensures { result ≡ kind_written fate }
{
    match fate {
        Fate::Wrote(kind) => kind,
        Fate::Nothing => 0,
        Fate::Unread(_, _) => 0,
        Fate::Withheld => 0,
        Fate::Waits => 0,
        Fate::Without => 0,
        Fate::Refused(_, _) => 0,
    }
}

// The group that a written heading or close ends.
fn say_ended(out: &mut Text, kind: u64, t: Typist)
    ensures { Says out.old out.new (ended_text kind t) }
{
    if (kind == HEADING) | (kind == CLOSE) {
        let state = t.state;
        let a = state.account;
        say_group(out, a, t.year);
        return;
    }
}

fn say_written(out: &mut Text, kind: u64, t: Typist, number: u64, e: Entry)
    requires { length e.values ≡ 13 }
    ensures { Says out.old out.new (written_text kind t number e) }
{
    if kind == 0 {
        return;
    }
    let state = t.state;
    let a = state.account;
    let c = t.counts;
    say_ended(out, kind, t);
    say_unusual(out, number, a, e, c.unusual);
}

fn is_told(fate: Fate) -> bool
    ensures { result ≡ is_told fate }
{
    match fate {
        Fate::Unread(_, _) => true,
        Fate::Withheld => true,
        Fate::Refused(_, _) => true,
        Fate::Nothing => false,
        Fate::Waits => false,
        Fate::Without => false,
        Fate::Wrote(_) => false,
    }
}

// What is said of line `number` by itself.
fn say_own(out: &mut Text, t: Typist, number: u64, fate: Fate, e: Entry, text: &[u8])
    requires { length e.values ≡ 13 }
    ensures { Says out.old out.new (own_text fate t number e text.now) }
{
    if !is_told(fate) {
        say_written(out, kind_written(fate), t, number, e);
        return;
    }
    let c = t.counts;
    if 20 <= c.told {
        return;
    }
    say_line(out, number);
    say_words(out, t, fate, e, text);
    out.say(b"\n");
}

fn goes_on(fate: Fate) -> bool
    ensures { result ≡ goes_on_lem fate }
{
    match fate {
        Fate::Nothing => true,
        Fate::Without => true,
        Fate::Unread(_, _) => false,
        Fate::Withheld => false,
        Fate::Waits => false,
        Fate::Refused(_, _) => false,
        Fate::Wrote(_) => false,
    }
}

fn has_word(fate: Fate) -> bool
    ensures { result ≡ has_word fate }
{
    match fate {
        Fate::Nothing => false,
        Fate::Without => true,
        Fate::Unread(_, _) => true,
        Fate::Withheld => true,
        Fate::Waits => true,
        Fate::Refused(_, _) => true,
        Fate::Wrote(_) => true,
    }
}

// A run that the line ends, and the line itself.
fn say_rest(out: &mut Text, t: Typist, number: u64, fate: Fate, e: Entry, text: &[u8])
    requires { length e.values ≡ 13 }
    ensures { Says out.old out.new (pick (goes_on_lem fate) [] (run_text t ++ own_text fate (run_ended t) number e text.now)) }
{
    if goes_on(fate) {
        return;
    }
    say_run(out, t);
    say_own(out, run_ended(t), number, fate, e, text);
}

fn tell_remark(said: &mut Text, t: Typist, number: u64, fate: Fate, e: Entry, text: &[u8])
    requires { length e.values ≡ 13 }
    ensures { Says said.old said.new (remark_text fate t number e text.now) }
{
    if !has_word(fate) {
        return;
    }
    say_early(said, t, number);
    say_rest(said, early(t), number, fate, e, text);
}

// What is said after line `number`, which says `e` in `text`; t is the typist before it.
pub(crate) fn say_remark(
    out: &mut [u8],
    t: Typist,
    number: u64,
    fate: Fate,
    e: Entry,
    text: &[u8],
) -> usize
    requires { length e.values ≡ 13 }
    ensures { Said out.old out.new 0 (remark_text fate t number e text.now) result }
{
    let mut said = Text::new(out);
    tell_remark(&mut said, t, number, fate, e, text);
    said.len
}

// What is said where the text ends.
pub(crate) fn say_end_remark(out: &mut [u8], t: Typist, fate: Fate) -> usize
    ensures { Said out.old out.new 0 (end_remark fate t) result }
{
    let mut text = Text::new(out);
    say_run(&mut text, t);
    say_ended(&mut text, kind_written(fate), run_ended(t));
    text.len
}

fn say_more(out: &mut Text, told: u64, what: &[u8])
    ensures { Says out.old out.new (more_text told what.now) }
{
    if told <= 20 {
        return;
    }
    out.say(b"and ");
    out.say_number(told - 20);
    out.say(what);
}

fn say_no_close(out: &mut Text, t: Typist)
    ensures { Says out.old out.new (no_close_text t) }
{
    let h = t.heard;
    if h.words & !h.close {
        out.say(b"no close: the text ends without one\n");
        return;
    }
}

fn say_others(out: &mut Text, c: Counts)
    ensures { Says out.old out.new (others_text c) }
{
    out.say_number(c.unread);
    out.say(b" not read, ");
    out.say_number(c.without);
    out.say(b" without heading, ");
    out.say_number(c.unusual);
    out.say(b" unusual\n");
}

fn say_counts(out: &mut Text, c: Counts)
    ensures { Says out.old out.new (counts_text c) }
{
    out.say_number(c.written);
    out.say(b" written, ");
    out.say_number(c.refused);
    out.say(b" refused, ");
    say_others(out, c);
}

fn say_outcome(out: &mut Text, closed: bool)
    ensures { Says out.old out.new (pick closed (ascii "closed: ") (ascii "not closed: ")) }
{
    if closed {
        out.say(b"closed: ");
        return;
    }
    out.say(b"not closed: ");
}

// A group that nothing ended.
fn say_open(out: &mut Text, t: Typist)
    ensures { Says out.old out.new (open_text t) }
{
    let state = t.state;
    let a = state.account;
    if a.stage != 1 {
        return;
    }
    say_group(out, a, t.year);
}

// How many remarks were left out.
fn say_left_out(out: &mut Text, c: Counts)
    ensures { Says out.old out.new (left_out_text c) }
{
    say_more(out, c.told, b" more\n");
    say_more(out, c.unusual, b" more unusual\n");
}

// What is said at the end; good tells that all was read and written.
pub fn say_verdict(out: &mut [u8], t: Typist, good: bool) -> usize
    ensures { Said out.old out.new 0 (verdict_text t good) result }
{
    let mut text = Text::new(out);
    let state = t.state;
    let a = state.account;
    let c = t.counts;
    say_open(&mut text, t);
    say_left_out(&mut text, c);
    say_no_close(&mut text, t);
    say_outcome(&mut text, good & (a.stage == 2));
    say_counts(&mut text, c);
    text.len
}

// The status, as a digit: 0 where the book is closed, since then no line failed.
pub fn status(t: Typist, good: bool) -> u8
    ensures { result ≡ status_of t good }
{
    let state = t.state;
    let a = state.account;
    if good & (a.stage == 2) {
        return 48;
    }
    49
}
