// What becomes of one line, and of the end of the text.
ghost use Rattle.std.specs.Prelude.{◌≡◌, ◌≤◌, eqb, get_or, None, Some, length};
ghost use Rattle.base.specs.Choice.{pick, one_more_lem};
ghost use Rattle.codec.specs.Table.{record_most};
ghost use Rattle.writer.specs.declared.typed_line.Line.{Line};
ghost use Rattle.writer.specs.declared.Cause.TheVariants as causes;
ghost use Rattle.writer.specs.Line.{write_entry};
ghost use Rattle.writer.specs.Typist.{one_told, one_unread, one_refused, one_without, one_written, line_named};
ghost use Rattle.writer.specs.Typist.{may_head, first_failed, lost_in, run_with, hears, early, run_ended, not_read, withholding, waits, unheaded};
ghost use Rattle.writer.specs.Typist.{refused_at, days_of_year, written_as, withheld, headless, close_by, judged_turn, record_turn, by_said};
ghost use Rattle.writer.specs.Typist.{closing_turn, end_turn, entered_of, entered_by, turn_laid};

use crate::typed_line::{Entry, Line, Said};
use crate::unusual::unusual_after;
use crate::{Cause, Counts, Entered, Fate, Heard, Lost, Run, Typist, Waiting};
use account::sort::is_of_group;
use base::one_more;
use book::State;
use codec::kinds::{CLOSE, FARM, HEADING};
use make_record::Written;

// A line numbered 0 is none.
fn line_named(number: u64) -> Option<u64>
    ensures { result ≡ line_named number }
{
    if number == 0 {
        return None;
    }
    Some(number)
}

fn first_failed(failed: Option<u64>, number: u64) -> Option<u64>
    ensures { result ≡ first_failed failed number }
{
    match failed {
        None => line_named(number),
        Some(first) => Some(first),
    }
}

// A run goes on with line `number`, or begins with it.
fn run_with(run: Option<Run>, number: u64) -> Option<Run>
    ensures { result ≡ run_with run number }
{
    match run {
        None => line_named(number).map(|line| Run {
            first: line,
            last: line,
        }),
        Some(open) => Some(Run {
            first: open.first,
            last: number,
        }),
    }
}

fn may_head(kind: u64) -> bool
    ensures { result ≡ may_head kind }
{
    (kind == HEADING) | ((kind < 1) | (codec::LAST_KIND < kind))
}

fn days_of_year(year: u64) -> u64
    ensures { result ≡ days_of_year year }
{
    if (year % 4 == 0) & ((year % 100 != 0) | (year % 400 == 0)) {
        return 366;
    }
    365
}

fn one_told(mut c: Counts) -> Counts
    ensures { result ≡ one_told c }
{
    c.told = one_more(c.told);
    c
}

fn one_unread(mut c: Counts) -> Counts
    ensures { result ≡ one_unread c }
{
    c.unread = one_more(c.unread);
    c.told = one_more(c.told);
    c
}

fn one_refused(mut c: Counts) -> Counts
    ensures { result ≡ one_refused c }
{
    c.refused = one_more(c.refused);
    c.told = one_more(c.told);
    c
}

fn one_without(mut c: Counts) -> Counts
    ensures { result ≡ one_without c }
{
    c.without = one_more(c.without);
    c
}

fn one_written(mut c: Counts, unusual: u64) -> Counts
    ensures { result ≡ one_written c unusual }
{
    c.written = one_more(c.written);
    c.unusual = unusual;
    c
}

// A line of the kind has a word.
fn hears(mut t: Typist, kind: u64) -> Typist
    ensures { result ≡ hears t kind }
{
    let h = t.heard;
    let heard = Heard {
        words: true,
        close: h.close | (kind == CLOSE),
    };
    t.heard = heard;
    t
}

// The close that waits is too early.
pub(crate) fn early(mut t: Typist) -> Typist
    ensures { result ≡ early t }
{
    let w = t.waiting;
    match w.close {
        None => t,
        Some(close) => {
            let counts = t.counts;
            let told = one_told(counts);
            t.failed = Some(t.failed.unwrap_or(close));
            t.waiting = Waiting {
                close: None,
                run: w.run,
            };
            t.counts = told;
            t
        }
    }
}

// The run without heading has ended.
pub(crate) fn run_ended(mut t: Typist) -> Typist
    ensures { result ≡ run_ended t }
{
    let w = t.waiting;
    match w.run {
        None => t,
        Some(_) => {
            let counts = t.counts;
            let told = one_told(counts);
            t.waiting = Waiting {
                close: w.close,
                run: None,
            };
            t.counts = told;
            t
        }
    }
}

// A line with a word of the kind comes: what it does to a close that waits.
fn met(t: Typist, kind: u64) -> Typist
    ensures { result ≡ early (hears t kind) }
{
    early(hears(t, kind))
}

// Only a heading is known to be one.
fn cause_of(kind: u64, other: Cause) -> Cause
    ensures { result ≡ pick (eqb kind 2) causes.Heading other }
{
    if kind == HEADING {
        return Cause::Heading;
    }
    other
}

// The heading lost in a line; one numbered 0 loses none.
fn lost_in(line: u64, cause: Cause) -> Option<Lost>
    ensures { result ≡ lost_in line cause }
{
    line_named(line).map(|line| Lost { line, cause })
}

fn lost_by(may: bool, line: u64, cause: Cause, before: Option<Lost>) -> Option<Lost>
    ensures { result ≡ pick may (lost_in line cause) before }
{
    if may {
        return lost_in(line, cause);
    }
    before
}

// A heading that is written finds the heading again.
fn lost_after(kind: u64, before: Option<Lost>) -> Option<Lost>
    ensures { result ≡ pick (eqb kind 2) None before }
{
    if kind == HEADING {
        return None;
    }
    before
}

// A farm record says the year.
fn year_after(e: Entry, before: Option<u64>) -> Option<u64>
    requires { length e.values ≡ 13 }
    ensures { result ≡ pick (eqb e.kind 1) (Some (days_of_year (get_or e.values 1 0))) before }
{
    if e.kind == FARM {
        return Some(days_of_year(e.values[1]));
    }
    before
}

fn not_read(mut t: Typist, number: u64, kind: u64) -> Typist
    ensures { result ≡ not_read t number kind }
{
    let before = t.lost;
    let counts = t.counts;
    let lost = lost_by(
        may_head(kind),
        number,
        cause_of(kind, Cause::Unread),
        before,
    );
    let counted = one_unread(counts);
    t.lost = lost;
    t.failed = first_failed(t.failed, number);
    t.counts = counted;
    t
}

fn withholding(mut t: Typist) -> Typist
    ensures { result ≡ withholding t }
{
    let counts = t.counts;
    let told = one_told(counts);
    t.counts = told;
    t
}

fn waits(mut t: Typist, number: u64) -> Typist
    ensures { result ≡ waits t number }
{
    let mut w = t.waiting;
    w.close = line_named(number);
    t.waiting = w;
    t
}

fn unheaded(mut t: Typist, number: u64) -> Typist
    ensures { result ≡ unheaded t number }
{
    let mut w = t.waiting;
    let counts = t.counts;
    let counted = one_without(counts);
    w.run = run_with(w.run, number);
    t.failed = first_failed(t.failed, number);
    t.waiting = w;
    t.counts = counted;
    t
}

fn refused_at(mut t: Typist, number: u64, kind: u64, code: u64) -> Typist
    ensures { result ≡ refused_at t number kind code }
{
    let before = t.lost;
    let counts = t.counts;
    let lost = lost_by(
        (kind == HEADING) | (code == 3),
        number,
        cause_of(kind, Cause::Refused),
        before,
    );
    let counted = one_refused(counts);
    t.lost = lost;
    t.failed = first_failed(t.failed, number);
    t.counts = counted;
    t
}

fn written_as(mut t: Typist, e: Entry, state: State) -> Typist
    requires { length e.values ≡ 13 }
    ensures { result ≡ written_as t e state }
{
    let s = t.state;
    let a = s.account;
    let before = t.lost;
    let counts = t.counts;
    let lost = lost_after(e.kind, before);
    let counted = one_written(counts, unusual_after(a, e, counts.unusual));
    t.year = year_after(e, t.year);
    t.lost = lost;
    t.counts = counted;
    t.state = state;
    t
}

// By the writer's answer, the record being written already.
fn answered(t: Typist, number: u64, e: Entry, w: Written) -> Entered
    requires { length e.values ≡ 13 }
    ensures { result ≡ entered_by w.answer t number e w.state w.written }
{
    match w.answer {
        Ok(()) => {
            let state = w.state;
            Entered {
                typist: written_as(t, e, state),
                fate: Fate::Wrote(e.kind),
                written: w.written,
            }
        }
        Err(refusal) => Entered {
            typist: refused_at(t, number, e.kind, refusal.code as u64),
            fate: Fate::Refused(e.kind, refusal),
            written: 0,
        },
    }
}

// A close is judged where it stands, and is not written yet.
fn enter_close(t: Typist, number: u64, e: Entry) -> Entered
    ensures { result ≡ entered_of (close_by (write_entry t.state e record_most).answer t number e) }
{
    let mut unused = [0u8; codec::RECORD_MOST];
    let state = t.state;
    let w = crate::typed_line::write_entry(state, e, &mut unused);
    match w.answer {
        Ok(()) => Entered {
            typist: waits(t, number),
            fate: Fate::Waits,
            written: 0,
        },
        Err(refusal) => Entered {
            typist: refused_at(t, number, e.kind, refusal.code as u64),
            fate: Fate::Refused(e.kind, refusal),
            written: 0,
        },
    }
}

// A line's record when no run is open; a buffer of 28 bytes holds any.
fn judge_record(t: Typist, number: u64, e: Entry, out: &mut [u8]) -> Entered
    requires { length e.values ≡ 13 }
    ensures result { result ≡ entered_of (judged_turn t number e (length out.old)) }
    ensures buffer { out.new ≡ turn_laid (judged_turn t number e (length out.old)) out.old }
{
    let state = t.state;
    let a = state.account;
    if (e.kind == CLOSE) & ((a.stage == 1) & t.failed.is_some()) {
        return Entered {
            typist: withholding(t),
            fate: Fate::Withheld,
            written: 0,
        };
    }
    if e.kind == CLOSE {
        return enter_close(t, number, e);
    }
    let w = crate::typed_line::write_entry(state, e, out);
    answered(t, number, e, w)
}

fn enter_record(t: Typist, number: u64, e: Entry, out: &mut [u8]) -> Entered
    requires { length e.values ≡ 13 }
    ensures result { result ≡ entered_of (record_turn t number e (length out.old)) }
    ensures buffer { out.new ≡ turn_laid (record_turn t number e (length out.old)) out.old }
{
    if is_of_group(e.kind) & t.lost.is_some() {
        return Entered {
            typist: unheaded(t, number),
            fate: Fate::Without,
            written: 0,
        };
    }
    judge_record(run_ended(t), number, e, out)
}

// What becomes of line `number`.
pub(crate) fn enter(t: Typist, number: u64, line: Line, out: &mut [u8]) -> Entered
    requires { length line.entry.values ≡ 13 }
    ensures result { result ≡ entered_of (by_said line.said t number line.entry (length out.old)) }
    ensures buffer { out.new ≡ turn_laid (by_said line.said t number line.entry (length out.old)) out.old }
{
    let said = line.said;
    match said {
        Said::Nothing => Entered {
            typist: t,
            fate: Fate::Nothing,
            written: 0,
        },
        Said::Wrong(kind, place) => Entered {
            typist: not_read(run_ended(met(t, kind)), number, kind),
            fate: Fate::Unread(kind, place),
            written: 0,
        },
        Said::Record => {
            let entry = line.entry;
            enter_record(met(t, entry.kind), number, entry, out)
        }
    }
}

// The close that waits is written.
fn close_book(t: Typist, out: &mut [u8]) -> Entered
    ensures result { result ≡ entered_of (closing_turn t (length out.old)) }
    ensures buffer { out.new ≡ turn_laid (closing_turn t (length out.old)) out.old }
{
    let own = Entry {
        kind: 8,
        values: [0; 13],
        count: 0,
    };
    let state = t.state;
    let w = crate::typed_line::write_entry(state, own, out);
    match w.answer {
        Ok(()) => {
            let closed = w.state;
            Entered {
                typist: written_as(t, own, closed),
                fate: Fate::Wrote(8),
                written: w.written,
            }
        }
        Err(_) => Entered {
            typist: t,
            fate: Fate::Nothing,
            written: 0,
        },
    }
}

// The end of the text.
pub(crate) fn end(t: Typist, good: bool, out: &mut [u8]) -> Entered
    ensures result { result ≡ entered_of (end_turn good t (length out.old)) }
    ensures buffer { out.new ≡ turn_laid (end_turn good t (length out.old)) out.old }
{
    let ended = run_ended(t);
    if good & t.waiting.close.is_some() {
        return close_book(ended, out);
    }
    Entered {
        typist: ended,
        fate: Fate::Nothing,
        written: 0,
    }
}
