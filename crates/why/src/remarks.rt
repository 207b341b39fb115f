// What is told of a book: a line for machines, a line for people, and the status.
ghost use Rattle.std.specs.Prelude.{◌≡◌, ◌-◌, ◌≤◌, length};
ghost use Rattle.printing.specs.Said.{Said};
ghost use Rattle.printing.specs.Says.{Says};
ghost use Rattle.why.specs.Remarks.{place_text, position_text, numbers_text, refused_text, missing_text, machine_text};
ghost use Rattle.why.specs.Remarks.{group_text, name_text, where_text, subject_line, subject_text, measured_by, amount_text};
ghost use Rattle.why.specs.Remarks.{measured_text, exactly, relation_text, compared_text, fault_text, reason_text, lack_text, after_text};
ghost use Rattle.why.specs.Remarks.{closed_text, people_text};
ghost use Rattle.why.specs.Remarks.{is_accepted, status_byte};

use crate::{Numbers, Reason, Verdict};
use account::sort::is_of_group;
use codec::LAST_KIND;
use codec::kinds::{CATTLE, FARM, GRAZING, PIG};
use names::{decimals, say_field, say_kind, say_sentence, say_unit};
use printing::text::Text;
use printing::{say, say_number, say_pointed};
use typed_words::part;

fn say_place(out: &mut Text, number: u64, first: u64, last: u64)
    ensures { Says out.old out.new (place_text number first last) }
{
    out.say(b" record ");
    out.say_number(number);
    out.say(b" bytes ");
    out.say_number(first);
    out.say(b" to ");
    out.say_number(last);
}

fn say_position(out: &mut Text, field: u64)
    ensures { Says out.old out.new (position_text field) }
{
    if field == 0 {
        return;
    }
    out.say(b" field ");
    out.say_number(field);
}

fn say_numbers(out: &mut Text, compares: Option<Numbers>)
    ensures { Says out.old out.new (numbers_text compares) }
{
    match compares {
        None => (),
        Some(n) => {
            out.say(b" value ");
            out.say_number(n.value);
            out.say(b" limit ");
            out.say_number(n.limit);
        }
    }
}

fn say_refused(out: &mut Text, w: Reason)
    ensures { Says out.old out.new (refused_text w) }
{
    out.say(b"refused ");
    out.say_number(w.code as u64);
    say_place(out, w.number as u64, w.first as u64, w.last as u64);
    say_position(out, w.field as u64);
    say_numbers(out, w.compares);
    out.say(b"\n");
}

fn say_missing(out: &mut Text, n: u64)
    ensures { Says out.old out.new (missing_text n) }
{
    out.say(b"unfinished: ");
    out.say_number(n);
    out.say(b" bytes missing\n");
}

fn tell_first(text: &mut Text, v: Verdict)
    ensures { Says text.old text.new (machine_text v) }
{
    match v {
        Verdict::Accepted { end, more } => text.say(b"accepted\n"),
        Verdict::Missing(n) => say_missing(text, n as u64),
        Verdict::NextLength => text.say(b"unfinished: the next length is not known\n"),
        Verdict::Refused(w) => say_refused(text, w),
    }
}

// The line for machines, from the start of out.
pub fn say_first(out: &mut [u8], v: Verdict) -> usize
    ensures { Said out.old out.new 0 (machine_text v) result }
{
    let mut text = Text::new(out);
    tell_first(&mut text, v);
    text.len
}

// The group of a detail, where a heading stands before it.
fn say_group(out: &mut Text, kind: u64, group: u64)
    ensures { Says out.old out.new (group_text kind group) }
{
    if is_of_group(kind) & (group != 0) {
        out.say(b", group ");
        out.say_number(group);
        return;
    }
}

// The kind's name and the group in brackets, where the book has the kind.
fn say_name(out: &mut Text, kind: u64, group: u64)
    ensures { Says out.old out.new (name_text kind group) }
{
    if (1 <= kind) & (kind <= LAST_KIND) {
        out.say(b" (");
        say_kind(out, kind);
        say_group(out, kind, group);
        out.say(b")");
        return;
    }
}

fn say_where(out: &mut Text, number: u64, kind: u64, group: u64)
    ensures { Says out.old out.new (where_text number kind group) }
{
    out.say(b"record ");
    out.say_number(number);
    say_name(out, kind, group);
}

// Which line of the subjects: a pig's parts, the grazed fractions and the lengths of either farm record have their own.
fn subject(code: u64, row: u64) -> usize
    ensures { result ≡ subject_line code row }
{
    if (code == 10) & (row == PIG) {
        return 13;
    }
    if (code == 10) & (row == GRAZING) {
        return 14;
    }
    if (code == 4) & (row == FARM) {
        return 15;
    }
    if (code == 4) & (row == codec::LAST_ROW) {
        return 16;
    }
    code as usize
}

// What the value is of.
fn say_subject(out: &mut Text, code: u64, row: u64, field: usize)
    ensures { Says out.old out.new (subject_text code row field) }
{
    if code == 7 {
        say_field(out, row, less_one(field));
        return;
    }
    let words = part(
        b"
 the length
 the version
 the kind
 the length



 the group
 the sum of days with this record
 the sum of the shares

 the count
 the sum of the volatilised and leached parts
 the sum of fractions with this record
 the length (of version 1)
 the length (of version 2)",
        b'\n',
        subject(code, row),
    );
    out.say(words);
}

fn less_one(n: usize) -> usize
    ensures { result ≡ n - 1 }
{
    if n == 0 { 0 } else { n - 1 }
}

fn is_exact(code: u64, kind: u64) -> bool
    ensures { result ≡ exactly code kind }
{
    ((code == 2) & (kind != FARM)) | (code == 4) | (code == 12) | ((code == 10) & (kind == CATTLE))
}

// How the value has to stand to the limit.
fn say_relation(out: &mut Text, code: u64, kind: u64, value: u64, limit: u64)
    ensures { Says out.old out.new (relation_text code kind value limit) }
{
    if code == 8 {
        out.say(b"above ");
        return;
    }
    if is_exact(code, kind) {
        return;
    }
    if value < limit {
        out.say(b"at least ");
        return;
    }
    out.say(b"at most ");
}

// The field whose decimals and unit the two numbers have; 12, which no record has, where they are whole numbers.
fn measured(code: u64, row: u64, field: usize) -> usize
    ensures { result ≡ measured_by code row field }
{
    if code == 7 {
        return less_one(field);
    }
    if code != 10 {
        return 12;
    }
    if row == CATTLE {
        return 6;
    }
    if row == PIG { 8 } else { 3 }
}

fn say_amount(out: &mut Text, row: u64, i: usize, v: u64)
    ensures { Says out.old out.new (amount_text row i v) }
{
    let d = decimals(row, i);
    out.say_pointed(v, d);
}

fn say_measured(out: &mut Text, row: u64, i: usize, v: u64)
    ensures { Says out.old out.new (measured_text row i v) }
{
    say_amount(out, row, i, v);
    say_unit(out, row, i);
}

fn say_compared(out: &mut Text, w: Reason, n: Numbers)
    ensures { Says out.old out.new (compared_text w n) }
{
    let i = measured(w.code as u64, w.row as u64, w.field as usize);
    say_subject(out, w.code as u64, w.row as u64, w.field as usize);
    out.say(b" is ");
    say_measured(out, w.row as u64, i, n.value);
    out.say(b"; it must be ");
    say_relation(out, w.code as u64, w.kind as u64, n.value, n.limit);
    say_amount(out, w.row as u64, i, n.limit);
}

fn say_fault(out: &mut Text, w: Reason)
    ensures { Says out.old out.new (fault_text w) }
{
    match w.compares {
        Some(n) => say_compared(out, w, n),
        None => {
            out.say(b" ");
            say_sentence(out, w.code as u64);
        }
    }
}

fn say_reason(out: &mut Text, w: Reason)
    ensures { Says out.old out.new (reason_text w) }
{
    say_where(out, w.number as u64, w.kind as u64, w.group as u64);
    out.say(b":");
    say_fault(out, w);
    out.say(b"\n");
}

fn say_lack(out: &mut Text, n: u64)
    ensures { Says out.old out.new (lack_text n) }
{
    out.say(b"the book ends inside a record, which needs ");
    out.say_number(n);
    if n == 1 {
        out.say(b" more byte\n");
        return;
    }
    out.say(b" more bytes\n");
}

// Where bytes stand after the close.
fn say_after(out: &mut Text, end: u64, more: bool)
    ensures { Says out.old out.new (after_text end more) }
{
    if !more {
        return;
    }
    out.say(b"; bytes stand after its close, from byte ");
    out.say_number(end);
    out.say(b" on, and change nothing");
}

fn say_closed(out: &mut Text, end: u64, more: bool)
    ensures { Says out.old out.new (closed_text end more) }
{
    out.say(b"the book is right and closed");
    say_after(out, end, more);
    out.say(b"\n");
}

fn tell_second(text: &mut Text, v: Verdict)
    ensures { Says text.old text.new (people_text v) }
{
    match v {
        Verdict::Accepted { end, more } => say_closed(text, end as u64, more),
        Verdict::Missing(n) => say_lack(text, n as u64),
        Verdict::NextLength => text.say(
            b"the book ends before its close, where another record would begin\n",
        ),
        Verdict::Refused(w) => say_reason(text, w),
    }
}

// The line for people, from the start of out.
pub fn say_second(out: &mut [u8], v: Verdict) -> usize
    ensures { Said out.old out.new 0 (people_text v) result }
{
    let mut text = Text::new(out);
    tell_second(&mut text, v);
    text.len
}

pub fn accepted(v: Verdict) -> bool
    ensures { result ≡ is_accepted v }
{
    match v {
        Verdict::Accepted { end, more } => true,
        Verdict::Missing(n) => false,
        Verdict::NextLength => false,
        Verdict::Refused(w) => false,
    }
}

// The status byte: 0 only where the book is accepted and everything was read and written.
pub fn status(accepted: bool, written: bool) -> u8
    ensures { result ≡ status_byte accepted written }
{
    if accepted & written { b'0' } else { b'1' }
}
