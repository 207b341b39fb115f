// A typed text cut into lines, in parts of any size: what is kept of a line, its number, and where it ends.
#![tactic(auto)]

ghost use Rattle.std.specs.Prelude.{◌≡◌, ◌+◌, ◌≤◌, min, ltb, [], length, take, drop};
ghost use Rattle.base.specs.Choice.{pick, one_more_lem};
ghost use Rattle.text_lines.specs.Lines.{before, room, stored, first_cut, next_of, cutting_of, cut_in, is_marked, unmarked};

use base::{find, least, one_more};

// Of a line's bytes before its #, 1,024 and the three of a byte order mark are kept.
pub const MOST: usize = 1027;

// The line being read: its number from 1, how many of its bytes are in the buffer, and whether its # has come.
#[derive(Clone, Copy)]
pub struct Cut {
    pub number: u64,
    pub len: usize,
    pub comment: bool,
}

// The line afterwards, how many bytes of the part were taken, and whether they end the line.
#[derive(Clone, Copy)]
pub struct Cutting {
    pub cut: Cut,
    pub taken: usize,
    pub ended: bool,
}

impl Cut {
    pub fn new() -> Cut
        ensures { result ≡ first_cut }
    {
        Cut {
            number: 1,
            len: 0,
            comment: false,
        }
    }

    pub fn next(self) -> Cut
        ensures { result ≡ next_of self }
    {
        Cut {
            number: one_more(self.number),
            len: 0,
            comment: false,
        }
    }
}

// The first n bytes, or all where there are fewer: no twin of base's `first_of`, which asks for n bytes.
fn at_most(s: &[u8], n: usize) -> &[u8]
    ensures { result.now ≡ take n s.now }
{
    if s.len() <= n {
        return s;
    }
    &s[..n]
}

// What stands behind the first n bytes, or nothing where there are fewer.
fn behind(s: &[u8], n: usize) -> &[u8]
    ensures { result.now ≡ drop n s.now }
{
    if s.len() <= n {
        return at_most(s, 0);
    }
    &s[n..]
}

// What stands before the first b.
fn before_byte(s: &[u8], b: u8) -> &[u8]
    ensures { result.now ≡ before b s.now }
{
    at_most(s, find(s, b))
}

// Nothing of s in a comment.
fn outside(comment: bool, s: &[u8]) -> &[u8]
    ensures { result.now ≡ pick comment [] s.now }
{
    if comment {
        return at_most(s, 0);
    }
    s
}

// A len that is past the buffer leaves no room.
fn room_for(size: usize, len: usize) -> usize
    ensures { result ≡ room size len }
{
    let end = least(MOST, size);
    if len < end {
        return end - len;
    }
    0
}

// As many of the bytes as there is room for go behind the first len of the buffer.
fn keep(line: &mut [u8], len: usize, more: &[u8]) -> usize
    ensures value { result ≡ len + length (take (room (length line.old) len) more.now) }
    ensures line_after { line.new ≡ stored line.old len (take (room (length line.old) len) more.now) }
{
    let left = room_for(line.len(), len);
    if left == 0 {
        return len;
    }
    printing::put_text(line, len, at_most(more, left))
}

// The line feed behind len bytes is taken too.
fn past(len: usize, size: usize) -> usize
    ensures { result ≡ pick (ltb len size) (len + 1) len }
{
    if len < size {
        return len + 1;
    }
    len
}

fn is_marked(line: &[u8]) -> bool
    ensures { result ≡ is_marked line.now }
{
    if line.len() < 3 {
        return false;
    }
    (line[0] == 239) & (line[1] == 187) & (line[2] == 191)
}

// Takes the part's bytes up to its first line feed and with it, or all of them where there is none.
pub fn cut_line(line: &mut [u8], from: Cut, part: &[u8]) -> Cutting
    ensures value { result ≡ cutting_of (length line.old) from part.now }
    ensures line_after { line.new ≡ cut_in line.old from part.now }
    ensures taken_in_bounds { result.taken ≤ length part.now }
    ensures line_len_unchanged { length line.new ≡ length line.old }
{
    let here = before_byte(part, b'\n');
    let words = before_byte(here, b'#');
    let ended = here.len() < part.len();
    let len = keep(line, from.len, outside(from.comment, words));
    Cutting {
        cut: Cut {
            number: from.number,
            len,
            comment: from.comment | (words.len() < here.len()),
        },
        taken: past(here.len(), part.len()),
        ended,
    }
}

// The line without its byte order mark.
pub fn whole(line: &[u8], cut: Cut) -> &[u8]
    ensures { result.now ≡ unmarked cut.number (take cut.len line.now) }
{
    let all = at_most(line, cut.len);
    if (cut.number == 1) & is_marked(all) {
        return behind(all, 3);
    }
    all
}
