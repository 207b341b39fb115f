// One walk over a book's records, by which every tool goes: the next record after an account, what it does and the lines that it gives.
#![tactic(auto)]

ghost use Rattle.std.specs.Prelude.{◌≡◌, ◌++◌, ◌≤◌, length, drop};
ghost use Rattle.line_bytes.specs.Lines.{lines_most};
ghost use Rattle.account.specs.Range.{AccountInRange};
ghost use Rattle.book.specs.Front.{whole, front};
ghost use Rattle.walk.specs.Walk.{at_front, next_of, lines_next};

use account::Account;
use account::line::write;
use base::first_of;
use book::front::{Front, front_of, ready};
use line_bytes::LINES_MOST;
use rules::judge;

// What stands at the front of some bytes: a whole record, the beginning of one, a length that no record has; or the book has ended before them.
#[derive(Clone, Copy)]
pub enum Found {
    Record,
    Unfinished,
    BadLength,
    Ended,
}

// The next record: its bytes, none where there is no whole one; the account after it; and the bytes of its lines.
#[derive(Clone, Copy)]
pub struct Next {
    pub found: Found,
    pub size: usize,
    pub account: Account,
    pub written: usize,
}

// No whole record stands at the front of xs: a bad length is refused.
fn unread(a: Account, xs: &[u8]) -> Next
    requires { front xs.now ≡ whole → ⊥ }
    ensures { result ≡ at_front (front xs.now) a xs.now }
{
    match front_of(xs, xs.len()) {
        Front::BadLength => {
            let refused = a.refuse(1, 0);
            Next {
                found: Found::BadLength,
                size: 0,
                account: refused,
                written: 0,
            }
        }
        _ => Next {
            found: Found::Unfinished,
            size: 0,
            account: a,
            written: 0,
        },
    }
}

// The next record of xs after an account, and its lines at the start of a buffer that has room for those of any record.
pub fn next_record(a: Account, xs: &[u8], lines: &mut [u8]) -> Next
    requires { AccountInRange a × (lines_most ≤ length lines.old) }
    ensures result { result ≡ next_of a xs.now }
    ensures lines { lines.new ≡ lines_next a xs.now ++ drop result.written lines.old }
    ensures inside { (result.size ≤ length xs.now) × (result.written ≤ lines_most) × AccountInRange result.account }
{
    if 2 <= a.stage {
        return Next {
            found: Found::Ended,
            size: 0,
            account: a,
            written: 0,
        };
    }
    let n = ready(xs);
    if n == 0 {
        return unread(a, xs);
    }
    let j = judge(a, first_of(xs, n), LINES_MOST);
    write(lines, 0, j);
    let line = j.line;
    let after = j.account;
    Next {
        found: Found::Record,
        size: n,
        account: after,
        written: line.given,
    }
}

// The same where nobody asks for its lines.
pub fn next_alone(a: Account, xs: &[u8]) -> Next
    requires { AccountInRange a }
    ensures result { result ≡ next_of a xs.now }
    ensures inside { (result.size ≤ length xs.now) × AccountInRange result.account }
{
    let mut lines = [0u8; LINES_MOST];
    next_record(a, xs, &mut lines)
}
