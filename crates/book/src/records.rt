// The whole records of some bytes, judged where they lie.
ghost use Rattle.std.specs.Prelude.{◌<◌};
ghost use Rattle.account.specs.Range.{AccountInRange};
ghost use Rattle.book.specs.Inner.{Ran};

use crate::front::ready;
use account::Account;
use account::line::write;
use base::{first_of, rest_of};
use rules::judge;

// What a run of whole records does: the account after them, the bytes read, and the bytes of lines written.
#[derive(Clone, Copy)]
pub(crate) struct Records {
    pub account: Account,
    pub at: usize,
    pub w: usize,
}

// The records that lie whole at the front of src, one after the other, while the book is open and their lines fit.
pub(crate) fn judge_all(from: Account, src: &[u8], out: &mut [u8]) -> Records
    requires { AccountInRange from × (from.stage < 2) }
    ensures { Ran from src.now out.old out.new result.account result.at result.w }
{
    let mut account = from;
    let mut at = 0;
    let mut w = 0;
    // A cursor and no count: each record has a length of its own.
    while at < src.len() {
        if 2 <= account.stage {
            return Records { account, at, w };
        }
        let rest = rest_of(src, at);
        let n = ready(rest);
        if n == 0 {
            return Records { account, at, w };
        }
        let record = first_of(rest, n);
        let j = judge(account, record, out.len() - w);
        let line = j.line;
        account = j.account;
        if out.len() - w < line.given {
            return Records { account, at, w };
        }
        write(out, w, j);
        w += line.given;
        at += n;
    }
    Records { account, at, w }
}
