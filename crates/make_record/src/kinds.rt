// Values of any row of the table: what their record does to the account.
ghost use Rattle.std.specs.Prelude.{◌<◌};
ghost use Rattle.codec.specs.Table.{Of};
ghost use Rattle.account.specs.Range.{AccountInRange};
ghost use Rattle.account.specs.Judge.{weigh};
ghost use Rattle.account.specs.Told.{Tells};

use account::{Account, Judged};
use by_row::{first_bad, write};
use codec::kinds::bytes_of;

// A value out of its range is refused at once; else the reader judges the record itself. LINES_MOST bytes hold any record's lines.
pub(crate) fn weighed(a: Account, row: u64, v: &[u64]) -> Judged
    requires { AccountInRange a × (a.stage < 2) × Of row v.now }
    ensures { Tells (weigh a row v.now) result }
{
    match first_bad(row, v) {
        Some(bad) => rules::outside::weigh(a, row, bad),
        None => {
            let mut r = [0u8; codec::RECORD_MOST];
            write(&mut r, 0, row, v);
            let n = bytes_of(row);
            rules::judge(a, &r[..n], line_bytes::LINES_MOST)
        }
    }
}
