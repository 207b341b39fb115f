// The refusals that all kinds share: 5, 6 and 7, and what a refused record leaves.
ghost use Rattle.std.specs.Prelude.{◌≡◌, [], ◌∷◌, ◌&&◌, not, leb, eqb};
ghost use Rattle.base.specs.Choice.{pick};
ghost use Rattle.account.specs.Judge.{first};
ghost use Rattle.account.specs.Told.{refusing};

use account::{Account, Judged, line};

// Refused, with no line.
pub(crate) fn wrong(a: Account, code: u8, field: u8) -> Judged
    ensures { result ≡ refusing a code field }
{
    let next = a.refuse(code, field);
    let none = line::none();
    Judged {
        account: next,
        line: none,
    }
}

// Refusals 5, 6 and 7, or 0. Most records pass all three: tested together first, else the compiler makes up the number at each record.
pub(crate) fn barred(records: u16, placed: bool, bad: u8) -> u8
    ensures { result ≡ first ((leb 4096 records, 5) ∷ (not placed, 6) ∷ (not (eqb bad 0), 7) ∷ []) }
{
    if (records < 4096) & placed & (bad == 0) {
        return 0;
    }
    if 4096 <= records {
        return 5;
    }
    if !placed {
        return 6;
    }
    7
}

// Refused by 5, 6 or 7; 7 alone gives its field.
pub(crate) fn stopped(a: Account, code: u8, bad: u8) -> Judged
    ensures { result ≡ refusing a code (pick (eqb code 7) bad 0) }
{
    if code == 7 {
        wrong(a, 7, bad)
    } else {
        wrong(a, code, 0)
    }
}

// After the first record.
pub(crate) fn begun(records: u16) -> bool
    ensures { result ≡ not (eqb records 0) }
{
    !(records == 0)
}

// Under a cattle heading, so that there are records before it.
pub(crate) fn cattle_placed(class: u8) -> bool
    ensures { result ≡ (leb 1 class && leb class 3) }
{
    (1 <= class) & (class <= 3)
}
