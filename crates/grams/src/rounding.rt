// The one rounding of the book.
ghost use Rattle.std.specs.Prelude.{◌≡◌, ◌%◌, ◌<◌, ◌==◌};
ghost use Rattle.base.specs.Choice.{pick};
ghost use Rattle.grams.specs.Round.{round_div};

// 1 where a rest of exactly half of d goes up: d has a half, and the whole number is odd.
fn half_up(whole: u64, d: u64) -> u64
    ensures { result ≡ pick (d % 2 == 0) (whole % 2) 0 }
{
    if d % 2 == 0 { whole % 2 } else { 0 }
}

// n / d to the nearest whole number, a half to the even one. The rest is compared with half of d, so that nothing is doubled; what is 1 at a half that
// goes up makes no rest below it go up.
pub fn round_div(n: u64, d: u64) -> u64
    requires { 0 < d }
    ensures { result ≡ round_div n d }
{
    let whole = n / d;
    let rest = n % d;
    if d / 2 < rest + half_up(whole, d) {
        whole + 1
    } else {
        whole
    }
}
