// The carbon rate of a change of tillage, by the rule of specs/CarbonRate.
ghost use Rattle.std.specs.Prelude.{◌≡◌, ◌-◌, ◌≤◌};
ghost use Rattle.grams.specs.Figure.{Figure};
ghost use Rattle.grams.specs.CarbonRate.{scale, steps, exp_of, rate_of, RateIn};

use crate::rounding::round_div;

const SCALE: u64 = 1000000000000;

// a - b, and 0 where that is below zero.
fn less(a: u64, b: u64) -> u64
    ensures { result ≡ a - b }
{
    if b < a { a - b } else { 0 }
}

// The steps 20 to 5, in which no difference is below zero: no test of it, which would cost as much as the step.
fn first_steps(x: u64) -> u64
    requires { x ≤ 40300 }
    ensures { (steps x 4 result ≡ exp_of x) × (result ≤ scale) }
{
    let mut e = SCALE;
    for i in (5..21).rev() {
        e = SCALE - e * x / (10000 * i);
    }
    e
}

// S × e^(-x), x in ten-thousandths.
fn exp_neg(x: u64) -> u64
    requires { x ≤ 40300 }
    ensures { Figure (exp_of x) 1000000000000 result }
{
    let mut e = first_steps(x);
    for i in (1..5).rev() {
        e = less(SCALE, e * x / (10000 * i));
    }
    e
}

// Milligrams of carbon per square metre, without their sign.
pub(crate) fn rate(lum: u64, k: u64, years: u64) -> u64
    requires { RateIn lum k years }
    ensures { Figure (rate_of lum k years) 1570000 result }
{
    let before = exp_neg(k * (years - 1));
    let after = exp_neg(k * years);
    round_div(lum * less(before, after), 1000000000)
}
