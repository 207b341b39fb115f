// CO2e of grazing.
ghost use Rattle.std.specs.Prelude.{◌≡◌, ◌≤◌};
ghost use Rattle.grams.specs.Figure.{Figure};
ghost use Rattle.grams.specs.Grazing.{pasture_factor, GrazingIn, Grazing};

use crate::rounding::round_div;
use crate::units::Grazed;

// Table 2.4.6 of source document 000, in hundredths: cows, heifers, calves; in a byte each, since the code lays the table on the stack.
const PASTURE: [[u8; 3]; 7] = [
    [190, 134, 116],
    [190, 134, 116],
    [190, 134, 116],
    [187, 132, 115],
    [183, 129, 112],
    [180, 127, 110],
    [181, 128, 111],
];

fn factor_at(region: u64, column: u64) -> u64
    requires { (1 ≤ region) × (region ≤ 7) × (1 ≤ column) × (column ≤ 3) }
    ensures { Figure (pasture_factor region column) 190 result }
{
    let row = PASTURE[(region - 1) as usize];
    row[(column - 1) as usize] as u64
}

pub fn grazing(region: u64, column: u64, weight: u64, fraction: u64, head: u64) -> Grazed
    requires { GrazingIn region column weight fraction head }
    ensures { Grazing region column weight fraction head result }
{
    let factor = factor_at(region, column);
    Grazed::of(round_div(factor * weight * fraction * head, 1000))
}
