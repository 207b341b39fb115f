// CO2 of a change of tillage.
ghost use Rattle.grams.specs.Tillage.{TillageIn, Tillage};

use crate::carbon_rate::rate;
use crate::rounding::round_div;
use crate::tillage_table::entry_at;
use crate::units::Co2;

// The amount is rounded, and then gets its sign: less tillage, changes 1 to 3, takes up.
pub fn tillage(zone: u64, texture: u64, change: u64, years: u64, area: u64) -> Co2
    requires { TillageIn zone texture change years area }
    ensures { Tillage zone texture change years area result }
{
    let e = entry_at(zone, texture, change);
    let mg = rate(e.0, e.1, years);
    let grams = round_div(mg * area * 11, 30);
    if change < 4 {
        Co2::taken_up(grams)
    } else {
        Co2::of(grams)
    }
}
