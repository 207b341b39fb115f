// What belongs to the farm: energy, organic soil, and the total's CO2e.
ghost use Rattle.std.specs.Prelude.{◌≡◌};
ghost use Rattle.grams.specs.Farm.{EnergyIn, Energy, SoilIn, Soil, FactorsMost, SumsIn, set_factors, co2e_of};

use crate::rounding::round_div;
use crate::units::{Co2, Grazed, N2o};

pub fn energy(amount: u64, factor: u64) -> Co2
    requires { EnergyIn amount factor }
    ensures { Energy amount factor result }
{
    Co2::of(round_div(amount * factor, 10))
}

pub fn soil(area: u64) -> Co2
    requires { SoilIn area }
    ensures { Soil area result }
{
    Co2::of(round_div(area * 550000, 3))
}

// The grams of CO2 that warm as much as a gram of CH4, and as a gram of N2O.
#[derive(Clone, Copy)]
pub struct Factors {
    pub ch4: u16,
    pub n2o: u16,
}

// The factors of the warming sets 1 and 2.
pub fn factors_of(set: u64) -> Factors
    ensures { result ≡ set_factors set }
{
    if set == 1 {
        Factors { ch4: 21, n2o: 310 }
    } else {
        Factors { ch4: 23, n2o: 296 }
    }
}

// CO2e of a total: the CO2 that would warm as much.
pub fn co2e(w: Factors, co2: Co2, ch4: u64, n2o: N2o, grazing: Grazed) -> Co2
    requires { FactorsMost w × SumsIn co2 ch4 n2o grazing }
    ensures { result ≡ co2e_of w co2 ch4 n2o grazing }
{
    let others = w.ch4 as u64 * ch4 + w.n2o as u64 * n2o.grams() + grazing.grams();
    co2.plus(Co2::of(others))
}
