// The figures of a line of each sort, and the subtotal with them.
ghost use Rattle.std.specs.Prelude.{◌≡◌};
ghost use Rattle.account.specs.Figures.{grouped, group_figures, ch4_alone, co2_alone, grazing_alone, cattle_figures, pig_figures};
ghost use Rattle.account.specs.Range.{Grouped};
ghost use Rattle.account.specs.Told.{Small};

use account::{Figures, NO_FIGURES, Subtotal};
use grams::cattle::CattleManure;
use grams::pig::PigManure;
use grams::units::{Co2, Grazed};

// The subtotal with a line's figures.
pub(crate) fn sub_summed(s: Subtotal, f: Figures) -> Subtotal
    requires { Grouped s 4096 × Small f }
    ensures { result ≡ grouped s f }
{
    let n = s.n2o;
    let m = f.n2o;
    let n2o = n.plus(m);
    Subtotal {
        ch4: s.ch4 + f.ch4,
        n2o: n2o,
        excreted: s.excreted + f.excreted,
        land: s.land + f.land,
    }
}

pub(crate) fn group_figures(s: Subtotal) -> Figures
    ensures { result ≡ group_figures s }
{
    let n2o = s.n2o;
    let mut f = NO_FIGURES;
    f.ch4 = s.ch4;
    f.n2o = n2o;
    f.excreted = s.excreted;
    f.land = s.land;
    f
}

pub(crate) fn ch4_alone(g: u64) -> Figures
    ensures { result ≡ ch4_alone g }
{
    let mut f = NO_FIGURES;
    f.ch4 = g;
    f
}

pub(crate) fn cattle_figures(m: CattleManure) -> Figures
    ensures { result ≡ cattle_figures m }
{
    let n2o = m.n2o;
    let mut f = NO_FIGURES;
    f.n2o = n2o;
    f.excreted = m.excreted;
    f
}

pub(crate) fn pig_figures(m: PigManure) -> Figures
    ensures { result ≡ pig_figures m }
{
    let n2o = m.n2o;
    let mut f = NO_FIGURES;
    f.ch4 = m.ch4;
    f.n2o = n2o;
    f.excreted = m.excreted;
    f.land = m.land;
    f
}

pub(crate) fn co2_alone(g: Co2) -> Figures
    ensures { result ≡ co2_alone g }
{
    let mut f = NO_FIGURES;
    f.co2 = g;
    f
}

pub(crate) fn grazing_alone(g: Grazed) -> Figures
    ensures { result ≡ grazing_alone g }
{
    let mut f = NO_FIGURES;
    f.grazing = g;
    f
}
