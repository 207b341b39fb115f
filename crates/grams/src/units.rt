// Grams of CO2, which may be below zero; grams of N2O, and N2O-N, the nitrogen in it; grams of CO2e of grazing. Only `to_n2o` leads from N2O-N to
// N2O.
ghost use Rattle.std.specs.Prelude.{◌≡◌, ◌+◌, ◌*◌, ◌^◌, ◌<◌, ◌≤◌, pos, neg_ℤ};
ghost use Rattle.grams.specs.Units.{grams_co2, plus_co2, Co2Within, co2_within, co2_word, co2_of_word, grams_n2o, grams_grazed, parts_n2o_n, as_n2o};

use crate::rounding::round_div;

// Grams of CO2, a word in two's complement. How they are added, bounded and laid into 8 bytes is said here alone.
#[derive(Clone, Copy)]
pub struct Co2(u64);

// None, as where a rule gives none.
pub const NO_CO2: Co2 = Co2(0);

impl Co2 {
    pub fn of(grams: u64) -> Co2
        ensures { result ≡ grams_co2 (pos grams) }
    {
        Co2(grams)
    }

    // Below zero.
    pub fn taken_up(grams: u64) -> Co2
        ensures { result ≡ grams_co2 (neg_ℤ (pos grams)) }
    {
        Co2(std::num::wrapping_sub_u64(0, grams))
    }

    // The other may be all that the CH4, N2O and grazing of 4,096 records count for.
    pub fn plus(self, other: Co2) -> Co2
        requires { Co2Within 4096 self × Co2Within 49152 other }
        ensures { result ≡ plus_co2 self other }
    {
        Co2(std::num::wrapping_add_u64(self.0, other.0))
    }

    // Whether so many records reach it, on both sides of zero: one test of the word, moved up by the bound.
    pub fn within(self, records: u64) -> bool
        requires { records ≤ 65535 }
        ensures { result ≡ co2_within records self }
    {
        let most = records * 10000000000000;
        std::num::wrapping_add_u64(self.0, most) <= 2 * most
    }

    // The same, moved by itself.
    pub fn same(self) -> Co2
        ensures { result ≡ self }
    {
        Co2(self.0)
    }

    // The number that stands for it in 8 bytes.
    pub fn word(self) -> u64
        ensures { result ≡ co2_word self }
    {
        self.0
    }

    // And back: the CO2 that a number of 8 bytes stands for.
    pub fn from_word(word: u64) -> Co2
        ensures { result ≡ co2_of_word word }
    {
        Co2(word)
    }
}

// Grams of N2O.
#[derive(Clone, Copy)]
pub struct N2o(u64);

// None, as where a rule gives none.
pub const NO_N2O: N2o = N2o(0);

impl N2o {
    pub fn of(grams: u64) -> N2o
        ensures { result ≡ grams_n2o grams }
    {
        N2o(grams)
    }

    // The same, moved by itself.
    pub fn same(self) -> N2o
        ensures { result ≡ self }
    {
        N2o(self.0)
    }

    pub fn grams(self) -> u64
        ensures { result ≡ self.0 }
    {
        self.0
    }

    pub fn plus(self, other: N2o) -> N2o
        requires { self.0 + other.0 < 2 ^ 64 }
        ensures { result ≡ grams_n2o (self.0 + other.0) }
    {
        N2o(self.0 + other.0)
    }
}

// Grams of CO2e of grazing: CO2e from the start, and no gas. A type of its own beside N2o, and no generic one: a trait for the three would need a
// ghost member and two laws for bodies of one line, and specs/Units would name them all the same.
#[derive(Clone, Copy)]
pub struct Grazed(u64);

// None, as where a rule gives none.
pub const NO_GRAZING: Grazed = Grazed(0);

impl Grazed {
    pub fn of(grams: u64) -> Grazed
        ensures { result ≡ grams_grazed grams }
    {
        Grazed(grams)
    }

    // The same, moved by itself.
    pub fn same(self) -> Grazed
        ensures { result ≡ self }
    {
        Grazed(self.0)
    }

    pub fn grams(self) -> u64
        ensures { result ≡ self.0 }
    {
        self.0
    }

    pub fn plus(self, other: Grazed) -> Grazed
        requires { self.0 + other.0 < 2 ^ 64 }
        ensures { result ≡ grams_grazed (self.0 + other.0) }
    {
        Grazed(self.0 + other.0)
    }
}

// N2O-N, exact, in hundred-millionths of a gram.
#[derive(Clone, Copy)]
pub struct N2oN(u64);

impl N2oN {
    pub fn of(parts: u64) -> N2oN
        ensures { result ≡ parts_n2o_n parts }
    {
        N2oN(parts)
    }

    // 44/28 and the rounding to whole grams are one operation.
    pub fn to_n2o(self) -> N2o
        requires { self.0 * 11 < 2 ^ 64 }
        ensures { result ≡ as_n2o self }
    {
        N2o(round_div(self.0 * 11, 700000000))
    }
}
