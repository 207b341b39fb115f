// The account that a book's records have made so far. What a record does to it is said in specs/Judge and carried out by rules.
#![tactic(auto)]

pub mod line;
mod range;
pub mod sort;

ghost use Rattle.std.specs.Prelude.{◌≡◌};
ghost use Rattle.account.specs.Figures.{added, listed};
ghost use Rattle.account.specs.Range.{Bounded, account_in_range};
ghost use Rattle.account.specs.Told.{Small};
ghost use Rattle.account.specs.Account.{no_record, refused};

use grams::units::{Co2, Grazed, N2o, NO_CO2, NO_GRAZING, NO_N2O};
use line::Line;
use line_bytes::FIGURES;

// What the farm record sets: the warming factors.
#[derive(Clone, Copy)]
pub struct Farm {
    pub ch4: u16,
    pub n2o: u16,
}

pub const NO_FARM: Farm = Farm { ch4: 0, n2o: 0 };

// A group heading: its number, its class (1 milking, 2 dry, 3 heifer, 4 pig) and its head count; all zero where there is none.
#[derive(Clone, Copy)]
pub struct Heading {
    pub group: u16,
    pub class: u8,
    pub head: u16,
}

// What the records under the heading have used up: the days of kinds 3, 4 and 5, and the fraction of the yearly intake that was grazed. In four bytes
// each, since numbers of two bytes the compiler would move as one word, and take it apart at each record.
#[derive(Clone, Copy)]
pub struct Used {
    pub enteric: u32,
    pub nitrogen: u32,
    pub pig: u32,
    pub grazed: u32,
}

pub const NONE_USED: Used = Used {
    enteric: 0,
    nitrogen: 0,
    pig: 0,
    grazed: 0,
};

// Grams: a line's figures, and the sums over all lines.
#[derive(Clone, Copy)]
pub struct Figures {
    pub ch4: u64,
    pub n2o: N2o,
    pub co2: Co2,
    pub excreted: u64,
    pub land: u64,
    pub grazing: Grazed,
}

// Grams of one group: the running subtotal of its details. A group has no CO2 and no grazing.
#[derive(Clone, Copy)]
pub struct Subtotal {
    pub ch4: u64,
    pub n2o: N2o,
    pub excreted: u64,
    pub land: u64,
}

pub const NO_SUBTOTAL: Subtotal = Subtotal {
    ch4: 0,
    n2o: NO_N2O,
    excreted: 0,
    land: 0,
};

// Why a book was refused: the number of the rule, the records accepted before, and the field for rule 7.
#[derive(Clone, Copy)]
pub struct Refusal {
    pub code: u8,
    pub accepted: u16,
    pub field: u8,
}

// A state but for its held bytes. Here, in specs/Account and in account_numbers alone it is written out field by field.
// Stage, class and codes are numbers and no enums: a state comes as any bytes, and `in_range` answers those that mean nothing.
#[derive(Clone, Copy)]
pub struct Account {
    pub stage: u8,
    pub records: u16,
    pub farm: Farm,
    pub heading: Heading,
    pub subtotal: Subtotal,
    pub used: Used,
    pub sums: Figures,
    pub refusal: Refusal,
}

// What a whole record does: the account after it, and its lines.
#[derive(Clone, Copy)]
pub struct Judged {
    pub account: Account,
    pub line: Line,
}

// None, as where a rule gives none.
pub const NO_FIGURES: Figures = Figures {
    ch4: 0,
    n2o: NO_N2O,
    co2: NO_CO2,
    excreted: 0,
    land: 0,
    grazing: NO_GRAZING,
};

impl Figures {
    // The sums with a line's figures.
    pub fn plus(self, f: Figures) -> Figures
        requires { Bounded self 4096 × Small f }
        ensures { result ≡ added self f }
    {
        let n = self.n2o;
        let m = f.n2o;
        let n2o = n.plus(m);
        let c = self.co2;
        let d = f.co2;
        let co2 = c.plus(d);
        let e = self.grazing;
        let o = f.grazing;
        let grazing = e.plus(o);
        Figures {
            ch4: self.ch4 + f.ch4,
            n2o: n2o,
            co2: co2,
            excreted: self.excreted + f.excreted,
            land: self.land + f.land,
            grazing: grazing,
        }
    }

    // In the order of a line.
    pub fn listed(self) -> [u64; FIGURES]
        ensures { result ≡ listed self }
    {
        let n2o = self.n2o.grams();
        let co2 = self.co2.word();
        let grazing = self.grazing.grams();
        [self.ch4, n2o, co2, self.excreted, self.land, grazing]
    }
}

impl Account {
    // Before any record.
    pub fn new() -> Account
        ensures { result ≡ no_record }
    {
        Account {
            stage: 0,
            records: 0,
            farm: NO_FARM,
            heading: Heading {
                group: 0,
                class: 0,
                head: 0,
            },
            subtotal: NO_SUBTOTAL,
            used: NONE_USED,
            sums: NO_FIGURES,
            refusal: Refusal {
                code: 0,
                accepted: 0,
                field: 0,
            },
        }
    }

    // The same, each number moved by itself: of a whole copy the compiler makes wide words, and takes them apart again at each record. With `self`
    // alone a whole book of kind 3 takes 230 instructions a record in place of 151.
    pub fn by_fields(self) -> Account
        ensures { result ≡ self }
    {
        let group_n2o = self.subtotal.n2o.same();
        let n2o = self.sums.n2o.same();
        let co2 = self.sums.co2.same();
        let grazing = self.sums.grazing.same();
        Account {
            stage: self.stage,
            records: self.records,
            farm: Farm {
                ch4: self.farm.ch4,
                n2o: self.farm.n2o,
            },
            heading: Heading {
                group: self.heading.group,
                class: self.heading.class,
                head: self.heading.head,
            },
            subtotal: Subtotal {
                ch4: self.subtotal.ch4,
                n2o: group_n2o,
                excreted: self.subtotal.excreted,
                land: self.subtotal.land,
            },
            used: Used {
                enteric: self.used.enteric,
                nitrogen: self.used.nitrogen,
                pig: self.used.pig,
                grazed: self.used.grazed,
            },
            sums: Figures {
                ch4: self.sums.ch4,
                n2o: n2o,
                co2: co2,
                excreted: self.sums.excreted,
                land: self.sums.land,
                grazing: grazing,
            },
            refusal: Refusal {
                code: self.refusal.code,
                accepted: self.refusal.accepted,
                field: self.refusal.field,
            },
        }
    }

    // Refused by a rule, at a field.
    pub fn refuse(self, code: u8, field: u8) -> Account
        ensures { result ≡ refused self code field }
    {
        let refusal = Refusal {
            code: code,
            accepted: self.records,
            field: field,
        };
        let mut next = self.by_fields();
        next.stage = 3;
        next.refusal = refusal;
        next
    }

    // Whether every field is in its range.
    pub fn in_range(self) -> bool
        ensures { result ≡ account_in_range self }
    {
        range::test(self)
    }
}
