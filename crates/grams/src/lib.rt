// The arithmetic of the farm book: each figure in whole grams, by what its contract states.
#![tactic(auto)]

pub mod carbon_rate;
pub mod cattle;
pub mod farm;
pub mod grazing;
pub mod pig;
pub mod rounding;
pub mod tillage;
pub mod tillage_table;
pub mod units;
