// A file for each kind: its values from its bytes, and the first value out of its range. Its places and ranges stand there as numbers, not by
// a table: the reader is on its way, and a table in the code would be stored anew at each record. The proofs hold them to codec, specs/Table.
// The position is 0 where each value is in its range, and no Option: as it is it goes into a refusal's field, which is 0 for none (rules: stopped).
#![tactic(auto)]

pub mod cattle;
pub mod close;
pub mod energy;
pub mod enteric;
pub mod farm;
pub mod farm_factors; // farm_factors.rt: the farm record of version 2
pub mod grazing;
pub mod heading;
pub mod pig;
pub mod soil;
pub mod tillage;
