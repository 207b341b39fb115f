// Values and bytes of records: the fields are those of specs/Table.antt. What a record means is not known here.
#![tactic(auto)]

pub mod numbers; // numbers.rt: big-endian numbers
pub mod start; // start.rt: what every record and every line begins with
pub mod kinds; // kinds.rt: the kinds by name, and the bytes of a record

// The highest kind, and the last row of the table, which is the farm record of version 2.
pub const LAST_KIND: u64 = kinds::LAST;

pub const LAST_ROW: u64 = kinds::FARM_FACTORS;

// The highest length of a record, and the bytes of the longest.
pub const LENGTH_MOST: u64 = 26;

pub const RECORD_MOST: usize = 28;

// A field: how many bytes it has, its lowest and its highest value.
#[derive(Clone, Copy)]
pub struct Field(pub usize, pub u64, pub u64);
