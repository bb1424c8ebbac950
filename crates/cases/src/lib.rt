// Worked cases, each list of them proved as one result on a contract.
#![tactic(auto)]

pub mod branch;
pub mod eight_by_eight;
pub mod slot_rows;
