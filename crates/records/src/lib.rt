// Records in fixed or lent memory: a list of free numbers chained in a table, and a tray over a lent slice.
#![tactic(auto)]

pub mod free;
pub mod tray;
