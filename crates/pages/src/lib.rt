// Page stores and the layers over them. A page has 128 bytes and is numbered from 1.
#![tactic(auto)]

pub mod charge;
pub mod fault;
pub mod making;
pub mod memory;
pub mod skip;
pub mod stack;
pub mod store;
mod table;
pub mod turned;
