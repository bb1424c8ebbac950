// What the index's calls refuse, in one enum with its numbers, and page accesses that say where the store refused.
#![tactic(auto)]

pub mod access;
pub mod fault;
