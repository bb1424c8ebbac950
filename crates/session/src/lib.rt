// One run of a script over one pile of stores: set-up, calls, and what is done with the memory at the end.
#![tactic(auto)]

mod hear;
mod layers;
mod memory;
mod parts;
pub mod run;
mod serve;
mod session;
mod stores;
