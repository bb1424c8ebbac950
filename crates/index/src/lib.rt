// The event index: events as points with counts, in a copy-on-write tree of pages.
#![tactic(auto)]

pub mod calls;
mod freed;
mod head;
pub mod index;
pub mod laws;
mod located;
pub mod lodge;
pub mod open;
pub mod parts;
pub mod search;
mod settled;
pub mod tally;
pub mod withdraw;
