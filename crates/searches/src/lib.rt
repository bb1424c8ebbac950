// The search of a tree of pages: the events of a box, by rising address.
#![tactic(auto)]

pub mod find;
mod finding;
mod part;
pub mod request;
pub mod search;
mod walking;
