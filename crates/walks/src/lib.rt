// Walks over the pages of a tree in a store of pages.
#![tactic(auto)]

mod children;
pub mod scan;
mod scanning;
mod visiting;
