// A page store over numbered slots: a write never overwrites the slot of its page, but fills a free one.
#![tactic(auto)]

mod row;
mod slot;
pub mod store;
mod survey;
