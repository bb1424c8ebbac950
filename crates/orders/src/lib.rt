// Points, query boxes, spaces, and the orders that put the points of a space on one line of addresses.
#![tactic(auto)]

mod block;
pub mod order;
pub mod point;
pub mod refusal;
pub mod rule;
pub mod rules;
pub mod space;
