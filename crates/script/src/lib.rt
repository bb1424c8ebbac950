// Reading the bench's script lines: words, numbers, points, boxes, set-up lines, questions to the order, and calls of the index and the store.
#![tactic(auto)]

pub mod call;
pub mod heard;
pub mod line;
pub mod number;
pub mod parse;
pub mod point;
pub mod question;
pub mod reason;
pub mod setup;
pub mod trouble;
pub mod words;
