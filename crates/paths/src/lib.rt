// Lodge, withdraw and tally: reading and copying the path from the root to the leaf that an address belongs to.
#![tactic(auto)]

pub mod copied;
mod entries;
mod left;
pub mod lodge;
mod lodge_edits;
pub mod old_pages;
mod page;
mod place;
mod plan;
mod step;
pub mod tally;
pub mod trade;
pub mod withdraw;
mod withdraw_edits;
