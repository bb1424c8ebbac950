// The theory of the tree: sound trees, the path copy, the steps of a search, the scan of an opening.
#![tactic(auto)]

pub mod copy_laws;
pub mod copy_limit;
pub mod scan_laws;
pub mod search_laws;
