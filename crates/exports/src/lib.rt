// The index for callers in other languages: each export opens or formats an index in the Z order over lent memory, and carries out a
// batch of calls.
#![tactic(auto)]

pub mod batch;
pub mod exports;
pub mod opened;
