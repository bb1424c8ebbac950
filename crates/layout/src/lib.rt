// The bytes of header and tree pages: reading, writing, entry lists, and what makes one page well formed.
#![tactic(auto)]

pub mod change;
pub mod entry;
pub mod header;
pub mod laws;
pub mod list;
pub mod page_ref;
pub mod reader;
pub mod rules;
pub mod visit;
pub mod writer;
