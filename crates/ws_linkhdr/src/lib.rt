//! Link fields (RFC 8288): reading them, writing them, and finding the targets of a relation.
#![tactic(auto)]

mod characters;
mod item;
pub mod laws;
mod read;
mod state;
mod words;
mod write;

pub use item::{LinkFault, LinkItem};
pub use read::read_links;
pub use words::rel_targets;
pub use write::write_links;
