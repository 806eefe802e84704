//! The own link of a fetched content: what its Link fields call `self`.
#![tactic(auto)]

pub mod laws;
mod link;

pub use link::own_link;
