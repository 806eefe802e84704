//! The table of topics: their latest and kept versions, and the fetches that are owed.
#![tactic(auto)]

mod besides;
mod by_topic;
mod fetches;
pub mod laws;
mod rows;
mod table;
mod versions;

pub use rows::{LastPing, OwedFetch};
pub use table::Topics;

#[cfg(test)]
mod tests;
