//! The pushes that a compaction keeps.
#![tactic(auto)]

mod pushes;
#[cfg(test)]
mod tests;

pub use pushes::kept_pushes;
