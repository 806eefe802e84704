//! The table of intents: the pending ones, with their verifications that had no reply, and the denial
//! notices that are owed.
#![tactic(auto)]

mod first;
mod index;
mod kinds;
pub mod laws;
mod notices;
mod pending;
mod rows;
mod table;

pub use kinds::{Due, Settle};
pub use rows::{Denial, Waiting};
pub use table::Intents;

#[cfg(test)]
mod tests;
