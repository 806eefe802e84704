//! A journal of batches of events on two devices, which a crash at any moment leaves readable.
#![tactic(auto)]

mod ahead;
mod append;
mod choose;
mod clear;
#[cfg(test)]
mod fault_tests;
mod fresh;
mod gate;
mod head;
mod journal;
pub mod laws;
mod make;
mod read_back;
mod record;
mod recover;
#[cfg(test)]
mod recover_tests;
mod replace;
#[cfg(test)]
mod replacing_tests;
mod scan;
mod settle;
mod store;
#[cfg(test)]
mod tests;
mod upgrade;

pub use journal::Journal;
pub use store::{AppendFault, Batch, Edition, OpenFault, ReadBack, Store};
pub use upgrade::UpgradeFault;
