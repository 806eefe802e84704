//! The hub's core: the ledger, with what a compaction needs beside it. It applies what happened, and says
//! what may follow, what is due, what a request and what a ticket's outcome make, what became of each
//! pair, and what a compaction keeps.
#![tactic(auto)]

mod accepting;
mod applying;
mod asking;
mod births;
mod committing;
mod giving_back;
mod keeping;
mod looking;
mod passing;
mod renewing;
mod round;
mod settling;
mod sweeping;
#[cfg(test)]
mod tests;
mod whole;

pub use whole::Core;
