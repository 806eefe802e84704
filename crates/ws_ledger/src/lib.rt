//! The hub's ledger: the tables with what became of each pair. It applies what happened, and says what may
//! follow, what is due, what a request and what a ticket's outcome make, and what became of each pair.
#![tactic(auto)]

mod accepting;
mod applying;
mod asking;
mod births;
mod committing;
mod confirmed;
mod ends;
mod fetched;
pub mod laws;
mod looking;
mod newborn;
mod passing;
mod pushed;
mod quiet;
mod settling;
mod sound;
mod steps;
mod whole;

pub use whole::Ledger;
