//! What the outcome of a ticket's exchange makes of what the tables hold.
#![tactic(auto)]

mod fetches;
mod limits;
mod notices;
mod outcomes;
mod pushes;
mod settling;
mod verifications;

pub use settling::settle;
