//! The four tables of the hub put together: what happened is applied to all of them, and what may
//! follow and what is due is read from them.
#![tactic(auto)]

mod allowing;
mod apply;
mod applying;
mod asking;
mod births;
mod committing;
mod confirming;
mod due;
mod ending;
mod fetching;
mod keeping;
mod looking;
mod numbers;
mod owed_fetch;
mod passing;
mod tables;
mod walking;

pub use due::DueWork;
pub use numbers::{Greatest, Numbers};
pub use tables::Tables;
