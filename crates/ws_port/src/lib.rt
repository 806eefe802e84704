//! What a hub does for those who reach it: the trait `Port`, what its calls answer, and their causes.
#![tactic(auto)]

mod fault;
mod port;

pub use fault::DeskFault;
pub use port::{Port, Told};
