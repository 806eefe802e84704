//! What a request makes of what the tables hold: its events, or what is full.
#![tactic(auto)]

mod fault;
mod judging;
mod pings;
mod rooms;
mod subscription;

pub use fault::CoreFault;
pub use judging::{judge, revocation};
