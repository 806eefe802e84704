//! The pushes of each pair of a version and a lease, in rooms that are taken when the pair is made.
#![tactic(auto)]

mod held;
pub mod laws;
mod room;
mod rooms;
mod table;

pub use room::{Room, Try};
pub use table::Tries;
