//! Keys in their order, as a set whose changes take no memory once there is room for each of its members,
//! and the order of the next tries of pushes.
#![tactic(auto)]

mod key;
mod next_try;
mod order;

pub use key::{Key, Sought};
pub use next_try::NextTry;
pub use order::{Order, Room};
