//! Plays a script of happenings over a hub, and writes its transcript.
#![tactic(auto)]

mod account_text;
mod connection;
mod happen;
mod lines;
mod output;
mod own_hub;
mod play;

pub use own_hub::drive;
pub use play::{Stop, Turn, drive_over};
