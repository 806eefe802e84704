//! Copies of events, whole and light.
#![tactic(auto)]

mod copies;

pub use copies::{copy_event, light_copy, lightened};
