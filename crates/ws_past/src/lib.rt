//! What has happened to a hub, as ghost data, so that a struct can carry the history that it stands for.
#![tactic(auto)]

mod past;
#[cfg(test)]
mod tests;

pub use past::Past;
