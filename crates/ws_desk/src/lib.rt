//! The desk: the owner of a hub's core, which answers the calls of those who reach the hub.
#![tactic(auto)]

mod calls;
mod committing;
mod owner;

pub use owner::Desk;
