//! The laws of histories: what the view of a history is at a later moment and after one more event,
//! and what fates, leases and due work keep to. Each law is the contract of a function that does
//! nothing.
#![tactic(auto)]

pub mod fates;
pub mod steps;
