//! Events that were gathered in any order, put in the order of their history.
#![tactic(auto)]

pub mod laws;
mod order;

pub use order::in_order;
