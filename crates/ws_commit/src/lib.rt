//! That what a request makes can be applied together.
#![tactic(auto)]

pub mod laws;
