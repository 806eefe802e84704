//! Which pairs went over to the lease that replaced theirs: laws.
#![tactic(auto)]

pub mod laws;
