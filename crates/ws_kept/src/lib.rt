//! Which versions and which leases a compaction keeps.
#![tactic(auto)]

mod finding;
mod kept;
mod leases;
mod numbers;
mod renewal;
#[cfg(test)]
mod tests;
mod versions;

pub use kept::Kept;
pub use leases::is_handed_on;
pub use renewal::Renewal;
pub use versions::{is_kept, is_latest};
