//! The table of leases: by number, by topic, by topic and callback, and by end.
#![tactic(auto)]

pub mod laws;
mod live_of;
mod rows;
mod table;
mod topic_index;

pub use live_of::LiveOf;
pub use table::Leases;
pub use ws_model::{Cause, Lease, NoMemory};
