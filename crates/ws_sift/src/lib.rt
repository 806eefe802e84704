//! What a compaction keeps of the log of a history: the events that are kept, but the pushes.
#![tactic(auto)]

mod choosing;
mod replaced;
mod restoring;
mod sift;

pub use choosing::{is_awaited, is_denied, is_kept_miss, is_kept_ping, is_pending};
pub use sift::kept_events;
