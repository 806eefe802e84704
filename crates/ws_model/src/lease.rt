use crate::Intent;

/// A confirmed subscription: its intent, and the time in seconds at which its verification was drawn.
///
/// It has the number of its intent, and expires at `sent` plus the intent's `granted`.
#[derive(Debug, Drop, PartialEq)]
pub struct Lease {
    pub intent: Intent,
    pub sent: u64,
}
