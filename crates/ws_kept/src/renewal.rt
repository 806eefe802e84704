// A lease that was renewed.

use ws_model::Intent;

/// A new lease, by its number, and what was asked for the lease that it replaced.
#[derive(Drop)]
pub struct Renewal {
    pub lease: u64,
    pub replaced: Intent,
}
