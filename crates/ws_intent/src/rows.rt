// What stands in the table at a number.
use ws_model::{Bytes, Intent};

/// A pending intent, with the number of its verifications that had no reply.
#[derive(Debug, Drop)]
pub struct Waiting {
    pub intent: Intent,
    pub unheard: u8,
}

/// An intent whose callback is owed a denial notice, with the reason, and with the number of notices
/// that had no reply.
#[derive(Debug, Drop)]
pub struct Denial {
    pub intent: Intent,
    pub reason: Bytes,
    pub unheard: u8,
}
