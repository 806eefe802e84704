// What stands in the table for a topic whose fetch is owed.
use ws_model::Key;

/// A fetch that is owed: its topic, the serial of the latest ping, and how many fetches were missed since.
#[derive(Debug, Drop)]
pub struct OwedFetch {
    pub topic: Key,
    pub serial: u64,
    pub missed: u8,
}

/// The latest ping of a topic whose fetch is owed: its serial, and how many fetches were missed since.
#[derive(Clone, Copy, Debug, PartialEq, Eq)]
pub struct LastPing {
    pub serial: u64,
    pub missed: u8,
}
