/// What a history amounts to at a moment: how much of each kind stands, and how many pairs of a
/// version and a lease have each fate, forgotten pairs included.
#[derive(Clone, Copy, Debug, PartialEq, Eq)]
pub struct Account {
    pub pending: u64,
    pub notices: u64,
    pub leases: u64,
    pub topics: u64,
    pub fetches: u64,
    pub owed: u64,
    pub answered: u64,
    pub expired: u64,
    pub unsubscribed: u64,
    pub replaced: u64,
    pub gone: u64,
    pub spent: u64,
    pub revoked: u64,
}
