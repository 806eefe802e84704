/// Why a lease or a pair of a version and a lease ended.
#[derive(Clone, Copy, Debug, PartialEq, Eq)]
pub enum Cause {
    Expired,
    Unsubscribed,
    Replaced,
    Gone,
    Spent,
    Revoked,
}

/// How a pair of a version and a lease stands: answered, still owed with its misses and the time of
/// its next try in seconds, or ended by one cause.
#[derive(Clone, Copy, Debug, PartialEq, Eq)]
pub enum Fate {
    Answered,
    Owed { tries: u8, next: u64 },
    Ended(Cause),
}
