// How an intent or a notice is settled, and what is due.

/// How an exchange ended: of a verification Confirmed, Declined or Unheard, and of a denial notice
/// Noticed, with whether the callback answered it.
#[derive(Clone, Copy, Debug, PartialEq, Eq)]
pub enum Settle {
    Confirmed,
    Declined,
    Unheard,
    Noticed(bool),
}

/// Work that is due: the verification of a pending intent, or a denial notice, by its number.
#[derive(Clone, Copy, Debug, PartialEq, Eq)]
pub enum Due {
    Verify(u64),
    Notice(u64),
}
