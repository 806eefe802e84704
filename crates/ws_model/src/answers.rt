use crate::{Fate, What};

/// What the outcome of a ticket makes: an event, or nothing, where the pair of a push was no longer
/// owed and has this fate.
#[derive(Debug, Drop, PartialEq)]
pub enum Settled {
    Event(What),
    Stale(Fate),
}

/// What is full: the pending intents, the leases, the numbers, or the journal.
#[derive(Clone, Copy, Debug, PartialEq, Eq)]
pub enum Kind {
    Pending,
    Leases,
    Numbers,
    Journal,
}
