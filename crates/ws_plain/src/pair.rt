// A pair of a version and a lease.
ghost use Rattle.std.specs.Prelude.{◌≡◌, IfOk};

use crate::fates;
use crate::leases::copy_lease;
use std::alloc::Global;
use std::marker::Model;
use ws_model::{Event, Fate, Lease, NoMemory, Version};

/// A version, a lease that it is for, and the time in seconds of the event that made the pair.
#[derive(Debug, Drop)]
pub(crate) struct Pair {
    version: Version,
    lease: Lease,
    born: u64,
}

impl Model for Pair {
    ghost use Rattle.ws_model.specs.Fate.{Pair as PairFields};

    ghost Value = { PairFields };

    ghost view = { λ p. record { version = p.version; lease = p.lease; born = p.born } };
}

impl Pair {
    ghost use Rattle.ws_model.specs.Fate.{fate, is_owed, next};
    ghost use Rattle.ws_model.specs.Pairs.{pair};
    ghost use Rattle.ws_plain.specs.Alike.{alike};
    ghost use Rattle.ws_plain.specs.Capped.{capped};
    ghost use Rattle.ws_plain.specs.Past.{past};

    pub(crate) fn new(version: Version, lease: Lease, born: u64) -> Pair
        ensures { result ≡ pair born version lease }
    {
        Pair {
            version,
            lease,
            born,
        }
    }

    pub(crate) fn copy(&self, alloc: Global) -> Result<Pair, NoMemory>
        ensures { IfOk result (λ p. p ≡ self.now) }
    {
        Ok(Pair {
            version: self.version.copy(alloc)?,
            lease: copy_lease(alloc, &self.lease)?,
            born: self.born,
        })
    }

    pub(crate) fn version(&self) -> &Version
        ensures { result.now ≡ self.now.version }
    {
        &self.version
    }

    pub(crate) fn lease(&self) -> &Lease
        ensures { result.now ≡ self.now.lease }
    {
        &self.lease
    }

    /// The time in seconds of the next try.
    pub(crate) fn next(&self, events: &[Event]) -> u128
        ensures { result ≡ next (past events.now) self.now }
    {
        fates::next(events, self.version.ver, self.lease.intent.n, self.born)
    }

    /// The fate at a time in seconds.
    pub(crate) fn fate(&self, events: &[Event], t: u64) -> Fate
        ensures { result ≡ capped (fate (past events.now) self.now t) }
    {
        fates::fate(events, &self.version, &self.lease, self.born, t)
    }

    /// Whether the push is still owed at a time in seconds.
    #[tactic(auto, using(crate::proofs::Delays::is_owed_capped))]
    pub(crate) fn is_owed(&self, events: &[Event], t: u64) -> bool
        ensures { result ≡ is_owed (fate (past events.now) self.now t) }
    {
        matches!(self.fate(events, t), Fate::Owed { .. })
    }

    /// Whether the fate at a time in seconds is of the wanted kind.
    #[tactic(auto, using(crate::proofs::Delays::alike_capped))]
    pub(crate) fn has_fate(&self, events: &[Event], t: u64, wanted: Fate) -> bool
        ensures { result ≡ alike wanted (fate (past events.now) self.now t) }
    {
        fates::is_alike(wanted, self.fate(events, t))
    }
}
