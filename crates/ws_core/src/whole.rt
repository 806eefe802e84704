// The ledger, and what a compaction needs beside it.
ghost use Rattle.std.specs.Prelude.{[]};
ghost use Rattle.ws_core.specs.Follows.{HasHistory};
ghost use Rattle.ws_core.specs.Stands.{StandsFor};

use crate::round::Round;
use std::alloc::Global;
use std::marker::Model;
use ws_kept::Renewal;
use ws_ledger::Ledger;
use ws_model::Event;
use ws_sweep::Sweep;
use ws_tries::Tries;

/// The hub's core: the ledger, and what a compaction needs beside it. Contracts see it as the record of
/// what these show.
#[derive(Drop)]
pub struct Core {
    pub(crate) alloc: Global,
    pub(crate) ledger: Ledger,
    /// What happened but pushes, the oldest first, without what was found that no compaction would keep. What
    /// was asked for and what was fetched is there by its numbers alone: its texts and its body stand in the
    /// ledger's tables, or with the renewals, as long as it is kept.
    pub(crate) log: Sweep<Event>,
    /// Each new lease with what was asked for the lease that it replaced, the oldest first, in the same way.
    pub(crate) renewals: Sweep<Renewal>,
    pub(crate) tries: Tries,
    /// Where the round over the rooms stands.
    pub(crate) round: Round,
}

impl Model for Core {
    ghost use Rattle.ws_core.specs.Rows.{Rows};
    ghost use Rattle.ws_sweep.specs.Rows.{members};

    ghost Value = { Rows };

    ghost view = { λ s. record { ledger = s.ledger; log = members s.log; renewals = members s.renewals; tries = s.tries } };
}

impl Core {
    /// The core of a hub to which nothing has happened. It takes no memory.
    pub fn empty(alloc: Global) -> Core
        ensures stands { StandsFor [] 0 result }
        ensures history { HasHistory result }
    {
        Core {
            alloc,
            ledger: Ledger::empty(alloc),
            log: Sweep::empty(alloc),
            renewals: Sweep::empty(alloc),
            tries: Tries::empty(alloc),
            round: Round::at(0),
        }
    }
}
