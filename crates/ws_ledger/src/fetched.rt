// What happened, applied to the ledger: new versions.
ghost use Rattle.std.specs.Prelude.{◌≡◌, ◌<◌, ◌≤◌, ◌^◌, ℕ, List, OnOk, OnErr, IfOk, bytes_eq, filter};
ghost use Rattle.ws_model.specs.declared.event.Event.{Event};
ghost use Rattle.ws_model.specs.declared.event.What.TheVariants.{Fetched};
ghost use Rattle.ws_model.specs.Leases.{live};
ghost use Rattle.ws_model.specs.Legal.{Legal};
ghost use Rattle.ws_lease.specs.Stands.{AreNumbersOf};
ghost use Rattle.ws_lease.specs.Table.{live_numbers};
ghost use Rattle.ws_core_tables.specs.Stands.{StandsFor as TablesStand};
ghost use Rattle.ws_ledger.specs.Pairs.{with_version};
ghost use Rattle.ws_ledger.specs.Stands.{CanFollow, GoesOn};

use crate::Ledger;
use std::alloc::Global;
use ws_fate::Standing;
use ws_lease::LiveOf;
use ws_model::{Event, NoMemory, Version};

impl Ledger {
    /// A fetch gave a new version, which is owed to the live leases of its topic. At an error the ledger is as
    /// it was.
    pub(crate) fn fetched(&mut self, event: &Event, version: &Version) -> Result<(), NoMemory>
        requires kind { event.now.what ≡ Fetched version.now }
        requires follows { CanFollow self.old event.now }
        ensures ok { OnOk result (GoesOn event.now self.old self.new) }
        ensures err { OnErr result (self.new ≡ self.old) }
    {
        let births = self.births_of(version, event.t)?;
        self.apply_step(event, &births, &[], Standing::Answered)?;
        Ok(())
    }

    /// The pairs of a new version with the leases of its topic that are live at `t`.
    pub(crate) fn births_of(&self, version: &Version, t: u64) -> Result<Vec<(u64, u64)>, NoMemory>
        requires in_time { t < 2 ^ 48 }
        ensures value { IfOk result (λ births. births.items ≡ with_version version.now.ver (live_numbers version.now.topic t self.now.tables.leases)) }
        ensures numbers { (h : List Event) (since : ℕ) → TablesStand h since self.now.tables → Legal h → since ≤ t → AreNumbersOf (live_numbers version.now.topic t self.now.tables.leases) (filter (λ l. bytes_eq l.intent.topic version.now.topic) (live h t)) }
    {
        let leases = self.tables.leases_of_topic(version.topic.as_slice(), t);
        with_version(self.alloc, version.ver, leases)
    }
}

/// The pairs of a version and these leases.
fn with_version(alloc: Global, ver: u64, leases: LiveOf<'_>) -> Result<Vec<(u64, u64)>, NoMemory>
    ensures { IfOk result (λ pairs. pairs.items ≡ with_version ver leases.entry) }
{
    let mut pairs = Vec::new(alloc);
    for lease in leases {
        pairs.push((ver, lease))?;
    }
    Ok(pairs)
}
