// Finding what a compaction keeps.
ghost use Rattle.std.specs.Prelude.{◌≤◌, ◌<◌, ◌^◌, ℕ, List, IfOk};
ghost use Rattle.ws_model.specs.declared.event.Event.{Event};
ghost use Rattle.ws_model.specs.Legal.{Legal};
ghost use Rattle.ws_fate.specs.Stands.{AreShown};
ghost use Rattle.ws_core_tables.specs.Stands.{StandsFor as TablesStand};
ghost use Rattle.ws_tries.specs.Stands.{HaveRooms};
ghost use Rattle.ws_sweep.specs.Rows.{members};
ghost use Rattle.ws_kept.specs.Stands.{AreKept, AreRenewed, IsLogged};

use crate::leases::{first_kept, with_replaced};
use crate::versions::{owed_versions, with_latest};
use crate::{Kept, Renewal};
use std::alloc::Global;
use ws_core_tables::Tables;
use ws_fate::Fates;
use ws_model::{Event, NoMemory};
use ws_sweep::Sweep;
use ws_tries::Tries;

impl Kept {
    /// Which versions and which leases a compaction at `t`, in seconds, keeps: the latest version of each topic and
    /// the owed ones; the live leases, those whose notices are owed, and with a lease also the one that it replaced,
    /// where a pair of a kept version went over. The log has the events but the pushes, and `renewals` the new
    /// leases with those that they replaced, both oldest first and perhaps without what no compaction keeps. It goes
    /// over the rooms, the log and the renewals, and fails only for want of memory.
    pub fn of(
        alloc: Global,
        tables: &Tables,
        fates: &Fates,
        tries: &Tries,
        log: &Sweep<Event>,
        renewals: &Sweep<Renewal>,
        t: u64,
    ) -> Result<Kept, NoMemory>
        requires in_time { t < 2 ^ 48 }
        ensures stands { (h : List Event) (since : ℕ) → TablesStand h since tables.now → AreShown h since fates.now → HaveRooms h t tries.now →
            IsLogged h since (members log.now) → AreRenewed h since (members renewals.now) → Legal h → since ≤ t → IfOk result (AreKept h t) }
    {
        // That each pair stands once is known from the number of all.
        let _ = fates.count();
        let owed = owed_versions(alloc, tables, tries, t)?;
        let versions = with_latest(tables, log, owed)?;
        let first = first_kept(alloc, tables, log, t)?;
        let leases = with_replaced(fates, tries, renewals, &versions, first)?;
        Ok(Kept { versions, leases })
    }
}
