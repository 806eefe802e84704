// What is kept of a log.
ghost use Rattle.std.specs.Prelude.{◌≡◌, ℕ, ◌≤◌, ◌<◌, ◌^◌, List, ◌++◌, IfOk, OnOk, filter, not, reverse, ◌&&◌};
ghost use Rattle.std.specs.BTreeMap.{get};
ghost use Rattle.std.specs.Ordering.{nat_cmp};
ghost use Rattle.ws_model.specs.declared.event.Event.{Event};
ghost use Rattle.ws_model.specs.Keep.{keeps};
ghost use Rattle.ws_model.specs.Legal.{Legal};
ghost use Rattle.ws_tries.specs.Stands.{is_any_push};
ghost use Rattle.ws_kept.specs.Stands.{AreKept, AreRenewed, IsLogged};
ghost use Rattle.ws_core_tables.specs.Stands.{StandsFor};
ghost use Rattle.ws_sift.specs.Sifted.{ArePast, AreReplaced, Sifts};
ghost use Rattle.ws_sweep.specs.Rows.{members};

use crate::choosing::is_kept;
use crate::replaced::replaced_intents;
use crate::restoring::restored;
use std::alloc::Global;
use std::collections::BTreeMap;
use ws_core_tables::Tables;
use ws_kept::{Kept, Renewal};
use ws_model::{Event, Intent, NoMemory};
use ws_sweep::Sweep;

/// The events that a compaction at `t`, in seconds, keeps, but the pushes, in their order, oldest first: out of
/// the log of a history, which has at least these, with what was asked for and with the texts and bodies of
/// fetched versions from its tables, or from its renewals. It fails only for want of memory.
pub fn kept_events(
    alloc: Global,
    tables: &Tables,
    kept: &Kept,
    log: &Sweep<Event>,
    renewals: &Sweep<Renewal>,
    t: u64,
) -> Result<Vec<Event>, NoMemory>
    requires in_time { t < 2 ^ 48 }
    ensures stands { (h : List Event) (since : ℕ) → StandsFor h since tables.now → AreKept h t kept.now → IsLogged h since (members log.now) → AreRenewed h since (members renewals.now) → Legal h → since ≤ t → IfOk result (λ events. events.items ≡ reverse (filter (λ e. not (is_any_push e.what) && keeps h t e e.what) h)) }
{
    let replaced = replaced_intents(alloc, kept, renewals)?;
    let mut events = Vec::new(alloc);
    add_kept(alloc, &mut events, tables, kept, &replaced, log.looked(), t)?;
    add_kept(alloc, &mut events, tables, kept, &replaced, log.left(), t)?;
    Ok(events)
}

/// Adds the events that a compaction at `t` keeps of a part of the log.
fn add_kept(
    alloc: Global,
    events: &mut Vec<Event>,
    tables: &Tables,
    kept: &Kept,
    replaced: &BTreeMap<u64, Intent>,
    part: &[Event],
    t: u64,
) -> Result<(), NoMemory>
    requires in_time { t < 2 ^ 48 }
    ensures { OnOk result ((h : List Event) (since : ℕ) → ArePast h since t tables.now kept.now → AreReplaced h t (get nat_cmp replaced.now) → (after : List Event) → Sifts h t (part.now ++ after) events.old.items → Sifts h t after events.new.items) }
{
    for event in part {
        if is_kept(tables, kept, event) {
            events.push(restored(alloc, tables, replaced, event, t)?)?;
        }
    }
    Ok(())
}
