// Leases that are renewed.
ghost use Rattle.std.specs.Prelude.{◌≡◌, ◌≤◌, ◌<◌, ◌^◌, ◌==◌, ℕ, List, IfOk, find};
ghost use Rattle.std.specs.Option.{option_map};
ghost use Rattle.ws_model.specs.declared.event.Event.{Event};
ghost use Rattle.ws_model.specs.Leases.{live};
ghost use Rattle.ws_core_tables.specs.Stands.{StandsFor as TablesStand};
ghost use Rattle.ws_ledger.specs.Stands.{CanFollow};
ghost use Rattle.ws_core.specs.Renewed.{FindsOld};

use std::alloc::Global;
use ws_core_tables::Tables;
use ws_kept::Renewal;
use ws_ledger::Ledger;
use ws_model::{Event, NoMemory};

/// The new lease that an event makes which may come next, with what was asked for the lease that it replaces,
/// where there are both. It fails only for want of memory.
pub(crate) fn renewal_by(
    alloc: Global,
    ledger: &Ledger,
    event: &Event,
) -> Result<Option<Renewal>, NoMemory>
    requires follows { CanFollow ledger.now event.now }
    ensures { IfOk result (FindsOld event.now ledger.now) }
{
    match ledger.renewal(event) {
        Some((lease, old)) => renewal_of(alloc, ledger.tables(), lease, old, event.t),
        None => Ok(None),
    }
}

/// The new lease, with what was asked for the old one, which is live at `t`, in seconds.
fn renewal_of(
    alloc: Global,
    tables: &Tables,
    lease: u64,
    old: u64,
    t: u64,
) -> Result<Option<Renewal>, NoMemory>
    requires in_time { t < 2 ^ 48 }
    ensures { IfOk result (λ r. (h : List Event) (since : ℕ) → TablesStand h since tables.now → since ≤ t → r ≡ option_map (λ l. record { lease = lease; replaced = l.intent }) (find (λ l. l.intent.n == old) (live h t))) }
{
    match tables.live_intent(old, t) {
        Some(intent) => Ok(Some(Renewal {
            lease,
            replaced: intent.copy(alloc)?,
        })),
        None => Ok(None),
    }
}
