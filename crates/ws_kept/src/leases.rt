// The leases that a compaction keeps: the live ones, those whose notices are owed, and those that they
// replaced, where a pair of a kept version went over.
ghost use Rattle.std.specs.Prelude.{◌≡◌, ◌≤◌, ◌<◌, ◌^◌, ◌==◌, ◌&&◌, ◌||◌, ℕ, List, IfOk, OnOk};
ghost use Rattle.std.specs.BTreeSet.{contains};
ghost use Rattle.std.specs.List.{list_any};
ghost use Rattle.std.specs.Ordering.{nat_cmp};
ghost use Rattle.ws_model.specs.declared.event.Event.{Event};
ghost use Rattle.ws_model.specs.Keep.{member};
ghost use Rattle.ws_model.specs.Leases.{is_on, live};
ghost use Rattle.ws_model.specs.Legal.{Legal};
ghost use Rattle.ws_compaction.specs.Least.{has_number};
ghost use Rattle.ws_core_tables.specs.Stands.{StandsFor, is_number};
ghost use Rattle.ws_sweep.specs.Rows.{members};
ghost use Rattle.ws_kept.specs.Finding.{gives_lease, goes_on_in, hands_on, is_handed_on, is_noticed, with_old_ones};

use crate::Renewal;
use crate::numbers::add;
use std::alloc::Global;
use std::collections::BTreeSet;
use ws_core_tables::Tables;
use ws_fate::{Fates, Standing};
use ws_model::{Cause, Event, Mode, NoMemory, What};
use ws_sweep::Sweep;
use ws_tries::Tries;

/// The number of a lease is below it.
const NUMBER_LIMIT: u64 = 9_223_372_036_854_775_808;

// ---- live leases, and those whose notices are owed

/// Whether the lease of this number is live at `t`.
fn is_live(tables: &Tables, lease: u64, t: u64) -> bool
    requires in_time { t < 2 ^ 48 }
    ensures stands { (h : List Event) (since : ℕ) → StandsFor h since tables.now → since ≤ t → result ≡ has_number lease (live h t) }
{
    tables.live_intent(lease, t).is_some()
}

/// Whether a mode asks for a subscription.
fn is_on(mode: Mode) -> bool
    ensures { result ≡ is_on mode }
{
    matches!(mode, Mode::On)
}

/// Whether a notice is owed of the subscription of this number.
fn is_noticed(tables: &Tables, lease: u64) -> bool
    ensures stands { (h : List Event) (since : ℕ) → StandsFor h since tables.now → result ≡ is_noticed h lease }
{
    match tables.denied_intent(lease) {
        Some(intent) => is_on(intent.mode),
        None => false,
    }
}

/// The lease that an event asked for, where it is live at `t`, or that it confirmed, where a notice of it is owed.
fn given_by(tables: &Tables, event: &Event, t: u64) -> Option<u64>
    requires in_time { t < 2 ^ 48 }
    ensures stands { (h : List Event) (since : ℕ) → StandsFor h since tables.now → Legal h → since ≤ t →
        (n : ℕ) → is_number result n ≡ gives_lease h t n event.now.what }
{
    match &event.what {
        What::Asked(intent) if is_live(tables, intent.n, t) => Some(intent.n),
        What::Confirmed { n, .. } if is_noticed(tables, *n) => Some(*n),
        _ => None,
    }
}

/// The leases that are live at `t`, and those whose notices are owed, by the events that asked for and confirmed them.
pub(crate) fn first_kept(
    alloc: Global,
    tables: &Tables,
    log: &Sweep<Event>,
    t: u64,
) -> Result<BTreeSet<u64>, NoMemory>
    requires in_time { t < 2 ^ 48 }
    ensures stands { (h : List Event) (since : ℕ) → StandsFor h since tables.now → Legal h → since ≤ t →
        IfOk result (λ s. (n : ℕ) → contains nat_cmp s n ≡ list_any (λ e. gives_lease h t n e.what) (members log.now)) }
{
    let mut leases = BTreeSet::new(alloc);
    add_given(&mut leases, tables, log.looked(), t)?;
    add_given(&mut leases, tables, log.left(), t)?;
    Ok(leases)
}

/// Adds the leases that these events tell of, live at `t` or with an owed notice.
fn add_given(
    leases: &mut BTreeSet<u64>,
    tables: &Tables,
    events: &[Event],
    t: u64,
) -> Result<(), NoMemory>
    requires in_time { t < 2 ^ 48 }
    ensures { OnOk result ((h : List Event) (since : ℕ) → StandsFor h since tables.now → Legal h → since ≤ t →
        (n : ℕ) → contains nat_cmp leases.new n ≡ (contains nat_cmp leases.old n || list_any (λ e. gives_lease h t n e.what) events.now)) }
{
    for event in events {
        add(leases, given_by(tables, event, t))?;
    }
    Ok(())
}

// ---- leases that were replaced

/// Whether a pair ended because its lease was replaced, where that is known. It takes no memory.
pub fn is_handed_on(standing: Option<Standing>) -> bool
    ensures { result ≡ is_handed_on standing }
{
    matches!(standing, Some(Standing::Ended(Cause::Replaced)))
}

/// Whether a pair of this lease and a kept version, which has a room, ended because the lease was replaced.
fn hands_on(fates: &Fates, tries: &Tries, versions: &BTreeSet<u64>, lease: u64) -> bool
    ensures { result ≡ hands_on (contains nat_cmp versions.now) fates.now tries.now lease }
{
    let mut from = 0;
    while let Some(ver) = tries.next_version(lease, from) {
        if ver >= NUMBER_LIMIT {
            return false;
        }
        if versions.contains(&ver) && is_handed_on(fates.get(ver, lease)) {
            return true;
        }
        from = ver + 1;
    }
    false
}

/// Whether a lease has a number that leases may have, and a pair of it and a kept version went over.
fn goes_on(fates: &Fates, tries: &Tries, versions: &BTreeSet<u64>, lease: u64) -> bool
    ensures { result ≡ goes_on_in (contains nat_cmp versions.now) fates.now tries.now lease }
{
    lease < NUMBER_LIMIT && hands_on(fates, tries, versions, lease)
}

/// Adds the lease that a kept one replaced, where a pair of a kept version went over.
fn add_replaced(
    leases: &mut BTreeSet<u64>,
    fates: &Fates,
    tries: &Tries,
    versions: &BTreeSet<u64>,
    renewal: &Renewal,
) -> Result<(), NoMemory>
    ensures { OnOk result ((n : ℕ) → contains nat_cmp leases.new n ≡
        (contains nat_cmp leases.old n || ((contains nat_cmp leases.old renewal.now.lease && goes_on_in (contains nat_cmp versions.now) fates.now tries.now renewal.now.replaced.n) && (renewal.now.replaced.n == n)))) }
{
    let old = renewal.replaced.n;
    if leases.contains(&renewal.lease) && goes_on(fates, tries, versions, old) {
        leases.insert(old)?;
    }
    Ok(())
}

/// Adds to these leases, with each lease, the one that it replaced, where a pair of a kept version went over:
/// from the newest of these renewals to the oldest.
fn add_all_replaced(
    leases: &mut BTreeSet<u64>,
    fates: &Fates,
    tries: &Tries,
    versions: &BTreeSet<u64>,
    renewals: &[Renewal],
) -> Result<(), NoMemory>
    ensures { OnOk result ((n : ℕ) → contains nat_cmp leases.new n ≡ member n (with_old_ones (goes_on_in (contains nat_cmp versions.now) fates.now tries.now) leases.old.keys renewals.now)) }
{
    for at in (0..renewals.len()).rev() {
        add_replaced(leases, fates, tries, versions, &renewals[at])?;
    }
    Ok(())
}

/// These leases, and with each lease the one that it replaced, where a pair of a kept version went over. A
/// replaced lease is older than its successor, so one pass from the newest renewal to the oldest finds all.
pub(crate) fn with_replaced(
    fates: &Fates,
    tries: &Tries,
    renewals: &Sweep<Renewal>,
    versions: &BTreeSet<u64>,
    first: BTreeSet<u64>,
) -> Result<BTreeSet<u64>, NoMemory>
    ensures { IfOk result (λ s. (n : ℕ) → contains nat_cmp s n ≡ member n (with_old_ones (goes_on_in (contains nat_cmp versions.now) fates.now tries.now) first.keys (members renewals.now))) }
{
    let mut leases = first;
    add_all_replaced(&mut leases, fates, tries, versions, renewals.left())?;
    add_all_replaced(&mut leases, fates, tries, versions, renewals.looked())?;
    Ok(leases)
}
