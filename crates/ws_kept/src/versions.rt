// The versions that a compaction keeps: those that are owed, and the latest of each topic.
ghost use Rattle.std.specs.Prelude.{◌≡◌, ◌≤◌, ◌<◌, ◌^◌, ◌==◌, ◌||◌, ℕ, List, IfOk, OnOk};
ghost use Rattle.std.specs.BTreeSet.{contains};
ghost use Rattle.std.specs.List.{list_any};
ghost use Rattle.std.specs.Ordering.{nat_cmp};
ghost use Rattle.ws_model.specs.declared.event.Event.{Event};
ghost use Rattle.ws_model.specs.Legal.{Legal};
ghost use Rattle.ws_model.specs.Pairs.{owed};
ghost use Rattle.ws_model.specs.Verdict.{is_kept_version};
ghost use Rattle.ws_model.specs.Versions.{is_version, latest_of};
ghost use Rattle.ws_tries.specs.Stands.{HaveRooms};
ghost use Rattle.ws_sweep.specs.Rows.{members};
ghost use Rattle.ws_core_tables.specs.Stands.{StandsFor, is_number};
ghost use Rattle.ws_kept.specs.Finding.{gives_latest, is_latest, owes};

use crate::numbers::add;
use std::alloc::Global;
use std::collections::BTreeSet;
use ws_core_tables::Tables;
use ws_model::{Event, NoMemory, What};
use ws_sweep::Sweep;
use ws_tries::Tries;

/// The version of a pair, which has the numbers of its version and its lease, where it is owed at `t`.
fn owed_by(tables: &Tables, pair: &(u64, u64), t: u64) -> Option<u64>
    ensures stands { (h : List Event) (since : ℕ) → StandsFor h since tables.now → since ≤ t →
        (v : ℕ) → is_number result v ≡ owes h t v pair.now }
{
    if tables.is_owed(pair.0, pair.1, t) {
        Some(pair.0)
    } else {
        None
    }
}

/// The versions that are owed at `t` to some lease: each of their pairs has a room.
pub(crate) fn owed_versions(
    alloc: Global,
    tables: &Tables,
    tries: &Tries,
    t: u64,
) -> Result<BTreeSet<u64>, NoMemory>
    ensures stands { (h : List Event) (since : ℕ) → StandsFor h since tables.now → HaveRooms h t tries.now → Legal h → since ≤ t →
        IfOk result (λ s. (v : ℕ) → contains nat_cmp s v ≡ list_any (λ p. p.version.ver == v) (owed h t)) }
{
    let mut versions = BTreeSet::new(alloc);
    for (pair, _) in tries.rooms() {
        add(&mut versions, owed_by(tables, pair, t))?;
    }
    Ok(versions)
}

/// Whether the latest version of a topic has this number.
fn is_latest_of(tables: &Tables, topic: &[u8], ver: u64) -> bool
    ensures stands { (h : List Event) (since : ℕ) → StandsFor h since tables.now → result ≡ is_version ver (latest_of topic.now h) }
{
    match tables.latest_version(topic) {
        Some(version) => version.ver == ver,
        None => false,
    }
}

/// Whether a version is the latest of its topic. It takes no memory.
pub fn is_latest(tables: &Tables, ver: u64) -> bool
    ensures stands { (h : List Event) (since : ℕ) → StandsFor h since tables.now → Legal h → result ≡ is_latest h ver }
{
    match tables.version(ver) {
        Some(version) => is_latest_of(tables, version.topic.as_slice(), ver),
        None => false,
    }
}

/// Whether a pair of a version that has a room is owed at `t`.
fn has_owed(tables: &Tables, tries: &Tries, ver: u64, t: u64) -> bool
    requires low { ver < 2 ^ 63 }
    ensures stands { (h : List Event) (since : ℕ) → StandsFor h since tables.now → since ≤ t → result ≡ list_any (λ e. owes h t ver e.0) tries.now }
{
    for (pair, _) in tries.rooms_of(ver) {
        if tables.is_owed(pair.0, pair.1, t) {
            return true;
        }
    }
    false
}

/// Whether a compaction at `t`, in seconds, keeps a version: it is the latest of its topic, or owed to a lease. It
/// goes over the pairs of the version that have rooms, up to the first that is owed, and takes no memory.
pub fn is_kept(tables: &Tables, tries: &Tries, ver: u64, t: u64) -> bool
    requires low { ver < 2 ^ 63 }
    ensures stands { (h : List Event) (since : ℕ) → StandsFor h since tables.now → HaveRooms h t tries.now → Legal h → since ≤ t → result ≡ is_kept_version h t ver }
{
    is_latest(tables, ver) || has_owed(tables, tries, ver, t)
}

/// The version that an event fetched, where it is the latest of its topic.
fn latest_by(tables: &Tables, event: &Event) -> Option<u64>
    ensures stands { (h : List Event) (since : ℕ) → StandsFor h since tables.now → Legal h →
        (v : ℕ) → is_number result v ≡ gives_latest h v event.now.what }
{
    match &event.what {
        What::Fetched(version) if is_latest(tables, version.ver) => Some(version.ver),
        _ => None,
    }
}

/// These versions, and those that the events of the log fetched and that are the latest of their topics.
pub(crate) fn with_latest(
    tables: &Tables,
    log: &Sweep<Event>,
    first: BTreeSet<u64>,
) -> Result<BTreeSet<u64>, NoMemory>
    ensures stands { (h : List Event) (since : ℕ) → StandsFor h since tables.now → Legal h →
        IfOk result (λ s. (v : ℕ) → contains nat_cmp s v ≡ (contains nat_cmp first v || list_any (λ e. gives_latest h v e.what) (members log.now))) }
{
    let mut versions = first;
    add_latest(&mut versions, tables, log.looked())?;
    add_latest(&mut versions, tables, log.left())?;
    Ok(versions)
}

/// Adds the versions that these events fetched and that are the latest of their topics.
fn add_latest(
    versions: &mut BTreeSet<u64>,
    tables: &Tables,
    events: &[Event],
) -> Result<(), NoMemory>
    ensures { OnOk result ((h : List Event) (since : ℕ) → StandsFor h since tables.now → Legal h →
        (v : ℕ) → contains nat_cmp versions.new v ≡ (contains nat_cmp versions.old v || list_any (λ e. gives_latest h v e.what) events.now)) }
{
    for event in events {
        add(versions, latest_by(tables, event))?;
    }
    Ok(())
}
