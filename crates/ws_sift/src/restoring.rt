// Events of the log made whole again.
ghost use Rattle.std.specs.Prelude.{◌≡◌, ◌==◌, ◌≤◌, ◌<◌, ◌^◌, ℕ, List, IfOk, find, true};
ghost use Rattle.std.specs.BTreeMap.{get};
ghost use Rattle.std.specs.Option.{option_copied};
ghost use Rattle.std.specs.Ordering.{nat_cmp};
ghost use Rattle.ws_model.specs.declared.event.Event.{Event};
ghost use Rattle.ws_model.specs.Intents.{asked};
ghost use Rattle.ws_model.specs.Legal.{Legal};
ghost use Rattle.ws_core_tables.specs.Stands.{StandsFor};
ghost use Rattle.ws_kept.specs.Rows.{Rows as KeptRows};
ghost use Rattle.ws_kept.specs.Stands.{light_event};
ghost use Rattle.ws_sift.specs.Sifted.{ArePast, AreReplaced, IsFoundIn, intent_in, is_kept_number, is_kept_other, version_in};

use std::alloc::Global;
use std::collections::BTreeMap;
use ws_copies::copy_event;
use ws_core_tables::Tables;
use ws_model::{Event, Intent, NoMemory, Version, What};

// ---- versions

// The version that was fetched, of an event that is kept.
fn fetched_version<'a>(tables: &'a Tables, event: &Event) -> Option<&'a Version>
    ensures { (h : List Event) (since t : ℕ) (kept : KeptRows) (e : Event) → ArePast h since t tables.now kept → IsFoundIn h e → event.now ≡ light_event e → is_kept_other h t e ≡ true → option_copied result ≡ version_in e.what }
{
    match &event.what {
        What::Fetched(version) => tables.version(version.ver),
        _ => None,
    }
}

// ---- what was asked for

/// What was asked for under a number that is pending, whose notice is owed, or whose lease a compaction at
/// `t`, in seconds, keeps.
fn intent_of<'a>(
    tables: &'a Tables,
    replaced: &'a BTreeMap<u64, Intent>,
    n: u64,
    t: u64,
) -> Option<&'a Intent>
    requires in_time { t < 2 ^ 48 }
    ensures { (h : List Event) (since : ℕ) → StandsFor h since tables.now → Legal h → since ≤ t → AreReplaced h t (get nat_cmp replaced.now) → is_kept_number h t n ≡ true → option_copied result ≡ find (λ j. j.n == n) (asked h) }
{
    if let Some(intent) = tables.pending_intent(n) {
        return Some(intent);
    }
    if let Some(intent) = tables.denied_intent(n) {
        return Some(intent);
    }
    if let Some(intent) = tables.live_intent(n, t) {
        return Some(intent);
    }
    replaced.get(&n)
}

// What was asked for, of an event that is kept.
fn asked_intent<'a>(
    tables: &'a Tables,
    replaced: &'a BTreeMap<u64, Intent>,
    event: &Event,
    t: u64,
) -> Option<&'a Intent>
    requires in_time { t < 2 ^ 48 }
    ensures { (h : List Event) (since : ℕ) (kept : KeptRows) (e : Event) → ArePast h since t tables.now kept → AreReplaced h t (get nat_cmp replaced.now) → IsFoundIn h e → event.now ≡ light_event e → is_kept_other h t e ≡ true → option_copied result ≡ intent_in e.what }
{
    match &event.what {
        What::Asked(intent) => intent_of(tables, replaced, intent.n, t),
        _ => None,
    }
}

// ---- events

// The event, with this in its place.
fn with_what(event: &Event, what: What) -> Event
    ensures { result ≡ record { serial = event.now.serial; t = event.now.t; what = what } }
{
    Event {
        serial: event.serial,
        t: event.t,
        what,
    }
}

/// The event that a compaction at `t`, in seconds, keeps, of which the log has this one: with what was asked
/// for and with a fetched version's texts and body again.
pub(crate) fn restored(
    alloc: Global,
    tables: &Tables,
    replaced: &BTreeMap<u64, Intent>,
    event: &Event,
    t: u64,
) -> Result<Event, NoMemory>
    requires in_time { t < 2 ^ 48 }
    ensures { (h : List Event) (since : ℕ) (kept : KeptRows) (e : Event) → ArePast h since t tables.now kept → AreReplaced h t (get nat_cmp replaced.now) → IsFoundIn h e → event.now ≡ light_event e → is_kept_other h t e ≡ true → IfOk result (λ r. r ≡ e) }
{
    if let Some(version) = fetched_version(tables, event) {
        return Ok(with_what(event, What::Fetched(version.copy(alloc)?)));
    }
    if let Some(intent) = asked_intent(tables, replaced, event, t) {
        return Ok(with_what(event, What::Asked(intent.copy(alloc)?)));
    }
    copy_event(alloc, event)
}
