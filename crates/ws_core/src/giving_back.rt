// Rooms that are given back: those of versions and of leases that no compaction would keep. It takes no
// memory.
ghost use Rattle.std.specs.Prelude.{◌≡◌, ◌==◌, ◌<◌, ◌≤◌, ◌^◌, ℕ, List, None, Some, false, true, is_some};
ghost use Rattle.ws_model.specs.declared.event.Event.{Event};
ghost use Rattle.ws_model.specs.declared.event.What.TheVariants.{Confirmed};
ghost use Rattle.ws_model.specs.Intents.{notices};
ghost use Rattle.ws_model.specs.Keep.{is_among};
ghost use Rattle.ws_model.specs.Leases.{live};
ghost use Rattle.ws_model.specs.Legal.{Legal, pending_of};
ghost use Rattle.ws_model.specs.Moment.{time};
ghost use Rattle.ws_model.specs.Versions.{latest_of};
ghost use Rattle.ws_compaction.specs.Least.{has_number};
ghost use Rattle.ws_tries.specs.Rows.{tries_at};
ghost use Rattle.ws_tries.specs.Stands.{is_any_push};
ghost use Rattle.ws_core_tables.specs.Stands.{StandsFor as TablesStand};
ghost use Rattle.ws_ledger.specs.Stands.{CanFollow, StandsFor as LedgerStands};
ghost use Rattle.ws_core.specs.declared.giving_back.Touched.TheVariants.{Lease};
ghost use Rattle.ws_core.specs.GivenBack.{GivesBack, GivesBackPairs, HasHeir, former, is_handed_on, is_meant, is_over, of_lease, touched_by_confirmation, touched_by_push, touched_of};
ghost use Rattle.ws_core.specs.Past.{IsPast};

use ws_core_tables::Tables;
use ws_fate::{Fates, Standing};
use ws_kept::is_latest;
use ws_ledger::Ledger;
use ws_model::{Cause, Event, How, What};
use ws_tries::Tries;

/// The number of a version or a lease is below it.
const NUMBER_LIMIT: u64 = 9_223_372_036_854_775_808;

/// What an event touches, so that rooms may go: a version, or a lease.
#[derive(Clone, Copy)]
pub(crate) enum Touched {
    Nothing,
    Version(u64),
    Lease(u64),
}

// ---- what is touched

/// What a push touches that ended: its version, and with a 410 its lease.
pub(crate) fn touched_by_push(ver: u64, lease: u64, how: How) -> Touched
    ensures { result ≡ touched_by_push ver lease how }
{
    match how {
        How::Done | How::Missed(_) => Touched::Version(ver),
        How::Gone => Touched::Lease(lease),
    }
}

/// What any other event touches which may come next, asked before it is applied: a new version touches
/// that which is the latest of its topic; a revocation and a settled notice touch their lease, and a
/// confirmation that which it ends.
pub(crate) fn touched_by(ledger: &Ledger, event: &Event) -> Touched
    requires other { is_any_push event.now.what ≡ false }
    requires follows { CanFollow ledger.now event.now }
    ensures stands { (h : List Event) (since : ℕ) → LedgerStands h since ledger.now → Legal h → since ≤ event.now.t → result ≡ touched_of h event.now.t event.now.what }
{
    match &event.what {
        What::Fetched(version) => former(ledger.tables(), version.topic.as_slice()),
        What::Confirmed { n, sent } => touched_by_confirmation(ledger, event, *n, *sent),
        What::Revoked { n, .. } => Touched::Lease(*n),
        What::Noticed { n, .. } => Touched::Lease(*n),
        _ => Touched::Nothing,
    }
}

/// What a confirmation touches: the live lease of its topic and callback, which it ends or replaces.
fn touched_by_confirmation(ledger: &Ledger, event: &Event, n: u64, _sent: u64) -> Touched
    requires kind { event.now.what ≡ Confirmed n _sent }
    requires follows { CanFollow ledger.now event.now }
    ensures stands { (h : List Event) (since : ℕ) → LedgerStands h since ledger.now → Legal h → since ≤ event.now.t → result ≡ touched_by_confirmation h event.now.t (pending_of h n) }
{
    of_lease(ledger.tables().lease_of_pending(n, event.t))
}

fn of_lease(lease: Option<u64>) -> Touched
    ensures { result ≡ of_lease lease }
{
    match lease {
        Some(lease) => Touched::Lease(lease),
        None => Touched::Nothing,
    }
}

/// The latest version of a topic.
fn former(tables: &Tables, topic: &[u8]) -> Touched
    ensures stands { (h : List Event) (since : ℕ) → TablesStand h since tables.now → result ≡ former (latest_of topic.now h) }
{
    match tables.latest_version(topic) {
        Some(version) => Touched::Version(version.ver),
        None => Touched::Nothing,
    }
}

// ---- versions

/// Takes the rooms of the touched version away, or of those versions of the touched lease whose pairs with
/// it have rooms, where no compaction would keep the version any more.
pub(crate) fn give_back(ledger: &Ledger, tries: &mut Tries, touched: Touched)
    ensures { GivesBack (is_meant touched tries.old) ledger.now tries.old tries.new }
{
    match touched {
        Touched::Nothing => {}
        Touched::Version(ver) => give_back_version(ledger, tries, ver),
        Touched::Lease(lease) => give_back_each(ledger, tries, lease),
    }
}

/// Takes the rooms of a version away, where no compaction would keep it.
fn give_back_version(ledger: &Ledger, tries: &mut Tries, ver: u64)
    ensures gives { GivesBack (λ v. ver == v) ledger.now tries.old tries.new }
    ensures others { (v n : ℕ) → (ver == v) ≡ false → tries_at v n tries.new ≡ tries_at v n tries.old }
{
    if is_past(ledger, ver) {
        tries.give_back_version(ver);
    }
}

/// Whether no compaction would keep a version: no pair of it stands open, and it isn't the latest of its
/// topic.
pub(crate) fn is_past(ledger: &Ledger, ver: u64) -> bool
    ensures past { result ≡ true → (h : List Event) (since : ℕ) → LedgerStands h since ledger.now → Legal h → IsPast h ledger.now.fates ver }
    ensures kept { result ≡ false → (h : List Event) (since : ℕ) → LedgerStands h since ledger.now → Legal h → IsPast h ledger.now.fates ver → ⊥ }
    ensures low { result ≡ true → ver < 2 ^ 63 }
{
    if ver >= NUMBER_LIMIT {
        return false;
    }
    let fates = ledger.fates();
    // That each pair is found by its numbers is known from how many there are.
    let _ = fates.count();
    if fates.open_of(ver) > 0 {
        return false;
    }
    !is_latest(ledger.tables(), ver)
}

/// Takes the rooms of those versions away whose pairs with the lease have rooms, where no compaction would
/// keep the version.
fn give_back_each(ledger: &Ledger, tries: &mut Tries, lease: u64)
    ensures { GivesBack (λ v. is_some (tries_at v lease tries.old)) ledger.now tries.old tries.new }
{
    let mut from = 0;
    while let Some(ver) = tries.next_version(lease, from) {
        if ver >= NUMBER_LIMIT {
            return;
        }
        give_back_version(ledger, tries, ver);
        from = ver + 1;
    }
}

// ---- leases

/// Takes the rooms of all pairs of the touched lease away, where no compaction at `t`, in seconds, would keep
/// it: `t` is the time of the event, which was applied.
pub(crate) fn give_back_pairs(ledger: &Ledger, tries: &mut Tries, touched: Touched, t: u64)
    ensures { GivesBackPairs touched t ledger.now tries.old tries.new }
{
    match touched {
        Touched::Nothing | Touched::Version(_) => {}
        Touched::Lease(lease) => give_back_lease(ledger, tries, lease, t),
    }
}

/// Takes the rooms of all pairs of a lease away, where no compaction at `t` would keep it.
fn give_back_lease(ledger: &Ledger, tries: &mut Tries, lease: u64, t: u64)
    ensures { GivesBackPairs (Lease lease) t ledger.now tries.old tries.new }
{
    if is_without_heirs(ledger, tries, lease, t) {
        tries.give_back_lease(lease);
    }
}

/// Whether a lease is over, and none of its pairs that have rooms went over to a lease that replaced it.
pub(crate) fn is_without_heirs(ledger: &Ledger, tries: &Tries, lease: u64, t: u64) -> bool
    ensures over { result ≡ true → (h : List Event) (since : ℕ) → LedgerStands h since ledger.now → Legal h → since ≤ t → is_over h t lease ≡ true }
    ensures none { result ≡ true → HasHeir tries.now ledger.now.fates lease → ⊥ }
    ensures heir { result ≡ false → (h : List Event) (since : ℕ) → LedgerStands h since ledger.now → Legal h → since ≤ t → is_over h t lease ≡ true → HasHeir tries.now ledger.now.fates lease }
{
    if !is_over(ledger.tables(), lease, t) {
        return false;
    }
    !went_over(ledger.fates(), tries, lease)
}

/// Whether a lease isn't live at `t`, and no notice of it is owed. Where `t` isn't the greatest time so far it
/// isn't known, and the answer is no: so it is while a log is read again that a compaction has shortened.
pub(crate) fn is_over(tables: &Tables, lease: u64, t: u64) -> bool
    ensures stands { (h : List Event) (since : ℕ) → TablesStand h since tables.now → Legal h → since ≤ t → result ≡ is_over h t lease }
{
    if tables.time() != t {
        return false;
    }
    if is_live(tables, lease) {
        return false;
    }
    !is_noticed(tables, lease)
}

/// Whether a lease is live at the greatest time so far.
fn is_live(tables: &Tables, lease: u64) -> bool
    ensures stands { (h : List Event) (since : ℕ) → TablesStand h since tables.now → Legal h → since ≤ time h → result ≡ has_number lease (live h (time h)) }
{
    match tables.leased_intent(lease) {
        Some(_) => true,
        None => false,
    }
}

/// Whether a notice of a number is owed.
fn is_noticed(tables: &Tables, lease: u64) -> bool
    ensures stands { (h : List Event) (since : ℕ) → TablesStand h since tables.now → result ≡ is_among (notices h) lease }
{
    match tables.denied_intent(lease) {
        Some(_) => true,
        None => false,
    }
}

/// Whether a pair of a lease that has a room ended because the lease was replaced.
fn went_over(fates: &Fates, tries: &Tries, lease: u64) -> bool
    ensures heir { result ≡ true → HasHeir tries.now fates.now lease }
    ensures none { result ≡ false → HasHeir tries.now fates.now lease → ⊥ }
{
    let mut from = 0;
    while let Some(ver) = tries.next_version(lease, from) {
        if ver >= NUMBER_LIMIT {
            return false;
        }
        if is_handed_on(fates.get(ver, lease)) {
            return true;
        }
        from = ver + 1;
    }
    false
}

/// Whether a pair ended because its lease was replaced.
fn is_handed_on(standing: Option<Standing>) -> bool
    ensures { result ≡ is_handed_on standing }
{
    matches!(standing, Some(Standing::Ended(Cause::Replaced)))
}
