// The log, the renewals and the rooms are gone over little by little, and what no compaction would keep any
// more is taken out, so that none grows far beyond what is kept. It takes no memory.
ghost use Rattle.std.specs.Prelude.{◌≡◌, ℕ, List, false, reverse, true};
ghost use Rattle.ws_model.specs.declared.event.Event.{Event};
ghost use Rattle.ws_model.specs.Keep.{kept_leases, member};
ghost use Rattle.ws_model.specs.Legal.{Legal};
ghost use Rattle.ws_model.specs.Verdict.{is_kept_version};
ghost use Rattle.ws_kept.specs.Stands.{is_needed, renewals};
ghost use Rattle.ws_ledger.specs.Stands.{StandsFor as LedgerStands};
ghost use Rattle.ws_sweep.specs.Rows.{members};
ghost use Rattle.ws_core.specs.Passing.{StayGone};
ghost use Rattle.ws_core.specs.Stands.{StandsFor};
ghost use Rattle.ws_core.specs.Sweeping.{AreHeld, IsAmong, LeavesLeases, StayRenewed, StaysLogged};

use crate::Core;
use crate::giving_back::{is_over, is_past, is_without_heirs};
use crate::round::look_at_rooms;
use ws_kept::Renewal;
use ws_ledger::Ledger;
use ws_model::{Event, What};
use ws_sift::{is_awaited, is_denied, is_kept_miss, is_kept_ping, is_pending};
use ws_sweep::Sweep;
use ws_tries::Tries;

// ---- what no compaction keeps

/// Whether no compaction from `t` on, in seconds, keeps a lease, as far as it can be told.
fn is_free_lease(ledger: &Ledger, tries: &Tries, lease: u64, t: u64) -> bool
    ensures { result ≡ true → (h : List Event) → AreHeld h t ledger.now tries.now → member lease (kept_leases h t) ≡ false }
{
    is_without_heirs(ledger, tries, lease, t)
}

/// Whether no compaction from `t` on, in seconds, keeps the lease that a renewal replaced, as far as it can be
/// told: of its own pairs, or because none keeps the lease that came in its place.
fn is_free_renewal(ledger: &Ledger, tries: &Tries, renewal: &Renewal, t: u64) -> bool
    ensures { result ≡ true → (h : List Event) → AreHeld h t ledger.now tries.now → IsAmong renewal.now (reverse (renewals h)) → member renewal.now.replaced.n (kept_leases h t) ≡ false }
{
    let old = renewal.replaced.n;
    if is_free_lease(ledger, tries, old, t) {
        return true;
    }
    is_over(ledger.tables(), old, t) && is_free_lease(ledger, tries, renewal.lease, t)
}

/// Whether no compaction keeps a version, as far as it can be told.
fn is_free_version(ledger: &Ledger, ver: u64) -> bool
    ensures { result ≡ true → (h : List Event) (t : ℕ) → LedgerStands h t ledger.now → Legal h → is_kept_version h t ver ≡ false }
{
    is_past(ledger, ver)
}

/// Whether no compaction from `t` on, in seconds, keeps an event of the log, as far as it can be told. A
/// Tally stays, for it tells what earlier compactions forgot.
fn is_free(ledger: &Ledger, tries: &Tries, event: &Event, t: u64) -> bool
    ensures { result ≡ true → (h : List Event) → AreHeld h t ledger.now tries.now → is_needed h t event.now ≡ false }
{
    let tables = ledger.tables();
    match &event.what {
        What::Asked(intent) => {
            !is_awaited(tables, intent.n) && is_free_lease(ledger, tries, intent.n, t)
        }
        What::Confirmed { n, .. } | What::Revoked { n, .. } => is_free_lease(ledger, tries, *n, t),
        What::Unheard { n } => !is_pending(tables, *n),
        What::Barred { n, .. } | What::Noticed { n, .. } => !is_denied(tables, *n),
        What::Pinged { topic } => !is_kept_ping(tables, event, topic.as_slice()),
        What::Fetched(version) => is_free_version(ledger, version.ver),
        What::Unfetched { topic, .. } => !is_kept_miss(tables, event, topic.as_slice()),
        What::Declined { .. } | What::Same { .. } => true,
        What::Pushed { .. } | What::Tally(_) => false,
    }
}

// ---- a look at each

/// Looks at the next event of the log, and takes it out where no compaction keeps it.
fn look_at_log(ledger: &Ledger, tries: &Tries, log: &mut Sweep<Event>, t: u64)
    ensures { StaysLogged t ledger.now tries.now (members log.old) (members log.new) }
{
    match log.next() {
        None => log.begin_again(),
        Some(event) if is_free(ledger, tries, event, t) => log.take_next(),
        Some(_) => log.keep_next(),
    }
}

/// Looks at the next renewal, and takes it out where no compaction keeps the lease that was replaced, with the
/// rooms of that lease.
fn look_at_renewals(ledger: &Ledger, tries: &mut Tries, renewals: &mut Sweep<Renewal>, t: u64)
    ensures renewals { StayRenewed t ledger.now tries.old (members renewals.old) (members renewals.new) }
    ensures leaves { LeavesLeases t ledger.now (members renewals.old) tries.old tries.new }
    ensures none { StayGone tries.old tries.new }
{
    match renewals.next() {
        None => renewals.begin_again(),
        Some(renewal) if is_free_renewal(ledger, tries, renewal, t) => {
            tries.give_back_lease(renewal.replaced.n);
            renewals.take_next();
        }
        Some(_) => renewals.keep_next(),
    }
}

impl Core {
    /// Looks at two events of the log, at two renewals and at two rooms for each event that was added, and takes
    /// those out that no compaction from `t` on, in seconds, keeps: two, so that a round over the log is over
    /// before as many came as it found.
    pub(crate) fn sweep(&mut self, t: u64, added: usize)
        ensures stands { (h : List Event) → StandsFor h t self.old → Legal h → StandsFor h t self.new }
        ensures ledger { self.new.ledger ≡ self.old.ledger }
        ensures none { StayGone self.old.tries self.new.tries }
    {
        for _ in 0..added {
            look_at_log(&self.ledger, &self.tries, &mut self.log, t);
            look_at_log(&self.ledger, &self.tries, &mut self.log, t);
            look_at_renewals(&self.ledger, &mut self.tries, &mut self.renewals, t);
            look_at_renewals(&self.ledger, &mut self.tries, &mut self.renewals, t);
            look_at_rooms(&self.ledger, &mut self.tries, &mut self.round, t);
            look_at_rooms(&self.ledger, &mut self.tries, &mut self.round, t);
        }
    }
}
