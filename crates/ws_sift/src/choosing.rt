// Which events are kept, by their kind.
ghost use Rattle.std.specs.Prelude.{◌≡◌, ◌&&◌, ◌||◌, ◌==◌, ℕ, List, bytes_eq, nat_lt};
ghost use Rattle.std.specs.List.{list_any};
ghost use Rattle.ws_model.specs.declared.event.Event.{Event};
ghost use Rattle.ws_model.specs.Intents.{notices, pending};
ghost use Rattle.ws_model.specs.Keep.{is_among, is_kept_miss, is_kept_ping, kept_leases, member};
ghost use Rattle.ws_core_tables.specs.Stands.{StandsFor};
ghost use Rattle.ws_sift.specs.Sifted.{ArePast, is_kept_other};

use ws_core_tables::Tables;
use ws_kept::Kept;
use ws_model::{Event, What};

/// Whether an intent is pending.
pub fn is_pending(tables: &Tables, n: u64) -> bool
    ensures { (h : List Event) (since : ℕ) → StandsFor h since tables.now → result ≡ is_among (pending h) n }
{
    tables.pending_intent(n).is_some()
}

/// Whether the notice of a number is owed.
pub fn is_denied(tables: &Tables, n: u64) -> bool
    ensures { (h : List Event) (since : ℕ) → StandsFor h since tables.now → result ≡ is_among (notices h) n }
{
    tables.denied_intent(n).is_some()
}

/// Whether an intent is pending, or its notice is owed.
pub fn is_awaited(tables: &Tables, n: u64) -> bool
    ensures { (h : List Event) (since : ℕ) → StandsFor h since tables.now → result ≡ (is_among (pending h) n || is_among (notices h) n) }
{
    is_pending(tables, n) || is_denied(tables, n)
}

fn is_kept_request(tables: &Tables, kept: &Kept, n: u64) -> bool
    ensures { (h : List Event) (since t : ℕ) → ArePast h since t tables.now kept.now → result ≡ (is_among (pending h) n || is_among (notices h) n || member n (kept_leases h t)) }
{
    is_awaited(tables, n) || kept.has_lease(n)
}

/// Whether a ping is the latest of a topic whose fetch is owed.
pub fn is_kept_ping(tables: &Tables, event: &Event, topic: &[u8]) -> bool
    ensures { (h : List Event) (since : ℕ) → StandsFor h since tables.now → result ≡ is_kept_ping h event.now topic.now }
{
    match tables.owed_fetch(topic) {
        Some(ping) => ping == event.serial,
        None => false,
    }
}

/// Whether a missed fetch came after the latest ping of a topic whose fetch is owed.
pub fn is_kept_miss(tables: &Tables, event: &Event, topic: &[u8]) -> bool
    ensures { (h : List Event) (since : ℕ) → StandsFor h since tables.now → result ≡ is_kept_miss h event.now topic.now }
{
    match tables.owed_fetch(topic) {
        Some(ping) => ping < event.serial,
        None => false,
    }
}

/// Whether a compaction keeps an event, and it is no push.
pub(crate) fn is_kept(tables: &Tables, kept: &Kept, event: &Event) -> bool
    ensures { (h : List Event) (since t : ℕ) → ArePast h since t tables.now kept.now → result ≡ is_kept_other h t event.now }
{
    match &event.what {
        What::Asked(intent) => is_kept_request(tables, kept, intent.n),
        What::Confirmed { n, .. } | What::Revoked { n, .. } => kept.has_lease(*n),
        What::Unheard { n } => is_pending(tables, *n),
        What::Barred { n, .. } | What::Noticed { n, .. } => is_denied(tables, *n),
        What::Pinged { topic } => is_kept_ping(tables, event, topic.as_slice()),
        What::Fetched(version) => kept.has_version(version.ver),
        What::Unfetched { topic, .. } => is_kept_miss(tables, event, topic.as_slice()),
        What::Declined { .. } | What::Same { .. } | What::Pushed { .. } | What::Tally(_) => false,
    }
}
