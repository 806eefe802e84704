// The limits on a new version (own).
ghost use Rattle.std.specs.Prelude.{◌≡◌, ◌≤◌, ◌<◌, ◌^◌, ◌+◌, ◌∷◌, ℕ, List, IfOk, bytes_eq, filter, length, nat_lt};
ghost use Rattle.ws_model.specs.declared.event.Event.{Event};
ghost use Rattle.ws_model.specs.declared.event.Version.{Version};
ghost use Rattle.ws_model.specs.declared.event.What.TheVariants.{Fetched};
ghost use Rattle.ws_model.specs.Leases.{live};
ghost use Rattle.ws_model.specs.Legal.{Legal};
ghost use Rattle.ws_model.specs.Moment.{version_number};
ghost use Rattle.ws_model.specs.Pairs.{owed};
ghost use Rattle.ws_model.specs.Verdict.{fetched, kept_limit, owed_limit, passes_limits};
ghost use Rattle.ws_core_tables.specs.Besides.{kept_besides};
ghost use Rattle.ws_core_tables.specs.Stands.{StandsFor};

use ws_core_tables::Tables;
use ws_model::NoMemory;

/// The greatest number of bytes of kept bodies.
const KEPT_LIMIT: u64 = 268_435_456;

/// The greatest number of owed pairs.
const OWED_LIMIT: u64 = 1_000_000;

/// Whether too many pairs would be owed at `t` with a new version of the topic.
fn passes_owed(tables: &Tables, t: u64, topic: &[u8]) -> bool
    requires in_time { t < 2 ^ 48 }
    ensures stands { (h : List Event) (since : ℕ) → StandsFor h since tables.now → Legal h → since ≤ t →
        result ≡ nat_lt owed_limit (length (filter (λ l. bytes_eq l.intent.topic topic.now) (live h t)) + length (owed h t)) }
{
    let born = tables.live_of_topic(topic, t);
    born.saturating_add(tables.owed(t)) > OWED_LIMIT
}

/// Whether the kept bodies would have too many bytes at `t` with a new version of the topic, whose body
/// has so many.
fn passes_kept(tables: &Tables, t: u64, topic: &[u8], bytes: u64) -> Result<bool, NoMemory>
    ensures stands { (h : List Event) (since : ℕ) → StandsFor h since tables.now → Legal h → since ≤ t →
        IfOk result (λ b. b ≡ nat_lt kept_limit (bytes + kept_besides h t topic.now)) }
{
    // All held bodies have no fewer, so mostly nothing needs to be gone over.
    if tables.bodies().saturating_add(bytes) <= KEPT_LIMIT {
        return Ok(false);
    }
    let kept = tables.kept_besides(topic, t)?;
    Ok(kept.saturating_add(bytes) > KEPT_LIMIT)
}

/// Whether the history with a new version of the topic, whose body has so many bytes, would pass a limit
/// at `t`.
pub(crate) fn passes_limits(
    tables: &Tables,
    t: u64,
    topic: &[u8],
    bytes: u64,
) -> Result<bool, NoMemory>
    requires in_time { t < 2 ^ 48 }
    ensures stands { (h : List Event) (since : ℕ) (v : Version) → StandsFor h since tables.now → Legal h → since ≤ t →
        v.topic ≡ topic.now → length v.body ≡ bytes → version_number h < v.ver → IfOk result (λ b. b ≡ passes_limits (fetched h t (Fetched v) ∷ h) t) }
{
    if passes_owed(tables, t, topic) {
        return Ok(true);
    }
    passes_kept(tables, t, topic, bytes)
}
