// What a request makes.
ghost use Rattle.std.specs.Prelude.{◌≡◌, ◌≤◌, ◌<◌, ◌^◌, ℕ, List, IfOk};
ghost use Rattle.ws_model.specs.declared.event.Event.{Event};
ghost use Rattle.ws_model.specs.Legal.{Legal};
ghost use Rattle.ws_model.specs.Revocation.{revocation};
ghost use Rattle.ws_core_tables.specs.Stands.{StandsFor};
ghost use Rattle.ws_port.specs.Requests.{answer};
ghost use Rattle.ws_answer.specs.Judged.{Answers};

use crate::CoreFault;
use crate::pings::publish;
use crate::subscription::{Wish, subscribe, unsubscribe};
use std::alloc::Global;
use ws_core_tables::Tables;
use ws_form::Ask;
use ws_model::{Bytes, Key, Mode, NoMemory, Policy, What};

/// What the notice of a revocation says.
const REVOKED: &[u8] = b"subscription revoked";

/// The event that ends the lease of a topic and a callback that is live at `t`, or None where there is
/// none (WebSub, section 5.2, lets a hub deny a subscription at any point).
pub fn revocation(
    alloc: Global,
    tables: &Tables,
    t: u64,
    topic: &Key,
    callback: &Key,
) -> Result<Option<What>, NoMemory>
    requires in_time { t < 2 ^ 48 }
    ensures stands { (h : List Event) (since : ℕ) → StandsFor h since tables.now → Legal h → since ≤ t → IfOk result (λ o. o ≡ revocation h t topic.now callback.now) }
{
    let Some(n) = tables.live_lease(topic.as_slice(), callback.as_slice(), t) else {
        return Ok(None);
    };
    let reason = Bytes::copy(alloc, REVOKED)?;
    Ok(Some(What::Revoked { n, reason }))
}

/// What an ask makes at `t`, under a policy: its events in their order, oldest first.
///
/// A subscription or its end is asked for under the next number, and denied at once where its topic isn't
/// allowed (WebSub, sections 5.1 and 5.2). A publication pings each named topic that has a live lease, once, in
/// order of first mention.
///
/// # Errors
///
/// `Full` by the first that holds: 65,536 intents are pending; live leases and pending subscriptions are
/// 262,144; no serial or no number of an intent below 2^63 is left. `NoMemory`.
pub fn judge(
    alloc: Global,
    tables: &Tables,
    t: u64,
    ask: &Ask,
    policy: &Policy,
) -> Result<Vec<What>, CoreFault>
    requires in_time { t < 2 ^ 48 }
    ensures stands { (h : List Event) (since : ℕ) → StandsFor h since tables.now → Legal h → since ≤ t → Answers (answer h t ask.now policy.now) result }
{
    match ask {
        Ask::Subscribe {
            topic,
            echo,
            callback,
            secret,
            granted,
        } => {
            let wish = Wish {
                mode: Mode::On,
                topic,
                echo,
                callback,
                secret: secret.as_slice(),
                granted: *granted,
                alg: policy.alg,
            };
            subscribe(alloc, tables, t, &policy.allow, &wish)
        }
        Ask::Unsubscribe {
            topic,
            echo,
            callback,
        } => {
            let wish = Wish {
                mode: Mode::Off,
                topic,
                echo,
                callback,
                secret: b"",
                granted: 0,
                alg: policy.alg,
            };
            unsubscribe(alloc, tables, &wish)
        }
        Ask::Publish { topics } => publish(alloc, tables, t, topics),
    }
}
