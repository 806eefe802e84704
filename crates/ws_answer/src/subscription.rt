// Requests to subscribe and to unsubscribe.
ghost use Rattle.std.specs.Prelude.{◌≡◌, ◌≤◌, ◌<◌, ◌^◌, ◌∷◌, [], ◌==◌, ℕ, suc, List, IfErr, IfOk, codes};
ghost use Rattle.std.specs.List.{list_any, starts_with};
ghost use Rattle.ws_model.specs.declared.event.What.TheVariants.{Asked, Barred};
ghost use Rattle.ws_model.specs.declared.event.Event.{Event};
ghost use Rattle.ws_model.specs.Answer.{is_disallowed, subscription_events, within_leases, within_numbers, within_pending};
ghost use Rattle.ws_model.specs.Legal.{Legal};
ghost use Rattle.ws_model.specs.Moment.{intent_number};
ghost use Rattle.ws_core_tables.specs.Stands.{StandsFor};
ghost use Rattle.ws_answer.specs.declared.fault.CoreFault.TheVariants.{NoMemory as Wanting};
ghost use Rattle.ws_answer.specs.Judged.{Answers};
ghost use Rattle.ws_answer.specs.Wishes.{events_of, intent_of};

use crate::CoreFault;
use crate::rooms::{lease_room, next_intent, pending_room, serial_room};
use std::alloc::Global;
use ws_core_tables::Tables;
use ws_model::{Alg, Bytes, Intent, Key, Keys, Mode, NoMemory, What};

/// What the notice of a denial says.
const NOT_ALLOWED: &[u8] = b"topic not allowed";

fn has_prefix(allow: &Keys, topic: &[u8]) -> bool
    ensures { result ≡ list_any (λ prefix. starts_with (◌==◌) topic.now prefix) allow.now }
{
    allow
        .as_slice()
        .iter()
        .any(|prefix| topic.starts_with(prefix.as_slice()))
}

/// Whether prefixes are allowed by setting, and none of them begins the topic.
pub(crate) fn is_disallowed(allow: &Keys, topic: &[u8]) -> bool
    ensures { result ≡ is_disallowed allow.now topic.now }
{
    !allow.as_slice().is_empty() && !has_prefix(allow, topic)
}

/// A request to subscribe or to unsubscribe, without a number. `granted` is in seconds.
#[derive(Clone, Copy)]
pub(crate) struct Wish<'a> {
    pub(crate) mode: Mode,
    pub(crate) topic: &'a Key,
    pub(crate) echo: &'a Bytes,
    pub(crate) callback: &'a Key,
    pub(crate) secret: &'a [u8],
    pub(crate) granted: u32,
    pub(crate) alg: Alg,
}

/// The intent of a wish, under a number.
fn intent(alloc: Global, n: u64, wish: &Wish<'_>) -> Result<Intent, NoMemory>
    ensures { IfOk result (λ i. i ≡ intent_of n wish.now) }
{
    Ok(Intent {
        n,
        mode: wish.mode,
        topic: Bytes::copy(alloc, wish.topic.as_slice())?,
        echo: Bytes::copy(alloc, wish.echo.as_slice())?,
        callback: Bytes::copy(alloc, wish.callback.as_slice())?,
        secret: Bytes::copy(alloc, wish.secret)?,
        granted: wish.granted,
        alg: wish.alg,
    })
}

/// The request alone.
fn asked(alloc: Global, intent: Intent) -> Result<Vec<What>, CoreFault>
    ensures events { IfOk result (λ v. v.items ≡ Asked intent ∷ []) }
    ensures memory { IfErr result (λ e. e ≡ Wanting) }
{
    let mut events = Vec::new(alloc);
    events.push(What::Asked(intent))?;
    Ok(events)
}

/// The request, and its denial.
fn denied(alloc: Global, intent: Intent) -> Result<Vec<What>, CoreFault>
    ensures events { IfOk result (λ v. v.items ≡ Asked intent ∷ Barred intent.n (codes "topic not allowed") ∷ []) }
    ensures memory { IfErr result (λ e. e ≡ Wanting) }
{
    let n = intent.n;
    let reason = Bytes::copy(alloc, NOT_ALLOWED)?;
    let mut events = asked(alloc, intent)?;
    events.push(What::Barred { n, reason })?;
    Ok(events)
}

/// What a request makes, with its denial or without, where serials and numbers are left.
fn numbered(
    alloc: Global,
    tables: &Tables,
    wish: &Wish<'_>,
    is_denied: bool,
) -> Result<Vec<What>, CoreFault>
    ensures stands { (h : List Event) (since : ℕ) → StandsFor h since tables.now → Legal h → Answers (within_numbers h (events_of is_denied (intent_of (suc (intent_number h)) wish.now))) result }
{
    serial_room(tables, 1 + u64::from(is_denied))?;
    let intent = intent(alloc, next_intent(tables)?, wish)?;
    if is_denied {
        denied(alloc, intent)
    } else {
        asked(alloc, intent)
    }
}

/// What a request to subscribe makes.
pub(crate) fn subscribe(
    alloc: Global,
    tables: &Tables,
    t: u64,
    allow: &Keys,
    wish: &Wish<'_>,
) -> Result<Vec<What>, CoreFault>
    requires in_time { t < 2 ^ 48 }
    ensures stands { (h : List Event) (since : ℕ) → StandsFor h since tables.now → Legal h → since ≤ t →
        Answers (within_pending h (within_leases h t (within_numbers h (subscription_events allow.now (intent_of (suc (intent_number h)) wish.now))))) result }
{
    pending_room(tables)?;
    lease_room(tables, t)?;
    numbered(
        alloc,
        tables,
        wish,
        is_disallowed(allow, wish.topic.as_slice()),
    )
}

/// What a request to unsubscribe makes.
pub(crate) fn unsubscribe(
    alloc: Global,
    tables: &Tables,
    wish: &Wish<'_>,
) -> Result<Vec<What>, CoreFault>
    ensures stands { (h : List Event) (since : ℕ) → StandsFor h since tables.now → Legal h →
        Answers (within_pending h (within_numbers h (Asked (intent_of (suc (intent_number h)) wish.now) ∷ []))) result }
{
    pending_room(tables)?;
    numbered(alloc, tables, wish, false)
}
