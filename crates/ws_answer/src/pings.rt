// Requests to publish.
ghost use Rattle.std.specs.Prelude.{◌≡◌, ◌≤◌, ◌<◌, ◌^◌, ◌++◌, ℕ, List, bytes_eq, filter, map, IfErr, IfOk, OnOk};
ghost use Rattle.std.specs.List.{list_any};
ghost use Rattle.ws_model.specs.declared.event.Event.{Event};
ghost use Rattle.ws_model.specs.declared.event.What.TheVariants.{Pinged};
ghost use Rattle.ws_model.specs.Answer.{first_mentions, has_live_lease, publish_answer};
ghost use Rattle.ws_model.specs.Legal.{Legal};
ghost use Rattle.ws_core_tables.specs.Stands.{StandsFor};
ghost use Rattle.ws_answer.specs.declared.fault.CoreFault.TheVariants.{NoMemory as Wanting};
ghost use Rattle.ws_answer.specs.Judged.{unless, Answers};

use crate::CoreFault;
use crate::rooms::serial_room;
use std::alloc::Global;
use ws_core_tables::Tables;
use ws_model::{Bytes, Key, Keys, What};

/// Whether a topic is among some.
fn is_among(topics: &[Key], topic: &Key) -> bool
    ensures { result ≡ list_any (λ y. bytes_eq y topic.now) topics.now }
{
    topics
        .iter()
        .any(|other| other.as_slice() == topic.as_slice())
}

/// Adds a ping of a topic that has a live lease, unless it is among the earlier ones.
fn mention(
    alloc: Global,
    tables: &Tables,
    t: u64,
    earlier: &[Key],
    topic: &Key,
    events: &mut Vec<What>,
) -> Result<(), CoreFault>
    requires in_time { t < 2 ^ 48 }
    ensures added { (h : List Event) (since : ℕ) → StandsFor h since tables.now → Legal h → since ≤ t →
        OnOk result (events.new.items ≡ events.old.items ++ map (λ topic. Pinged topic) (filter (has_live_lease h t) (unless (list_any (λ y. bytes_eq y topic.now) earlier.now) topic.now))) }
    ensures memory { IfErr result (λ e. e ≡ Wanting) }
{
    if !is_among(earlier, topic) && tables.has_live_lease(topic.as_slice(), t) {
        let topic = Bytes::copy(alloc, topic.as_slice())?;
        events.push(What::Pinged { topic })?;
    }
    Ok(())
}

/// A ping of each topic that has a live lease, once, in order of first mention.
pub(crate) fn pings(
    alloc: Global,
    tables: &Tables,
    t: u64,
    topics: &[Key],
) -> Result<Vec<What>, CoreFault>
    requires in_time { t < 2 ^ 48 }
    ensures pings { (h : List Event) (since : ℕ) → StandsFor h since tables.now → Legal h → since ≤ t →
        IfOk result (λ v. v.items ≡ map (λ topic. Pinged topic) (filter (has_live_lease h t) (first_mentions topics.now))) }
    ensures memory { IfErr result (λ e. e ≡ Wanting) }
{
    let mut events = Vec::new(alloc);
    for at in 0..topics.len() {
        mention(alloc, tables, t, &topics[..at], &topics[at], &mut events)?;
    }
    Ok(events)
}

/// What a request to publish makes.
pub(crate) fn publish(
    alloc: Global,
    tables: &Tables,
    t: u64,
    topics: &Keys,
) -> Result<Vec<What>, CoreFault>
    requires in_time { t < 2 ^ 48 }
    ensures stands { (h : List Event) (since : ℕ) → StandsFor h since tables.now → Legal h → since ≤ t → Answers (publish_answer h t topics.now) result }
{
    let events = pings(alloc, tables, t, topics.as_slice())?;
    serial_room(tables, events.len() as u64)?;
    Ok(events)
}
