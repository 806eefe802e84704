// What the tables answer whatever the time is, beside what the plain program computes from the events.

use crate::moment::agrees_at;
use crate::tables::{TIME_LIMIT, Tables};
use check_histories::{TOPICS, is_first};
use std::alloc::Global;
use ws_model::{Event, Intent, Mode, NoMemory, Version, What};

/// Whether the tables answer as the definitions do, at each of these seconds after a time that isn't before
/// the last event. What doesn't go by the time is asked for once.
pub fn agree_later(
    alloc: Global,
    tables: &Tables,
    events: &[Event],
    now: u64,
    later: &[u64],
) -> Result<bool, NoMemory> {
    if !agrees_whenever(alloc, tables, events, now)? {
        return Ok(false);
    }
    for seconds in later {
        if !agrees_at(alloc, tables, events, now.saturating_add(*seconds))? {
            return Ok(false);
        }
    }
    Ok(true)
}

fn agrees_whenever(
    alloc: Global,
    tables: &Tables,
    events: &[Event],
    now: u64,
) -> Result<bool, NoMemory> {
    Ok(
        intents_agree(alloc, tables, events)?
            && notices_agree(alloc, tables, events)?
            && versions_agree(tables, events)
            && bodies_agree(tables, events)
            && counts_agree(alloc, tables, events, now)?,
    )
}

fn intents_agree(alloc: Global, tables: &Tables, events: &[Event]) -> Result<bool, NoMemory> {
    let pending = ws_plain::pending(alloc, events)?;
    let on = pending
        .iter()
        .filter(|intent| intent.mode == Mode::On)
        .count();
    if tables.intents.subscriptions() != on as u64
        || tables.intents.last() != pending.first().map(|intent| intent.n)
    {
        return Ok(false);
    }
    for intent in &pending {
        if !waits(tables, &pending, intent) {
            return Ok(false);
        }
    }
    Ok(true)
}

fn waits(tables: &Tables, pending: &[Intent], intent: &Intent) -> bool {
    match tables.intents.waiting(intent.n) {
        Some(waiting) => {
            waiting.intent == *intent
                && tables.intents.is_first(intent.n) == is_first(pending, intent)
        }
        None => false,
    }
}

fn notices_agree(alloc: Global, tables: &Tables, events: &[Event]) -> Result<bool, NoMemory> {
    let notices = ws_plain::notices(alloc, events)?;
    for intent in &notices {
        match tables.intents.notice(intent.n) {
            Some(denial) => {
                if denial.intent != *intent {
                    return Ok(false);
                }
            }
            None => return Ok(false),
        }
    }
    Ok(true)
}

// The account at one time; what it says of leases and pairs at others is in what is compared then.
fn counts_agree(
    alloc: Global,
    tables: &Tables,
    events: &[Event],
    t: u64,
) -> Result<bool, NoMemory> {
    if t >= TIME_LIMIT {
        return Ok(false);
    }
    let account = ws_plain::account(alloc, events, t)?;
    Ok(
        tables.intents.pending() == account.pending
            && tables.intents.notices() == account.notices
            && tables.leases.count(t) == account.leases
            && tables.topics.topics() == account.topics
            && tables.topics.fetches() == account.fetches
            && tables.deliveries.owed(t) == account.owed,
    )
}

fn latest_of<'a>(events: &'a [Event], topic: &[u8]) -> Option<&'a Version> {
    for event in events.iter().rev() {
        if let What::Fetched(version) = &event.what {
            if version.topic.as_slice() == topic {
                return Some(version);
            }
        }
    }
    None
}

fn versions_agree(tables: &Tables, events: &[Event]) -> bool {
    for topic in &TOPICS {
        if !latest_agrees(
            tables,
            latest_of(events, topic.as_bytes()),
            topic.as_bytes(),
        ) {
            return false;
        }
    }
    true
}

fn latest_agrees(tables: &Tables, latest: Option<&Version>, topic: &[u8]) -> bool {
    match (latest, tables.topics.latest(topic)) {
        (Some(version), Some(ver)) => match tables.topics.version(ver) {
            Some(kept) => kept == version,
            None => false,
        },
        (None, None) => true,
        _ => false,
    }
}

// The bodies of the versions that weren't forgotten.
fn bodies_agree(tables: &Tables, events: &[Event]) -> bool {
    let mut bytes = 0u64;
    for ver in 1..=number_fetched(events) {
        if let Some(version) = tables.topics.version(ver) {
            bytes = bytes.saturating_add(version.body.as_slice().len() as u64);
        }
    }
    tables.topics.bodies() == bytes
}

/// How many versions were fetched. They count from 1, as intents do.
pub fn number_fetched(events: &[Event]) -> u64 {
    let fetched = events
        .iter()
        .filter(|event| matches!(&event.what, What::Fetched(_)));
    fetched.count() as u64
}
