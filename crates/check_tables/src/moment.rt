// What the tables answer at a moment, beside what the plain program computes from the events.

use crate::compared::number_fetched;
use crate::due::due_agrees;
use crate::tables::{TIME_LIMIT, Tables};
use check_histories::TOPICS;
use std::alloc::Global;
use ws_model::{Event, Fate, Lease, NoMemory, What};
use ws_plain::PairFate;

/// Whether the tables answer at `t` as the definitions do. The plain program is slow, and is asked once
/// for all leases, once for all pairs and once for all work.
pub fn agrees_at(
    alloc: Global,
    tables: &Tables,
    events: &[Event],
    t: u64,
) -> Result<bool, NoMemory> {
    if t >= TIME_LIMIT {
        return Ok(false);
    }
    let live = ws_plain::live(alloc, events, t)?;
    let fates = ws_plain::all_fates(alloc, events, t)?;
    Ok(
        leases_agree(tables, events, &live, t)
            && fates_agree(tables, events, &fates, t)
            && owed_agree(alloc, tables, events, &fates, t)?
            && due_agrees(alloc, tables, events, t)?,
    )
}

fn leases_agree(tables: &Tables, events: &[Event], live: &[Lease], t: u64) -> bool {
    t < TIME_LIMIT
        && tables.leases.count(t) == live.len() as u64
        && TOPICS
            .iter()
            .all(|topic| topic_agrees(tables, live, topic.as_bytes(), t))
        && live.iter().all(|lease| lease_agrees(tables, lease, t))
        && are_live(tables, events, live, t)
}

fn are_live(tables: &Tables, events: &[Event], live: &[Lease], t: u64) -> bool {
    for n in 1..=number_asked(events) {
        if t >= TIME_LIMIT || tables.leases.live(n, t) != is_among(live, n) {
            return false;
        }
    }
    true
}

fn is_among(leases: &[Lease], n: u64) -> bool {
    leases.iter().any(|lease| lease.intent.n == n)
}

fn lease_agrees(tables: &Tables, lease: &Lease, t: u64) -> bool {
    if t >= TIME_LIMIT {
        return false;
    }
    let topic = lease.intent.topic.as_slice();
    let callback = lease.intent.callback.as_slice();
    let same = match tables.leases.get(lease.intent.n, t) {
        Some(held) => held == lease,
        None => false,
    };
    same && tables.leases.holds(lease.intent.n)
        && tables.leases.find(topic, callback, t) == Some(lease.intent.n)
}

// The live leases of a topic are all there, rising.
fn topic_agrees(tables: &Tables, live: &[Lease], topic: &[u8], t: u64) -> bool {
    if t >= TIME_LIMIT {
        return false;
    }
    let mut left = live
        .iter()
        .filter(|lease| lease.intent.topic.as_slice() == topic)
        .count();
    let mut last = 0;
    for n in tables.leases.live_of_topic(topic, t) {
        if left == 0 || n <= last || !is_among(live, n) {
            return false;
        }
        left -= 1;
        last = n;
    }
    left == 0
}

fn fates_agree(tables: &Tables, events: &[Event], fates: &[PairFate], t: u64) -> bool {
    for lease in 1..=number_asked(events) {
        if !lease_fates_agree(tables, events, fates, lease, t)
            || !open_versions_agree(tables, fates, lease)
        {
            return false;
        }
    }
    true
}

fn lease_fates_agree(
    tables: &Tables,
    events: &[Event],
    fates: &[PairFate],
    lease: u64,
    t: u64,
) -> bool {
    for ver in 1..=number_fetched(events) {
        if !is_alike(
            fate_of(fates, ver, lease),
            tables.deliveries.fate(ver, lease, t),
        ) {
            return false;
        }
    }
    true
}

fn fate_of(fates: &[PairFate], ver: u64, lease: u64) -> Option<Fate> {
    let pair = fates
        .iter()
        .find(|pair| pair.ver == ver && pair.lease == lease)?;
    Some(pair.fate)
}

// What is owed is open with the same tries, and what is open and not owed has expired.
fn is_alike(plain: Option<Fate>, open: Option<Fate>) -> bool {
    match (plain, open) {
        (Some(Fate::Owed { .. }), _) => plain == open,
        (_, Some(Fate::Owed { .. })) => false,
        _ => true,
    }
}

// The open versions of a lease rise, each is of a pair, and those that are owed are all among them.
fn open_versions_agree(tables: &Tables, fates: &[PairFate], lease: u64) -> bool {
    let mut owed = fates
        .iter()
        .filter(|pair| pair.lease == lease && is_owed(pair))
        .count();
    let mut last = 0;
    for ver in tables.deliveries.open_of(lease) {
        let Some(fate) = fate_of(fates, ver, lease) else {
            return false;
        };
        if ver <= last {
            return false;
        }
        if matches!(fate, Fate::Owed { .. }) {
            owed = owed.saturating_sub(1);
        }
        last = ver;
    }
    owed == 0
}

fn is_owed(pair: &PairFate) -> bool {
    matches!(pair.fate, Fate::Owed { .. })
}

// How many pairs are owed and of which versions, which are all held.
fn owed_agree(
    alloc: Global,
    tables: &Tables,
    events: &[Event],
    fates: &[PairFate],
    t: u64,
) -> Result<bool, NoMemory> {
    let owed = fates.iter().filter(|pair| is_owed(pair)).count();
    let versions = tables.deliveries.owed_versions(alloc, t)?;
    for ver in 1..=number_fetched(events) {
        let wanted = fates.iter().any(|pair| pair.ver == ver && is_owed(pair));
        if versions.contains(&ver) != wanted || (wanted && tables.topics.version(ver).is_none()) {
            return Ok(false);
        }
    }
    Ok(tables.deliveries.owed(t) == owed as u64)
}

fn number_asked(events: &[Event]) -> u64 {
    let asked = events
        .iter()
        .filter(|event| matches!(&event.what, What::Asked(_)));
    asked.count() as u64
}
