// Versions of topics (WebSub section 6), and the fetches that are owed.
ghost use Rattle.std.specs.Prelude.{◌≡◌, ◌≤◌, IfOk, bytes_eq, find, length};
ghost use Rattle.std.specs.Option.{option_copied};
ghost use Rattle.ws_model.specs.Versions.{is_owed_fetch, is_ping_at, is_version, latest, latest_of, missed_fetches, pings, versions, fetches};
ghost use Rattle.ws_plain.specs.Past.{past};

use crate::past::{in_front, newest};
use crate::ping::Ping;
use crate::sought::{Sought, has};
use std::alloc::Global;
use ws_model::{Event, NoMemory, Version, What};

/// The versions, the newest first.
pub(crate) fn versions(alloc: Global, events: &[Event]) -> Result<Vec<Version>, NoMemory>
    ensures { IfOk result (λ v. v.items ≡ versions (past events.now)) }
{
    let Some((event, earlier)) = newest(events) else {
        return Ok(Vec::new(alloc));
    };
    let versions = versions(alloc, earlier)?;
    match &event.what {
        What::Fetched(version) => in_front(version.copy(alloc)?, versions),
        _ => Ok(versions),
    }
}

fn latest_of<'a>(events: &'a [Event], topic: &[u8]) -> Option<&'a Version>
    ensures { option_copied result ≡ latest_of topic.now (past events.now) }
{
    let (event, earlier) = newest(events)?;
    match &event.what {
        What::Fetched(version) => {
            if version.topic.as_slice() == topic {
                Some(version)
            } else {
                latest_of(earlier, topic)
            }
        }
        _ => latest_of(earlier, topic),
    }
}

fn is_latest(events: &[Event], version: &Version) -> bool
    ensures { result ≡ is_version version.now.ver (latest_of version.now.topic (past events.now)) }
{
    match latest_of(events, version.topic.as_slice()) {
        None => false,
        Some(latest) => latest.ver == version.ver,
    }
}

/// The latest version of each topic, the newest first.
pub(crate) fn latest(alloc: Global, events: &[Event]) -> Result<Vec<Version>, NoMemory>
    ensures { IfOk result (λ v. v.items ≡ latest (past events.now)) }
{
    let mut versions = versions(alloc, events)?;
    versions.retain(|version| is_latest(events, version));
    Ok(versions)
}

/// The pings, the newest first.
pub(crate) fn pings(alloc: Global, events: &[Event]) -> Result<Vec<Ping>, NoMemory>
    ensures { IfOk result (λ v. v.items ≡ pings (past events.now)) }
{
    let Some((event, earlier)) = newest(events) else {
        return Ok(Vec::new(alloc));
    };
    let pings = pings(alloc, earlier)?;
    match &event.what {
        What::Pinged { topic } => in_front(
            Ping::new(alloc, topic.as_slice(), event.serial)?,
            pings,
        ),
        _ => Ok(pings),
    }
}

fn is_latest_ping(events: &[Event], topic: &[u8], serial: u64) -> bool
    ensures { result ≡ is_ping_at serial (find (λ q. bytes_eq q.topic topic.now) (pings (past events.now))) }
{
    let Some((event, earlier)) = newest(events) else {
        return false;
    };
    match &event.what {
        What::Pinged { topic: of } => {
            if of.as_slice() == topic {
                event.serial == serial
            } else {
                is_latest_ping(earlier, topic, serial)
            }
        }
        _ => is_latest_ping(earlier, topic, serial),
    }
}

fn missed_fetches(events: &[Event], topic: &[u8]) -> usize
    ensures missed { result ≡ missed_fetches topic.now (past events.now) }
    ensures most { result ≤ length events.now }
{
    let Some((event, earlier)) = newest(events) else {
        return 0;
    };
    if Sought::Ping(topic).is(&event.what) {
        return 0;
    }
    let missed = missed_fetches(earlier, topic);
    if Sought::Unfetched(topic).is(&event.what) {
        missed + 1
    } else {
        missed
    }
}

/// Whether the ping with this topic and serial is one whose fetch is owed.
pub(crate) fn is_owed_fetch(events: &[Event], topic: &[u8], serial: u64) -> bool
    ensures { result ≡ is_owed_fetch (past events.now) (record { topic = topic.now; serial = serial }) }
{
    is_latest_ping(events, topic, serial)
        && !has(events, &Sought::Answer(topic, serial))
        && missed_fetches(events, topic) < 3
}

/// The latest ping of each topic whose fetch is owed, the newest first.
pub(crate) fn fetches(alloc: Global, events: &[Event]) -> Result<Vec<Ping>, NoMemory>
    ensures { IfOk result (λ v. v.items ≡ fetches (past events.now)) }
{
    let mut pings = pings(alloc, events)?;
    pings.retain(|ping| ping.is_owed(events));
    Ok(pings)
}
