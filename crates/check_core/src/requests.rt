// What requests and an operator's word make of the core, beside what they make of the history.

use crate::applied::TIME_LIMIT;
use check_histories::{CALLBACKS, CB, CC, History, TOPICS, X, Y, asked, bytes, pinged};
use std::alloc::Global;
use ws_core::Core;
use ws_form::Ask;
use ws_model::{Alg, Keys, Lease, NoMemory, Policy, What};

/// A topic that no event names.
const Z: &str = "http://pub.example/z";

/// The settings of a hub that allows topics with one prefix, or all topics where it is empty.
pub fn policy(alloc: Global, prefix: &str) -> Result<Policy, NoMemory> {
    let mut allow = Keys::empty(alloc);
    if !prefix.is_empty() {
        allow.push(bytes(alloc, prefix)?)?;
    }
    Ok(Policy {
        hub: bytes(alloc, "http://127.0.0.1:8080/")?,
        gateway: false,
        allow,
        alg: Alg::Sha256,
    })
}

/// A request to subscribe for 300 seconds, without a secret.
pub fn subscription(alloc: Global) -> Result<Ask, NoMemory> {
    Ok(Ask::Subscribe {
        topic: bytes(alloc, X)?,
        echo: bytes(alloc, X)?,
        callback: bytes(alloc, CB)?,
        secret: bytes(alloc, "")?,
        granted: 300,
    })
}

/// A request to unsubscribe.
pub fn unsubscription(alloc: Global) -> Result<Ask, NoMemory> {
    Ok(Ask::Unsubscribe {
        topic: bytes(alloc, X)?,
        echo: bytes(alloc, X)?,
        callback: bytes(alloc, CC)?,
    })
}

fn publication(alloc: Global) -> Result<Ask, NoMemory> {
    let mut topics = Keys::empty(alloc);
    for topic in [Y, Z, X, Y, X] {
        topics.push(bytes(alloc, topic)?)?;
    }
    Ok(Ask::Publish { topics })
}

/// Whether requests and revocations make of the core what they make of the history.
pub fn requests_agree(alloc: Global, core: &Core, history: &History) -> Result<bool, NoMemory> {
    let t = history.t;
    let live = ws_plain::live(alloc, &history.events, t)?;
    let n = history.intents.saturating_add(1);
    Ok(
        subscription_agrees(alloc, core, n, t)?
            && unsubscription_agrees(alloc, core, n, t)?
            && publication_agrees(alloc, core, &live, t)?
            && revocations_agree(alloc, core, &live, t)?,
    )
}

// Whether a request makes just these events.
fn makes(core: &Core, t: u64, ask: &Ask, policy: &Policy, wanted: &[What]) -> bool {
    if t >= TIME_LIMIT {
        return false;
    }
    match core.judge(t, ask, policy) {
        Ok(made) => made.as_slice() == wanted,
        Err(_) => false,
    }
}

fn subscription_agrees(alloc: Global, core: &Core, n: u64, t: u64) -> Result<bool, NoMemory> {
    let ask = subscription(alloc)?;
    let mut wanted = Vec::new(alloc);
    wanted.push(asked(alloc, n, X, CB, 300)?)?;
    let free = makes(core, t, &ask, &policy(alloc, "")?, &wanted)
        && makes(core, t, &ask, &policy(alloc, X)?, &wanted);
    let reason = bytes(alloc, "topic not allowed")?;
    wanted.push(What::Barred { n, reason })?;
    Ok(free && makes(core, t, &ask, &policy(alloc, Z)?, &wanted))
}

fn unsubscription_agrees(alloc: Global, core: &Core, n: u64, t: u64) -> Result<bool, NoMemory> {
    let mut wanted = Vec::new(alloc);
    wanted.push(asked(alloc, n, X, CC, 0)?)?;
    let ask = unsubscription(alloc)?;
    Ok(makes(core, t, &ask, &policy(alloc, Z)?, &wanted))
}

// A publication pings each topic that has a live lease, once, in order of first mention.
fn publication_agrees(
    alloc: Global,
    core: &Core,
    live: &[Lease],
    t: u64,
) -> Result<bool, NoMemory> {
    let mut wanted = Vec::new(alloc);
    for topic in [Y, X] {
        if live
            .iter()
            .any(|lease| lease.intent.topic.as_slice() == topic.as_bytes())
        {
            wanted.push(pinged(alloc, topic)?)?;
        }
    }
    let ask = publication(alloc)?;
    Ok(makes(core, t, &ask, &policy(alloc, Z)?, &wanted))
}

fn revocations_agree(alloc: Global, core: &Core, live: &[Lease], t: u64) -> Result<bool, NoMemory> {
    for callback in CALLBACKS {
        if !revocation_agrees(alloc, core, live, t, TOPICS[0], callback)?
            || !revocation_agrees(alloc, core, live, t, TOPICS[1], callback)?
        {
            return Ok(false);
        }
    }
    Ok(true)
}

// Only the live lease of the topic and the callback is revoked.
fn revocation_agrees(
    alloc: Global,
    core: &Core,
    live: &[Lease],
    t: u64,
    topic: &str,
    callback: &str,
) -> Result<bool, NoMemory> {
    if t >= TIME_LIMIT {
        return Ok(false);
    }
    let topic = bytes(alloc, topic)?;
    let callback = bytes(alloc, callback)?;
    let lease = live.iter().find(|lease| lease.intent.topic == topic
        && lease.intent.callback == callback);
    match (lease, core.revocation(t, &topic, &callback)?) {
        (Some(lease), Some(What::Revoked { n, reason })) => {
            Ok(n == lease.intent.n && reason.as_slice() == b"subscription revoked".as_slice())
        }
        (None, None) => Ok(true),
        _ => Ok(false),
    }
}
