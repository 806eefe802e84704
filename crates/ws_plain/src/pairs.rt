// Which versions are owed to which leases (WebSub section 7).
ghost use Rattle.std.specs.Prelude.{◌≡◌, ◌==◌, ◌&&◌, [], ◌∷◌, IfOk, bytes_eq, filter, find, map};
ghost use Rattle.std.specs.Option.{option_map};
ghost use Rattle.ws_model.specs.Fate.{fate, is_owed};
ghost use Rattle.ws_model.specs.Verdict.{fate_of};
ghost use Rattle.ws_plain.specs.Capped.{capped};
ghost use Rattle.ws_model.specs.Leases.{confirmed_intent, live};
ghost use Rattle.ws_model.specs.Pairs.{births, carried, owed, pair, pairs};
ghost use Rattle.ws_plain.specs.Past.{past};

use crate::intents::same_pair;
use crate::leases::{copy_lease, lease_of, live};
use crate::pair::Pair;
use crate::past::newest;
use std::alloc::Global;
use ws_model::{Event, Fate, Lease, NoMemory, Version, What};

// A version is owed to each live lease of its topic.
fn fetched(alloc: Global, t: u64, version: &Version, live: &[Lease]) -> Result<Vec<Pair>, NoMemory>
    ensures { IfOk result (λ v. v.items ≡ map (λ l. pair t version.now l) (filter (λ l. bytes_eq l.intent.topic version.now.topic) live.now)) }
{
    let mut pairs = Vec::new(alloc);
    for lease in live {
        if lease.intent.topic == version.topic {
            pairs.push(Pair::new(version.copy(alloc)?, copy_lease(alloc, lease)?, t))?;
        }
    }
    Ok(pairs)
}

// What is owed to the old lease of the same topic and callback goes over to the new one.
fn carried(
    alloc: Global,
    earlier: &[Event],
    t: u64,
    pairs: &[Pair],
    lease: &Lease,
) -> Result<Vec<Pair>, NoMemory>
    ensures { IfOk result (λ v. v.items ≡ carried t (filter (λ p. is_owed (fate (past earlier.now) p t)) pairs.now) (lease.now ∷ [])) }
{
    let mut carried = Vec::new(alloc);
    for pair in pairs {
        if pair.is_owed(earlier, t) && same_pair(&lease.intent, &pair.lease().intent) {
            let version = pair.version().copy(alloc)?;
            carried.push(Pair::new(version, copy_lease(alloc, lease)?, t))?;
        }
    }
    Ok(carried)
}

// The pairs that an event adds to those of the events before it.
fn births(
    alloc: Global,
    earlier: &[Event],
    event: &Event,
    pairs: &[Pair],
) -> Result<Vec<Pair>, NoMemory>
    ensures { IfOk result (λ v. v.items ≡ births event.now.t event.now.what (confirmed_intent event.now.what (past earlier.now)) (live (past earlier.now) event.now.t) (filter (λ p. is_owed (fate (past earlier.now) p event.now.t)) pairs.now)) }
{
    match &event.what {
        What::Fetched(version) => {
            let live = live(alloc, earlier, event.t)?;
            fetched(alloc, event.t, version, &live)
        }
        What::Confirmed { .. } => match lease_of(alloc, earlier, &event.what)? {
            None => Ok(Vec::new(alloc)),
            Some(lease) => carried(alloc, earlier, event.t, pairs, &lease),
        },
        _ => Ok(Vec::new(alloc)),
    }
}

/// The pairs, the newest first.
pub(crate) fn pairs(alloc: Global, events: &[Event]) -> Result<Vec<Pair>, NoMemory>
    ensures { IfOk result (λ v. v.items ≡ pairs (past events.now)) }
{
    let Some((event, earlier)) = newest(events) else {
        return Ok(Vec::new(alloc));
    };
    let mut older = pairs(alloc, earlier)?;
    let mut pairs = births(alloc, earlier, event, &older)?;
    pairs.append(&mut older)?;
    Ok(pairs)
}

/// The pairs that are owed at a time in seconds, the newest first.
pub(crate) fn owed(alloc: Global, events: &[Event], t: u64) -> Result<Vec<Pair>, NoMemory>
    ensures { IfOk result (λ v. v.items ≡ owed (past events.now) t) }
{
    let mut pairs = pairs(alloc, events)?;
    pairs.retain(|pair| pair.is_owed(events, t));
    Ok(pairs)
}

/// The fate at a time in seconds of the pair of a version and a lease, by their numbers, where events
/// that are given oldest first have such a pair (WebSub section 7). A next try past 2^64 - 1 is given as
/// that number. It fails only for want of memory.
pub fn fate(
    alloc: Global,
    events: &[Event],
    ver: u64,
    lease: u64,
    t: u64,
) -> Result<Option<Fate>, NoMemory>
    ensures { IfOk result (λ f. f ≡ option_map capped (fate_of (past events.now) ver lease t)) }
{
    let pairs = pairs(alloc, events)?;
    Ok(fate_among(events, &pairs, ver, lease, t))
}

fn fate_among(events: &[Event], pairs: &[Pair], ver: u64, lease: u64, t: u64) -> Option<Fate>
    ensures { result ≡ option_map (λ p. capped (fate (past events.now) p t)) (find (λ p. (p.version.ver == ver) && (p.lease.intent.n == lease)) pairs.now) }
{
    for pair in pairs {
        if pair.version().ver == ver && pair.lease().intent.n == lease {
            return Some(pair.fate(events, t));
        }
    }
    None
}
