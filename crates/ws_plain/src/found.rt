// What a compaction goes by.
ghost use Rattle.std.specs.Prelude.{◌≡◌, ◌==◌, ◌&&◌, ◌||◌, ◌++◌, IfOk, filter, map};
ghost use Rattle.std.specs.List.{list_any};
ghost use Rattle.ws_model.specs.Keep.{first_kept, is_among, member, numbers, replaced_by, with_replaced};
ghost use Rattle.ws_model.specs.Intents.{same_pair};
ghost use Rattle.ws_model.specs.Leases.{confirmed_intent, lease_of};
ghost use Rattle.ws_model.specs.Pairs.{owed};
ghost use Rattle.ws_plain.specs.Kept.{is_version_in};
ghost use Rattle.ws_plain.specs.Past.{past};

use crate::intents::{notices, same_pair};
use crate::leases::{lease_of, leases, live};
use crate::pair::Pair;
use crate::pairs::owed;
use crate::past::newest;
use std::alloc::Global;
use ws_model::{Event, Intent, Lease, NoMemory, Version};

/// The versions that are kept: the latest of each topic, and those of the owed pairs.
#[derive(Drop)]
pub(crate) struct Versions {
    pub(crate) latest: Vec<Version>,
    pub(crate) owed: Vec<Pair>,
}

fn is_latest_number(latest: &[Version], ver: u64) -> bool
    ensures { result ≡ list_any (λ w. w.ver == ver) latest.now }
{
    for version in latest {
        if version.ver == ver {
            return true;
        }
    }
    false
}

fn is_owed_number(owed: &[Pair], ver: u64) -> bool
    ensures { result ≡ list_any (λ p. p.version.ver == ver) owed.now }
{
    for pair in owed {
        if pair.version().ver == ver {
            return true;
        }
    }
    false
}

impl Versions {
    /// Whether the version of a number is kept.
    pub(crate) fn has(&self, ver: u64) -> bool
        ensures { result ≡ is_version_in self.now.latest.items self.now.owed.items ver }
    {
        is_latest_number(&self.latest, ver) || is_owed_number(&self.owed, ver)
    }
}

/// Whether the number is among these.
pub(crate) fn is_member(n: u64, numbers: &[u64]) -> bool
    ensures { result ≡ member n numbers.now }
{
    numbers.contains(&n)
}

/// Whether one of the intents has the number.
pub(crate) fn is_among(intents: &[Intent], n: u64) -> bool
    ensures { result ≡ is_among intents.now n }
{
    for intent in intents {
        if intent.n == n {
            return true;
        }
    }
    false
}

fn numbers(alloc: Global, leases: &[Lease]) -> Result<Vec<u64>, NoMemory>
    ensures { IfOk result (λ v. v.items ≡ numbers leases.now) }
{
    let mut numbers = Vec::new(alloc);
    for lease in leases {
        numbers.push(lease.intent.n)?;
    }
    Ok(numbers)
}

fn with_notice(alloc: Global, notices: &[Intent], leases: &[Lease]) -> Result<Vec<u64>, NoMemory>
    ensures { IfOk result (λ v. v.items ≡ numbers (filter (λ l. list_any (λ i. i.n == l.intent.n) notices.now) leases.now)) }
{
    let mut noticed = Vec::new(alloc);
    for lease in leases {
        if is_among(notices, lease.intent.n) {
            noticed.push(lease.intent.n)?;
        }
    }
    Ok(noticed)
}

/// The numbers of the live leases and of those with an owed notice.
pub(crate) fn first_kept(alloc: Global, events: &[Event], t: u64) -> Result<Vec<u64>, NoMemory>
    ensures { IfOk result (λ v. v.items ≡ first_kept (past events.now) t) }
{
    let live = live(alloc, events, t)?;
    let leases = leases(alloc, events)?;
    let notices = notices(alloc, events)?;
    let mut kept = numbers(alloc, &live)?;
    let mut noticed = with_notice(alloc, &notices, &leases)?;
    kept.append(&mut noticed)?;
    Ok(kept)
}

// The leases whose owed pairs of kept versions went over to this one.
fn went_over(
    alloc: Global,
    versions: &Versions,
    owed: &[Pair],
    lease: &Lease,
) -> Result<Vec<u64>, NoMemory>
    ensures { IfOk result (λ v. v.items ≡ map (λ p. p.lease.intent.n) (filter (λ p. is_version_in versions.now.latest.items versions.now.owed.items p.version.ver && same_pair lease.now.intent p.lease.intent) owed.now)) }
{
    let mut replaced = Vec::new(alloc);
    for pair in owed {
        if versions.has(pair.version().ver) && same_pair(&lease.intent, &pair.lease().intent) {
            replaced.push(pair.lease().intent.n)?;
        }
    }
    Ok(replaced)
}

// The numbers, with those that the lease of this event replaced, where it is kept.
fn more_kept(
    alloc: Global,
    versions: &Versions,
    earlier: &[Event],
    event: &Event,
    mut kept: Vec<u64>,
) -> Result<Vec<u64>, NoMemory>
    ensures { IfOk result (λ v. v.items ≡ replaced_by (is_version_in versions.now.latest.items versions.now.owed.items) kept.items (owed (past earlier.now) event.now.t) (lease_of event.now.what (confirmed_intent event.now.what (past earlier.now))) ++ kept.items) }
{
    match lease_of(alloc, earlier, &event.what)? {
        None => Ok(kept),
        Some(lease) => {
            if is_member(lease.intent.n, &kept) {
                let owed = owed(alloc, earlier, event.t)?;
                let mut all = went_over(alloc, versions, &owed, &lease)?;
                all.append(&mut kept)?;
                Ok(all)
            } else {
                Ok(kept)
            }
        }
    }
}

/// The numbers, and with each that of the lease that it replaced, where a pair of a kept version
/// went over.
pub(crate) fn with_replaced(
    alloc: Global,
    versions: &Versions,
    kept: Vec<u64>,
    events: &[Event],
) -> Result<Vec<u64>, NoMemory>
    ensures { IfOk result (λ v. v.items ≡ with_replaced (is_version_in versions.now.latest.items versions.now.owed.items) kept.items (past events.now)) }
{
    let Some((event, earlier)) = newest(events) else {
        return Ok(kept);
    };
    let kept = more_kept(alloc, versions, earlier, event, kept)?;
    with_replaced(alloc, versions, kept, earlier)
}
