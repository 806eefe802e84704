// What a compaction keeps of a history.
ghost use Rattle.std.specs.Prelude.{◌≡◌, ◌+◌, ◌&&◌, IfOk, filter, length, min, not};
ghost use Rattle.ws_model.specs.Account.{most};
ghost use Rattle.ws_model.specs.Fate.{fate};
ghost use Rattle.ws_model.specs.Keep.{keep, tally};
ghost use Rattle.ws_plain.specs.Alike.{alike};
ghost use Rattle.ws_plain.specs.Kept.{found, is_miss_in, is_ping_in, keeps_by, keeps_pair};
ghost use Rattle.ws_plain.specs.Past.{past};
ghost use Rattle.ws_plain.specs.Told.{told};

use crate::copies::copy_event;
use crate::found::{Versions, first_kept, is_among, is_member, with_replaced};
use crate::intents::{notices, pending};
use crate::moments::{intent_number, serial, tally_in, version_number};
use crate::pair::Pair;
use crate::pairs::{owed, pairs};
use crate::past::in_front;
use crate::ping::Ping;
use crate::versions::{fetches, latest};
use std::alloc::Global;
use ws_model::{Cause, Event, Fate, Intent, NoMemory, Tally, What};

/// What a compaction goes by, found out once.
#[derive(Drop)]
pub(crate) struct Findings {
    pub(crate) pending: Vec<Intent>,
    pub(crate) notices: Vec<Intent>,
    pub(crate) fetches: Vec<Ping>,
    pub(crate) versions: Versions,
    pub(crate) leases: Vec<u64>,
}

fn find_out(alloc: Global, events: &[Event], t: u64) -> Result<Findings, NoMemory>
    ensures { IfOk result (λ f. told f ≡ found (past events.now) t) }
{
    let versions = Versions {
        latest: latest(alloc, events)?,
        owed: owed(alloc, events, t)?,
    };
    let first = first_kept(alloc, events, t)?;
    let leases = with_replaced(alloc, &versions, first, events)?;
    let pending = pending(alloc, events)?;
    let notices = notices(alloc, events)?;
    let fetches = fetches(alloc, events)?;
    Ok(Findings {
        pending,
        notices,
        fetches,
        versions,
        leases,
    })
}

fn is_kept_ping(pings: &[Ping], event: &Event, topic: &[u8]) -> bool
    ensures { result ≡ is_ping_in pings.now event.now topic.now }
{
    for ping in pings {
        if ping.topic() == topic && ping.serial() == event.serial {
            return true;
        }
    }
    false
}

fn is_kept_miss(pings: &[Ping], event: &Event, topic: &[u8]) -> bool
    ensures { result ≡ is_miss_in pings.now event.now topic.now }
{
    for ping in pings {
        if ping.topic() == topic && ping.serial() < event.serial {
            return true;
        }
    }
    false
}

// Whether an event is kept, by its kind.
fn keeps(findings: &Findings, event: &Event) -> bool
    ensures { result ≡ keeps_by (told findings.now) event.now event.now.what }
{
    match &event.what {
        What::Asked(intent) => {
            is_among(&findings.pending, intent.n)
                || is_among(&findings.notices, intent.n)
                || is_member(intent.n, &findings.leases)
        }
        What::Confirmed { n, .. } | What::Revoked { n, .. } => is_member(*n, &findings.leases),
        What::Unheard { n } => is_among(&findings.pending, *n),
        What::Barred { n, .. } | What::Noticed { n, .. } => is_among(&findings.notices, *n),
        What::Pinged { topic } => is_kept_ping(&findings.fetches, event, topic.as_slice()),
        What::Fetched(version) => findings.versions.has(version.ver),
        What::Unfetched { topic, .. } => is_kept_miss(&findings.fetches, event, topic.as_slice()),
        What::Pushed { ver, lease, .. } => {
            findings.versions.has(*ver) && is_member(*lease, &findings.leases)
        }
        What::Declined { .. } | What::Same { .. } | What::Tally(_) => false,
    }
}

fn kept_events(alloc: Global, findings: &Findings, events: &[Event]) -> Result<Vec<Event>, NoMemory>
    ensures { IfOk result (λ v. v.items ≡ filter (λ e. keeps_by (told findings.now) e e.what) events.now) }
{
    let mut kept = Vec::new(alloc);
    for event in events {
        if keeps(findings, event) {
            kept.push(copy_event(alloc, event)?)?;
        }
    }
    Ok(kept)
}

fn keeps_pair(findings: &Findings, pair: &Pair) -> bool
    ensures { result ≡ keeps_pair (told findings.now) pair.now }
{
    findings.versions.has(pair.version().ver) && is_member(pair.lease().intent.n, &findings.leases)
}

// How many of the pairs have a fate of the wanted kind and aren't kept.
fn left_out(events: &[Event], pairs: &[Pair], findings: &Findings, t: u64, wanted: Fate) -> usize
    ensures { result ≡ length (filter (λ p. alike wanted (fate (past events.now) p t) && not (keeps_pair (told findings.now) p)) pairs.now) }
{
    let mut count = 0;
    for pair in pairs {
        if pair.has_fate(events, t, wanted) && !keeps_pair(findings, pair) {
            count += 1;
        }
    }
    count
}

// With those that were forgotten before.
fn forgotten(
    events: &[Event],
    pairs: &[Pair],
    findings: &Findings,
    t: u64,
    wanted: Fate,
    tallied: u64,
) -> u64
    ensures { result ≡ min (tallied + length (filter (λ p. alike wanted (fate (past events.now) p t) && not (keeps_pair (told findings.now) p)) pairs.now)) most }
{
    tallied.saturating_add(left_out(events, pairs, findings, t, wanted) as u64)
}

// The head of the compacted history.
fn tally(alloc: Global, events: &[Event], findings: &Findings, t: u64) -> Result<Event, NoMemory>
    requires { told findings.now ≡ found (past events.now) t }
    ensures { IfOk result (λ e. e ≡ tally (past events.now) t) }
{
    let before = tally_in(events);
    let all = pairs(alloc, events)?;
    let pairs = all.as_slice();
    let expired = Fate::Ended(Cause::Expired);
    let unsubscribed = Fate::Ended(Cause::Unsubscribed);
    let replaced = Fate::Ended(Cause::Replaced);
    let gone = Fate::Ended(Cause::Gone);
    let spent = Fate::Ended(Cause::Spent);
    let revoked = Fate::Ended(Cause::Revoked);
    Ok(Event {
        serial: 0,
        t: 0,
        what: What::Tally(Tally {
            now: t,
            serial: serial(events),
            intent: intent_number(events),
            version: version_number(events),
            answered: forgotten(events, pairs, findings, t, Fate::Answered, before.answered),
            expired: forgotten(events, pairs, findings, t, expired, before.expired),
            unsubscribed: forgotten(
                events,
                pairs,
                findings,
                t,
                unsubscribed,
                before.unsubscribed,
            ),
            replaced: forgotten(events, pairs, findings, t, replaced, before.replaced),
            gone: forgotten(events, pairs, findings, t, gone, before.gone),
            spent: forgotten(events, pairs, findings, t, spent, before.spent),
            revoked: forgotten(events, pairs, findings, t, revoked, before.revoked),
        }),
    })
}

/// What a compaction at a time in seconds keeps of events, both oldest first: a Tally, and the kept
/// events. It fails only for want of memory.
pub fn keep(alloc: Global, events: &[Event], t: u64) -> Result<Vec<Event>, NoMemory>
    ensures { IfOk result (λ v. past v.items ≡ keep (past events.now) t) }
{
    let findings = find_out(alloc, events, t)?;
    let tally = tally(alloc, events, &findings, t)?;
    let kept = kept_events(alloc, &findings, events)?;
    let all = in_front(tally, kept)?;
    Ok(all)
}
