// The work that is due at a moment, in its order.
ghost use Rattle.std.specs.Prelude.{◌≡◌, ◌++◌, ◌&&◌, IfOk, filter, map, nat_le, nat_lt, not};
ghost use Rattle.std.specs.List.{list_any};
ghost use Rattle.ws_model.specs.Due.{due, due_fetches, due_notices, due_pushes, due_verifications, is_behind, is_out, same_work};
ghost use Rattle.ws_model.specs.Fate.{next};
ghost use Rattle.ws_model.specs.Intents.{same_pair};
ghost use Rattle.ws_model.specs.declared.work.Work.TheVariants as work;
ghost use Rattle.ws_plain.specs.Past.{past};

use crate::intents::{is_first, notices, pending};
use crate::moments::serial;
use crate::order::in_order;
use crate::pair::Pair;
use crate::pairs::owed;
use crate::ping::Ping;
use crate::versions::fetches;
use std::alloc::Global;
use ws_model::{Bytes, Event, Intent, NoMemory, Work};

// The pending intents of which none of the same topic and callback has a lower number.
fn firsts(alloc: Global, pending: &[Intent]) -> Result<Vec<Intent>, NoMemory>
    ensures { IfOk result (λ v. v.items ≡ filter (λ i. not (list_any (λ j. nat_lt j.n i.n && same_pair i j) pending.now)) pending.now) }
{
    let mut firsts = Vec::new(alloc);
    for intent in pending {
        if is_first(pending, intent) {
            firsts.push(intent.copy(alloc)?)?;
        }
    }
    Ok(firsts)
}

fn verifications_of(alloc: Global, intents: &[Intent]) -> Result<Vec<Work>, NoMemory>
    ensures { IfOk result (λ v. v.items ≡ map (λ i. work.Verify i.n) intents.now) }
{
    let mut works = Vec::new(alloc);
    for intent in intents {
        works.push(Work::Verify { n: intent.n })?;
    }
    Ok(works)
}

fn due_verifications(alloc: Global, events: &[Event]) -> Result<Vec<Work>, NoMemory>
    ensures { IfOk result (λ v. v.items ≡ due_verifications (past events.now)) }
{
    let pending = pending(alloc, events)?;
    let firsts = firsts(alloc, &pending)?;
    let ordered = in_order(alloc, events, firsts)?;
    verifications_of(alloc, &ordered)
}

fn notices_of(alloc: Global, intents: &[Intent]) -> Result<Vec<Work>, NoMemory>
    ensures { IfOk result (λ v. v.items ≡ map (λ i. work.Notice i.n) intents.now) }
{
    let mut works = Vec::new(alloc);
    for intent in intents {
        works.push(Work::Notice { n: intent.n })?;
    }
    Ok(works)
}

fn due_notices(alloc: Global, events: &[Event]) -> Result<Vec<Work>, NoMemory>
    ensures { IfOk result (λ v. v.items ≡ due_notices (past events.now)) }
{
    let notices = notices(alloc, events)?;
    let ordered = in_order(alloc, events, notices)?;
    notices_of(alloc, &ordered)
}

fn fetches_of(alloc: Global, pings: &[Ping], upto: u64) -> Result<Vec<Work>, NoMemory>
    ensures { IfOk result (λ v. v.items ≡ map (λ p. work.Fetch p.topic upto) pings.now) }
{
    let mut works = Vec::new(alloc);
    for ping in pings {
        works.push(Work::Fetch {
            topic: Bytes::copy(alloc, ping.topic())?,
            upto,
        })?;
    }
    Ok(works)
}

fn due_fetches(alloc: Global, events: &[Event]) -> Result<Vec<Work>, NoMemory>
    ensures { IfOk result (λ v. v.items ≡ due_fetches (past events.now)) }
{
    let fetches = fetches(alloc, events)?;
    let ordered = in_order(alloc, events, fetches)?;
    fetches_of(alloc, &ordered, serial(events))
}

fn is_behind(owed: &[Pair], pair: &Pair) -> bool
    ensures { result ≡ is_behind owed.now pair.now }
{
    for other in owed {
        if other.lease().intent.n == pair.lease().intent.n
            && other.version().ver < pair.version().ver
        {
            return true;
        }
    }
    false
}

fn due_among(alloc: Global, events: &[Event], t: u64, owed: &[Pair]) -> Result<Vec<Pair>, NoMemory>
    ensures { IfOk result (λ v. v.items ≡ filter (λ p. nat_le (next (past events.now) p) t && not (is_behind owed.now p)) owed.now) }
{
    let mut due = Vec::new(alloc);
    for pair in owed {
        if pair.next(events) <= u128::from(t) && !is_behind(owed, pair) {
            due.push(pair.copy(alloc)?)?;
        }
    }
    Ok(due)
}

fn pushes_of(alloc: Global, pairs: &[Pair]) -> Result<Vec<Work>, NoMemory>
    ensures { IfOk result (λ v. v.items ≡ map (λ p. work.Push p.version.ver p.lease.intent.n) pairs.now) }
{
    let mut works = Vec::new(alloc);
    for pair in pairs {
        works.push(Work::Push {
            ver: pair.version().ver,
            lease: pair.lease().intent.n,
        })?;
    }
    Ok(works)
}

fn due_pushes(alloc: Global, events: &[Event], t: u64) -> Result<Vec<Work>, NoMemory>
    ensures { IfOk result (λ v. v.items ≡ due_pushes (past events.now) t) }
{
    let owed = owed(alloc, events, t)?;
    let due = due_among(alloc, events, t, &owed)?;
    let ordered = in_order(alloc, events, due)?;
    pushes_of(alloc, &ordered)
}

// A ticket for a fetch stands for its topic, whatever its `upto` is.
fn same_work(work: &Work, other: &Work) -> bool
    ensures { result ≡ same_work work.now other.now }
{
    match (work, other) {
        (Work::Verify { n }, Work::Verify { n: m }) => n == m,
        (Work::Notice { n }, Work::Notice { n: m }) => n == m,
        (Work::Fetch { topic, .. }, Work::Fetch { topic: of, .. }) => topic == of,
        (Work::Push { ver, lease }, Work::Push { ver: v, lease: n }) => ver == v && lease == n,
        _ => false,
    }
}

fn is_out(out: &[Work], work: &Work) -> bool
    ensures { result ≡ is_out out.now work.now }
{
    for other in out {
        if same_work(work, other) {
            return true;
        }
    }
    false
}

fn all_due(alloc: Global, events: &[Event], t: u64) -> Result<Vec<Work>, NoMemory>
    ensures { IfOk result (λ v. v.items ≡ due_verifications (past events.now) ++ due_notices (past events.now) ++ due_fetches (past events.now) ++ due_pushes (past events.now) t) }
{
    let mut works = due_verifications(alloc, events)?;
    let mut notices = due_notices(alloc, events)?;
    let mut fetches = due_fetches(alloc, events)?;
    let mut pushes = due_pushes(alloc, events, t)?;
    works.append(&mut notices)?;
    works.append(&mut fetches)?;
    works.append(&mut pushes)?;
    Ok(works)
}

/// The work that is due at a time in seconds, of events that are given oldest first, in its order and
/// without the work whose tickets are out. It fails only for want of memory.
pub fn due(alloc: Global, events: &[Event], t: u64, out: &[Work]) -> Result<Vec<Work>, NoMemory>
    ensures { IfOk result (λ v. v.items ≡ due (past events.now) t out.now) }
{
    let mut works = all_due(alloc, events, t)?;
    works.retain(|work| !is_out(out, work));
    Ok(works)
}
