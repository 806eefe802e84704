// Leases, and how they end (WebSub section 5.3; a 410 section 7).
ghost use Rattle.std.specs.Prelude.{◌≡◌, cond, find, IfOk, None, ◌==◌, nat_le, nat_lt, not};
ghost use Rattle.std.specs.Option.{option_copied, option_to_list};
ghost use Rattle.ws_model.specs.History.{has};
ghost use Rattle.ws_model.specs.Intents.{asked};
ghost use Rattle.ws_model.specs.Leases.{confirmed_intent, end_by, end_by_intent, end_by_mode, end_by_push, expiry, first_end, is_confirmed, lease_by, lease_end, lease_of, leases, live};
ghost use Rattle.ws_plain.specs.Past.{past};

use crate::intents::same_pair;
use crate::past::{in_front, newest};
use crate::sought::{Sought, has};
use std::alloc::Global;
use ws_model::{Cause, Event, How, Intent, Lease, Mode, NoMemory, What};

/// The intent of a number, where it was asked for.
pub(crate) fn intent_of(events: &[Event], n: u64) -> Option<&Intent>
    ensures { option_copied result ≡ find (λ i. i.n == n) (asked (past events.now)) }
{
    let (event, earlier) = newest(events)?;
    match &event.what {
        What::Asked(intent) => {
            if intent.n == n {
                Some(intent)
            } else {
                intent_of(earlier, n)
            }
        }
        _ => intent_of(earlier, n),
    }
}

/// A copy of a lease.
pub(crate) fn copy_lease(alloc: Global, lease: &Lease) -> Result<Lease, NoMemory>
    ensures { IfOk result (λ l. l ≡ lease.now) }
{
    Ok(Lease {
        intent: lease.intent.copy(alloc)?,
        sent: lease.sent,
    })
}

fn lease_by(alloc: Global, sent: u64, intent: &Intent) -> Result<Option<Lease>, NoMemory>
    ensures { IfOk result (λ l. option_to_list l ≡ lease_by sent (Some intent.now)) }
{
    match intent.mode {
        Mode::Off => Ok(None),
        Mode::On => Ok(Some(Lease {
            intent: intent.copy(alloc)?,
            sent,
        })),
    }
}

/// The lease that an event makes after those before it.
pub(crate) fn lease_of(
    alloc: Global,
    earlier: &[Event],
    what: &What,
) -> Result<Option<Lease>, NoMemory>
    ensures { IfOk result (λ l. option_to_list l ≡ lease_of what.now (confirmed_intent what.now (past earlier.now))) }
{
    let What::Confirmed { n, sent } = what else {
        return Ok(None);
    };
    match intent_of(earlier, *n) {
        None => Ok(None),
        Some(intent) => lease_by(alloc, *sent, intent),
    }
}

/// The leases, the newest first.
pub(crate) fn leases(alloc: Global, events: &[Event]) -> Result<Vec<Lease>, NoMemory>
    ensures { IfOk result (λ v. v.items ≡ leases (past events.now)) }
{
    let Some((event, earlier)) = newest(events) else {
        return Ok(Vec::new(alloc));
    };
    let leases = leases(alloc, earlier)?;
    match lease_of(alloc, earlier, &event.what)? {
        None => Ok(leases),
        Some(lease) => in_front(lease, leases),
    }
}

fn end_by_mode(mode: Mode) -> Cause
    ensures { result ≡ end_by_mode mode }
{
    match mode {
        Mode::On => Cause::Replaced,
        Mode::Off => Cause::Unsubscribed,
    }
}

fn end_by_intent(earlier: &[Event], n: u64, lease: &Lease) -> Option<Cause>
    ensures { result ≡ end_by_intent (find (λ i. i.n == n) (asked (past earlier.now))) lease.now }
{
    let intent = intent_of(earlier, n)?;
    if same_pair(intent, &lease.intent) {
        Some(end_by_mode(intent.mode))
    } else {
        None
    }
}

fn end_by_push(n: u64, how: How, lease: &Lease) -> Option<Cause>
    ensures { result ≡ end_by_push n how lease.now }
{
    match how {
        How::Gone => (n == lease.intent.n).then_some(Cause::Gone),
        _ => None,
    }
}

fn end_by(earlier: &[Event], what: &What, lease: &Lease) -> Option<Cause>
    ensures { result ≡ end_by what.now (confirmed_intent what.now (past earlier.now)) lease.now }
{
    match what {
        What::Confirmed { n, .. } => end_by_intent(earlier, *n, lease),
        What::Pushed { lease: n, how, .. } => end_by_push(*n, *how, lease),
        What::Revoked { n, .. } => (*n == lease.intent.n).then_some(Cause::Revoked),
        _ => None,
    }
}

// An event ends a lease only after the lease's own confirmation.
fn end_at(earlier: &[Event], what: &What, lease: &Lease) -> Option<Cause>
    ensures { result ≡ cond (has (is_confirmed lease.now.intent.n) (past earlier.now)) (end_by what.now (confirmed_intent what.now (past earlier.now)) lease.now) None }
{
    if has(earlier, &Sought::Confirmed(lease.intent.n)) {
        end_by(earlier, what, lease)
    } else {
        None
    }
}

/// The first event after a lease's confirmation that ends it: its time in seconds, and the cause.
pub(crate) fn first_end(events: &[Event], lease: &Lease) -> Option<(u64, Cause)>
    ensures { result ≡ first_end (past events.now) lease.now }
{
    let (event, earlier) = newest(events)?;
    if let Some(end) = first_end(earlier, lease) {
        return Some(end);
    }
    let cause = end_at(earlier, &event.what, lease)?;
    Some((event.t, cause))
}

// Whether a lease has expired at a time in seconds.
fn is_expired(lease: &Lease, t: u64) -> bool
    ensures expired { result ≡ nat_le (expiry lease.now) t }
    ensures before { not result ≡ nat_lt t (expiry lease.now) }
{
    t >= lease.sent && t - lease.sent >= u64::from(lease.intent.granted)
}

/// The cause by which a lease has ended at a time in seconds, if it has.
pub(crate) fn lease_end(events: &[Event], lease: &Lease, t: u64) -> Option<Cause>
    ensures { result ≡ lease_end (past events.now) lease.now t }
{
    if let Some((at, cause)) = first_end(events, lease) {
        if !is_expired(lease, at) {
            return Some(cause);
        }
    }
    is_expired(lease, t).then_some(Cause::Expired)
}

/// The leases that are live at a time in seconds, of events that are given oldest first, the newest
/// lease first (WebSub section 5.3). It fails only for want of memory.
pub fn live(alloc: Global, events: &[Event], t: u64) -> Result<Vec<Lease>, NoMemory>
    ensures { IfOk result (λ v. v.items ≡ live (past events.now) t) }
{
    let mut leases = leases(alloc, events)?;
    leases.retain(|lease| lease_end(events, lease, t).is_none());
    Ok(leases)
}
