// What a pair of a version and a lease is at a moment (WebSub section 7).
ghost use Rattle.std.specs.Prelude.{◌≡◌};
ghost use Rattle.ws_model.specs.History.{newest_time, times};
ghost use Rattle.ws_model.specs.Fate.{fate, is_miss, is_push, next_by};
ghost use Rattle.ws_model.specs.Pairs.{pair};
ghost use Rattle.ws_model.specs.Account.{same_cause};
ghost use Rattle.ws_plain.specs.Alike.{alike};
ghost use Rattle.ws_plain.specs.Capped.{capped};
ghost use Rattle.ws_plain.specs.Past.{past};

use crate::leases::lease_end;
use crate::sought::{Sought, has, newest_time, times};
use ws_model::{Cause, Event, Fate, Lease, Version, delay};

// The number of misses at which a push is given up.
const LIMIT: usize = 8;

/// The time in seconds of a pair's next try, from the numbers of its version and lease and its birth.
#[tactic(auto, using(crate::proofs::Delays::next_after, crate::proofs::Delays::delay_past))]
pub(crate) fn next(events: &[Event], ver: u64, lease: u64, born: u64) -> u128
    ensures { result ≡ next_by (times (is_push is_miss ver lease) (past events.now)) born (newest_time (is_push is_miss ver lease) (past events.now)) }
{
    let missed = Sought::Missed(ver, lease);
    let tries = times(events, &missed);
    let last = u128::from(newest_time(events, &missed));
    match tries {
        0 => u128::from(born),
        1..=7 => last + u128::from(delay(tries as u8)),
        _ => last,
    }
}

/// The fate of a pair at a time in seconds.
pub(crate) fn fate(events: &[Event], version: &Version, lease: &Lease, born: u64, t: u64) -> Fate
    ensures { result ≡ capped (fate (past events.now) (pair born version.now lease.now) t) }
{
    let ver = version.ver;
    let n = lease.intent.n;
    if has(events, &Sought::Done(ver, n)) {
        return Fate::Answered;
    }
    let tries = times(events, &Sought::Missed(ver, n));
    if tries >= LIMIT {
        return Fate::Ended(Cause::Spent);
    }
    match lease_end(events, lease, t) {
        Some(cause) => Fate::Ended(cause),
        None => Fate::Owed {
            tries: tries as u8,
            next: next(events, ver, n, born).min(u128::from(u64::MAX)) as u64,
        },
    }
}

fn same_cause(a: Cause, b: Cause) -> bool
    ensures { result ≡ same_cause a b }
{
    match (a, b) {
        (Cause::Expired, Cause::Expired)
        | (Cause::Unsubscribed, Cause::Unsubscribed)
        | (Cause::Replaced, Cause::Replaced)
        | (Cause::Gone, Cause::Gone)
        | (Cause::Spent, Cause::Spent)
        | (Cause::Revoked, Cause::Revoked) => true,
        _ => false,
    }
}

/// Whether a fate is of the wanted kind: owed, answered, or ended by the same cause.
pub(crate) fn is_alike(wanted: Fate, fate: Fate) -> bool
    ensures { result ≡ alike wanted fate }
{
    match wanted {
        Fate::Answered => matches!(fate, Fate::Answered),
        Fate::Owed { .. } => matches!(fate, Fate::Owed { .. }),
        Fate::Ended(cause) => match fate {
            Fate::Ended(other) => same_cause(cause, other),
            _ => false,
        },
    }
}
