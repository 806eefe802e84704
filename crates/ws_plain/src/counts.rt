// What a history amounts to at a moment.
ghost use Rattle.std.specs.Prelude.{◌≡◌, ◌+◌, IfOk, filter, length, min};
ghost use Rattle.ws_model.specs.Account.{account, is_ended, most};
ghost use Rattle.ws_model.specs.Fate.{fate};
ghost use Rattle.ws_plain.specs.Alike.{alike};
ghost use Rattle.ws_plain.specs.Past.{past};

use crate::intents::{notices, pending};
use crate::leases::live;
use crate::moments::tally_in;
use crate::pair::Pair;
use crate::pairs::{owed, pairs};
use crate::versions::{fetches, latest};
use std::alloc::Global;
use ws_model::{Account, Cause, Event, Fate, NoMemory};

// How many of the pairs have a fate of the wanted kind.
fn fated(events: &[Event], pairs: &[Pair], t: u64, wanted: Fate) -> usize
    ensures { result ≡ length (filter (λ p. alike wanted (fate (past events.now) p t)) pairs.now) }
{
    let mut count = 0;
    for pair in pairs {
        if pair.has_fate(events, t, wanted) {
            count += 1;
        }
    }
    count
}

// With those that a Tally says were forgotten.
fn total(events: &[Event], pairs: &[Pair], t: u64, wanted: Fate, tallied: u64) -> u64
    ensures { result ≡ min (length (filter (λ p. alike wanted (fate (past events.now) p t)) pairs.now) + tallied) most }
{
    (fated(events, pairs, t, wanted) as u64).saturating_add(tallied)
}

fn ended(events: &[Event], pairs: &[Pair], t: u64, cause: Cause, tallied: u64) -> u64
    ensures { result ≡ min (length (filter (λ p. is_ended cause (fate (past events.now) p t)) pairs.now) + tallied) most }
{
    total(events, pairs, t, Fate::Ended(cause), tallied)
}

/// The account at a time in seconds, of events that are given oldest first, with the pairs that a Tally
/// says were forgotten. It fails only for want of memory.
pub fn account(alloc: Global, events: &[Event], t: u64) -> Result<Account, NoMemory>
    ensures { IfOk result (λ a. a ≡ account (past events.now) t) }
{
    let tally = tally_in(events);
    let all = pairs(alloc, events)?;
    let pairs = all.as_slice();
    Ok(Account {
        pending: pending(alloc, events)?.len() as u64,
        notices: notices(alloc, events)?.len() as u64,
        leases: live(alloc, events, t)?.len() as u64,
        topics: latest(alloc, events)?.len() as u64,
        fetches: fetches(alloc, events)?.len() as u64,
        owed: owed(alloc, events, t)?.len() as u64,
        answered: total(events, pairs, t, Fate::Answered, tally.answered),
        expired: ended(events, pairs, t, Cause::Expired, tally.expired),
        unsubscribed: ended(events, pairs, t, Cause::Unsubscribed, tally.unsubscribed),
        replaced: ended(events, pairs, t, Cause::Replaced, tally.replaced),
        gone: ended(events, pairs, t, Cause::Gone, tally.gone),
        spent: ended(events, pairs, t, Cause::Spent, tally.spent),
        revoked: ended(events, pairs, t, Cause::Revoked, tally.revoked),
    })
}
