// Pending intents and owed denial notices (WebSub sections 5.1 to 5.3).
ghost use Rattle.std.specs.Prelude.{◌≡◌, ◌&&◌, not, nat_lt, IfOk};
ghost use Rattle.std.specs.List.{list_any};
ghost use Rattle.ws_model.specs.Intents.{asked, is_pending_number, is_owed_notice_number, notices, pending, same_pair};
ghost use Rattle.ws_plain.specs.Past.{past};

use crate::past::{in_front, newest};
use crate::sought::{Sought, has, times};
use std::alloc::Global;
use ws_model::{Event, Intent, NoMemory, What};

/// The intents that were asked for, the newest first.
pub(crate) fn asked(alloc: Global, events: &[Event]) -> Result<Vec<Intent>, NoMemory>
    ensures { IfOk result (λ v. v.items ≡ asked (past events.now)) }
{
    let Some((event, earlier)) = newest(events) else {
        return Ok(Vec::new(alloc));
    };
    let intents = asked(alloc, earlier)?;
    match &event.what {
        What::Asked(intent) => in_front(intent.copy(alloc)?, intents),
        _ => Ok(intents),
    }
}

fn is_pending_number(events: &[Event], n: u64) -> bool
    ensures { result ≡ is_pending_number (past events.now) n }
{
    !has(events, &Sought::Settled(n)) && times(events, &Sought::Unheard(n)) < 3
}

/// The pending intents of events that are given oldest first, the newest intent first (WebSub sections
/// 5.1 to 5.3). It fails only for want of memory.
pub fn pending(alloc: Global, events: &[Event]) -> Result<Vec<Intent>, NoMemory>
    ensures { IfOk result (λ v. v.items ≡ pending (past events.now)) }
{
    let mut intents = asked(alloc, events)?;
    intents.retain(|intent| is_pending_number(events, intent.n));
    Ok(intents)
}

fn is_owed_notice_number(events: &[Event], n: u64) -> bool
    ensures { result ≡ is_owed_notice_number (past events.now) n }
{
    has(events, &Sought::Denied(n))
        && !has(events, &Sought::Noticed(n, true))
        && times(events, &Sought::Noticed(n, false)) < 3
}

/// The intents whose denial notice is owed, of events that are given oldest first, the newest intent
/// first (WebSub section 5.2). It fails only for want of memory.
pub fn notices(alloc: Global, events: &[Event]) -> Result<Vec<Intent>, NoMemory>
    ensures { IfOk result (λ v. v.items ≡ notices (past events.now)) }
{
    let asked = asked(alloc, events)?;
    let mut owed = Vec::new(alloc);
    for intent in &asked {
        if is_owed_notice_number(events, intent.n) {
            owed.push(intent.copy(alloc)?)?;
        }
    }
    Ok(owed)
}

/// Whether two intents are of one topic and callback.
pub(crate) fn same_pair(i: &Intent, j: &Intent) -> bool
    ensures { result ≡ same_pair i.now j.now }
{
    i.topic == j.topic && i.callback == j.callback
}

/// Whether no pending intent of the same topic and callback has a lower number.
pub(crate) fn is_first(pending: &[Intent], intent: &Intent) -> bool
    ensures { result ≡ not (list_any (λ j. nat_lt j.n intent.now.n && same_pair intent.now j) pending.now) }
{
    !pending
        .iter()
        .any(|other| other.n < intent.n && same_pair(intent, other))
}
