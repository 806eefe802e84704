// Copies of events.
ghost use Rattle.std.specs.Prelude.{◌≡◌, IfOk};

use std::alloc::Global;
use ws_model::{Bytes, Event, NoMemory, What};

fn copy_what(alloc: Global, what: &What) -> Result<What, NoMemory>
    ensures { IfOk result (λ w. w ≡ what.now) }
{
    match what {
        What::Asked(intent) => Ok(What::Asked(intent.copy(alloc)?)),
        What::Confirmed { n, sent } => Ok(What::Confirmed { n: *n, sent: *sent }),
        What::Declined { n, code } => Ok(What::Declined { n: *n, code: *code }),
        What::Unheard { n } => Ok(What::Unheard { n: *n }),
        What::Barred { n, reason } => Ok(What::Barred {
            n: *n,
            reason: Bytes::copy(alloc, reason.as_slice())?,
        }),
        What::Noticed { n, heard } => Ok(What::Noticed {
            n: *n,
            heard: *heard,
        }),
        What::Pinged { topic } => Ok(What::Pinged {
            topic: Bytes::copy(alloc, topic.as_slice())?,
        }),
        What::Fetched(version) => Ok(What::Fetched(version.copy(alloc)?)),
        What::Same { topic, upto } => Ok(What::Same {
            topic: Bytes::copy(alloc, topic.as_slice())?,
            upto: *upto,
        }),
        What::Unfetched { topic, upto, why } => Ok(What::Unfetched {
            topic: Bytes::copy(alloc, topic.as_slice())?,
            upto: *upto,
            why: *why,
        }),
        What::Pushed { ver, lease, how } => Ok(What::Pushed {
            ver: *ver,
            lease: *lease,
            how: *how,
        }),
        What::Tally(tally) => Ok(What::Tally(*tally)),
        What::Revoked { n, reason } => Ok(What::Revoked {
            n: *n,
            reason: Bytes::copy(alloc, reason.as_slice())?,
        }),
    }
}

/// A copy of an event.
pub(crate) fn copy_event(alloc: Global, event: &Event) -> Result<Event, NoMemory>
    ensures { IfOk result (λ e. e ≡ event.now) }
{
    Ok(Event {
        serial: event.serial,
        t: event.t,
        what: copy_what(alloc, &event.what)?,
    })
}
