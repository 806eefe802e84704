// Copies of events.
ghost use Rattle.std.specs.Prelude.{◌≡◌, IfOk, []};
ghost use Rattle.ws_kept.specs.Stands.{light, light_event, light_intent, light_version};

use std::alloc::Global;
use ws_model::{Bytes, Event, Intent, NoMemory, Version, What};

fn copy_what(alloc: Global, what: &What) -> Result<What, NoMemory>
    ensures { IfOk result (λ w. w ≡ what.now) }
{
    match what {
        What::Asked(intent) => Ok(What::Asked(intent.copy(alloc)?)),
        What::Confirmed { n, sent } => Ok(What::Confirmed { n: *n, sent: *sent }),
        What::Declined { n, code } => Ok(What::Declined { n: *n, code: *code }),
        What::Unheard { n } => Ok(What::Unheard { n: *n }),
        What::Barred { n, reason } => Ok(What::Barred {
            n: *n,
            reason: Bytes::copy(alloc, reason.as_slice())?,
        }),
        What::Noticed { n, heard } => Ok(What::Noticed {
            n: *n,
            heard: *heard,
        }),
        What::Pinged { topic } => Ok(What::Pinged {
            topic: Bytes::copy(alloc, topic.as_slice())?,
        }),
        What::Fetched(version) => Ok(What::Fetched(version.copy(alloc)?)),
        What::Same { topic, upto } => Ok(What::Same {
            topic: Bytes::copy(alloc, topic.as_slice())?,
            upto: *upto,
        }),
        What::Unfetched { topic, upto, why } => Ok(What::Unfetched {
            topic: Bytes::copy(alloc, topic.as_slice())?,
            upto: *upto,
            why: *why,
        }),
        What::Pushed { ver, lease, how } => Ok(What::Pushed {
            ver: *ver,
            lease: *lease,
            how: *how,
        }),
        What::Tally(tally) => Ok(What::Tally(*tally)),
        What::Revoked { n, reason } => Ok(What::Revoked {
            n: *n,
            reason: Bytes::copy(alloc, reason.as_slice())?,
        }),
    }
}

/// A copy of an event. It fails only for want of memory.
pub fn copy_event(alloc: Global, event: &Event) -> Result<Event, NoMemory>
    ensures { IfOk result (λ e. e ≡ event.now) }
{
    Ok(Event {
        serial: event.serial,
        t: event.t,
        what: copy_what(alloc, &event.what)?,
    })
}

// No text and no body.
fn nothing(alloc: Global) -> Bytes
    ensures { result ≡ [] }
{
    Bytes::from_vec(Vec::new(alloc))
}

fn light_version(alloc: Global, version: &Version) -> Version
    ensures { result ≡ light_version version.now }
{
    Version {
        ver: version.ver,
        topic: nothing(alloc),
        upto: version.upto,
        media: nothing(alloc),
        own_link: nothing(alloc),
        body: nothing(alloc),
    }
}

fn light_intent(alloc: Global, intent: &Intent) -> Intent
    ensures { result ≡ light_intent intent.now }
{
    Intent {
        n: intent.n,
        mode: intent.mode,
        topic: nothing(alloc),
        echo: nothing(alloc),
        callback: nothing(alloc),
        secret: nothing(alloc),
        granted: intent.granted,
        alg: intent.alg,
    }
}

fn lightened_what(alloc: Global, what: What) -> What
    ensures { result ≡ light what }
{
    match what {
        What::Asked(intent) => What::Asked(light_intent(alloc, &intent)),
        What::Fetched(version) => What::Fetched(light_version(alloc, &version)),
        other => other,
    }
}

/// The event without the texts of what was asked for, and without the texts and the body of what was fetched.
/// It takes no memory.
pub fn lightened(alloc: Global, event: Event) -> Event
    ensures { result ≡ light_event event }
{
    Event {
        serial: event.serial,
        t: event.t,
        what: lightened_what(alloc, event.what),
    }
}

fn light_what(alloc: Global, what: &What) -> Result<What, NoMemory>
    ensures { IfOk result (λ w. w ≡ light what.now) }
{
    match what {
        What::Asked(intent) => Ok(What::Asked(light_intent(alloc, intent))),
        What::Fetched(version) => Ok(What::Fetched(light_version(alloc, version))),
        other => copy_what(alloc, other),
    }
}

/// A copy of an event in which what was asked for and what was fetched have no texts and no body: of these
/// nothing is copied. It fails only for want of memory.
pub fn light_copy(alloc: Global, event: &Event) -> Result<Event, NoMemory>
    ensures { IfOk result (λ e. e ≡ light_event event.now) }
{
    Ok(Event {
        serial: event.serial,
        t: event.t,
        what: light_what(alloc, &event.what)?,
    })
}
