// What is looked for in a history, and how often it is found.
ghost use Rattle.std.specs.Prelude.{◌≡◌, ◌≤◌, length};
ghost use Rattle.ws_model.specs.History.{has, newest_time, times};
ghost use Rattle.ws_model.specs.Fate.{is_push, is_done, is_miss};
ghost use Rattle.ws_model.specs.Intents.{is_settled, is_denied, is_noticed};
ghost use Rattle.ws_model.specs.Versions.{is_answer};
ghost use Rattle.ws_plain.specs.Past.{past};
ghost use Rattle.ws_plain.specs.Sought.{seeks};

use crate::past::newest;
use ws_model::{Event, How, What};

/// A kind of happening, with the number, the pair or the topic that it is of.
#[derive(Clone, Copy)]
pub(crate) enum Sought<'a> {
    /// The intent was confirmed, declined or barred.
    Settled(u64),
    /// A verification of the intent had no reply.
    Unheard(u64),
    /// The intent was barred, or its lease revoked.
    Denied(u64),
    /// A notice of the intent was sent, and heard or not.
    Noticed(u64, bool),
    /// The intent was confirmed.
    Confirmed(u64),
    /// A push of this version to this lease was answered 2xx.
    Done(u64, u64),
    /// A push of this version to this lease was missed.
    Missed(u64, u64),
    /// The topic was pinged.
    Ping(&'a [u8]),
    /// A fetch of the topic gave no version.
    Unfetched(&'a [u8]),
    /// A fetch of the topic that began at or after this serial gave a version.
    Answer(&'a [u8], u64),
}

fn is_settled(n: u64, what: &What) -> bool
    ensures { result ≡ is_settled n what.now }
{
    match what {
        What::Confirmed { n: m, .. } | What::Declined { n: m, .. } | What::Barred { n: m, .. } => {
            *m == n
        }
        _ => false,
    }
}

fn is_denied(n: u64, what: &What) -> bool
    ensures { result ≡ is_denied n what.now }
{
    match what {
        What::Barred { n: m, .. } | What::Revoked { n: m, .. } => *m == n,
        _ => false,
    }
}

fn is_noticed(n: u64, sought: bool, what: &What) -> bool
    ensures { result ≡ is_noticed n sought what.now }
{
    match what {
        What::Noticed { n: m, heard } => *m == n && *heard == sought,
        _ => false,
    }
}

fn is_done(version: u64, lease: u64, what: &What) -> bool
    ensures { result ≡ is_push is_done version lease what.now }
{
    match what {
        What::Pushed {
            ver,
            lease: n,
            how: How::Done,
        } => *ver == version && *n == lease,
        _ => false,
    }
}

fn is_missed(version: u64, lease: u64, what: &What) -> bool
    ensures { result ≡ is_push is_miss version lease what.now }
{
    match what {
        What::Pushed {
            ver,
            lease: n,
            how: How::Missed(_),
        } => *ver == version && *n == lease,
        _ => false,
    }
}

fn is_answer(topic: &[u8], serial: u64, what: &What) -> bool
    ensures { result ≡ is_answer (record { topic = topic.now; serial = serial }) what.now }
{
    match what {
        What::Fetched(version) => version.topic.as_slice() == topic && serial <= version.upto,
        What::Same { topic: of, upto } => of.as_slice() == topic && serial <= *upto,
        _ => false,
    }
}

impl Sought<'_> {
    /// Whether this is what happened.
    pub(crate) fn is(&self, what: &What) -> bool
        ensures { result ≡ seeks self.now what.now }
    {
        match self {
            Sought::Settled(n) => is_settled(*n, what),
            Sought::Unheard(n) => matches!(what, What::Unheard { n: m } if m == n),
            Sought::Denied(n) => is_denied(*n, what),
            Sought::Noticed(n, heard) => is_noticed(*n, *heard, what),
            Sought::Confirmed(n) => matches!(what, What::Confirmed { n: m, .. } if m == n),
            Sought::Done(version, lease) => is_done(*version, *lease, what),
            Sought::Missed(version, lease) => is_missed(*version, *lease, what),
            Sought::Ping(topic) =>
                matches!(what, What::Pinged { topic: of } if of.as_slice() == *topic),
            Sought::Unfetched(topic) => {
                matches!(what, What::Unfetched { topic: of, .. } if of.as_slice() == *topic)
            }
            Sought::Answer(topic, serial) => is_answer(topic, *serial, what),
        }
    }
}

/// Whether it happened.
pub(crate) fn has(events: &[Event], sought: &Sought) -> bool
    ensures { result ≡ has (seeks sought.now) (past events.now) }
{
    match newest(events) {
        None => false,
        Some((event, earlier)) => sought.is(&event.what) || has(earlier, sought),
    }
}

/// How often it happened.
pub(crate) fn times(events: &[Event], sought: &Sought) -> usize
    ensures times { result ≡ times (seeks sought.now) (past events.now) }
    ensures most { result ≤ length events.now }
{
    let Some((event, earlier)) = newest(events) else {
        return 0;
    };
    let before = times(earlier, sought);
    if sought.is(&event.what) {
        before + 1
    } else {
        before
    }
}

/// When it happened last, in seconds, or 0.
pub(crate) fn newest_time(events: &[Event], sought: &Sought) -> u64
    ensures { result ≡ newest_time (seeks sought.now) (past events.now) }
{
    match newest(events) {
        None => 0,
        Some((event, _)) if sought.is(&event.what) => event.t,
        Some((_, earlier)) => newest_time(earlier, sought),
    }
}
