// The thirteen kinds of event, and lists of them.
ghost use Rattle.std.specs.Prelude.{◌≡◌, [], ◌∷◌, ◌++◌, IfOk, OnOk, OnErr, length, ◌==◌};

use crate::{Bytes, Key, NoMemory};
use std::alloc::Global;
use std::marker::Model;

/// Whether an intent asks for a subscription (On), or for its end (Off).
#[derive(Clone, Copy, Debug, PartialEq, Eq)]
pub enum Mode {
    Off,
    On,
}

/// The hash by which a push is signed.
#[derive(Clone, Copy, Debug, PartialEq, Eq)]
pub enum Alg {
    Sha1,
    Sha256,
    Sha384,
    Sha512,
}

/// How a push ended: answered 2xx, answered 410, or missed with the reply's status (below 200: no reply).
#[derive(Clone, Copy, Debug, PartialEq, Eq)]
pub enum How {
    Done,
    Gone,
    Missed(u16),
}

/// An accepted request to subscribe or to unsubscribe, by its number `n`.
///
/// `echo` is the topic as it was asked for. `granted` is the lease in seconds, and 0 in mode Off.
#[derive(Debug, Drop, PartialEq)]
pub struct Intent {
    pub n: u64,
    pub mode: Mode,
    pub topic: Key,
    pub echo: Bytes,
    pub callback: Key,
    pub secret: Bytes,
    pub granted: u32,
    pub alg: Alg,
}

impl Intent {
    /// A copy of the intent.
    pub fn copy(&self, alloc: Global) -> Result<Intent, NoMemory>
        ensures { IfOk result (λ i. i ≡ self.now) }
    {
        Ok(Intent {
            n: self.n,
            mode: self.mode,
            topic: Bytes::copy(alloc, self.topic.as_slice())?,
            echo: Bytes::copy(alloc, self.echo.as_slice())?,
            callback: Bytes::copy(alloc, self.callback.as_slice())?,
            secret: Bytes::copy(alloc, self.secret.as_slice())?,
            granted: self.granted,
            alg: self.alg,
        })
    }
}

/// A fetched content of a topic, by its number `ver`.
///
/// `upto` is the greatest serial of the history when the fetch began.
#[derive(Debug, Drop, PartialEq)]
pub struct Version {
    pub ver: u64,
    pub topic: Key,
    pub upto: u64,
    pub media: Bytes,
    pub own_link: Bytes,
    pub body: Bytes,
}

impl Version {
    /// A copy of the version.
    pub fn copy(&self, alloc: Global) -> Result<Version, NoMemory>
        ensures { IfOk result (λ v. v ≡ self.now) }
    {
        Ok(Version {
            ver: self.ver,
            topic: Bytes::copy(alloc, self.topic.as_slice())?,
            upto: self.upto,
            media: Bytes::copy(alloc, self.media.as_slice())?,
            own_link: Bytes::copy(alloc, self.own_link.as_slice())?,
            body: Bytes::copy(alloc, self.body.as_slice())?,
        })
    }
}

/// What a compaction puts first: its moment in seconds, the greatest serial and numbers used, and
/// how many pairs of each fate it forgot.
#[derive(Clone, Copy, Debug, PartialEq, Eq)]
pub struct Tally {
    pub now: u64,
    pub serial: u64,
    pub intent: u64,
    pub version: u64,
    pub answered: u64,
    pub expired: u64,
    pub unsubscribed: u64,
    pub replaced: u64,
    pub gone: u64,
    pub spent: u64,
    pub revoked: u64,
}

/// What happened.
#[derive(Debug, Drop, PartialEq)]
pub enum What {
    /// A request was accepted.
    Asked(Intent),
    /// The callback confirmed intent `n`; its verification was drawn at `sent`.
    Confirmed { n: u64, sent: u64 },
    /// The callback answered the verification of `n` otherwise.
    Declined { n: u64, code: u16 },
    /// A verification of `n` had no reply.
    Unheard { n: u64 },
    /// Intent `n` isn't allowed, and its callback is owed a notice.
    Barred { n: u64, reason: Bytes },
    /// The callback of `n` was told of its denial, and it answered or not.
    Noticed { n: u64, heard: bool },
    /// A publisher said that the topic has changed.
    Pinged { topic: Key },
    /// A fetch gave a new version.
    Fetched(Version),
    /// A fetch gave the latest version again.
    Same { topic: Key, upto: u64 },
    /// A fetch gave no version: by a reply's status, or by one of the numbers below 100.
    Unfetched { topic: Key, upto: u64, why: u16 },
    /// A push of version `ver` to lease `lease` ended.
    Pushed { ver: u64, lease: u64, how: How },
    /// The head of a compacted history.
    Tally(Tally),
    /// An operator ended lease `n`, and its callback is owed a notice.
    Revoked { n: u64, reason: Bytes },
}

/// One entry of the history: its serial, its time in seconds, and what happened.
#[derive(Debug, Drop, PartialEq)]
pub struct Event {
    pub serial: u64,
    pub t: u64,
    pub what: What,
}

/// A list of events, oldest first.
#[derive(Debug, Drop)]
pub struct Events {
    list: Vec<Event>,
}

impl Model for Events {
    ghost use Rattle.std.specs.Prelude.{List};
    ghost use Rattle.ws_model.specs.declared.event.Event.{Event};

    ghost Value = { List Event };

    ghost view = { λ e. e.list.items };
}

impl Events {
    /// No events. It takes no memory.
    pub fn empty(alloc: Global) -> Events
        ensures { result ≡ [] }
    {
        Events {
            list: Vec::new(alloc),
        }
    }

    /// Adds an event at the end. At an error the list is as it was.
    pub fn push(&mut self, event: Event) -> Result<(), NoMemory>
        ensures ok { OnOk result (self.new ≡ self.old ++ event ∷ []) }
        ensures err { OnErr result (self.new ≡ self.old) }
    {
        self.list.push(event)?;
        Ok(())
    }

    /// How many events there are.
    pub fn len(&self) -> usize
        ensures { result ≡ length self.now }
    {
        self.list.len()
    }

    /// Whether there are none.
    pub fn is_empty(&self) -> bool
        ensures { result ≡ (length self.now == 0) }
    {
        self.list.is_empty()
    }

    /// The events as a slice, oldest first.
    pub fn as_slice(&self) -> &[Event]
        ensures { result.now ≡ self.now }
    {
        &self.list
    }
}
