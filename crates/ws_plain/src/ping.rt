// A ping of a topic.
ghost use Rattle.std.specs.Prelude.{◌≡◌, IfOk};

use crate::versions::is_owed_fetch;
use std::alloc::Global;
use std::marker::Model;
use ws_model::{Bytes, Event, Key, NoMemory};

/// A ping: its topic, and the serial of its event.
#[derive(Debug, Drop)]
pub(crate) struct Ping {
    topic: Key,
    serial: u64,
}

impl Model for Ping {
    ghost use Rattle.ws_model.specs.Versions.{Ping as PingFields};

    ghost Value = { PingFields };

    ghost view = { λ p. record { topic = p.topic; serial = p.serial } };
}

impl Ping {
    ghost use Rattle.ws_model.specs.Versions.{is_owed_fetch};
    ghost use Rattle.ws_plain.specs.Past.{past};

    pub(crate) fn new(alloc: Global, topic: &[u8], serial: u64) -> Result<Ping, NoMemory>
        ensures { IfOk result (λ p. p ≡ record { topic = topic.now; serial = serial }) }
    {
        Ok(Ping {
            topic: Bytes::copy(alloc, topic)?,
            serial,
        })
    }

    pub(crate) fn topic(&self) -> &[u8]
        ensures { result.now ≡ self.now.topic }
    {
        self.topic.as_slice()
    }

    pub(crate) fn serial(&self) -> u64
        ensures { result ≡ self.now.serial }
    {
        self.serial
    }

    pub(crate) fn into_topic(self) -> Key
        ensures { result ≡ self.topic }
    {
        let Ping { topic, serial: _ } = self;
        topic
    }

    /// Whether the fetch of this ping is owed.
    pub(crate) fn is_owed(&self, events: &[Event]) -> bool
        ensures { result ≡ is_owed_fetch (past events.now) self.now }
    {
        is_owed_fetch(events, self.topic.as_slice(), self.serial)
    }
}
