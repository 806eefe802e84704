// The four tables together, which go on with events as their owner would have them do.
ghost use Rattle.std.specs.Prelude.{◌≡◌, ◌<◌, ◌^◌, true};
ghost use Rattle.ws_model.specs.Leases.{is_on};

use std::alloc::Global;
use ws_delivery::Deliveries;
use ws_intent::{Intents, Settle};
use ws_lease::Leases;
use ws_model::{Bytes, Cause, Event, Fate, How, Intent, Key, Lease, Mode, NoMemory, Version, What};
use ws_topic::Topics;

/// Times in seconds are below this.
pub const TIME_LIMIT: u64 = 1 << 48;

#[derive(Drop)]
pub struct Tables {
    alloc: Global,
    pub intents: Intents,
    pub leases: Leases,
    pub topics: Topics,
    pub deliveries: Deliveries,
}

impl Tables {
    pub fn empty(alloc: Global) -> Tables {
        Tables {
            alloc,
            intents: Intents::empty(alloc),
            leases: Leases::empty(alloc),
            topics: Topics::empty(alloc),
            deliveries: Deliveries::empty(alloc),
        }
    }

    /// Goes on with an event. It is false where a condition of a table's call doesn't hold, or what the
    /// call gives isn't right.
    pub fn apply(&mut self, event: &Event) -> Result<bool, NoMemory> {
        if event.t >= TIME_LIMIT {
            return Ok(false);
        }
        match &event.what {
            What::Asked(intent) => self.asked(intent.copy(self.alloc)?),
            What::Confirmed { n, sent } => self.confirmed(*n, *sent, event.t),
            What::Declined { n, .. } => Ok(self.intents.settle(*n, Settle::Declined).is_some()),
            What::Unheard { n } => Ok(self.missed_verification(*n)),
            What::Barred { n, reason } => self.barred(*n, reason),
            What::Noticed { n, heard } => Ok(self.noticed(*n, *heard)),
            What::Revoked { n, reason } => self.revoked(*n, reason, event.t),
            What::Pushed { ver, lease, how } => Ok(self.pushed(*ver, *lease, *how, event.t)),
            _ => self.apply_to_topics(event),
        }
    }

    fn apply_to_topics(&mut self, event: &Event) -> Result<bool, NoMemory> {
        match &event.what {
            What::Pinged { topic } => {
                self.topics.pinged(topic.as_slice(), event.serial)?;
                Ok(true)
            }
            What::Fetched(version) => self.fetched(version, event.t),
            What::Same { topic, upto } => {
                self.topics.same(topic.as_slice(), *upto);
                Ok(true)
            }
            What::Unfetched { topic, upto, .. } => {
                self.topics.unfetched(topic.as_slice(), *upto);
                Ok(true)
            }
            _ => Ok(false),
        }
    }

    /// Takes the leases out that have expired, with their pairs.
    pub fn expire(&mut self, t: u64) -> bool {
        if t >= TIME_LIMIT {
            return false;
        }
        for _ in 0..self.leases.count(0) {
            match self.leases.take_expired(t) {
                Some(lease) => {
                    let _ = self.deliveries.close_lease(lease.intent.n);
                }
                None => return true,
            }
        }
        true
    }

    fn asked(&mut self, intent: Intent) -> Result<bool, NoMemory> {
        if let Some(last) = self.intents.last() {
            if last >= intent.n {
                return Ok(false);
            }
        }
        self.intents.asked(intent)?;
        Ok(true)
    }

    fn confirmed(&mut self, n: u64, sent: u64, t: u64) -> Result<bool, NoMemory> {
        let Some(intent) = self.intents.settle(n, Settle::Confirmed) else {
            return Ok(false);
        };
        match intent.mode {
            Mode::On => self.subscribed(intent, sent, t),
            Mode::Off => Ok(self.unsubscribed(&intent, t)),
        }
    }

    fn subscribed(&mut self, intent: Intent, sent: u64, t: u64) -> Result<bool, NoMemory> {
        let n = intent.n;
        let exp = sent.saturating_add(u64::from(intent.granted));
        if t >= TIME_LIMIT || sent > t || self.leases.holds(n) {
            return Ok(false);
        }
        let lease = Lease { intent, sent };
        match lease.intent.mode {
            Mode::On => match self.leases.confirm(lease, t)? {
                Some(old) => self.carried(old, n, exp, t),
                None => Ok(true),
            },
            Mode::Off => Ok(false),
        }
    }

    // Even numbers take over in one call, and odd ones in two that come to the same.
    fn carried(&mut self, old: u64, new: u64, exp: u64, t: u64) -> Result<bool, NoMemory> {
        if t >= TIME_LIMIT || self.deliveries.end_of(new).is_some() {
            return Ok(false);
        }
        if new % 2 == 0 {
            let carried = self.deliveries.carry(old, new, exp, t)?;
            return Ok(self.deliveries.close_lease(old) == 0 && carried <= self.deliveries.owed(t));
        }
        let carried = self.deliveries.renew(old, new, exp, t)?;
        Ok(self.deliveries.close_lease(old) == carried)
    }

    fn unsubscribed(&mut self, intent: &Intent, t: u64) -> bool {
        if t >= TIME_LIMIT {
            return false;
        }
        let found = self
            .leases
            .find(intent.topic.as_slice(), intent.callback.as_slice(), t);
        match found {
            Some(n) => self.end(n, Cause::Unsubscribed, t),
            None => true,
        }
    }

    fn end(&mut self, n: u64, cause: Cause, t: u64) -> bool {
        if t >= TIME_LIMIT || !self.leases.live(n, t) {
            return false;
        }
        match cause {
            Cause::Unsubscribed | Cause::Gone | Cause::Revoked => {
                self.leases.end(n, cause, t);
                let _ = self.deliveries.close_lease(n);
                true
            }
            _ => false,
        }
    }

    // A third verification without a reply gives the intent back.
    fn missed_verification(&mut self, n: u64) -> bool {
        let missed = match self.intents.waiting(n) {
            Some(waiting) => waiting.unheard,
            None => return false,
        };
        self.intents.settle(n, Settle::Unheard).is_some() == (missed == 2)
    }

    fn barred(&mut self, n: u64, reason: &Bytes) -> Result<bool, NoMemory> {
        let reason = Bytes::copy(self.alloc, reason.as_slice())?;
        self.intents.barred(n, reason)?;
        Ok(self.intents.notice(n).is_some() && self.intents.waiting(n).is_none())
    }

    fn noticed(&mut self, n: u64, heard: bool) -> bool {
        let missed = match self.intents.notice(n) {
            Some(denial) => denial.unheard,
            None => return false,
        };
        let left = self.intents.settle(n, Settle::Noticed(heard)).is_some();
        left == (heard || missed == 2)
    }

    fn revoked(&mut self, n: u64, reason: &Bytes, t: u64) -> Result<bool, NoMemory> {
        if t >= TIME_LIMIT {
            return Ok(false);
        }
        let intent = match self.leases.get(n, t) {
            Some(lease) => lease.intent.copy(self.alloc)?,
            None => return Ok(false),
        };
        if !self.end(n, Cause::Revoked, t) {
            return Ok(false);
        }
        let reason = Bytes::copy(self.alloc, reason.as_slice())?;
        self.intents.revoked(intent, reason)?;
        Ok(true)
    }

    fn fetched(&mut self, version: &Version, t: u64) -> Result<bool, NoMemory> {
        let copy = version.copy(self.alloc)?;
        if self.topics.version(copy.ver).is_some() {
            return Ok(false);
        }
        self.topics.fetched(copy)?;
        born_to_all(
            &mut self.deliveries,
            &self.leases,
            version.ver,
            &version.topic,
            t,
        )
    }

    fn pushed(&mut self, ver: u64, lease: u64, how: How, t: u64) -> bool {
        match how {
            How::Done => self.answered(ver, lease, t),
            How::Gone => self.end(lease, Cause::Gone, t),
            How::Missed(_) => self.missed(ver, lease, t),
        }
    }

    fn answered(&mut self, ver: u64, lease: u64, t: u64) -> bool {
        if self.deliveries.fate(ver, lease, t).is_none() {
            return false;
        }
        self.deliveries.close(ver, lease);
        true
    }

    fn missed(&mut self, ver: u64, lease: u64, t: u64) -> bool {
        if t >= TIME_LIMIT || self.deliveries.fate(ver, lease, t).is_none() {
            return false;
        }
        let fate = self.deliveries.miss(ver, lease, t);
        match self.deliveries.fate(ver, lease, t) {
            Some(left) => fate == left,
            None => fate == Fate::Ended(Cause::Spent),
        }
    }
}

fn born_to_all(
    deliveries: &mut Deliveries,
    leases: &Leases,
    ver: u64,
    topic: &Key,
    t: u64,
) -> Result<bool, NoMemory> {
    if t >= TIME_LIMIT {
        return Ok(false);
    }
    for n in leases.live_of_topic(topic.as_slice(), t) {
        let exp = match leases.get(n, t) {
            Some(lease) => lease.sent.saturating_add(u64::from(lease.intent.granted)),
            None => return Ok(false),
        };
        if !born(deliveries, ver, n, exp, t)? {
            return Ok(false);
        }
    }
    Ok(true)
}

fn born(
    deliveries: &mut Deliveries,
    ver: u64,
    lease: u64,
    exp: u64,
    t: u64,
) -> Result<bool, NoMemory> {
    if t >= TIME_LIMIT || deliveries.fate(ver, lease, t).is_some() {
        return Ok(false);
    }
    match deliveries.end_of(lease) {
        Some(end) => {
            if end != exp {
                return Ok(false);
            }
            deliveries.born(ver, lease, exp, t)?;
        }
        None => deliveries.born(ver, lease, exp, t)?,
    }
    Ok(true)
}
