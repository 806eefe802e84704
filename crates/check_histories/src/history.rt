// Short histories by chance, with a fixed seed: each event is one that may come next.

use crate::chance::Chance;
use crate::made::{CALLBACKS, TOPICS, asked, bytes, fetched, happen, pinged, same, unfetched};
use std::alloc::Global;
use ws_model::{Event, Fate, How, Intent, Mode, NoMemory, What};
use ws_plain::PairFate;

/// A history as it grows: its events, the time in seconds, and the greatest numbers of an intent and of a
/// version.
#[derive(Drop)]
pub struct History {
    alloc: Global,
    pub chance: Chance,
    pub events: Vec<Event>,
    pub t: u64,
    pub intents: u64,
    pub versions: u64,
}

impl History {
    /// A history without events, by a seed of chance.
    pub fn new(alloc: Global, seed: u64) -> History {
        History {
            alloc,
            chance: Chance::new(seed),
            events: Vec::new(alloc),
            t: 1_000,
            intents: 0,
            versions: 0,
        }
    }

    // An event that may come next, where chance gives one.
    fn next(&mut self) -> Result<Option<What>, NoMemory> {
        match self.chance.below(30) {
            0 | 1 | 2 => self.ask(),
            3 | 4 | 5 | 6 | 7 | 8 => self.verify(),
            9 => self.bar(),
            10 | 11 => self.notice(),
            12 | 13 => Ok(Some(pinged(self.alloc, self.topic())?)),
            14 | 15 => self.fetch(),
            16 => self.fetch_again(),
            17 => self.revoke(),
            _ => self.push(),
        }
    }

    fn topic(&mut self) -> &'static str {
        if self.chance.below(3) == 0 {
            TOPICS[1]
        } else {
            TOPICS[0]
        }
    }

    fn ask(&mut self) -> Result<Option<What>, NoMemory> {
        self.intents = self.intents.saturating_add(1);
        let topic = self.topic();
        let callback = CALLBACKS[self.chance.below(3) as usize];
        let granted = match self.chance.below(5) {
            0 => 0,
            more => 200 * more as u32,
        };
        Ok(Some(asked(self.alloc, self.intents, topic, callback, granted)?))
    }

    fn verify(&mut self) -> Result<Option<What>, NoMemory> {
        let pending = ws_plain::pending(self.alloc, &self.events)?;
        let Some(intent) = picked(&pending, &mut self.chance) else {
            return Ok(None);
        };
        let n = intent.n;
        if !is_first(&pending, intent) {
            return Ok(None);
        }
        let sent = self.t.saturating_sub(self.chance.below(30));
        Ok(Some(match self.chance.below(8) {
            0 => What::Declined { n, code: 404 },
            1 | 2 => What::Unheard { n },
            _ => What::Confirmed { n, sent },
        }))
    }

    fn bar(&mut self) -> Result<Option<What>, NoMemory> {
        let pending = ws_plain::pending(self.alloc, &self.events)?;
        let Some(intent) = picked(&pending, &mut self.chance) else {
            return Ok(None);
        };
        if intent.mode == Mode::Off {
            return Ok(None);
        }
        let reason = bytes(self.alloc, "topic not allowed")?;
        Ok(Some(What::Barred {
            n: intent.n,
            reason,
        }))
    }

    fn notice(&mut self) -> Result<Option<What>, NoMemory> {
        let notices = ws_plain::notices(self.alloc, &self.events)?;
        let heard = self.chance.below(3) == 0;
        match picked(&notices, &mut self.chance) {
            Some(intent) => Ok(Some(What::Noticed { n: intent.n, heard })),
            None => Ok(None),
        }
    }

    fn fetch(&mut self) -> Result<Option<What>, NoMemory> {
        let topic = self.topic();
        let upto = self.upto();
        self.versions = self.versions.saturating_add(1);
        Ok(Some(fetched(self.alloc, self.versions, topic, upto)?))
    }

    // A fetch that gives the latest version again, or none.
    fn fetch_again(&mut self) -> Result<Option<What>, NoMemory> {
        let topic = self.topic();
        let upto = self.upto();
        if self.chance.below(2) == 0 || !has_version(&self.events, topic.as_bytes()) {
            return Ok(Some(unfetched(self.alloc, topic, upto)?));
        }
        Ok(Some(same(self.alloc, topic, upto)?))
    }

    // The serial at which a fetch began.
    fn upto(&mut self) -> u64 {
        (self.events.len() as u64).saturating_sub(self.chance.below(3))
    }

    fn revoke(&mut self) -> Result<Option<What>, NoMemory> {
        let live = ws_plain::live(self.alloc, &self.events, self.t)?;
        let Some(lease) = live.first() else {
            return Ok(None);
        };
        let reason = bytes(self.alloc, "subscription revoked")?;
        Ok(Some(What::Revoked {
            n: lease.intent.n,
            reason,
        }))
    }

    // Mostly of the first owed pair, so that some are spent.
    fn push(&mut self) -> Result<Option<What>, NoMemory> {
        let owed = self.owed()?;
        let at = self.chance.below(owed.len() as u64 + 1);
        let at = if self.chance.below(4) == 0 { at } else { 0 };
        let how = match self.chance.below(12) {
            0 => How::Gone,
            1 => How::Done,
            _ => How::Missed(503),
        };
        match owed.get(at as usize) {
            Some(pair) => Ok(Some(What::Pushed {
                ver: pair.ver,
                lease: pair.lease,
                how,
            })),
            None => Ok(None),
        }
    }

    fn pass_time(&mut self) {
        let seconds = match self.chance.below(6) {
            0 | 1 => 0,
            2 => 1,
            3 => 10,
            4 => self.chance.below(30),
            _ => self.chance.below(120),
        };
        self.t = self.t.saturating_add(seconds);
    }

    /// Adds an event, where chance gives one.
    pub fn grow(&mut self) -> Result<bool, NoMemory> {
        self.pass_time();
        let Some(what) = self.next()? else {
            return Ok(false);
        };
        happen(&mut self.events, self.t, what)?;
        Ok(true)
    }

    /// The owed pairs, the oldest first.
    pub fn owed(&self) -> Result<Vec<PairFate>, NoMemory> {
        let mut owed = Vec::new(self.alloc);
        let fates = ws_plain::all_fates(self.alloc, &self.events, self.t)?;
        for pair in fates.iter().rev() {
            if matches!(pair.fate, Fate::Owed { .. }) {
                owed.push(*pair)?;
            }
        }
        Ok(owed)
    }
}

/// Whether no pending intent of the same topic and callback has a lower number.
pub fn is_first(pending: &[Intent], intent: &Intent) -> bool {
    !pending.iter().any(|other| {
        other.n < intent.n && other.topic == intent.topic && other.callback == intent.callback
    })
}

fn picked<'a>(intents: &'a [Intent], chance: &mut Chance) -> Option<&'a Intent> {
    if intents.is_empty() {
        return None;
    }
    intents.get(chance.below(intents.len() as u64) as usize)
}

fn has_version(events: &[Event], topic: &[u8]) -> bool {
    for event in events {
        if let What::Fetched(version) = &event.what {
            if version.topic.as_slice() == topic {
                return true;
            }
        }
    }
    false
}
