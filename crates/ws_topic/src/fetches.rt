// The fetches that are owed, by topic.
ghost use Rattle.std.specs.Prelude.{◌≡◌, not, [], ℕ, List, OnOk, OnErr, Some, None, false, find, length, option_map, cond, bytes_eq};
ghost use Rattle.std.specs.Option.{option_copied};
ghost use Rattle.std.specs.Map.{keys_of};
ghost use Rattle.std.specs.BTreeMap.{IsUnchanged};
ghost use Rattle.ws_model.specs.Due.{is_out, same_work};
ghost use Rattle.ws_model.specs.declared.work.Work.TheVariants.{Fetch};
ghost use Rattle.ws_topic.specs.ByTopic.{IsAscending, at_topic, by_bytes, with_topic, without_topic};
ghost use Rattle.ws_topic.specs.Rows.{after_answer, after_miss, answered, is_answered, is_last, missed};
ghost use Rattle.ws_topic.specs.Restored.{restored, with_ping};
ghost use Rattle.ws_topic.specs.Stored.{IsListed};

use crate::by_topic::{self, ByTopic, copied};
use crate::rows::{LastPing, OwedFetch};
use std::alloc::Global;
use std::collections::BTreeMap;
use std::marker::Model;
use ws_model::{Bytes, Held, Key, NoMemory, Work};

type ByFetch = ByTopic<OwedFetch>;

/// The owed fetches. Contracts see them as the list of the topics with their fetches, in order.
#[derive(Drop)]
pub struct Fetches {
    alloc: Global,
    by_topic: ByFetch,
}

impl Model for Fetches {
    ghost use Rattle.std.specs.Prelude.{List, ℕ};
    ghost use Rattle.ws_topic.specs.declared.rows.OwedFetch.{OwedFetch};
    ghost use Rattle.ws_topic.specs.ByTopic.{by_bytes};

    ghost Value = { List (List ℕ × OwedFetch) };

    ghost use Rattle.ws_topic.specs.Stored.{IsListed};

    ghost view = { λ s. by_bytes s.by_topic.entries };

    ghost invariant = { λ s. IsListed (by_bytes s.by_topic.entries) };
}

impl Fetches {
    /// None. It takes no memory.
    pub fn empty(alloc: Global) -> Fetches
        ensures { result ≡ [] }
    {
        Fetches {
            alloc,
            by_topic: BTreeMap::new(alloc),
        }
    }

    /// How many are owed.
    pub fn count(&self) -> u64
        ensures count { result ≡ length self.now }
        ensures listed { IsListed self.now }
    {
        self.by_topic.len() as u64
    }

    /// The owed fetch of a topic.
    pub fn get(&self, topic: &[u8]) -> Option<&OwedFetch>
        ensures { option_copied result ≡ at_topic topic.now self.now }
    {
        by_topic::get(&self.by_topic, topic)
    }

    /// Makes the fetch of a topic owed, from this serial on.
    pub fn ping(&mut self, topic: &[u8], serial: u64) -> Result<(), NoMemory>
        ensures ok { OnOk result (self.new ≡ with_topic topic.now (record { topic = topic.now; serial = serial; missed = 0 }) self.old) }
        ensures look { OnOk result ((q : List ℕ) → at_topic q self.new ≡ cond (bytes_eq q topic.now) (Some (record { topic = topic.now; serial = serial; missed = 0 })) (at_topic q self.old)) }
        ensures err { OnErr result (self.new ≡ self.old) }
    {
        let key = copied(self.alloc, topic)?;
        let fetch = OwedFetch {
            topic: Bytes::copy(self.alloc, topic)?,
            serial,
            missed: 0,
        };
        by_topic::put(&mut self.by_topic, key, fetch)
    }

    /// Settles the fetch of a topic, where its ping isn't later than `upto`.
    pub fn answer(&mut self, topic: &[u8], upto: u64)
        ensures rows { self.new ≡ after_answer topic.now upto self.old }
        ensures look { (q : List ℕ) → at_topic q self.new ≡ cond (bytes_eq q topic.now) (answered upto (at_topic topic.now self.old)) (at_topic q self.old) }
    {
        if is_answered(&self.by_topic, topic, upto) {
            by_topic::remove(&mut self.by_topic, topic);
        }
    }

    /// Counts a missed fetch of a topic, and gives the fetch up where it was the third.
    pub fn miss(&mut self, topic: &[u8])
        ensures rows { self.new ≡ after_miss topic.now self.old }
        ensures look { (q : List ℕ) → at_topic q self.new ≡ cond (bytes_eq q topic.now) (missed (at_topic topic.now self.old)) (at_topic q self.old) }
    {
        if is_last(&self.by_topic, topic) {
            by_topic::remove(&mut self.by_topic, topic);
        } else {
            miss_more(&mut self.by_topic, topic);
        }
    }

    /// Puts the fetch of a topic back to what it was, or takes it out where it wasn't owed. A topic whose
    /// fetch isn't owed changes nothing.
    pub fn restore(&mut self, topic: &[u8], before: Option<LastPing>)
        ensures rows { self.new ≡ restored topic.now before self.old }
    {
        match before {
            Some(ping) => set_ping(&mut self.by_topic, topic, ping),
            None => by_topic::remove(&mut self.by_topic, topic),
        }
    }

    /// The first topic whose fetch isn't held.
    pub fn first_due(&self, held: &Held) -> Option<&Key>
        ensures first { option_map (λ k. k.now) result ≡ find (λ t. not (is_out held.now (Fetch t 0))) (keys_of self.now) }
        ensures listed { IsListed self.now }
    {
        for (topic, fetch) in &self.by_topic {
            if !is_held(held.as_slice(), topic.as_slice()) {
                return Some(&fetch.topic);
            }
        }
        None
    }
}

fn is_answered(fetches: &ByFetch, topic: &[u8], upto: u64) -> bool
    ensures { result ≡ is_answered upto (at_topic topic.now (by_bytes fetches.now.entries)) }
{
    match by_topic::get(fetches, topic) {
        Some(fetch) => fetch.serial <= upto,
        None => false,
    }
}

// Whether the next missed fetch is the third.
fn is_last(fetches: &ByFetch, topic: &[u8]) -> bool
    ensures { result ≡ is_last (at_topic topic.now (by_bytes fetches.now.entries)) }
{
    match by_topic::get(fetches, topic) {
        Some(fetch) => fetch.missed >= 2,
        None => false,
    }
}

fn miss_more(by_topic: &mut ByFetch, topic: &[u8])
    requires more { is_last (at_topic topic.now (by_bytes by_topic.old.entries)) ≡ false }
    ensures entries { by_bytes by_topic.new.entries ≡ after_miss topic.now (by_bytes by_topic.old.entries) }
    ensures rows { (q : List ℕ) → at_topic q (by_bytes by_topic.new.entries) ≡ cond (bytes_eq q topic.now) (missed (at_topic topic.now (by_bytes by_topic.old.entries))) (at_topic q (by_bytes by_topic.old.entries)) }
    ensures ordered { IsAscending (keys_of (by_bytes by_topic.new.entries)) }
{
    if let Some(fetch) = by_topic.get_mut(topic) {
        fetch.missed += 1;
    }
}

fn set_ping(by_topic: &mut ByFetch, topic: &[u8], ping: LastPing)
    ensures entries { by_bytes by_topic.new.entries ≡ restored topic.now (Some ping) (by_bytes by_topic.old.entries) }
    ensures rows { (q : List ℕ) → at_topic q (by_bytes by_topic.new.entries) ≡ cond (bytes_eq q topic.now) (option_map (with_ping ping) (at_topic topic.now (by_bytes by_topic.old.entries))) (at_topic q (by_bytes by_topic.old.entries)) }
    ensures ordered { IsAscending (keys_of (by_bytes by_topic.new.entries)) }
{
    if let Some(fetch) = by_topic.get_mut(topic) {
        fetch.serial = ping.serial;
        fetch.missed = ping.missed;
    }
}

fn is_held(held: &[Work], topic: &[u8]) -> bool
    ensures { result ≡ is_out held.now (Fetch topic.now 0) }
{
    held.iter().any(|work| is_fetch(work, topic))
}

fn is_fetch(work: &Work, topic: &[u8]) -> bool
    ensures { result ≡ same_work (Fetch topic.now 0) work.now }
{
    match work {
        Work::Fetch { topic: other, .. } => topic == other.as_slice(),
        _ => false,
    }
}
