// The kept versions by number, and the latest one of each topic.
ghost use Rattle.std.specs.Prelude.{◌≡◌, ◌≤◌, ◌+◌, ◌&&◌, [], ℕ, List, OnOk, OnErr, IfOk, Some, None, false, length, cond, ◌==◌, bytes_eq};
ghost use Rattle.std.specs.Option.{option_copied};
ghost use Rattle.std.specs.List.{sum_by};
ghost use Rattle.std.specs.List.Sorted.{IsStrictlySortedBy};
ghost use Rattle.std.specs.Map.{keys_of, values_of};
ghost use Rattle.std.specs.BTreeMap.{IsOrdered, IsUnchanged, get};
ghost use Rattle.std.specs.Ordering.{nat_cmp};
ghost use Rattle.ws_topic.specs.Besides.{bodies_besides};
ghost use Rattle.ws_topic.specs.ByTopic.{IsAscending, at_topic, by_bytes, with_topic};
ghost use Rattle.ws_topic.specs.Rows.{number_at, with_row, without, size, size_at, may_forget, may_forget_row, forgotten};

use crate::besides::bodies_besides;
use crate::by_topic::{self, ByTopic, copied};
use std::alloc::Global;
use std::collections::btree_map::Entry;
use std::collections::{BTreeMap, BTreeSet};
use std::marker::Model;
use ws_model::{NoMemory, Version};

type Latest = ByTopic<u64>;

/// The kept versions. Contracts see them as the list of the numbers with their versions, rising, and
/// the list of the topics with the numbers of their latest versions, in order.
#[derive(Drop)]
pub struct Versions {
    alloc: Global,
    by_number: BTreeMap<u64, Version>,
    latest: Latest,
    bodies: u64,
}

impl Model for Versions {
    ghost use Rattle.ws_topic.specs.Rows.{Kept};
    ghost use Rattle.ws_topic.specs.ByTopic.{by_bytes};

    ghost Value = { Kept };

    ghost use Rattle.ws_topic.specs.Stored.{IsStored};

    ghost view = { λ s. record { versions = s.by_number.entries; latest = by_bytes s.latest.entries } };

    ghost invariant = { λ s. IsStored s.by_number.entries (by_bytes s.latest.entries) s.bodies };
}

impl Versions {
    /// None. It takes no memory.
    pub fn empty(alloc: Global) -> Versions
        ensures { result ≡ record { versions = []; latest = [] } }
    {
        Versions {
            alloc,
            by_number: BTreeMap::new(alloc),
            latest: BTreeMap::new(alloc),
            bodies: 0,
        }
    }

    /// The kept version of a number.
    pub fn get(&self, ver: u64) -> Option<&Version>
        ensures { option_copied result ≡ number_at ver self.now.versions }
    {
        self.by_number.get(&ver)
    }

    /// The number of the latest version of a topic.
    pub fn latest(&self, topic: &[u8]) -> Option<u64>
        ensures { result ≡ at_topic topic.now self.now.latest }
    {
        latest_in(&self.latest, topic)
    }

    /// How many topics have a version.
    pub fn topics(&self) -> u64
        ensures count { result ≡ length self.now.latest }
        ensures ordered { IsAscending (keys_of self.now.latest) }
    {
        self.latest.len() as u64
    }

    /// How many bytes the bodies of the kept versions have.
    pub fn bodies(&self) -> u64
        ensures bodies { result ≡ sum_by size (values_of self.now.versions) }
        ensures ordered { IsStrictlySortedBy nat_cmp (keys_of self.now.versions) }
    {
        self.bodies
    }

    /// How many bytes the bodies have of the kept versions whose numbers are among these, or that are
    /// the latest of another topic. It goes over all kept versions.
    pub fn bodies_besides(&self, topic: &[u8], among: &BTreeSet<u64>) -> u64
        ensures bodies { result ≡ bodies_besides topic.now among.now self.now.latest self.now.versions }
        ensures ordered { IsStrictlySortedBy nat_cmp (keys_of self.now.versions) }
    {
        // That the bodies' bytes are few is known from their count.
        let _ = self.bodies();
        bodies_besides(&self.by_number, &self.latest, topic, among)
    }

    /// Adds a version, which is the latest of its topic then. Its number isn't held.
    pub fn add(&mut self, version: Version) -> Result<(), NoMemory>
        requires new { number_at version.ver self.old.versions ≡ None }
        ensures ok { OnOk result (self.new ≡ record { versions = with_row version.ver version self.old.versions; latest = with_topic version.topic version.ver self.old.latest }) }
        ensures look { OnOk result ((q : ℕ) → number_at q self.new.versions ≡ cond (q == version.ver) (Some version) (number_at q self.old.versions)) }
        ensures look_latest { OnOk result ((q : List ℕ) → at_topic q self.new.latest ≡ cond (bytes_eq q version.topic) (Some version.ver) (at_topic q self.old.latest)) }
        ensures err { OnErr result (self.new ≡ self.old) }
    {
        let bodies = more(self.bodies, &version)?;
        let topic = copied(self.alloc, version.topic.as_slice())?;
        put_both(&mut self.by_number, &mut self.latest, topic, version)?;
        self.bodies = bodies;
        Ok(())
    }

    /// Forgets a kept version that isn't the latest of its topic. Any other number changes nothing.
    pub fn forget(&mut self, ver: u64)
        ensures rows { self.new ≡ forgotten ver self.old }
        ensures look { (q : ℕ) → number_at q self.new.versions ≡ cond (may_forget ver self.old && (q == ver)) None (number_at q self.old.versions) }
        ensures latest { self.new.latest ≡ self.old.latest }
    {
        if self.may_forget(ver) {
            let freed = take(&mut self.by_number, ver);
            self.bodies -= freed;
        }
    }

    fn may_forget(&self, ver: u64) -> bool
        ensures { result ≡ may_forget ver self.now }
    {
        match self.by_number.get(&ver) {
            Some(version) => latest_in(&self.latest, version.topic.as_slice()) != Some(ver),
            None => false,
        }
    }
}

pub(crate) fn latest_in(latest: &Latest, topic: &[u8]) -> Option<u64>
    ensures { result ≡ at_topic topic.now (by_bytes latest.now.entries) }
{
    by_topic::get(latest, topic).copied()
}

pub(crate) fn size(version: &Version) -> u64
    ensures { result ≡ size version.now }
{
    version.body.as_slice().len() as u64
}

// The bytes of the bodies with one version more. More than a count can say find no memory.
fn more(bodies: u64, version: &Version) -> Result<u64, NoMemory>
    ensures { IfOk result (λ c. c ≡ bodies + size version.now) }
{
    bodies.checked_add(size(version)).ok_or(NoMemory)
}

// Takes a version out, and gives the bytes of its body.
fn take(by_number: &mut BTreeMap<u64, Version>, ver: u64) -> u64
    ensures size { result ≡ size_at (number_at ver by_number.old.entries) }
    ensures entries { by_number.new.entries ≡ without ver by_number.old.entries }
    ensures rows { (q : ℕ) → number_at q by_number.new.entries ≡ cond (q == ver) None (number_at q by_number.old.entries) }
    ensures ordered { IsOrdered nat_cmp by_number.new }
{
    match by_number.remove(&ver) {
        Some(version) => size(&version),
        None => 0,
    }
}

// Adds the version to both maps, or leaves both as they were.
fn put_both(
    by_number: &mut BTreeMap<u64, Version>,
    latest: &mut Latest,
    topic: Vec<u8>,
    version: Version,
) -> Result<(), NoMemory>
    requires new { get nat_cmp by_number.old version.ver ≡ None }
    ensures entries { OnOk result (by_number.new.entries ≡ with_row version.ver version by_number.old.entries) }
    ensures rows { OnOk result ((q : ℕ) → number_at q by_number.new.entries ≡ cond (q == version.ver) (Some version) (number_at q by_number.old.entries)) }
    ensures ordered { OnOk result (IsOrdered nat_cmp by_number.new) }
    ensures latest { OnOk result (by_bytes latest.new.entries ≡ with_topic topic.items version.ver (by_bytes latest.old.entries)) }
    ensures look_latest { OnOk result ((q : List ℕ) → at_topic q (by_bytes latest.new.entries) ≡ cond (bytes_eq q topic.items) (Some version.ver) (at_topic q (by_bytes latest.old.entries))) }
    ensures ordered_latest { OnOk result (IsAscending (keys_of (by_bytes latest.new.entries))) }
    ensures err { OnErr result (IsUnchanged by_number.old by_number.new) }
    ensures err_latest { OnErr result (IsUnchanged latest.old latest.new) }
{
    let ver = version.ver;
    match by_number.entry(ver)? {
        Entry::Vacant(room) => {
            by_topic::put(latest, topic, ver)?;
            let _ = room.insert(version);
            Ok(())
        }
        Entry::Occupied(_) => Ok(()),
    }
}
