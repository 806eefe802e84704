// The table of topics.
ghost use Rattle.std.specs.Prelude.{◌≡◌, ◌∷◌, [], not, ℕ, List, OnOk, OnErr, IfSome, Some, None, find, length, option_map, cond, ◌==◌, ◌&&◌, bytes_eq};
ghost use Rattle.std.specs.Option.{option_copied};
ghost use Rattle.std.specs.List.{sum_by};
ghost use Rattle.std.specs.List.Sorted.{IsStrictlySortedBy};
ghost use Rattle.std.specs.Map.{keys_of, values_of};
ghost use Rattle.std.specs.Ordering.{nat_cmp};
ghost use Rattle.ws_model.specs.declared.event.Event.{Event};
ghost use Rattle.ws_model.specs.declared.event.Tally.{Tally};
ghost use Rattle.ws_model.specs.declared.event.What.TheVariants.{Fetched, Pinged, Same, Unfetched, Tally as TallyOf};
ghost use Rattle.ws_model.specs.declared.work.Work.TheVariants.{Fetch};
ghost use Rattle.ws_model.specs.Due.{due_fetches, is_out};
ghost use Rattle.ws_model.specs.Legal.{Legal};
ghost use Rattle.ws_model.specs.Moment.{serial};
ghost use Rattle.ws_model.specs.Versions.{fetches, latest, latest_of, versions};
ghost use Rattle.ws_topic.specs.Besides.{bodies_besides};
ghost use Rattle.ws_topic.specs.ByTopic.{at_topic, with_topic};
ghost use Rattle.ws_topic.specs.Rows.{Rows, number_at, with_row, size, may_forget, answered, missed, after_answer, after_miss, without_version, kept_of};
ghost use Rattle.ws_topic.specs.Restored.{last_ping, pinged_rows, restored, with_fetches};
ghost use Rattle.ws_topic.specs.Stands.{StandsFor, version_number};
ghost use Rattle.ws_topic.specs.Stored.{IsListed};

use crate::fetches::Fetches;
use crate::rows::{LastPing, OwedFetch};
use crate::versions::Versions;
use std::alloc::Global;
use std::collections::BTreeSet;
use std::marker::Model;
use ws_model::{Bytes, Held, Key, NoMemory, Version};

/// The kept versions, the latest one of each topic, and the owed fetches. Contracts see them as a list
/// of numbers with their versions, rising, and two lists of topics, in order, with what stands there.
#[derive(Drop)]
pub struct Topics {
    alloc: Global,
    versions: Versions,
    fetches: Fetches,
}

impl Model for Topics {
    ghost use Rattle.ws_topic.specs.Rows.{Rows};

    ghost Value = { Rows };

    ghost view = { λ s. record { versions = s.versions.versions; latest = s.versions.latest; fetches = s.fetches } };
}

impl Topics {
    /// No topics. It takes no memory.
    pub fn empty(alloc: Global) -> Topics
        ensures empty { result ≡ record { versions = []; latest = []; fetches = [] } }
        ensures stands { StandsFor result [] }
        ensures tally { (e : Event) (c : Tally) → e.what ≡ TallyOf c → StandsFor result (e ∷ []) }
    {
        Topics {
            alloc,
            versions: Versions::empty(alloc),
            fetches: Fetches::empty(alloc),
        }
    }

    /// Makes the fetch of a topic owed, from the ping of this serial on, with no fetch missed.
    pub fn pinged(&mut self, topic: &[u8], serial: u64) -> Result<(), NoMemory>
        ensures ok { OnOk result (self.new ≡ record { versions = self.old.versions; latest = self.old.latest; fetches = with_topic topic.now (record { topic = topic.now; serial = serial; missed = 0 }) self.old.fetches }) }
        ensures look { OnOk result ((q : List ℕ) → at_topic q self.new.fetches ≡ cond (bytes_eq q topic.now) (Some (record { topic = topic.now; serial = serial; missed = 0 })) (at_topic q self.old.fetches)) }
        ensures stands { OnOk result ((h : List Event) (e : Event) → StandsFor self.old h → Legal (e ∷ h) → e.what ≡ Pinged topic.now → e.serial ≡ serial → StandsFor self.new (e ∷ h)) }
        ensures err { OnErr result (self.new ≡ self.old) }
    {
        self.fetches.ping(topic, serial)
    }

    /// The latest ping of a topic whose fetch is owed.
    pub fn last_ping(&self, topic: &[u8]) -> Option<LastPing>
        ensures ping { result ≡ last_ping topic.now self.now }
        ensures listed { IsListed self.now.fetches }
    {
        // How the fetches are held is known from their number.
        let _ = self.fetches.count();
        let fetch = self.fetches.get(topic)?;
        Some(LastPing {
            serial: fetch.serial,
            missed: fetch.missed,
        })
    }

    /// Takes a ping of a topic back: its fetch is owed from the ping before on, with the fetches that were
    /// missed since then, or not owed where there was none. It takes no memory. A topic whose fetch isn't
    /// owed changes nothing.
    pub fn restore(&mut self, topic: &[u8], before: Option<LastPing>)
        ensures rows { self.new ≡ with_fetches (restored topic.now before self.old.fetches) self.old }
        ensures undoes { (rows : Rows) (serial : ℕ) → IsListed rows.fetches → before ≡ last_ping topic.now rows → self.old ≡ pinged_rows topic.now serial rows → self.new ≡ rows }
    {
        self.fetches.restore(topic, before);
    }

    /// Adds a version, which is the latest of its topic then and settles the fetch of a ping that isn't
    /// later than its `upto`. Its number is above all held.
    pub fn fetched(&mut self, version: Version) -> Result<(), NoMemory>
        requires new { number_at version.ver self.old.versions ≡ None }
        ensures ok { OnOk result (self.new ≡ record { versions = with_row version.ver version self.old.versions; latest = with_topic version.topic version.ver self.old.latest; fetches = after_answer version.topic version.upto self.old.fetches }) }
        ensures look { OnOk result ((q : ℕ) → number_at q self.new.versions ≡ cond (q == version.ver) (Some version) (number_at q self.old.versions)) }
        ensures look_latest { OnOk result ((q : List ℕ) → at_topic q self.new.latest ≡ cond (bytes_eq q version.topic) (Some version.ver) (at_topic q self.old.latest)) }
        ensures look_fetches { OnOk result ((q : List ℕ) → at_topic q self.new.fetches ≡ cond (bytes_eq q version.topic) (answered version.upto (at_topic version.topic self.old.fetches)) (at_topic q self.old.fetches)) }
        ensures stands { OnOk result ((h : List Event) (e : Event) → StandsFor self.old h → Legal (e ∷ h) → e.what ≡ Fetched version → StandsFor self.new (e ∷ h)) }
        ensures err { OnErr result (self.new ≡ self.old) }
    {
        let topic = Bytes::copy(self.alloc, version.topic.as_slice())?;
        let upto = version.upto;
        self.versions.add(version)?;
        self.fetches.answer(topic.as_slice(), upto);
        Ok(())
    }

    /// A fetch that was drawn at `upto` gave the latest version again: it settles the fetch of a ping
    /// that isn't later. A topic whose fetch isn't owed changes nothing.
    pub fn same(&mut self, topic: &[u8], upto: u64)
        ensures rows { self.new ≡ record { versions = self.old.versions; latest = self.old.latest; fetches = after_answer topic.now upto self.old.fetches } }
        ensures look { (q : List ℕ) → at_topic q self.new.fetches ≡ cond (bytes_eq q topic.now) (answered upto (at_topic topic.now self.old.fetches)) (at_topic q self.old.fetches) }
        ensures stands { (h : List Event) (e : Event) → StandsFor self.old h → Legal (e ∷ h) → e.what ≡ Same topic.now upto → StandsFor self.new (e ∷ h) }
    {
        self.fetches.answer(topic, upto);
    }

    /// A fetch of the topic gave no version: the third since the latest ping gives the fetch up. A topic
    /// whose fetch isn't owed changes nothing.
    pub fn unfetched(&mut self, topic: &[u8], _upto: u64)
        ensures rows { self.new ≡ record { versions = self.old.versions; latest = self.old.latest; fetches = after_miss topic.now self.old.fetches } }
        ensures look { (q : List ℕ) → at_topic q self.new.fetches ≡ cond (bytes_eq q topic.now) (missed (at_topic topic.now self.old.fetches)) (at_topic q self.old.fetches) }
        ensures stands { (h : List Event) (e : Event) (why : ℕ) → StandsFor self.old h → Legal (e ∷ h) → e.what ≡ Unfetched topic.now _upto why → StandsFor self.new (e ∷ h) }
    {
        self.fetches.miss(topic);
    }

    /// Forgets a kept version that isn't the latest of its topic. Any other number changes nothing.
    pub fn forget(&mut self, ver: u64)
        ensures rows { self.new ≡ without_version ver self.old }
        ensures look { (q : ℕ) → number_at q self.new.versions ≡ cond (may_forget ver (kept_of self.old) && (q == ver)) None (number_at q self.old.versions) }
        ensures stands { (h : List Event) → StandsFor self.old h → StandsFor self.new h }
    {
        self.versions.forget(ver);
    }

    /// The number of the latest version of a topic.
    pub fn latest(&self, topic: &[u8]) -> Option<u64>
        ensures latest { result ≡ at_topic topic.now self.now.latest }
        ensures stands { (h : List Event) → StandsFor self.now h → result ≡ version_number (latest_of topic.now h) }
    {
        self.versions.latest(topic)
    }

    /// The kept version of a number.
    pub fn version(&self, ver: u64) -> Option<&Version>
        ensures version { option_copied result ≡ number_at ver self.now.versions }
        ensures stands { (h : List Event) → StandsFor self.now h → IfSome (option_copied result) (λ v. find (λ w. w.ver == ver) (versions h) ≡ Some v) }
    {
        self.versions.get(ver)
    }

    /// The first topic, in order, whose fetch is owed and whose ticket isn't out.
    pub fn next_due(&self, held: &Held) -> Option<&Key>
        ensures first { option_map (λ k. k.now) result ≡ find (λ t. not (is_out held.now (Fetch t 0))) (keys_of self.now.fetches) }
        ensures stands { (h : List Event) → StandsFor self.now h → Legal h → option_map (λ k. Fetch k.now (serial h)) result ≡ find (λ w. not (is_out held.now w)) (due_fetches h) }
    {
        self.fetches.first_due(held)
    }

    /// How many topics have a version.
    pub fn topics(&self) -> u64
        ensures count { result ≡ length self.now.latest }
        ensures stands { (h : List Event) → StandsFor self.now h → Legal h → result ≡ length (latest h) }
    {
        self.versions.topics()
    }

    /// How many fetches are owed.
    pub fn fetches(&self) -> u64
        ensures count { result ≡ length self.now.fetches }
        ensures stands { (h : List Event) → StandsFor self.now h → Legal h → result ≡ length (fetches h) }
    {
        self.fetches.count()
    }

    /// The owed fetch of a topic, with its serial and its count.
    pub fn fetch(&self, topic: &[u8]) -> Option<&OwedFetch>
        ensures { option_copied result ≡ at_topic topic.now self.now.fetches }
    {
        self.fetches.get(topic)
    }

    /// How many bytes the bodies of the kept versions have.
    pub fn bodies(&self) -> u64
        ensures bodies { result ≡ sum_by size (values_of self.now.versions) }
        ensures ordered { IsStrictlySortedBy nat_cmp (keys_of self.now.versions) }
    {
        self.versions.bodies()
    }

    /// How many bytes the bodies have of the kept versions whose numbers are among these, or that are
    /// the latest of another topic. It goes over all kept versions.
    pub fn bodies_besides(&self, topic: &[u8], among: &BTreeSet<u64>) -> u64
        ensures bodies { result ≡ bodies_besides topic.now among.now self.now.latest self.now.versions }
        ensures ordered { IsStrictlySortedBy nat_cmp (keys_of self.now.versions) }
    {
        self.versions.bodies_besides(topic, among)
    }
}
