// The table of leases.
ghost use Rattle.std.specs.Prelude.{◌≡◌, ◌<◌, ◌≤◌, ◌^◌, [], ◌∷◌, List, ℕ, Some, None, option_map, true, is_some, IfOk, OnOk, OnErr, cond, ◌==◌, length, filter, max, bytes_eq};
ghost use Rattle.std.specs.List.{list_any};
ghost use Rattle.std.specs.Option.{option_copied};
ghost use Rattle.ws_model.specs.declared.event.Event.{Event};
ghost use Rattle.ws_model.specs.Leases.{is_on, live};
ghost use Rattle.ws_model.specs.Legal.{Legal};
ghost use Rattle.ws_model.specs.Revocation.{live_lease_of};
ghost use Rattle.ws_lease.specs.Table.{lease_at, live_at, live_of_pair, live_numbers, live_rows, number_of_pair, with_lease, without, without_one, unless_pair, is_end, TakesExpired};
ghost use Rattle.ws_lease.specs.Stands.{StandsFor, AreNumbersOf, MakesLease, EndsLease, is_numbered, live_numbered};

use crate::live_of::LiveOf;
use crate::rows::{self, Ends};
use crate::topic_index::{self, TopicIndex};
use std::alloc::Global;
use std::collections::{BTreeMap, BTreeSet};
use std::marker::Model;
use ws_model::{Cause, Lease, NoMemory};

/// The leases that may be live, by number, by topic, by topic and callback, and by end.
///
/// Times are whole seconds below 2^48. A lease that has expired is held until `take_expired` takes it
/// out, and no answer has it. Contracts see the table as the list of the held leases with their
/// numbers, rising.
#[derive(Drop)]
pub struct Leases {
    alloc: Global,
    by_number: BTreeMap<u64, Lease>,
    by_topic: TopicIndex,
    by_end: Ends,
}

impl Model for Leases {
    ghost use Rattle.std.specs.Prelude.{List, ℕ};
    ghost use Rattle.ws_model.specs.declared.lease.Lease.{Lease};

    ghost Value = { List (ℕ × Lease) };

    ghost use Rattle.ws_lease.specs.Index.{pair_at, topic_end_at};
    ghost use Rattle.ws_lease.specs.Indexed.{IsIndexed, has_end};

    ghost view = { λ s. s.by_number.entries };

    ghost invariant = { λ s. IsIndexed s.by_number.entries (pair_at s.by_topic) (topic_end_at s.by_topic) (has_end s.by_end) };
}

impl Leases {
    /// A table of no leases. It takes no memory.
    pub fn empty(alloc: Global) -> Leases
        ensures value { result ≡ [] }
        ensures stands { StandsFor [] 0 result }
    {
        Leases {
            alloc,
            by_number: BTreeMap::new(alloc),
            by_topic: BTreeMap::new(alloc),
            by_end: BTreeSet::new(alloc),
        }
    }

    /// The lease of a number, where it is live at `t`.
    pub fn get(&self, n: u64, t: u64) -> Option<&Lease>
        requires { t < 2 ^ 48 }
        ensures value { option_copied result ≡ live_at n t self.now }
        ensures stands { (h : List Event) (since : ℕ) → StandsFor h since self.now → since ≤ t → option_copied result ≡ live_numbered h t n }
    {
        let lease = self.by_number.get(&n)?;
        if rows::is_unexpired(lease, t) {
            Some(lease)
        } else {
            None
        }
    }

    /// Whether a lease of this number is held, be it live or not.
    pub fn holds(&self, n: u64) -> bool
        ensures { result ≡ is_some (lease_at n self.now) }
    {
        self.by_number.contains_key(&n)
    }

    /// Whether the lease of a number is live at `t`.
    pub fn live(&self, n: u64, t: u64) -> bool
        requires { t < 2 ^ 48 }
        ensures value { result ≡ is_some (live_at n t self.now) }
        ensures stands { (h : List Event) (since : ℕ) → StandsFor h since self.now → since ≤ t → result ≡ list_any (is_numbered n) (live h t) }
    {
        self.get(n, t).is_some()
    }

    /// The number of the lease of a topic and a callback that is live at `t`.
    pub fn find(&self, topic: &[u8], callback: &[u8], t: u64) -> Option<u64>
        requires { t < 2 ^ 48 }
        ensures value { result ≡ live_of_pair topic.now callback.now t self.now }
        ensures stands { (h : List Event) (since : ℕ) → Legal h → StandsFor h since self.now → since ≤ t →
            result ≡ option_map (λ l. l.intent.n) (live_lease_of h t topic.now callback.now) }
    {
        let n = topic_index::number_of(&self.by_topic, topic, callback);
        rows::still_live(&self.by_number, n, t)
    }

    /// The numbers of the leases of a topic that are live at `t`, rising.
    pub fn live_of_topic(&self, topic: &[u8], t: u64) -> LiveOf<'_>
        requires { t < 2 ^ 48 }
        ensures value { result ≡ live_numbers topic.now t self.now }
        ensures stands { (h : List Event) (since : ℕ) → Legal h → StandsFor h since self.now → since ≤ t →
            AreNumbersOf result (filter (λ l. bytes_eq l.intent.topic topic.now) (live h t)) }
    {
        match self.by_topic.get(topic) {
            Some(of_topic) => LiveOf::of(of_topic.ends(), t),
            None => LiveOf::none(t),
        }
    }

    /// How many leases are live at `t`. It goes over the held ones that have expired by then.
    pub fn count(&self, t: u64) -> u64
        requires { t < 2 ^ 48 }
        ensures value { result ≡ length (live_rows t self.now) }
        ensures stands { (h : List Event) (since : ℕ) → Legal h → StandsFor h since self.now → since ≤ t → result ≡ length (live h t) }
        ensures small { result < 2 ^ 63 }
    {
        rows::count_after(&self.by_end, t)
    }

    /// Puts a lease into the table, in the place of the one of the same topic and callback, and gives
    /// the number of that one where it was live at `t`. At an error the table is as it was.
    pub fn confirm(&mut self, lease: Lease, t: u64) -> Result<Option<u64>, NoMemory>
        requires in_time { t < 2 ^ 48 }
        requires mode { is_on lease.intent.mode ≡ true }
        requires new { lease_at lease.intent.n self.old ≡ None }
        requires sent { lease.sent ≤ t }
        ensures replaced { IfOk result (λ o. o ≡ live_of_pair lease.intent.topic lease.intent.callback t self.old) }
        ensures value { OnOk result (self.new ≡ without_one (number_of_pair lease.intent.topic lease.intent.callback self.old) (with_lease lease self.old)) }
        ensures looks { OnOk result ((q : ℕ) → lease_at q self.new ≡ cond (lease.intent.n == q) (Some lease) (unless_pair lease (lease_at q self.old))) }
        ensures stands { OnOk result ((h : List Event) (e : Event) (since : ℕ) → StandsFor h since self.old → since ≤ e.t → Legal (e ∷ h) → MakesLease e h lease →
            StandsFor (e ∷ h) e.t self.new) }
        ensures err { OnErr result (self.new ≡ self.old) }
    {
        let n = lease.intent.n;
        let end = rows::end_of(&lease);
        let topic = rows::copied(self.alloc, lease.intent.topic.as_slice())?;
        let callback = rows::copied(self.alloc, lease.intent.callback.as_slice())?;
        self.by_number.insert(n, lease)?;
        match rows::add(
            self.alloc,
            &mut self.by_topic,
            &mut self.by_end,
            topic,
            callback,
            n,
            end,
        ) {
            Err(fault) => {
                let _ = self.by_number.remove(&n);
                Err(fault)
            }
            Ok(before) => Ok(rows::take_out(&mut self.by_number, &mut self.by_end, before, t)),
        }
    }

    /// Ends a live lease, as unsubscribed, gone or revoked.
    pub fn end(&mut self, n: u64, cause: Cause, t: u64)
        requires in_time { t < 2 ^ 48 }
        requires live { is_some (live_at n t self.old) ≡ true }
        requires cause { is_end cause ≡ true }
        ensures value { self.new ≡ without n self.old }
        ensures looks { (q : ℕ) → lease_at q self.new ≡ cond (n == q) None (lease_at q self.old) }
        ensures stands { (h : List Event) (e : Event) (since : ℕ) → StandsFor h since self.old → since ≤ e.t → Legal (e ∷ h) → EndsLease e h n cause →
            StandsFor (e ∷ h) e.t self.new }
    {
        let _ = self.take(n);
    }

    /// Takes out the first to expire of the held leases, where it has expired by `t`.
    pub fn take_expired(&mut self, t: u64) -> Option<Lease>
        requires { t < 2 ^ 48 }
        ensures value { TakesExpired t self.old result self.new }
        ensures stands { (h : List Event) (since : ℕ) → StandsFor h since self.old → StandsFor h (max since t) self.new }
    {
        let n = rows::first_expired(&self.by_end, t)?;
        self.take(n)
    }

    /// Takes out the lease of a number.
    fn take(&mut self, n: u64) -> Option<Lease>
        ensures taken { result ≡ lease_at n self.old }
        ensures value { self.new ≡ without n self.old }
        ensures looks { (q : ℕ) → lease_at q self.new ≡ cond (n == q) None (lease_at q self.old) }
    {
        let lease = self.by_number.remove(&n)?;
        topic_index::remove(
            &mut self.by_topic,
            lease.intent.topic.as_slice(),
            lease.intent.callback.as_slice(),
            n,
        );
        let _ = self.by_end.remove(&(rows::end_of(&lease), n));
        Some(lease)
    }
}
