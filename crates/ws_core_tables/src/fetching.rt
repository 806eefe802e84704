// What happened, applied to the tables: new versions.
ghost use Rattle.std.specs.Prelude.{◌≡◌, ◌≤◌, ◌∷◌, ℕ, List, filter, bytes_eq, OnOk, OnErr, Some, cond, false, ◌==◌};
ghost use Rattle.ws_model.specs.declared.event.Event.{Event};
ghost use Rattle.ws_model.specs.declared.event.What.TheVariants.{Fetched};
ghost use Rattle.ws_model.specs.Legal.{Legal};
ghost use Rattle.ws_model.specs.Leases.{live};
ghost use Rattle.ws_lease.specs.Stands.{StandsFor as LeasesStand, AreNumbersOf};
ghost use Rattle.ws_lease.specs.Table.{live_at, live_numbers};
ghost use Rattle.ws_topic.specs.Rows.{number_at};
ghost use Rattle.ws_topic.specs.Stands.{StandsFor as TopicsStand};
ghost use Rattle.ws_delivery.specs.Table.{pair_at};
ghost use Rattle.ws_core_tables.specs.Births.{born_for, is_among};
ghost use Rattle.ws_core_tables.specs.Stands.{CanFollow, GoesOn};

use crate::Tables;
use crate::births::{close_all, open_all};
use ws_model::{Event, NoMemory, Version};

impl Tables {
    /// A fetch gave a new version, which is owed to the live leases of its topic.
    pub(crate) fn fetched(&mut self, event: &Event, version: &Version) -> Result<(), NoMemory>
        requires kind { event.now.what ≡ Fetched version.now }
        requires follows { CanFollow self.old event.now }
        ensures ok { OnOk result (GoesOn event.now self.old self.new) }
        ensures err { OnErr result (self.new ≡ self.old) }
    {
        // How the pairs are held is known from their number.
        let _ = self.deliveries.count();
        match self.deliver(event, version) {
            Ok(()) => {
                self.numbers = self.numbers.after(event);
                Ok(())
            }
            Err(fault) => {
                let numbers = self.leases.live_of_topic(version.topic.as_slice(), event.t);
                close_all(&mut self.deliveries, numbers, version.ver, event.t);
                let _ = self.deliveries.count();
                Err(fault)
            }
        }
    }

    /// Keeps a new version, and opens its pairs. At an error some of these are open.
    fn deliver(&mut self, event: &Event, version: &Version) -> Result<(), NoMemory>
        requires kind { event.now.what ≡ Fetched version.now }
        requires follows { CanFollow self.old event.now }
        ensures topics { OnOk result ((h : List Event) (e : Event) → TopicsStand self.old.topics h → Legal (e ∷ h) → e.what ≡ Fetched version.now → TopicsStand self.new.topics (e ∷ h)) }
        ensures versions { OnOk result ((q : ℕ) → number_at q self.new.topics.versions ≡ cond (q == version.now.ver) (Some version.now) (number_at q self.old.topics.versions)) }
        ensures kept { OnErr result (self.new.topics ≡ self.old.topics) }
        ensures numbered { OnOk result ((h : List Event) (since : ℕ) → Legal h → LeasesStand h since self.old.leases → since ≤ event.now.t →
            AreNumbersOf (live_numbers version.now.topic event.now.t self.old.leases) (filter (λ l. bytes_eq l.intent.topic version.now.topic) (live h event.now.t))) }
        ensures pairs { OnOk result ((v n : ℕ) → pair_at v n self.new.deliveries ≡ cond (is_among version.now.ver (live_numbers version.now.topic event.now.t self.old.leases) v n) (born_for event.now.t (live_at n event.now.t self.old.leases)) (pair_at v n self.old.deliveries)) }
        ensures others { (v n : ℕ) → is_among version.now.ver (live_numbers version.now.topic event.now.t self.old.leases) v n ≡ false → pair_at v n self.new.deliveries ≡ pair_at v n self.old.deliveries }
        ensures intents { self.new.intents ≡ self.old.intents }
        ensures leases { self.new.leases ≡ self.old.leases }
        ensures numbers { self.new.numbers ≡ self.old.numbers }
    {
        let copy = version.copy(self.alloc)?;
        let numbers = self.leases.live_of_topic(version.topic.as_slice(), event.t);
        open_all(
            &mut self.deliveries,
            &self.leases,
            numbers,
            version.ver,
            event.t,
        )?;
        self.topics.fetched(copy)
    }
}
