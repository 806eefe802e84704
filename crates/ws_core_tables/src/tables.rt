// The four tables, and the numbers.
ghost use Rattle.std.specs.Prelude.{◌≡◌, ◌≤◌, ◌<◌, ◌^◌, ◌∷◌, [], ℕ, List, option_map};
ghost use Rattle.ws_model.specs.declared.event.Event.{Event};
ghost use Rattle.ws_model.specs.declared.event.Tally.{Tally};
ghost use Rattle.ws_model.specs.declared.event.What.TheVariants.{Tally as TallyOf};
ghost use Rattle.ws_model.specs.Due.{due};
ghost use Rattle.ws_model.specs.Legal.{Legal};
ghost use Rattle.ws_core_tables.specs.Stands.{StandsFor, first_of, work_of};

use crate::{DueWork, Numbers};
use std::alloc::Global;
use std::marker::Model;
use ws_delivery::Deliveries;
use ws_intent::Intents;
use ws_lease::Leases;
use ws_model::Held;
use ws_topic::Topics;

/// The tables of intents, leases, topics and deliveries, and the numbers. Contracts see them as the
/// record of what each shows.
#[derive(Drop)]
pub struct Tables {
    pub(crate) alloc: Global,
    pub(crate) intents: Intents,
    pub(crate) leases: Leases,
    pub(crate) topics: Topics,
    pub(crate) deliveries: Deliveries,
    pub(crate) numbers: Numbers,
}

impl Model for Tables {
    ghost use Rattle.ws_core_tables.specs.Rows.{Rows};

    ghost Value = { Rows };

    ghost view = { λ s. record { intents = s.intents; leases = s.leases; topics = s.topics; deliveries = s.deliveries; numbers = s.numbers } };
}

impl Tables {
    /// Tables of nothing. They take no memory.
    pub fn empty(alloc: Global) -> Tables
        ensures stands { StandsFor [] 0 result }
    {
        Tables {
            alloc,
            intents: Intents::empty(alloc),
            leases: Leases::empty(alloc),
            topics: Topics::empty(alloc),
            deliveries: Deliveries::empty(alloc),
            numbers: Numbers::empty(),
        }
    }

    /// The work that is due first at `t`, but what is held: a verification, a notice, a fetch, a push.
    /// It takes no memory.
    pub fn due(&self, t: u64, held: &Held) -> Option<DueWork<'_>>
        ensures stands { (h : List Event) (since : ℕ) → StandsFor h since self.now → Legal h → since ≤ t → option_map work_of result ≡ first_of (due h t held.now) }
    {
        if let Some(due) = self.intents.next_due(held) {
            return Some(DueWork::of_intent(due));
        }
        if let Some(topic) = self.topics.next_due(held) {
            let upto = self.numbers.all.serial;
            return Some(DueWork::Fetch { topic, upto });
        }
        let (ver, lease) = self.deliveries.next_due(t, held)?;
        Some(DueWork::Push { ver, lease })
    }
}
