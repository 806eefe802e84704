// What the tables hold, as the outcomes of exchanges go by it.
ghost use Rattle.std.specs.Prelude.{◌≡◌, ◌≤◌, ◌<◌, ◌^◌, ℕ, List, IfOk, bytes_eq, filter, length};
ghost use Rattle.std.specs.Option.{option_copied};
ghost use Rattle.ws_model.specs.declared.event.Event.{Event};
ghost use Rattle.ws_model.specs.Leases.{live};
ghost use Rattle.ws_model.specs.Legal.{Legal, pending_of};
ghost use Rattle.ws_model.specs.Moment.{version_number};
ghost use Rattle.ws_model.specs.Versions.{latest_of};
ghost use Rattle.ws_core_tables.specs.Besides.{kept_besides};
ghost use Rattle.ws_core_tables.specs.Stands.{StandsFor};

use crate::Tables;
use ws_lease::LiveOf;
use ws_model::{Intent, NoMemory, Version};

impl Tables {
    /// The greatest number of a version so far.
    pub fn version_number(&self) -> u64
        ensures stands { (h : List Event) (since : ℕ) → StandsFor h since self.now → result ≡ version_number h }
    {
        self.numbers.all.version
    }

    /// The pending intent of a number.
    pub fn pending_intent(&self, n: u64) -> Option<&Intent>
        ensures stands { (h : List Event) (since : ℕ) → StandsFor h since self.now → option_copied result ≡ pending_of h n }
    {
        match self.intents.waiting(n) {
            Some(waiting) => Some(&waiting.intent),
            None => None,
        }
    }

    /// The latest version of a topic.
    pub fn latest_version(&self, topic: &[u8]) -> Option<&Version>
        ensures stands { (h : List Event) (since : ℕ) → StandsFor h since self.now → option_copied result ≡ latest_of topic.now h }
    {
        match self.topics.latest(topic) {
            Some(ver) => self.topics.version(ver),
            None => None,
        }
    }

    /// How many leases of a topic are live at `t`.
    pub fn live_of_topic(&self, topic: &[u8], t: u64) -> u64
        requires { t < 2 ^ 48 }
        ensures stands { (h : List Event) (since : ℕ) → StandsFor h since self.now → Legal h → since ≤ t → result ≡ length (filter (λ l. bytes_eq l.intent.topic topic.now) (live h t)) }
    {
        // That they are few is known from the number of all live leases.
        let _ = self.leases.count(t);
        how_many(self.leases.live_of_topic(topic, t))
    }

    /// How many bytes the bodies of all held versions have: no fewer than of those that are owed, or are
    /// the latest of their topics.
    pub fn bodies(&self) -> u64
        ensures stands { (h : List Event) (since t : ℕ) (topic : List ℕ) → StandsFor h since self.now → Legal h → since ≤ t → kept_besides h t topic ≤ result }
    {
        self.topics.bodies()
    }

    /// How many bytes the bodies have of the versions that are owed at `t` to some lease, or are the
    /// latest of another topic. It goes over all open pairs and all held versions.
    pub fn kept_besides(&self, topic: &[u8], t: u64) -> Result<u64, NoMemory>
        ensures stands { (h : List Event) (since : ℕ) → StandsFor h since self.now → Legal h → since ≤ t → IfOk result (λ k. k ≡ kept_besides h t topic.now) }
    {
        let owed = self.deliveries.owed_versions(self.alloc, t)?;
        Ok(self.topics.bodies_besides(topic, &owed))
    }
}

/// How many numbers there are.
fn how_many(numbers: LiveOf<'_>) -> u64
    requires few { length numbers < 2 ^ 64 }
    ensures { result ≡ length numbers.entry }
{
    let mut number = 0;
    for _number in numbers {
        number += 1;
    }
    number
}
