// What the tables hold, at a moment where it matters.
ghost use Rattle.std.specs.Prelude.{◌≡◌, ◌≤◌, ◌<◌, ◌^◌, ◌==◌, ℕ, List, IfSome, IsSome, Some, find, length, option_map, true};
ghost use Rattle.std.specs.List.{list_any};
ghost use Rattle.ws_model.specs.declared.event.Event.{Event};
ghost use Rattle.std.specs.Option.{option_copied};
ghost use Rattle.ws_model.specs.Answer.{has_live_lease, held_leases, pending_subscriptions};
ghost use Rattle.ws_model.specs.Intents.{notices, pending};
ghost use Rattle.ws_model.specs.Leases.{live};
ghost use Rattle.ws_model.specs.Legal.{Legal};
ghost use Rattle.ws_model.specs.Moment.{intent_number, serial};
ghost use Rattle.ws_model.specs.Pairs.{owed};
ghost use Rattle.ws_model.specs.Revocation.{live_lease_of};
ghost use Rattle.ws_model.specs.Versions.{fetches, latest, versions};
ghost use Rattle.ws_core_tables.specs.Stands.{StandsFor};

use crate::Tables;
use ws_model::Version;

impl Tables {
    /// The greatest serial so far.
    pub fn serial(&self) -> u64
        ensures stands { (h : List Event) (since : ℕ) → StandsFor h since self.now → result ≡ serial h }
    {
        self.numbers.all.serial
    }

    /// The greatest number of an intent so far.
    pub fn intent_number(&self) -> u64
        ensures stands { (h : List Event) (since : ℕ) → StandsFor h since self.now → result ≡ intent_number h }
    {
        self.numbers.all.intent
    }

    /// How many intents are pending.
    pub fn pending(&self) -> u64
        ensures count { result ≡ length self.now.intents.pending }
        ensures stands { (h : List Event) (since : ℕ) → StandsFor h since self.now → Legal h → result ≡ length (pending h) }
    {
        self.intents.pending()
    }

    /// How many leases are live at `t`, and how many pending intents ask for one, together.
    pub fn held_leases(&self, t: u64) -> u64
        requires in_time { t < 2 ^ 48 }
        requires few { length self.now.intents.pending < 2 ^ 32 }
        ensures stands { (h : List Event) (since : ℕ) → StandsFor h since self.now → Legal h → since ≤ t → result ≡ held_leases h t }
    {
        self.leases.count(t) + self.intents.subscriptions()
    }

    /// Whether a topic has a lease that is live at `t`.
    pub fn has_live_lease(&self, topic: &[u8], t: u64) -> bool
        requires { t < 2 ^ 48 }
        ensures stands { (h : List Event) (since : ℕ) → StandsFor h since self.now → Legal h → since ≤ t → result ≡ has_live_lease h t topic.now }
    {
        self.leases.live_of_topic(topic, t).next().is_some()
    }

    /// The number of the lease of a topic and a callback that is live at `t`.
    pub fn live_lease(&self, topic: &[u8], callback: &[u8], t: u64) -> Option<u64>
        requires { t < 2 ^ 48 }
        ensures stands { (h : List Event) (since : ℕ) → StandsFor h since self.now → Legal h → since ≤ t → result ≡ option_map (λ l. l.intent.n) (live_lease_of h t topic.now callback.now) }
    {
        self.leases.find(topic, callback, t)
    }

    /// How many pending intents ask to subscribe.
    pub fn subscriptions(&self) -> u64
        ensures stands { (h : List Event) (since : ℕ) → StandsFor h since self.now → Legal h → result ≡ length (pending_subscriptions h) }
    {
        self.intents.subscriptions()
    }

    /// How many notices are owed.
    pub fn notices(&self) -> u64
        ensures stands { (h : List Event) (since : ℕ) → StandsFor h since self.now → Legal h → result ≡ length (notices h) }
    {
        self.intents.notices()
    }

    /// How many leases are live at `t`.
    pub fn live_leases(&self, t: u64) -> u64
        requires { t < 2 ^ 48 }
        ensures stands { (h : List Event) (since : ℕ) → StandsFor h since self.now → Legal h → since ≤ t → result ≡ length (live h t) }
    {
        self.leases.count(t)
    }

    /// How many topics have a version.
    pub fn topics(&self) -> u64
        ensures stands { (h : List Event) (since : ℕ) → StandsFor h since self.now → Legal h → result ≡ length (latest h) }
    {
        self.topics.topics()
    }

    /// How many fetches are owed.
    pub fn fetches(&self) -> u64
        ensures stands { (h : List Event) (since : ℕ) → StandsFor h since self.now → Legal h → result ≡ length (fetches h) }
    {
        self.topics.fetches()
    }

    /// How many pairs are owed at `t`.
    pub fn owed(&self, t: u64) -> u64
        ensures stands { (h : List Event) (since : ℕ) → StandsFor h since self.now → Legal h → since ≤ t → result ≡ length (owed h t) }
    {
        self.deliveries.owed(t)
    }

    /// The version of a number, where it is held, as each owed one is, and the latest one of each topic.
    pub fn version(&self, ver: u64) -> Option<&Version>
        ensures stands { (h : List Event) (since : ℕ) → StandsFor h since self.now → IfSome (option_copied result) (λ v. find (λ w. w.ver == ver) (versions h) ≡ Some v) }
        ensures owed { (h : List Event) (since t : ℕ) → StandsFor h since self.now → since ≤ t → list_any (λ p. p.version.ver == ver) (owed h t) ≡ true → IsSome result }
        ensures latest { (h : List Event) (since : ℕ) → StandsFor h since self.now → list_any (λ v. v.ver == ver) (latest h) ≡ true → IsSome result }
    {
        self.topics.version(ver)
    }
}
