// The open versions of a lease, the live leases of a topic, and the lease that a pending intent is about.
ghost use Rattle.std.specs.Prelude.{◌≡◌, ◌≤◌, ◌<◌, ◌^◌, ◌==◌, ℕ, List, Some, IsSome, IsSomeAnd, filter, bytes_eq, option_map};
ghost use Rattle.std.specs.List.{IsDistinct};
ghost use Rattle.ws_model.specs.declared.event.Event.{Event};
ghost use Rattle.ws_model.specs.declared.event.Intent.{Intent};
ghost use Rattle.ws_model.specs.Leases.{live};
ghost use Rattle.ws_model.specs.Legal.{Legal, pending_of};
ghost use Rattle.ws_model.specs.Revocation.{live_lease_of};
ghost use Rattle.ws_intent.specs.Rows.{number_at};
ghost use Rattle.ws_lease.specs.Stands.{AreNumbersOf};
ghost use Rattle.ws_lease.specs.Table.{live_numbers};
ghost use Rattle.ws_delivery.specs.OpenOf.{open_versions};
ghost use Rattle.ws_core_tables.specs.Stands.{StandsFor};

use crate::Tables;
use ws_delivery::OpenOf;
use ws_lease::LiveOf;
use ws_model::Mode;

impl Tables {
    /// The versions of the open pairs of a lease, rising.
    pub fn open_of(&self, lease: u64) -> OpenOf<'_>
        ensures value { result ≡ open_versions lease self.now.deliveries }
        ensures distinct { IsDistinct (λ x y. x == y) result }
    {
        self.deliveries.open_of(lease)
    }

    /// The numbers of the leases of a topic that are live at `t`, rising.
    pub fn leases_of_topic(&self, topic: &[u8], t: u64) -> LiveOf<'_>
        requires { t < 2 ^ 48 }
        ensures value { result ≡ live_numbers topic.now t self.now.leases }
        ensures stands { (h : List Event) (since : ℕ) → StandsFor h since self.now → Legal h → since ≤ t → AreNumbersOf result (filter (λ l. bytes_eq l.intent.topic topic.now) (live h t)) }
    {
        self.leases.live_of_topic(topic, t)
    }

    /// The number of the live lease of a pending intent's topic and callback.
    pub fn lease_of_pending(&self, n: u64, t: u64) -> Option<u64>
        requires { t < 2 ^ 48 }
        ensures stands { (h : List Event) (since : ℕ) (i : Intent) → StandsFor h since self.now → Legal h → since ≤ t → Some i ≡ pending_of h n →
            result ≡ option_map (λ l. l.intent.n) (live_lease_of h t i.topic i.callback) }
    {
        self.lease_of(n, t)
    }

    /// Whether a pending intent asks to subscribe or to unsubscribe.
    pub fn mode_of_pending(&self, n: u64) -> Mode
        requires { IsSome (number_at n self.now.intents.pending) }
        ensures { IsSomeAnd (number_at n self.now.intents.pending) (λ w. w.intent.mode ≡ result) }
    {
        self.waiting_mode(n)
    }
}
