// How open pairs stand, the greatest time, and the intents of owed notices and of leases.
ghost use Rattle.std.specs.Prelude.{◌≡◌, ◌≤◌, ◌<◌, ◌^◌, ◌==◌, ℕ, List, find, map};
ghost use Rattle.std.specs.Option.{option_copied, option_map};
ghost use Rattle.ws_model.specs.declared.event.Event.{Event};
ghost use Rattle.ws_model.specs.Intents.{notices};
ghost use Rattle.ws_model.specs.Leases.{live};
ghost use Rattle.ws_model.specs.Legal.{Legal};
ghost use Rattle.ws_model.specs.Moment.{time};
ghost use Rattle.ws_model.specs.View.{owed_notice};
ghost use Rattle.ws_delivery.specs.Table.{fate_at, pair_at};
ghost use Rattle.ws_core_tables.specs.Stands.{StandsFor};

use crate::Tables;
use ws_model::{Bytes, Fate, Intent};

/// The greatest time, in seconds.
const LAST_TIME: u64 = 281_474_976_710_655;

impl Tables {
    /// The greatest time so far, in seconds.
    pub fn time(&self) -> u64
        ensures stands { (h : List Event) (since : ℕ) → StandsFor h since self.now → result ≡ time h }
    {
        self.numbers.all.time
    }

    /// How an open pair stands at `t`: owed with its misses and its next try, or ended with its lease.
    pub fn open_fate(&self, ver: u64, lease: u64, t: u64) -> Option<Fate>
        ensures { result ≡ option_map (fate_at t) (pair_at ver lease self.now.deliveries) }
    {
        self.deliveries.fate(ver, lease, t)
    }

    /// The intent of a number whose notice is owed.
    pub fn denied_intent(&self, n: u64) -> Option<&Intent>
        ensures stands { (h : List Event) (since : ℕ) → StandsFor h since self.now → option_copied result ≡ find (λ i. i.n == n) (notices h) }
    {
        match self.intents.notice(n) {
            Some(denial) => Some(&denial.intent),
            None => None,
        }
    }

    /// The reason that the owed notice of a number gives.
    pub fn reason(&self, n: u64) -> Option<&Bytes>
        ensures stands { (h : List Event) (since : ℕ) → StandsFor h since self.now → option_copied result ≡ option_map (λ w. w.reason) (find (λ w. w.intent.n == n) (map (owed_notice h) (notices h))) }
    {
        match self.intents.notice(n) {
            Some(denial) => Some(&denial.reason),
            None => None,
        }
    }

    /// The intent of a number whose lease is live at `t`, in seconds.
    pub fn live_intent(&self, n: u64, t: u64) -> Option<&Intent>
        requires in_time { t < 2 ^ 48 }
        ensures stands { (h : List Event) (since : ℕ) → StandsFor h since self.now → since ≤ t → option_copied result ≡ option_map (λ l. l.intent) (find (λ l. l.intent.n == n) (live h t)) }
    {
        match self.leases.get(n, t) {
            Some(lease) => Some(&lease.intent),
            None => None,
        }
    }

    /// The intent of a number whose lease is live at the greatest time so far.
    pub fn leased_intent(&self, n: u64) -> Option<&Intent>
        ensures stands { (h : List Event) (since : ℕ) → StandsFor h since self.now → Legal h → since ≤ time h → option_copied result ≡ option_map (λ l. l.intent) (find (λ l. l.intent.n == n) (live h (time h))) }
    {
        self.live_intent(n, self.numbers.all.time.min(LAST_TIME))
    }
}
