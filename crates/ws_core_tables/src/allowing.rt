// What may happen next.
ghost use Rattle.std.specs.Prelude.{◌≡◌, ◌≤◌, ◌<◌, ◌^◌, ℕ, List, max, is_some, find, bytes_eq, nat_le, ◌==◌, ◌&&◌};
ghost use Rattle.std.specs.List.{list_any};
ghost use Rattle.ws_model.specs.declared.event.Event.{Event};
ghost use Rattle.ws_model.specs.Intents.{notices};
ghost use Rattle.ws_model.specs.Leases.{is_on};
ghost use Rattle.ws_model.specs.Legal.{Legal, is_allowed, is_confirmable, is_confirmed_in_time, is_on_one, pending_of};
ghost use Rattle.ws_model.specs.Moment.{last_time};
ghost use Rattle.ws_model.specs.Pairs.{owed};
ghost use Rattle.ws_model.specs.Versions.{versions};
ghost use Rattle.ws_core_tables.specs.Allowed.{comes_next, is_owed_one};
ghost use Rattle.ws_core_tables.specs.Stands.{StandsFor};

use crate::Tables;
use ws_model::{Event, Fate, Intent, Mode, What};

impl Tables {
    /// Whether an event may come after those that were applied, by its order and by what the tables
    /// hold. The bounds of its own fields aren't looked at.
    pub fn allows(&self, event: &Event) -> bool
        ensures stands { (h : List Event) (since : ℕ) → StandsFor h since self.now → Legal h → since ≤ max event.now.t (last_time h) → result ≡ comes_next event.now h }
    {
        match &event.what {
            What::Tally(_) => !self.numbers.begun && event.serial == 0 && event.t == 0,
            what => self.numbers.is_in_order(event) && self.allows_what(what, event.t),
        }
    }

    /// Whether the tables allow that this happens at `t`.
    fn allows_what(&self, what: &What, t: u64) -> bool
        requires { t < 2 ^ 48 }
        ensures stands { (h : List Event) (since : ℕ) → StandsFor h since self.now → Legal h → since ≤ t → result ≡ is_allowed what.now t h }
    {
        match what {
            What::Asked(intent) => self.numbers.own.intent < intent.n,
            What::Confirmed { n, sent } => self.is_confirmable(*n, *sent, t),
            What::Declined { n, .. } => self.intents.is_first(*n),
            What::Unheard { n } => self.intents.is_first(*n),
            What::Barred { n, .. } => self.is_pending_subscription(*n),
            What::Noticed { n, .. } => self.is_noticed(*n),
            What::Fetched(version) => self.numbers.own.version < version.ver,
            What::Same { topic, .. } => self.has_version(topic.as_slice()),
            What::Pushed { ver, lease, .. } => self.is_owed(*ver, *lease, t),
            What::Revoked { n, .. } => self.leases.live(*n, t),
            _ => true,
        }
    }

    /// Whether the intent of a number may be confirmed at `t`, by a verification drawn at `sent`.
    fn is_confirmable(&self, n: u64, sent: u64, t: u64) -> bool
        requires { t < 2 ^ 48 }
        ensures stands { (h : List Event) (since : ℕ) → StandsFor h since self.now → Legal h → result ≡ is_confirmable h sent t (pending_of h n) }
    {
        let Some(waiting) = self.intents.waiting(n) else {
            return false;
        };
        let in_time = is_in_time(&waiting.intent, sent, t);
        self.intents.is_first(n) && in_time
    }

    /// Whether the intent of a number is pending and asks to subscribe.
    fn is_pending_subscription(&self, n: u64) -> bool
        ensures stands { (h : List Event) (since : ℕ) → StandsFor h since self.now → result ≡ is_on_one (pending_of h n) }
    {
        match self.intents.waiting(n) {
            Some(waiting) => is_on(waiting.intent.mode),
            None => false,
        }
    }

    /// Whether the notice of a number is owed.
    fn is_noticed(&self, n: u64) -> bool
        ensures stands { (h : List Event) (since : ℕ) → StandsFor h since self.now → result ≡ is_some (find (λ i. i.n == n) (notices h)) }
    {
        self.intents.notice(n).is_some()
    }

    /// Whether a topic has a version.
    fn has_version(&self, topic: &[u8]) -> bool
        ensures stands { (h : List Event) (since : ℕ) → StandsFor h since self.now → result ≡ list_any (λ v. bytes_eq v.topic topic.now) (versions h) }
    {
        self.topics.latest(topic).is_some()
    }

    /// Whether a version is owed to a lease at `t`.
    pub fn is_owed(&self, ver: u64, lease: u64, t: u64) -> bool
        ensures stands { (h : List Event) (since : ℕ) → StandsFor h since self.now → since ≤ t → result ≡ list_any (λ p. (p.version.ver == ver) && (p.lease.intent.n == lease)) (owed h t) }
    {
        is_owed_fate(self.deliveries.fate(ver, lease, t))
    }
}

/// Whether the mode asks for a subscription.
fn is_on(mode: Mode) -> bool
    ensures { result ≡ is_on mode }
{
    match mode {
        Mode::On => true,
        Mode::Off => false,
    }
}

/// Whether a verification drawn at `sent` comes in time at `t`: for a subscription, before its lease
/// has expired.
fn is_in_time(intent: &Intent, sent: u64, t: u64) -> bool
    requires { t < 2 ^ 48 }
    ensures { result ≡ (nat_le sent t && is_confirmed_in_time sent t intent.now) }
{
    sent <= t && (!is_on(intent.mode) || t < sent.saturating_add(u64::from(intent.granted)))
}

/// Whether there is a fate and it says owed.
fn is_owed_fate(fate: Option<Fate>) -> bool
    ensures { result ≡ is_owed_one fate }
{
    match fate {
        Some(Fate::Owed { .. }) => true,
        _ => false,
    }
}
