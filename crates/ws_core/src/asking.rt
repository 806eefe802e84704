// What the core says of pairs, of work and of requests.
ghost use Rattle.std.specs.Prelude.{◌≡◌, ◌≤◌, ◌<◌, ◌^◌, ◌==◌, ◌&&◌, ℕ, List, IfOk, option_map};
ghost use Rattle.std.specs.List.{list_any};
ghost use Rattle.ws_model.specs.declared.event.Event.{Event};
ghost use Rattle.ws_model.specs.Account.{account};
ghost use Rattle.ws_model.specs.Due.{due};
ghost use Rattle.ws_model.specs.Legal.{Legal};
ghost use Rattle.ws_model.specs.Moment.{serial, time};
ghost use Rattle.ws_model.specs.Pairs.{owed};
ghost use Rattle.ws_model.specs.Revocation.{revocation};
ghost use Rattle.ws_model.specs.Verdict.{fate_of};
ghost use Rattle.ws_core_tables.specs.Stands.{first_of, work_of};
ghost use Rattle.ws_answer.specs.Judged.{Answers};
ghost use Rattle.ws_port.specs.Requests.{answer};
ghost use Rattle.ws_core.specs.Stands.{StandsFor};

use crate::Core;
use ws_answer::CoreFault;
use ws_core_tables::DueWork;
use ws_form::Ask;
use ws_model::{Account, Fate, Held, Key, NoMemory, Policy, What};

impl Core {
    /// What became of a pair of a version and a lease by `t`, in seconds, or None where the core has no such
    /// pair: none was made, or a compaction forgot it. It takes no memory.
    pub fn fate(&self, ver: u64, lease: u64, t: u64) -> Option<Fate>
        ensures stands { (h : List Event) (since : ℕ) → StandsFor h since self.now → Legal h → since ≤ t → result ≡ fate_of h ver lease t }
    {
        self.ledger.fate(ver, lease, t)
    }

    /// What the history amounts to at `t`, in seconds. It takes no memory.
    pub fn counts(&self, t: u64) -> Account
        requires in_time { t < 2 ^ 48 }
        ensures stands { (h : List Event) (since : ℕ) → StandsFor h since self.now → Legal h → since ≤ t → result ≡ account h t }
    {
        self.ledger.counts(t)
    }

    /// The work that is due first at `t`, but what is held: a verification, a notice, a fetch, a push.
    /// It takes no memory.
    pub fn due(&self, t: u64, held: &Held) -> Option<DueWork<'_>>
        ensures stands { (h : List Event) (since : ℕ) → StandsFor h since self.now → Legal h → since ≤ t → option_map work_of result ≡ first_of (due h t held.now) }
    {
        self.ledger.due(t, held)
    }

    /// What an ask makes at `t`, under a policy: its events in their order, oldest first.
    ///
    /// # Errors
    ///
    /// `Full` by the first that holds: 65,536 intents are pending; live leases and pending subscriptions are
    /// 262,144; no serial or no number of an intent below 2^63 is left. `NoMemory`.
    pub fn judge(&self, t: u64, ask: &Ask, policy: &Policy) -> Result<Vec<What>, CoreFault>
        requires in_time { t < 2 ^ 48 }
        ensures stands { (h : List Event) (since : ℕ) → StandsFor h since self.now → Legal h → since ≤ t → Answers (answer h t ask.now policy.now) result }
    {
        self.ledger.judge(t, ask, policy)
    }

    /// The event that ends the lease of a topic and a callback that is live at `t`, or None where there is
    /// none (WebSub, section 5.2, lets a hub deny a subscription at any point).
    pub fn revocation(&self, t: u64, topic: &Key, callback: &Key) -> Result<Option<What>, NoMemory>
        requires in_time { t < 2 ^ 48 }
        ensures stands { (h : List Event) (since : ℕ) → StandsFor h since self.now → Legal h → since ≤ t → IfOk result (λ o. o ≡ revocation h t topic.now callback.now) }
    {
        self.ledger.revocation(t, topic, callback)
    }

    /// The greatest time so far, in seconds.
    pub fn time(&self) -> u64
        ensures stands { (h : List Event) (since : ℕ) → StandsFor h since self.now → result ≡ time h }
    {
        self.ledger.time()
    }

    /// The greatest serial so far.
    pub fn serial(&self) -> u64
        ensures stands { (h : List Event) (since : ℕ) → StandsFor h since self.now → result ≡ serial h }
    {
        self.ledger.serial()
    }

    /// Whether a version is owed to a lease at `t`.
    pub fn is_owed(&self, ver: u64, lease: u64, t: u64) -> bool
        ensures stands { (h : List Event) (since : ℕ) → StandsFor h since self.now → since ≤ t → result ≡ list_any (λ p. (p.version.ver == ver) && (p.lease.intent.n == lease)) (owed h t) }
    {
        self.ledger.is_owed(ver, lease, t)
    }
}
