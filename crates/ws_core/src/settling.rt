// What the outcome of a ticket's exchange makes.
ghost use Rattle.std.specs.Prelude.{◌≡◌, ◌≤◌, ◌<◌, ◌^◌, ℕ, List, IfOk};
ghost use Rattle.ws_model.specs.declared.event.Event.{Event};
ghost use Rattle.ws_model.specs.Legal.{Legal};
ghost use Rattle.ws_model.specs.Verdict.{verdict};
ghost use Rattle.ws_verdict.specs.Settles.{IsLinkOf};
ghost use Rattle.ws_ledger.specs.Settles.{IsOfPending};
ghost use Rattle.ws_core.specs.Stands.{StandsFor};

use crate::Core;
use ws_model::{NoMemory, Outcome, Settled, Work};

impl Core {
    /// What the outcome of the exchange of a ticket makes at `t`, in seconds, of its work, that was drawn at
    /// `sent` with this challenge (WebSub, sections 5.3 and 7; the misses, the limits and the own link are
    /// own): an event, or `Stale` with the fate of a push's pair that isn't owed any more.
    pub fn settle(
        &self,
        t: u64,
        work: &Work,
        sent: u64,
        challenge: &[u8; 40],
        outcome: &Outcome,
    ) -> Result<Settled, NoMemory>
        requires in_time { t < 2 ^ 48 }
        ensures stands { (h : List Event) (since : ℕ) (link : List ℕ) → StandsFor h since self.now → Legal h → since ≤ t → IsOfPending h work.now → IsLinkOf work.now outcome.now link →
            IfOk result (λ s. s ≡ verdict h t work.now sent challenge.now link outcome.now) }
    {
        self.ledger.settle(t, work, sent, challenge, outcome)
    }
}
