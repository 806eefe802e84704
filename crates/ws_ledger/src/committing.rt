// What one request makes, applied to the ledger together or not at all.
ghost use Rattle.std.specs.Prelude.{◌≡◌, ℕ, List, IfOk, OnOk, OnErr, true};
ghost use Rattle.ws_model.specs.declared.event.Event.{Event};
ghost use Rattle.ws_core_tables.specs.Committing.{GoTogether, numbered};
ghost use Rattle.ws_ledger.specs.Committing.{AllGoOn, CanHappen, are_quiet};
ghost use Rattle.ws_ledger.specs.Stands.{StandsFor};

use crate::Ledger;
use ws_model::{Event, NoMemory, What};

impl Ledger {
    /// Applies what happens at `t`, in seconds, in its order, each under the next serial: all of it, or
    /// nothing. It is what a request makes: an intent, with its denial or without, or pings. It gives the
    /// events. At an error the ledger is as it was.
    pub fn commit(&mut self, t: u64, whats: Vec<What>) -> Result<Vec<Event>, NoMemory>
        requires quiet { are_quiet whats.items ≡ true }
        requires together { GoTogether whats.items }
        requires follow { CanHappen self.old t whats.items }
        ensures ok { OnOk result (AllGoOn t whats.items self.old self.new) }
        ensures events { (h : List Event) (since : ℕ) → StandsFor h since self.old → IfOk result (λ v. v.items ≡ numbered t whats.items h) }
        ensures err { OnErr result (self.new ≡ self.old) }
    {
        let events = self.tables.commit(t, whats)?;
        Ok(events)
    }
}
