// What a compaction keeps.
ghost use Rattle.std.specs.Prelude.{◌≡◌, ◌≤◌, ◌<◌, ◌^◌, ℕ, List, IfOk, reverse};
ghost use Rattle.ws_model.specs.declared.event.Event.{Event};
ghost use Rattle.ws_model.specs.Keep.{keep};
ghost use Rattle.ws_model.specs.Legal.{Legal};
ghost use Rattle.ws_core.specs.Stands.{StandsFor};

use crate::Core;
use ws_forgotten::tally;
use ws_gather::in_order;
use ws_kept::Kept;
use ws_model::{Event, NoMemory};
use ws_sift::kept_events;
use ws_tried::kept_pushes;

impl Core {
    /// What a compaction at `t`, in seconds, keeps, in its order, oldest first: a Tally of its moment, of
    /// the greatest numbers and of the pairs that are forgotten, and then the events that are kept. It goes
    /// over all that happened but pushes, and over the rooms of pushes.
    pub fn keep(&self, t: u64) -> Result<Vec<Event>, NoMemory>
        requires in_time { t < 2 ^ 48 }
        ensures stands { (h : List Event) (since : ℕ) → StandsFor h since self.now → Legal h → since ≤ t → IfOk result (λ events. events.items ≡ reverse (keep h t)) }
    {
        let tables = self.ledger.tables();
        let fates = self.ledger.fates();
        let account = self.ledger.counts(t);
        let tries = &self.tries;
        let kept = Kept::of(
            self.alloc,
            tables,
            fates,
            tries,
            &self.log,
            &self.renewals,
            t,
        )?;
        let mut events = kept_events(self.alloc, tables, &kept, &self.log, &self.renewals, t)?;
        let mut pushes = kept_pushes(self.alloc, tries, &kept)?;
        events.append(&mut pushes)?;
        let mut list = Vec::new(self.alloc);
        list.push(tally(tables, fates, tries, &kept, &account, &self.log, t))?;
        list.append(&mut in_order(events))?;
        Ok(list)
    }
}
