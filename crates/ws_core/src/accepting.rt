// What may happen next.
ghost use Rattle.std.specs.Prelude.{◌≡◌, ◌≤◌, ℕ, List, IfOk, max, true};
ghost use Rattle.ws_model.specs.declared.event.Event.{Event};
ghost use Rattle.ws_model.specs.Legal.{Legal, accepts};
ghost use Rattle.ws_model.specs.Moment.{last_time};
ghost use Rattle.ws_core.specs.Follows.{HasHistory};
ghost use Rattle.ws_core.specs.Stands.{CanFollow, StandsFor};

use crate::Core;
use ws_model::{Event, NoMemory};

impl Core {
    /// Whether an event may come after those that were applied: by its order, by the bounds of its own
    /// fields, and by what the tables hold.
    pub fn accepts(&self, event: &Event) -> Result<bool, NoMemory>
        ensures stands { (h : List Event) (since : ℕ) → StandsFor h since self.now → Legal h → since ≤ max event.now.t (last_time h) → IfOk result (λ told. told ≡ accepts h event.now) }
        ensures follows { HasHistory self.now → IfOk result (λ told. told ≡ true → CanFollow self.now event.now) }
    {
        self.ledger.accepts(event)
    }
}
