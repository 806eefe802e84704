// The history that proofs read.
ghost use Rattle.std.specs.Prelude.{◌≡◌, List, []};
ghost use Rattle.std.specs.Borrow.{ftrue};
ghost use Rattle.ws_model.specs.declared.event.Event.{Event};
ghost use Rattle.ws_port.specs.Calls.{committed};

use std::marker::Model;
use ws_model::What;

/// What has happened to a hub, newest first. Only proofs read it: it takes no memory, and its calls do
/// nothing when they run.
///
/// Nothing ties the list to what a program does, so a clause on a `Past` alone says nothing of it. A struct
/// that has one makes it mean something by a ghost field: that what the struct holds stands for this list.
#[derive(Drop)]
pub struct Past {
    pub ghost events: { List Event },
}

impl Model for Past {
    ghost also_owns = { λ _. ftrue };
}

// It owns nothing.
unsafe impl Send for Past {}

impl Past {
    /// The past of a hub to which nothing has happened.
    pub fn none() -> Past
        ensures { result.events ≡ [] }
    {
        Past {}
    }

    /// The past with these events, in their order, each under the next serial and with the time `t`.
    pub fn with(&self, t: u64, whats: &[What]) -> Past
        ensures { result.events ≡ committed t whats.now self.now.events }
    {
        Past {}
    }
}
