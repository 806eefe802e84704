// The calls of a hub.
ghost use Rattle.std.specs.Prelude.{◌≡◌, ◌≤◌, ℕ, Bool, List, true, false};
ghost use Rattle.ws_model.specs.declared.event.Event.{Event};
ghost use Rattle.ws_model.specs.declared.settings.Settings.{Settings};
ghost use Rattle.ws_model.specs.Legal.{Legal};
ghost use Rattle.ws_model.specs.Moment.{time};
ghost use Rattle.ws_form.specs.Answers.{IsSound};
ghost use Rattle.ws_port.specs.Calls.{Accounts, Answered, HeldTicket, HubTime, IsDiskCause, IsUnstored, Said, uses_time};
ghost use Rattle.ws_port.specs.Requests.{answer, revocation_answer};

use crate::DeskFault;
use ws_form::Ask;
use ws_model::{Account, Key};

/// What a call told: the length of the hub's history after it, and how many events it added.
#[derive(Clone, Copy, Debug, PartialEq, Eq)]
pub struct Told {
    pub at: u64,
    pub events: u32,
}

/// A hub, as those who reach it see it. Times are in seconds.
///
/// Others may use the hub beside this port: a call is then answered at a history that goes on from one
/// that the port has seen.
pub trait Port {
    /// Whether nobody else uses the hub.
    ghost sole: { Bool };

    /// Whether the hub keeps a journal.
    ghost stored: { Bool };

    /// The port has seen this history, newest first.
    ghost seen: { Self → List Event → Type 0 };

    /// The tickets that it holds.
    ghost tickets: { Self → List HeldTicket };

    /// How the hub is set up.
    ghost settings: { Self → Settings };

    /// How many of its calls answered that the disk failed.
    ghost faults: { Self → ℕ };

    /// The last hub time that it used.
    ghost moment: { Self → ℕ };

    /// What it has seen is legal.
    ghost legal: { (port : Self) (h : List Event) → seen port h → Legal h };

    /// Where nobody else uses the hub, no history that the port has seen is later than the last hub time.
    ghost timely: { sole ≡ true → (port : Self) (h : List Event) → seen port h → time h ≤ moment port };

    /// Commits what a request makes at the clock's value `now` (WebSub, sections 5.1 to 5.3 and 7): an
    /// intent, with its denial where the topic isn't allowed, or a ping of each topic that has a live lease.
    /// At an error nothing changes.
    fn ask(&mut self, now: u64, ask: &Ask) -> Result<Told, DeskFault>
        requires sound { IsSound ask.now }
        ensures said { (h : List Event) → seen self.old h → Answered sole (seen self.new) (uses_time result) (moment self.new)
            (Said (λ g. answer g (moment self.new) ask.now (settings self.old).policy) result) h }
        ensures begun { (h : List Event) × seen self.new h }
        ensures time { HubTime sole (uses_time result) now (moment self.old) (moment self.new) }
        ensures cause { IsDiskCause (faults self.old) (faults self.new) result }
        ensures unstored { stored ≡ false → IsUnstored result }
        ensures settings { settings self.new ≡ settings self.old }
        ensures tickets { tickets self.new ≡ tickets self.old };

    /// Ends the lease of a topic and a callback that is live at the clock's value `now`, where there is one
    /// (WebSub, section 5.2, lets a hub deny a subscription at any point). At an error nothing changes.
    fn revoke(&mut self, now: u64, topic: &Key, callback: &Key) -> Result<Told, DeskFault>
        ensures said { (h : List Event) → seen self.old h → Answered sole (seen self.new) (uses_time result) (moment self.new)
            (Said (λ g. revocation_answer g (moment self.new) topic.now callback.now) result) h }
        ensures begun { (h : List Event) × seen self.new h }
        ensures time { HubTime sole (uses_time result) now (moment self.old) (moment self.new) }
        ensures cause { IsDiskCause (faults self.old) (faults self.new) result }
        ensures unstored { stored ≡ false → IsUnstored result }
        ensures settings { settings self.new ≡ settings self.old }
        ensures tickets { tickets self.new ≡ tickets self.old };

    /// The account at the clock's value `now`. It takes no memory.
    fn account(&mut self, now: u64) -> Account
        ensures said { (h : List Event) → seen self.old h → Answered sole (seen self.new) true (moment self.new) (Accounts (moment self.new) result) h }
        ensures begun { (h : List Event) × seen self.new h }
        ensures time { HubTime sole true now (moment self.old) (moment self.new) }
        ensures faults { faults self.new ≡ faults self.old }
        ensures settings { settings self.new ≡ settings self.old }
        ensures tickets { tickets self.new ≡ tickets self.old };
}
