// What happened, applied to the ledger.
ghost use Rattle.std.specs.Prelude.{◌≡◌, OnOk, OnErr};
ghost use Rattle.ws_ledger.specs.Follows.{HasHistory};
ghost use Rattle.ws_ledger.specs.Stands.{CanFollow, GoesOn};

use crate::Ledger;
use ws_model::{Event, NoMemory, What};

impl Ledger {
    /// Applies what happened, which may come next. At an error the ledger is as it was.
    pub fn apply(&mut self, event: &Event) -> Result<(), NoMemory>
        requires follows { CanFollow self.old event.now }
        ensures ok { OnOk result (GoesOn event.now self.old self.new) }
        ensures history { OnOk result (HasHistory self.new) }
        ensures err { OnErr result (self.new ≡ self.old) }
    {
        self.apply_kind(event)?;
        Ok(())
    }

    /// Applies what happened, by its kind.
    fn apply_kind(&mut self, event: &Event) -> Result<(), NoMemory>
        requires follows { CanFollow self.old event.now }
        ensures ok { OnOk result (GoesOn event.now self.old self.new) }
        ensures err { OnErr result (self.new ≡ self.old) }
    {
        match &event.what {
            What::Confirmed { n, sent } => self.confirmed(event, *n, *sent),
            What::Fetched(version) => self.fetched(event, version),
            What::Pushed { ver, lease, how } => {
                self.pushed(event, *ver, *lease, *how);
                Ok(())
            }
            What::Revoked { n, reason } => self.revoked(event, *n, reason),
            What::Tally(tally) => self.tallied(event, tally),
            _ => self.quiet(event),
        }
    }
}
