// What happened, applied to the core.
ghost use Rattle.std.specs.Prelude.{◌≡◌, ◌<◌, ◌++◌, OnOk, OnErr, false};
ghost use Rattle.ws_model.specs.declared.event.What.TheVariants.{Pushed};
ghost use Rattle.ws_tries.specs.Stands.{is_any_push};
ghost use Rattle.ws_core.specs.Follows.{HasHistory};
ghost use Rattle.ws_core.specs.GivenBack.{RoomsAreGone};
ghost use Rattle.ws_core.specs.Passing.{HoldsNoExpired};
ghost use Rattle.ws_core.specs.Renewed.{listed};
ghost use Rattle.ws_sweep.specs.Rows.{members};
ghost use Rattle.ws_core.specs.Stands.{CanFollow, GoesOn};

use crate::Core;
use crate::births::apply_with_rooms;
use crate::giving_back::{give_back, give_back_pairs, touched_by, touched_by_push};
use crate::passing::let_go;
use crate::renewing::renewal_by;
use ws_copies::light_copy;
use ws_kept::Renewal;
use ws_model::{Event, How, NoMemory, What};
use ws_sweep::Sweep;
use ws_tries::Try;

impl Core {
    /// Applies what happened, which may come next. Leases that have expired by its time are let go, and the
    /// rooms of versions and of leases that no compaction would keep any more are given back. At an error the
    /// core is as it was.
    pub fn apply(&mut self, event: &Event) -> Result<(), NoMemory>
        requires follows { CanFollow self.old event.now }
        ensures ok { OnOk result (GoesOn event.now self.old self.new) }
        ensures gone { OnOk result (RoomsAreGone event.now self.old self.new) }
        ensures unexpired { OnOk result (HoldsNoExpired event.now.t self.new) }
        ensures history { OnOk result (HasHistory self.new) }
        ensures err { OnErr result (self.new ≡ self.old) }
    {
        self.apply_kind(event)?;
        Ok(())
    }

    /// Applies what happened: a push, or something else.
    fn apply_kind(&mut self, event: &Event) -> Result<(), NoMemory>
        requires follows { CanFollow self.old event.now }
        ensures ok { OnOk result (GoesOn event.now self.old self.new) }
        ensures gone { OnOk result (RoomsAreGone event.now self.old self.new) }
        ensures unexpired { OnOk result (HoldsNoExpired event.now.t self.new) }
        ensures err { OnErr result (self.new ≡ self.old) }
    {
        match &event.what {
            What::Pushed { ver, lease, how } => {
                self.apply_pushed(event.serial, event.t, *ver, *lease, *how);
                Ok(())
            }
            _ => self.apply_other(event),
        }
    }

    /// Applies the end of a push at `t`, in seconds, which the core accepts as the next event. Leases that
    /// have expired by then are let go, and the rooms of its version and of its lease are given back where no
    /// compaction would keep them any more. It takes no memory.
    pub fn apply_pushed(&mut self, serial: u64, t: u64, ver: u64, lease: u64, how: How)
        requires follows { CanFollow self.old (record { serial = serial; t = t; what = Pushed ver lease how }) }
        ensures stands { GoesOn (record { serial = serial; t = t; what = Pushed ver lease how }) self.old self.new }
        ensures gone { RoomsAreGone (record { serial = serial; t = t; what = Pushed ver lease how }) self.old self.new }
        ensures unexpired { HoldsNoExpired t self.new }
    {
        self.ledger.apply_pushed(serial, t, ver, lease, how);
        self.tries.add(ver, lease, Try { serial, t, how });
        let touched = touched_by_push(ver, lease, how);
        give_back(&self.ledger, &mut self.tries, touched);
        give_back_pairs(&self.ledger, &mut self.tries, touched, t);
        let_go(&mut self.ledger, &mut self.tries, t);
    }

    /// Applies what happened, but a push: the room for all that is taken before anything is changed.
    fn apply_other(&mut self, event: &Event) -> Result<(), NoMemory>
        requires other { is_any_push event.now.what ≡ false }
        requires follows { CanFollow self.old event.now }
        ensures ok { OnOk result (GoesOn event.now self.old self.new) }
        ensures gone { OnOk result (RoomsAreGone event.now self.old self.new) }
        ensures unexpired { OnOk result (HoldsNoExpired event.now.t self.new) }
        ensures err { OnErr result (self.new ≡ self.old) }
    {
        let entry = light_copy(self.alloc, event)?;
        let births = self.ledger.births(event)?;
        let renewal = renewal_by(self.alloc, &self.ledger, event)?;
        let touched = touched_by(&self.ledger, event);
        self.log.reserve(1)?;
        self.renewals.reserve(1)?;
        apply_with_rooms(&mut self.ledger, &mut self.tries, event, &births)?;
        self.log.push_reserved(entry);
        add_reserved(&mut self.renewals, renewal);
        give_back(&self.ledger, &mut self.tries, touched);
        give_back_pairs(&self.ledger, &mut self.tries, touched, event.t);
        let_go(&mut self.ledger, &mut self.tries, event.t);
        self.sweep(event.t, 1);
        Ok(())
    }
}

/// Adds a renewal behind the others, where there is one. It takes no memory.
fn add_reserved(renewals: &mut Sweep<Renewal>, renewal: Option<Renewal>)
    requires { 0 < renewals.old.room }
    ensures { members renewals.new ≡ members renewals.old ++ listed renewal }
{
    if let Some(renewal) = renewal {
        renewals.push_reserved(renewal);
    }
}
