// What happened, applied to the tables: pushes, and the ends of leases by them and by revocation. It
// takes no memory but for the notice that a revocation makes owed.
ghost use Rattle.std.specs.Prelude.{◌≡◌, OnOk, OnErr};
ghost use Rattle.ws_model.specs.declared.event.How.TheVariants.{Done, Gone, Missed};
ghost use Rattle.ws_model.specs.declared.event.What.TheVariants.{Pushed, Revoked};
ghost use Rattle.ws_core_tables.specs.Stands.{CanFollow, GoesOn};

use crate::Tables;
use ws_model::{Bytes, Cause, Event, NoMemory};

impl Tables {
    /// A push was answered.
    pub(crate) fn pushed_done(&mut self, event: &Event, ver: u64, lease: u64)
        requires kind { event.now.what ≡ Pushed ver lease Done }
        requires follows { CanFollow self.old event.now }
        ensures stands { GoesOn event.now self.old self.new }
    {
        self.deliveries.close(ver, lease);
        self.numbers = self.numbers.after(event);
    }

    /// A push was missed.
    pub(crate) fn pushed_missed(&mut self, event: &Event, ver: u64, lease: u64, _code: u16)
        requires kind { event.now.what ≡ Pushed ver lease (Missed _code) }
        requires follows { CanFollow self.old event.now }
        ensures stands { GoesOn event.now self.old self.new }
    {
        let _ = self.deliveries.miss(ver, lease, event.t);
        self.numbers = self.numbers.after(event);
    }

    /// A push was answered 410, which ends its lease.
    pub(crate) fn pushed_gone(&mut self, event: &Event, ver: u64, lease: u64)
        requires kind { event.now.what ≡ Pushed ver lease Gone }
        requires follows { CanFollow self.old event.now }
        ensures stands { GoesOn event.now self.old self.new }
    {
        self.leases.end(lease, Cause::Gone, event.t);
        let _ = self.deliveries.close_lease(lease);
        self.numbers = self.numbers.after(event);
    }

    /// An operator ended a lease.
    pub(crate) fn revoked(&mut self, event: &Event, n: u64, reason: &Bytes) -> Result<(), NoMemory>
        requires kind { event.now.what ≡ Revoked n reason.now }
        requires follows { CanFollow self.old event.now }
        ensures ok { OnOk result (GoesOn event.now self.old self.new) }
        ensures err { OnErr result (self.new ≡ self.old) }
    {
        let Some(lease) = self.leases.get(n, event.t) else {
            unreachable!()
        };
        let intent = lease.intent.copy(self.alloc)?;
        let reason = Bytes::copy(self.alloc, reason.as_slice())?;
        self.intents.revoked(intent, reason)?;
        self.leases.end(n, Cause::Revoked, event.t);
        let _ = self.deliveries.close_lease(n);
        self.numbers = self.numbers.after(event);
        Ok(())
    }
}
