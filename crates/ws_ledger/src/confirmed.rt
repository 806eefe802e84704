// What happened, applied to the ledger: confirmations and revocations, which end leases and make new ones.
ghost use Rattle.std.specs.Prelude.{◌≡◌, IsSomeAnd, OnOk, OnErr, true, false};
ghost use Rattle.ws_model.specs.declared.event.What.TheVariants.{Confirmed, Revoked};
ghost use Rattle.ws_model.specs.Leases.{is_on};
ghost use Rattle.ws_intent.specs.Rows.{number_at};
ghost use Rattle.ws_ledger.specs.Stands.{CanFollow, GoesOn};

use crate::Ledger;
use crate::steps::moved_to;
use ws_fate::Standing;
use ws_model::{Bytes, Cause, Event, Mode, NoMemory};

impl Ledger {
    /// A verification was confirmed (WebSub section 5.3). At an error the ledger is as it was.
    pub(crate) fn confirmed(&mut self, event: &Event, n: u64, sent: u64) -> Result<(), NoMemory>
        requires kind { event.now.what ≡ Confirmed n sent }
        requires follows { CanFollow self.old event.now }
        ensures ok { OnOk result (GoesOn event.now self.old self.new) }
        ensures err { OnErr result (self.new ≡ self.old) }
    {
        match self.tables.mode_of_pending(n) {
            Mode::On => self.subscribed(event, n, sent),
            Mode::Off => self.unsubscribed(event, n, sent),
        }
    }

    /// A subscription was confirmed: what is owed to the live lease of its topic and callback, where there
    /// is one, goes over to the new lease.
    fn subscribed(&mut self, event: &Event, n: u64, _sent: u64) -> Result<(), NoMemory>
        requires kind { event.now.what ≡ Confirmed n _sent }
        requires mode { IsSomeAnd (number_at n self.old.tables.intents.pending) (λ w. is_on w.intent.mode ≡ true) }
        requires follows { CanFollow self.old event.now }
        ensures ok { OnOk result (GoesOn event.now self.old self.new) }
        ensures err { OnErr result (self.new ≡ self.old) }
    {
        let old = self.tables.lease_of_pending(n, event.t);
        let ends = self.open_pairs_of(old)?;
        let births = moved_to(self.alloc, &ends, n)?;
        self.apply_step(event, &births, &ends, Standing::Ended(Cause::Replaced))?;
        Ok(())
    }

    /// The end of a subscription was confirmed.
    fn unsubscribed(&mut self, event: &Event, n: u64, _sent: u64) -> Result<(), NoMemory>
        requires kind { event.now.what ≡ Confirmed n _sent }
        requires mode { IsSomeAnd (number_at n self.old.tables.intents.pending) (λ w. is_on w.intent.mode ≡ false) }
        requires follows { CanFollow self.old event.now }
        ensures ok { OnOk result (GoesOn event.now self.old self.new) }
        ensures err { OnErr result (self.new ≡ self.old) }
    {
        let lease = self.tables.lease_of_pending(n, event.t);
        let ends = self.open_pairs_of(lease)?;
        self.apply_step(event, &[], &ends, Standing::Ended(Cause::Unsubscribed))?;
        Ok(())
    }

    /// An operator ended a lease (WebSub section 5.2). At an error the ledger is as it was.
    pub(crate) fn revoked(&mut self, event: &Event, n: u64, _reason: &Bytes) -> Result<(), NoMemory>
        requires kind { event.now.what ≡ Revoked n _reason.now }
        requires follows { CanFollow self.old event.now }
        ensures ok { OnOk result (GoesOn event.now self.old self.new) }
        ensures err { OnErr result (self.new ≡ self.old) }
    {
        let ends = self.open_pairs_of(Some(n))?;
        self.apply_step(event, &[], &ends, Standing::Ended(Cause::Revoked))?;
        Ok(())
    }
}
