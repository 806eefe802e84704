// What an event makes, told before it is applied: pairs, and a lease that replaces another one.
ghost use Rattle.std.specs.Prelude.{◌≡◌, ℕ, None, Some, IfOk, IsSomeAnd, false, true};
ghost use Rattle.ws_model.specs.declared.event.What.TheVariants.{Confirmed, Fetched};
ghost use Rattle.ws_model.specs.Leases.{is_on};
ghost use Rattle.ws_intent.specs.Rows.{number_at};
ghost use Rattle.ws_ledger.specs.Births.{FindsBirths, FindsRenewal, is_confirmation, makes_pairs};
ghost use Rattle.ws_ledger.specs.Stands.{CanFollow};

use crate::Ledger;
use crate::steps::moved_to;
use ws_model::{Event, Mode, NoMemory, Version, What};

impl Ledger {
    /// The pairs, each a version and a lease, that an event makes which may come next.
    pub fn births(&self, event: &Event) -> Result<Vec<(u64, u64)>, NoMemory>
        requires follows { CanFollow self.now event.now }
        ensures { IfOk result (λ births. FindsBirths event.now self.now births.items) }
    {
        match &event.what {
            What::Fetched(version) => self.births_by_fetch(event, version),
            What::Confirmed { n, sent } => self.births_by_confirmation(event, *n, *sent),
            _ => Ok(Vec::new(self.alloc)),
        }
    }

    /// The pairs of a new version with the live leases of its topic.
    fn births_by_fetch(&self, event: &Event, version: &Version) -> Result<Vec<(u64, u64)>, NoMemory>
        requires kind { event.now.what ≡ Fetched version.now }
        requires follows { CanFollow self.now event.now }
        ensures { IfOk result (λ births. FindsBirths event.now self.now births.items) }
    {
        self.births_of(version, event.t)
    }

    /// The pairs of a new lease, where the confirmed intent asks for one.
    fn births_by_confirmation(
        &self,
        event: &Event,
        n: u64,
        sent: u64,
    ) -> Result<Vec<(u64, u64)>, NoMemory>
        requires kind { event.now.what ≡ Confirmed n sent }
        requires follows { CanFollow self.now event.now }
        ensures { IfOk result (λ births. FindsBirths event.now self.now births.items) }
    {
        match self.tables.mode_of_pending(n) {
            Mode::On => self.births_of_lease(event, n, sent),
            Mode::Off => Ok(Vec::new(self.alloc)),
        }
    }

    /// The pairs that go over to a new lease.
    fn births_of_lease(
        &self,
        event: &Event,
        n: u64,
        _sent: u64,
    ) -> Result<Vec<(u64, u64)>, NoMemory>
        requires kind { event.now.what ≡ Confirmed n _sent }
        requires mode { IsSomeAnd (number_at n self.now.tables.intents.pending) (λ w. is_on w.intent.mode ≡ true) }
        requires follows { CanFollow self.now event.now }
        ensures { IfOk result (λ births. FindsBirths event.now self.now births.items) }
    {
        let old = self.tables.lease_of_pending(n, event.t);
        let ends = self.open_pairs_of(old)?;
        moved_to(self.alloc, &ends, n)
    }

    /// The new lease that an event makes which may come next, and the lease that it replaces, each by its
    /// number, where there are both. It takes no memory.
    pub fn renewal(&self, event: &Event) -> Option<(u64, u64)>
        requires follows { CanFollow self.now event.now }
        ensures { FindsRenewal event.now self.now result }
    {
        match &event.what {
            What::Confirmed { n, sent } => self.renewal_by_confirmation(event, *n, *sent),
            _ => None,
        }
    }

    fn renewal_by_confirmation(&self, event: &Event, n: u64, sent: u64) -> Option<(u64, u64)>
        requires kind { event.now.what ≡ Confirmed n sent }
        requires follows { CanFollow self.now event.now }
        ensures { FindsRenewal event.now self.now result }
    {
        match self.tables.mode_of_pending(n) {
            Mode::On => self.renewal_of_lease(event, n, sent),
            Mode::Off => None,
        }
    }

    fn renewal_of_lease(&self, event: &Event, n: u64, _sent: u64) -> Option<(u64, u64)>
        requires kind { event.now.what ≡ Confirmed n _sent }
        requires mode { IsSomeAnd (number_at n self.now.tables.intents.pending) (λ w. is_on w.intent.mode ≡ true) }
        requires follows { CanFollow self.now event.now }
        ensures { FindsRenewal event.now self.now result }
    {
        let old = self.tables.lease_of_pending(n, event.t)?;
        Some((n, old))
    }
}
