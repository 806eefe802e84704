// Leases that have expired leave the ledger's tables.
ghost use Rattle.std.specs.Prelude.{◌≡◌, ◌<◌, ◌^◌, ℕ, List, IfSome, MatchOption, length, max};
ghost use Rattle.ws_model.specs.declared.event.Event.{Event};
ghost use Rattle.ws_core_tables.specs.Passing.{AreUnexpired, TakesLease};
ghost use Rattle.ws_ledger.specs.Stands.{StandsFor};

use crate::Ledger;

impl Ledger {
    /// Takes out of the tables a held lease that has expired by `t`, in seconds, with those of its open pairs
    /// that have, and gives its number, or None where no held lease has expired. What became of its pairs
    /// stays as it is: those that stood open count as expired. It takes no memory.
    pub fn take_expired(&mut self, t: u64) -> Option<u64>
        requires in_time { t < 2 ^ 48 }
        ensures stands { (h : List Event) (since : ℕ) → StandsFor h since self.old → StandsFor h (max since t) self.new }
        ensures taken { MatchOption result ((self.new ≡ self.old) × AreUnexpired t self.old.tables.leases) (λ n. TakesLease t n self.old.tables self.new.tables) }
        ensures fewer { IfSome result (λ n. length self.new.tables.leases < length self.old.tables.leases) }
        ensures fates { self.new.fates ≡ self.old.fates }
    {
        self.tables.take_expired(t)
    }
}
