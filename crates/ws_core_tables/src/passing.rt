// Leases that have expired leave the tables, and their open pairs with them.
ghost use Rattle.std.specs.Prelude.{◌≡◌, ◌<◌, ◌^◌, ℕ, List, IfSome, MatchOption, length, max};
ghost use Rattle.ws_model.specs.declared.event.Event.{Event};
ghost use Rattle.ws_core_tables.specs.Passing.{AreUnexpired, ClosesExpired, TakesLease};
ghost use Rattle.ws_core_tables.specs.Stands.{StandsFor};

use crate::Tables;
use ws_delivery::Deliveries;

impl Tables {
    /// Takes out a held lease that has expired by `t`, in seconds, with those of its open pairs that have,
    /// and gives its number, or None where no held lease has expired. It takes no memory.
    pub fn take_expired(&mut self, t: u64) -> Option<u64>
        requires in_time { t < 2 ^ 48 }
        ensures stands { (h : List Event) (since : ℕ) → StandsFor h since self.old → StandsFor h (max since t) self.new }
        ensures taken { MatchOption result ((self.new ≡ self.old) × AreUnexpired t self.old.leases) (λ n. TakesLease t n self.old self.new) }
        ensures fewer { IfSome result (λ n. length self.new.leases < length self.old.leases) }
    {
        let lease = self.leases.take_expired(t)?;
        close_expired(&mut self.deliveries, lease.intent.n, t);
        Some(lease.intent.n)
    }
}

/// Closes the open pairs of a lease, where they have expired by `t`. It takes no memory.
fn close_expired(deliveries: &mut Deliveries, lease: u64, t: u64)
    ensures { ClosesExpired t lease deliveries.old deliveries.new }
{
    if let Some(end) = deliveries.end_of(lease) {
        if end <= t {
            let _ = deliveries.close_lease(lease);
        }
    }
}
