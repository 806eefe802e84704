// Leases that have expired are let go.
ghost use Rattle.std.specs.Prelude.{◌≡◌, ◌<◌, ◌^◌};
ghost use Rattle.ws_core_tables.specs.Passing.{AreUnexpired};
ghost use Rattle.ws_core.specs.Passing.{ExpiredAreGone, Passes, StayGone};

use crate::giving_back::{Touched, give_back_pairs};
use ws_ledger::Ledger;
use ws_tries::Tries;

/// Takes the leases out of the tables that have expired by `t`, in seconds, the time of the event that was
/// applied, and gives back the rooms of those that no compaction would keep. It takes no memory.
pub(crate) fn let_go(ledger: &mut Ledger, tries: &mut Tries, t: u64)
    requires in_time { t < 2 ^ 48 }
    ensures stands { Passes t ledger.old tries.old ledger.new tries.new }
    ensures unexpired { AreUnexpired t ledger.new.tables.leases }
    ensures gone { ExpiredAreGone t ledger.old tries.old tries.new }
    ensures none { StayGone tries.old tries.new }
    ensures fates { ledger.new.fates ≡ ledger.old.fates }
{
    while let Some(lease) = ledger.take_expired(t) {
        give_back_pairs(ledger, tries, Touched::Lease(lease), t);
    }
}
