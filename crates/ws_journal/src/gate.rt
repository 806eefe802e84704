// A gate of a device, written and confirmed.
ghost use Rattle.std.specs.Prelude.{◌≡◌, ◌≤◌, ◌+◌, ◌^◌, ◌<◌, ◌∷◌, [], ◌↔◌, List, ℕ, length, OnOk, OnErr};
ghost use Rattle.ws_model.specs.Cause.{HasCause};
ghost use Rattle.ws_disk.specs.Crash.{overwritten, Torn, LeavesOnly, Only};
ghost use Rattle.ws_journal.specs.Kept.{After};

use ws_disk::{Disk, DiskFailed};

/// Writes the gate at that place, and confirms it.
pub(crate) fn set_gate<D: Disk>(disk: &mut D, place: u64, gate: u8) -> Result<(), DiskFailed>
    requires { D.honest disk.old → place ≤ length (D.seen disk.old) }
    ensures any_moment { D.honest disk.old → LeavesOnly D.moment D.images disk.old disk.new (After (Torn place 1) (D.images disk.old (D.moment disk.old))) }
    ensures written { OnOk result (D.honest disk.old → D.seen disk.new ≡ overwritten place (gate ∷ []) (D.seen disk.old)) }
    ensures confirmed { OnOk result (D.honest disk.old → Only (D.seen disk.new) (D.images disk.new (D.moment disk.new))) }
    ensures honesty { D.honest disk.new ↔ D.honest disk.old }
    ensures cause { HasCause (D.faults disk.old) (D.faults disk.new) result }
{
    disk.write_at(place, &[gate])?;
    disk.sync()
}
