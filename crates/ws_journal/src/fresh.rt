// The device of a store in which no device is used yet.
ghost use Rattle.std.specs.Prelude.{◌≡◌, ◌↔◌, [], OnOk};
ghost use Rattle.ws_model.specs.Cause.{HasCause};
ghost use Rattle.ws_disk.specs.Crash.{LeavesOnly};
ghost use Rattle.ws_journal.specs.Kept.{Each};
ghost use Rattle.ws_journal.specs.Made.{IsSpare, IsMade, IsUnusedOrMade};

use crate::make::make_device;
use ws_disk::{Disk, DiskFailed};

/// The generation of a new store's device.
pub(crate) const FIRST_GENERATION: u64 = 1;

/// Makes an unused device one of edition 2 and of the first generation, without batches. Its tail is 18.
pub(crate) fn make_fresh<D: Disk>(disk: &mut D) -> Result<(), DiskFailed>
    // A crash at any moment of the call leaves it unused, or the new one.
    ensures any_moment { D.honest disk.old → IsSpare 0 (D.images disk.old (D.moment disk.old))
        → LeavesOnly D.moment D.images disk.old disk.new (IsUnusedOrMade 1 []) }
    ensures made { D.honest disk.old → OnOk result (Each (D.images disk.new (D.moment disk.new)) (IsMade 1 [])) }
    ensures honesty { D.honest disk.new ↔ D.honest disk.old }
    ensures cause { HasCause (D.faults disk.old) (D.faults disk.new) result }
{
    match make_device(disk, FIRST_GENERATION, &[]) {
        Ok(()) => Ok(()),
        Err(_) => Err(DiskFailed),
    }
}
