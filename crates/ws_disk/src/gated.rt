// A record behind a gate, for any disk: what the clauses of a disk say of a run of its calls.
ghost use Rattle.std.specs.Prelude.{◌≡◌, ◌<◌, ◌^◌, OnOk, IsErr};
ghost use Rattle.ws_model.specs.Cause.{Rose};
ghost use Rattle.ws_disk.specs.Crash.{LeavesOnly, Only};
ghost use Rattle.ws_disk.specs.Gated.{IsClosed, recovered, IsBeforeOrAfter};

use crate::{Disk, DiskFailed};

/// Writes bytes behind a gate that stands last and closed, confirms them, opens the gate, and
/// confirms that. So a crash at any moment leaves a disk with the bytes or without them, and from
/// its success on one with them.
pub fn write_gated<D: Disk>(disk: &mut D, gate: u64, bytes: &[u8]) -> Result<(), DiskFailed>
    requires room { gate < 2 ^ 63 }
    requires closed { D.honest disk.old → IsClosed gate (D.seen disk.old) }
    requires confirmed { D.honest disk.old → Only (D.seen disk.old) (D.images disk.old (D.moment disk.old)) }
    ensures any_moment { D.honest disk.old → LeavesOnly D.moment D.images disk.old disk.new (IsBeforeOrAfter gate bytes.now) }
    ensures confirmed { OnOk result (D.honest disk.old → Only (D.seen disk.new) (D.images disk.new (D.moment disk.new))) }
    ensures written { OnOk result (D.honest disk.old → recovered gate (D.seen disk.new) ≡ bytes.now) }
    ensures failed { IsErr result → Rose (D.faults disk.old) (D.faults disk.new) }
{
    disk.write_at(gate + 1, bytes)?;
    disk.sync()?;
    disk.write_at(gate, &[1])?;
    disk.sync()
}
