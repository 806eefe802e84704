// A device that doesn't count, cleared behind a shut gate before it is written anew.
ghost use Rattle.std.specs.Prelude.{◌≡◌, ◌↔◌, ◌<◌, [], ◌∷◌, ℕ, take, slice_get, IfOk, OnOk};
ghost use Rattle.ws_model.specs.Cause.{HasCause};
ghost use Rattle.ws_disk.specs.Crash.{Cut, LeavesOnly, NoMore, Only, Elapses};
ghost use Rattle.ws_journal.specs.Kept.{After};
ghost use Rattle.ws_journal.specs.Made.{IsSpare, StaysSpare, IsZeroed};

use crate::gate::set_gate;
use ws_disk::{Disk, DiskFailed};

/// How many bytes a device has before its first record's gate: with fewer than one more it is unused.
const HEAD_BYTES: u64 = 17;

/// The gate's byte, where it is there.
fn gate_of<D: Disk>(disk: &mut D) -> Result<Option<u8>, DiskFailed>
    ensures value { IfOk result (λ gate. D.honest disk.old → gate ≡ slice_get (D.seen disk.old) 0) }
    ensures seen { D.seen disk.new ≡ D.seen disk.old }
    ensures crash { D.honest disk.old → NoMore (D.images disk.old (D.moment disk.old)) (D.images disk.new (D.moment disk.new)) }
    ensures time { D.honest disk.old → Elapses (D.moment disk.old) (D.moment disk.new) (D.images disk.old) (D.images disk.new) }
    ensures honesty { D.honest disk.new ↔ D.honest disk.old }
    ensures cause { HasCause (D.faults disk.old) (D.faults disk.new) result }
{
    let mut gate = [0];
    if disk.read_at(0, &mut gate)? == 0 {
        return Ok(None);
    }
    Ok(Some(gate[0]))
}

/// Cuts what is longer to that size.
fn cut_to<D: Disk>(disk: &mut D, size: u64) -> Result<(), DiskFailed>
    ensures any_moment { D.honest disk.old → LeavesOnly D.moment D.images disk.old disk.new (After (Cut size) (D.images disk.old (D.moment disk.old))) }
    ensures shortened { OnOk result (D.honest disk.old → D.seen disk.new ≡ take size (D.seen disk.old)) }
    ensures honesty { D.honest disk.new ↔ D.honest disk.old }
    ensures cause { HasCause (D.faults disk.old) (D.faults disk.new) result }
{
    if disk.size()? <= size {
        return Ok(());
    }
    disk.cut(size)
}

/// Cuts what is longer to that size, and confirms that.
fn shorten<D: Disk>(disk: &mut D, size: u64) -> Result<(), DiskFailed>
    ensures any_moment { D.honest disk.old → LeavesOnly D.moment D.images disk.old disk.new (After (Cut size) (D.images disk.old (D.moment disk.old))) }
    ensures shortened { OnOk result (D.honest disk.old → D.seen disk.new ≡ take size (D.seen disk.old)) }
    ensures confirmed { OnOk result (D.honest disk.old → Only (D.seen disk.new) (D.images disk.new (D.moment disk.new))) }
    ensures honesty { D.honest disk.new ↔ D.honest disk.old }
    ensures cause { HasCause (D.faults disk.old) (D.faults disk.new) result }
{
    cut_to(disk, size)?;
    disk.sync()
}

/// Shuts the device's gate, and confirms that.
///
/// A byte 0 that reads as 0 isn't written again, and any other is written only once the device is too
/// short to be used: until its sync a crash might leave a written byte 0 as 1, above stale bytes.
fn shut_device<D: Disk>(disk: &mut D) -> Result<(), DiskFailed>
    ensures any_moment { (generation : ℕ) → D.honest disk.old → IsSpare generation (D.images disk.old (D.moment disk.old))
        → StaysSpare D.moment D.images generation disk.old disk.new }
    ensures shut { OnOk result (D.honest disk.old → IsZeroed (D.seen disk.new)) }
    ensures confirmed { OnOk result (D.honest disk.old → Only (D.seen disk.new) (D.images disk.new (D.moment disk.new))) }
    ensures honesty { D.honest disk.new ↔ D.honest disk.old }
    ensures cause { HasCause (D.faults disk.old) (D.faults disk.new) result }
{
    match gate_of(disk)? {
        Some(0) => disk.sync(),
        None => set_gate(disk, 0, 0),
        Some(_) => {
            shorten(disk, HEAD_BYTES)?;
            set_gate(disk, 0, 0)
        }
    }
}

/// Leaves of a device that doesn't count only its gate, which is 0, and confirms that.
pub(crate) fn clear_device<D: Disk>(disk: &mut D) -> Result<(), DiskFailed>
    ensures any_moment { (generation : ℕ) → D.honest disk.old → IsSpare generation (D.images disk.old (D.moment disk.old))
        → StaysSpare D.moment D.images generation disk.old disk.new }
    ensures cleared { OnOk result (D.honest disk.old → D.seen disk.new ≡ 0 ∷ []) }
    ensures confirmed { OnOk result (D.honest disk.old → Only (D.seen disk.new) (D.images disk.new (D.moment disk.new))) }
    ensures honesty { D.honest disk.new ↔ D.honest disk.old }
    ensures cause { HasCause (D.faults disk.old) (D.faults disk.new) result }
{
    shut_device(disk)?;
    shorten(disk, 1)
}
