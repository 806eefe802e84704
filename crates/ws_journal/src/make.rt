// A device that is made anew: its records behind a shut gate, and then its gate.
ghost use Rattle.std.specs.Prelude.{◌≡◌, ◌≤◌, ◌+◌, ◌^◌, ◌<◌, ◌∷◌, ◌++◌, [], ◌↔◌, ◌⊎◌, List, ℕ, length, All, IfOk, OnOk, IsErrOf};
ghost use Rattle.ws_model.specs.Cause.{HasCause};
ghost use Rattle.ws_disk.specs.Crash.{overwritten, LeavesOnly, Only};
ghost use Rattle.ws_journal.specs.declared.append.Stop.TheVariants.{Before, InDoubt};
ghost use Rattle.ws_journal.specs.declared.store.Edition.TheVariants.{Second};
ghost use Rattle.ws_journal.specs.Text.{head_text, record_text, records};
ghost use Rattle.ws_journal.specs.Kept.{After, Keeps, Each};
ghost use Rattle.ws_journal.specs.Made.{IsSpare, StaysSpare, body_text, IsHalfMade, IsMade, IsBelowOrMade};

use crate::append::{RECORD_BYTES, Stop};
use crate::clear::clear_device;
use crate::gate::set_gate;
use crate::record::write_payload;
use ws_disk::{Disk, DiskFailed};
use ws_model::Bytes;

/// The place of the first record's gate.
const FIRST_GATE: u64 = 17;

/// What a device of edition 2 has behind its gate and before its first record: its text and its generation.
fn device_head(generation: u64) -> [u8; 16]
    ensures { result ≡ head_text Second generation }
{
    let mut head = *b"WEBSUBJ2\0\0\0\0\0\0\0\0";
    head[8..].copy_from_slice(&generation.to_be_bytes());
    head
}

/// Writes a record with an open gate, and without a next gate.
fn write_record<D: Disk>(disk: &mut D, at: u64, payload: &[u8]) -> Result<(), DiskFailed>
    requires place { D.honest disk.old → at ≤ length (D.seen disk.old) }
    requires short { length payload.now < 2 ^ 32 }
    requires room { at < 2 ^ 62 }
    ensures any_moment { D.honest disk.old → LeavesOnly D.moment D.images disk.old disk.new (After (Keeps at) (D.images disk.old (D.moment disk.old))) }
    ensures written { OnOk result (D.honest disk.old → D.seen disk.new ≡ overwritten at (1 ∷ record_text Second payload.now) (D.seen disk.old)) }
    ensures honesty { D.honest disk.new ↔ D.honest disk.old }
    ensures cause { HasCause (D.faults disk.old) (D.faults disk.new) result }
{
    disk.write_at(at, &[1])?;
    write_payload(disk, at + 1, payload)
}

/// Writes open records one behind the other, without a next gate, and gives the place behind them.
fn write_records<D: Disk>(disk: &mut D, at: u64, batches: &[Bytes]) -> Result<u64, DiskFailed>
    requires place { D.honest disk.old → at ≤ length (D.seen disk.old) }
    requires short { All (λ payload. length payload < 2 ^ 32) batches.now }
    requires room { at + length (records Second batches.now) < 2 ^ 62 }
    ensures end { IfOk result (λ end. end ≡ at + length (records Second batches.now)) }
    ensures any_moment { D.honest disk.old → LeavesOnly D.moment D.images disk.old disk.new (After (Keeps at) (D.images disk.old (D.moment disk.old))) }
    ensures written { OnOk result (D.honest disk.old → D.seen disk.new ≡ overwritten at (records Second batches.now) (D.seen disk.old)) }
    ensures honesty { D.honest disk.new ↔ D.honest disk.old }
    ensures cause { HasCause (D.faults disk.old) (D.faults disk.new) result }
{
    let mut end = at;
    for batch in batches {
        let payload = batch.as_slice();
        write_record(disk, end, payload)?;
        end += payload.len() as u64 + RECORD_BYTES;
    }
    Ok(end)
}

/// Writes all of a device but its gate, the last gate shut, and confirms it.
fn put_device<D: Disk>(disk: &mut D, generation: u64, batches: &[Bytes]) -> Result<(), DiskFailed>
    requires place { D.honest disk.old → 1 ≤ length (D.seen disk.old) }
    requires short { All (λ payload. length payload < 2 ^ 32) batches.now }
    requires room { length (records Second batches.now) < 2 ^ 61 }
    ensures any_moment { D.honest disk.old → LeavesOnly D.moment D.images disk.old disk.new (After (Keeps 1) (D.images disk.old (D.moment disk.old))) }
    ensures written { OnOk result (D.honest disk.old → D.seen disk.new ≡ overwritten 1 (body_text generation batches.now ++ 0 ∷ []) (D.seen disk.old)) }
    ensures confirmed { OnOk result (D.honest disk.old → Only (D.seen disk.new) (D.images disk.new (D.moment disk.new))) }
    ensures honesty { D.honest disk.new ↔ D.honest disk.old }
    ensures cause { HasCause (D.faults disk.old) (D.faults disk.new) result }
{
    disk.write_at(1, &device_head(generation))?;
    let end = write_records(disk, FIRST_GATE, batches)?;
    disk.write_at(end, &[0])?;
    disk.sync()
}

/// Makes a device that doesn't count one of edition 2, with this generation and these batches' texts.
///
/// It is cleared behind a shut gate, all behind the gate is written and confirmed, and then the gate is
/// opened, and that confirmed.
pub(crate) fn make_device<D: Disk>(
    disk: &mut D,
    generation: u64,
    batches: &[Bytes],
) -> Result<(), Stop>
    requires short { All (λ payload. length payload < 2 ^ 32) batches.now }
    requires room { length (records Second batches.now) < 2 ^ 61 }
    ensures any_moment { (older : ℕ) → D.honest disk.old → IsSpare older (D.images disk.old (D.moment disk.old))
        → LeavesOnly D.moment D.images disk.old disk.new (IsBelowOrMade older generation batches.now) }
    ensures made { D.honest disk.old → OnOk result (Each (D.images disk.new (D.moment disk.new)) (IsMade generation batches.now)) }
    ensures before { (older : ℕ) → D.honest disk.old → IsSpare older (D.images disk.old (D.moment disk.old))
        → IsErrOf result Before → StaysSpare D.moment D.images older disk.old disk.new }
    ensures in_doubt { (older : ℕ) → D.honest disk.old → IsSpare older (D.images disk.old (D.moment disk.old))
        → IsErrOf result InDoubt → Each (D.images disk.new (D.moment disk.new)) (IsHalfMade generation batches.now) }
    ensures honesty { D.honest disk.new ↔ D.honest disk.old }
    ensures cause { HasCause (D.faults disk.old) (D.faults disk.new) result }
{
    clear_device(disk)?;
    put_device(disk, generation, batches)?;
    match set_gate(disk, 0, 1) {
        Ok(()) => Ok(()),
        Err(_) => Err(Stop::InDoubt),
    }
}
