// A record of a device, written behind its gate and confirmed.
ghost use Rattle.std.specs.Prelude.{◌≡◌, ◌≤◌, ◌+◌, ◌^◌, ◌<◌, ◌∷◌, ◌++◌, [], ◌↔◌, List, ℕ, length, take, OnOk};
ghost use Rattle.std.specs.Int.{w32};
ghost use Rattle.sha2.specs.Sha256.{sha256};
ghost use Rattle.ws_model.specs.Cause.{HasCause};
ghost use Rattle.ws_record.specs.Text.{number_text};
ghost use Rattle.ws_disk.specs.Crash.{overwritten, LeavesOnly, Only};
ghost use Rattle.ws_journal.specs.declared.store.Edition.TheVariants.{Second};
ghost use Rattle.ws_journal.specs.Text.{record_text};
ghost use Rattle.ws_journal.specs.Kept.{After, Keeps};

use sha2::{Digest, Sha256};
use ws_disk::{Disk, DiskFailed};

/// What a record of edition 2 has before its payload: the length and the digest.
fn record_head(payload: &[u8]) -> [u8; 36]
    requires { length payload.now < 2 ^ 32 }
    ensures { result ≡ number_text w32 (length payload.now) ++ sha256 payload.now }
{
    let mut head = [0; 36];
    head[..4].copy_from_slice(&(payload.len() as u32).to_be_bytes());
    head[4..].copy_from_slice(&Sha256::digest(payload));
    head
}

/// Writes the head and the payload of a record.
pub(crate) fn write_payload<D: Disk>(
    disk: &mut D,
    at: u64,
    payload: &[u8],
) -> Result<(), DiskFailed>
    requires place { D.honest disk.old → at ≤ length (D.seen disk.old) }
    requires short { length payload.now < 2 ^ 32 }
    requires room { at < 2 ^ 63 }
    ensures any_moment { D.honest disk.old → LeavesOnly D.moment D.images disk.old disk.new (After (Keeps at) (D.images disk.old (D.moment disk.old))) }
    ensures written { OnOk result (D.honest disk.old → D.seen disk.new ≡ overwritten at (record_text Second payload.now) (D.seen disk.old)) }
    ensures honesty { D.honest disk.new ↔ D.honest disk.old }
    ensures cause { HasCause (D.faults disk.old) (D.faults disk.new) result }
{
    disk.write_at(at, &record_head(payload))?;
    disk.write_at(at + 36, payload)
}

/// Writes a record without its gate, and a next gate that is shut, and confirms them.
pub(crate) fn put_record<D: Disk>(disk: &mut D, at: u64, payload: &[u8]) -> Result<(), DiskFailed>
    requires place { D.honest disk.old → at ≤ length (D.seen disk.old) }
    requires short { length payload.now < 2 ^ 32 }
    requires room { at < 2 ^ 63 }
    ensures any_moment { D.honest disk.old → LeavesOnly D.moment D.images disk.old disk.new (After (Keeps at) (D.images disk.old (D.moment disk.old))) }
    ensures written { OnOk result (D.honest disk.old → D.seen disk.new ≡ overwritten at (record_text Second payload.now ++ 0 ∷ []) (D.seen disk.old)) }
    ensures confirmed { OnOk result (D.honest disk.old → Only (D.seen disk.new) (D.images disk.new (D.moment disk.new))) }
    ensures honesty { D.honest disk.new ↔ D.honest disk.old }
    ensures cause { HasCause (D.faults disk.old) (D.faults disk.new) result }
{
    write_payload(disk, at, payload)?;
    disk.write_at(at + 36 + payload.len() as u64, &[0])?;
    disk.sync()
}
