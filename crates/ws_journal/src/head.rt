// The head of a device: whether it is used, of which edition and generation.
ghost use Rattle.std.specs.Prelude.{◌≡◌, ◌<◌, ◌↔◌, ℕ, List, length, take, IsTrue, IfSome, IfNone, IfOk};
ghost use Rattle.ws_model.specs.Cause.{HasCause};
ghost use Rattle.ws_journal.specs.declared.store.Edition.{Edition};
ghost use Rattle.ws_journal.specs.Text.{name_text};
ghost use Rattle.ws_journal.specs.Image.{IsGeneration};
ghost use Rattle.ws_journal.specs.Device.{IsHead, HasParts};
ghost use Rattle.ws_journal.specs.Looks.{OnlyReads};

use crate::store::Edition;
use ws_disk::{Disk, DiskFailed};

/// The least size of a device that is used, in bytes.
pub(crate) const LEAST_SIZE: usize = 18;

/// What a device is, by its head.
#[derive(Clone, Copy)]
pub(crate) enum Head {
    Unused,
    Foreign { at: u64 },
    Used { edition: Edition, generation: u64 },
}

/// The edition of that name.
fn edition_of(name: &[u8]) -> Option<Edition>
    ensures some { IfSome result (λ edition. name.now ≡ name_text edition) }
    ensures none { IfNone result ((edition : Edition) → name.now ≡ name_text edition → ⊥) }
{
    match name {
        b"WEBSUBJ1" => Some(Edition::First),
        b"WEBSUBJ2" => Some(Edition::Second),
        _ => None,
    }
}

/// A device of this edition may have this generation. Above one of edition 1 there is a next one.
fn is_generation(edition: Edition, generation: u64) -> bool
    ensures { IsTrue result ↔ IsGeneration edition generation }
{
    let end = match edition {
        Edition::First => (1 << 63) - 1,
        Edition::Second => 1 << 63,
    };
    0 < generation && generation < end
}

/// The gate, the name and the generation, where the bytes are enough for a device.
fn head_parts(bytes: &[u8]) -> Option<(u8, &[u8], u64)>
    ensures some { IfSome result (λ parts. HasParts parts.0 parts.1.now parts.2 bytes.now) }
    ensures none { IfNone result (length bytes.now < 18) }
{
    let (gate, rest) = bytes.split_first()?;
    let (name, rest) = rest.split_first_chunk::<8>()?;
    let (generation, rest) = rest.split_first_chunk::<8>()?;
    if rest.is_empty() {
        return None;
    }
    Some((*gate, name, u64::from_be_bytes(*generation)))
}

/// What a device is whose first bytes are these, as many as there are up to 18.
fn judge_head(bytes: &[u8]) -> Head
    ensures { (file : List ℕ) → take 18 file ≡ bytes.now → IsHead file result }
{
    let Some((gate, name, generation)) = head_parts(bytes) else {
        return Head::Unused;
    };
    match (gate, edition_of(name)) {
        (0, _) => Head::Unused,
        (1, Some(edition)) if is_generation(edition, generation) => {
            Head::Used {
                edition,
                generation,
            }
        }
        (1, Some(_)) => Head::Foreign { at: 9 },
        (1, None) => Head::Foreign { at: 1 },
        // Its gate was being written.
        (_, Some(_)) => Head::Unused,
        (_, None) => Head::Foreign { at: 0 },
    }
}

/// Reads the head of a device.
pub(crate) fn read_head<D: Disk>(disk: &mut D) -> Result<Head, DiskFailed>
    ensures head { IfOk result (λ head. D.honest disk.old → IsHead (D.seen disk.old) head) }
    ensures reads { OnlyReads D.honest D.seen D.moment D.images D.faults disk.old disk.new }
    ensures cause { HasCause (D.faults disk.old) (D.faults disk.new) result }
{
    let mut bytes = [0; LEAST_SIZE];
    let count = disk.read_at(0, &mut bytes)?;
    Ok(judge_head(&bytes[..count]))
}
