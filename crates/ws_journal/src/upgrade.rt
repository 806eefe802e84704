// A journal of edition 1 is written anew as one of edition 2.
ghost use Rattle.std.specs.Prelude.{◌≡◌, ◌≢◌, ◌≤◌, ◌+◌, ◌-◌, ◌^◌, ◌<◌, ◌↔◌, ◌⊎◌, List, ℕ, length, All, None, Ok, Err, OnOk, OnErr, IfOk, IsErr, is_ok};
ghost use Rattle.ws_model.specs.Cause.{Rose};
ghost use Rattle.ws_journal.specs.declared.store.Edition.TheVariants.{First, Second};
ghost use Rattle.ws_journal.specs.Text.{IsRecorded, texts};

use crate::journal::Journal;
use crate::replace::{EMPTY_TAIL, records_len};
use crate::store::{Batch, Store};
use std::alloc::Global;
use ws_disk::{Disk, DiskFailed};
use ws_model::{Bytes, NoMemory};
use ws_record::write_batch;

/// No memory holds texts that come to so many bytes.
const MOST_BYTES: u64 = 1 << 60;

/// Why a journal isn't upgraded.
#[derive(Clone, Copy, Debug, PartialEq, Eq, thiserror::Error)]
pub enum UpgradeFault {
    /// A device failed.
    #[error("disk failed")]
    Disk,
    /// There was no memory.
    #[error("no memory")]
    NoMemory,
}

impl From<DiskFailed> for UpgradeFault {
    ghost use Rattle.std.specs.Prelude.{◌≡◌};
    ghost use Rattle.ws_journal.specs.declared.upgrade.UpgradeFault.TheVariants.{Disk};

    ghost from_gives = { λ _ fault. fault ≡ Disk };

    fn from(_: DiskFailed) -> Self {
        UpgradeFault::Disk
    }
}

impl From<NoMemory> for UpgradeFault {
    ghost use Rattle.std.specs.Prelude.{◌≡◌};
    ghost use Rattle.ws_journal.specs.declared.upgrade.UpgradeFault.TheVariants.{NoMemory};

    ghost from_gives = { λ _ fault. fault ≡ NoMemory };

    fn from(_: NoMemory) -> Self {
        UpgradeFault::NoMemory
    }
}

/// The texts of these batches.
fn batch_texts(alloc: Global, batches: &[Batch]) -> Result<Vec<Bytes>, NoMemory>
    requires { All IsRecorded batches.now }
    ensures { IfOk result (λ written. written.items ≡ texts batches.now) }
{
    let mut written = Vec::new(alloc);
    for batch in batches {
        written.push(write_batch(alloc, batch.events.as_slice())?)?;
    }
    Ok(written)
}

impl Journal {
    ghost use Rattle.ws_journal.specs.Stands.{counting, other, Stands, HasTail};
    ghost use Rattle.ws_journal.specs.Replaced.{StandsBeside, Replaces, ReplacesBeside};

    /// Upgrades a journal of edition 1: it writes these batches to the other device as edition 2, with the
    /// next generation, even where they pass the limit.
    ///
    /// The batches are those that the journal's opening gave, and the store is the one that it was opened
    /// on, changed since by this call alone.
    ///
    /// # Errors
    ///
    /// `NoMemory` before any call of a device, and `Disk` where a device failed. The journal then stands
    /// for the same batches as before.
    pub fn upgrade<D: Disk>(
        &mut self,
        alloc: Global,
        store: &mut Store<D>,
        batches: &[Batch],
    ) -> Result<(), UpgradeFault>
        requires edition { self.old.edition ≡ First }
        requires batches { All IsRecorded batches.now }
        requires place { HasTail D.honest D.moment D.images self.old store.old }
        ensures memory { result ≡ Err UpgradeFault.NoMemory → (store.new ≡ store.old) × (self.new ≡ self.old) }
        // Each image during the call reads as the same batches, of one edition or the other.
        ensures upgrades { result ≢ Err UpgradeFault.NoMemory → D.honest (counting self.old.side store.old) → D.honest (other self.old.side store.old)
            → Stands D.moment D.images self.old store.old (texts batches.now) None
            → Replaces D.moment D.images self.old self.new store.old store.new (texts batches.now) None (texts batches.now) (is_ok result) }
        ensures upgrades_beside { result ≢ Err UpgradeFault.NoMemory → D.honest (counting self.old.side store.old) → D.honest (other self.old.side store.old)
            → StandsBeside D.moment D.images self.old store.old (texts batches.now) (texts batches.now)
            → ReplacesBeside D.moment D.images self.old self.new store.old store.new (texts batches.now) (texts batches.now) (texts batches.now) (is_ok result) }
        ensures place { HasTail D.honest D.moment D.images self.new store.new }
        ensures done { OnOk result (self.new.edition ≡ Second) }
        ensures not_done { OnErr result (self.new.edition ≡ First) }
        ensures limit { self.new.limit ≡ self.old.limit }
        ensures honesty { D.honest (counting self.old.side store.new) ↔ D.honest (counting self.old.side store.old) }
        ensures other_honesty { D.honest (other self.old.side store.new) ↔ D.honest (other self.old.side store.old) }
        ensures later { D.faults (counting self.old.side store.old) ≤ D.faults (counting self.old.side store.new) }
        ensures other_later { D.faults (other self.old.side store.old) ≤ D.faults (other self.old.side store.new) }
        ensures cause { result ≡ Err UpgradeFault.Disk → Rose (D.faults (counting self.old.side store.old)) (D.faults (counting self.old.side store.new))
            ⊎ Rose (D.faults (other self.old.side store.old)) (D.faults (other self.old.side store.new)) }
    {
        let written = batch_texts(alloc, batches)?;
        let len = records_len(&written);
        if len > MOST_BYTES {
            return Err(UpgradeFault::NoMemory);
        }
        Ok(self.switch(store, &written, EMPTY_TAIL + len)?)
    }
}
