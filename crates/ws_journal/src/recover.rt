// Opening a store: both devices are confirmed, and the one that counts is read.
ghost use Rattle.std.specs.Prelude.{◌≡◌, ◌<◌, ◌≤◌, ◌^◌, ◌↔◌, ◌⊎◌, ℕ, List, length, drop, All, IfOk, OnOk, Err, IsErr};
ghost use Rattle.ws_model.specs.Cause.{HasCause, Rose};
ghost use Rattle.ws_disk.specs.Crash.{LeavesOnly};
ghost use Rattle.ws_journal.specs.declared.store.Edition.{Edition};
ghost use Rattle.ws_journal.specs.Text.{IsRecorded};
ghost use Rattle.ws_journal.specs.Image.{IsDevice, IsUnused};
ghost use Rattle.ws_journal.specs.Looks.{OnlyReads};
ghost use Rattle.ws_journal.specs.Device.{FindsRecords, as_lists};
ghost use Rattle.ws_journal.specs.Stands.{HasTail};
ghost use Rattle.ws_journal.specs.Recovered.{CountsOn, Chooses, Confirmed, EndsWithin, RoseEither, IsNew, IsMaking, opened, Recovers, StillReads, StandsGiven, RecoverCrash};

use crate::ahead::Ahead;
use crate::choose::{Counting, choose};
use crate::fresh::{FIRST_GENERATION, make_fresh};
use crate::head::{LEAST_SIZE, read_head};
use crate::journal::{Doubt, Journal};
use crate::scan::{FIRST_GATE, read_records};
use crate::store::{Batch, Edition, OpenFault, Side, Store};
use std::alloc::Global;
use ws_disk::{Disk, DiskFailed};

/// Confirms what both devices hold.
fn sync_both<D: Disk>(store: &mut Store<D>) -> Result<(), DiskFailed>
    ensures confirmed_a { OnOk result (D.honest store.old.a → Confirmed D.seen D.moment D.images store.new.a) }
    ensures confirmed_b { OnOk result (D.honest store.old.b → Confirmed D.seen D.moment D.images store.new.b) }
    ensures reads_a { OnlyReads D.honest D.seen D.moment D.images D.faults store.old.a store.new.a }
    ensures reads_b { OnlyReads D.honest D.seen D.moment D.images D.faults store.old.b store.new.b }
    ensures cause { IsErr result → RoseEither D.faults store.old store.new }
{
    store.a.sync()?;
    store.b.sync()
}

/// Reads which of the devices counts.
fn read_heads<D: Disk>(store: &mut Store<D>) -> Result<Option<Counting>, OpenFault>
    ensures chooses { D.honest store.old.a → D.honest store.old.b → Chooses (D.seen store.old.a) (D.seen store.old.b) result }
    ensures reads_a { OnlyReads D.honest D.seen D.moment D.images D.faults store.old.a store.new.a }
    ensures reads_b { OnlyReads D.honest D.seen D.moment D.images D.faults store.old.b store.new.b }
    ensures cause { result ≡ Err OpenFault.Disk → RoseEither D.faults store.old store.new }
{
    let a = read_head(&mut store.a)?;
    let b = read_head(&mut store.b)?;
    choose(a, b)
}

/// Reads the batches of a device that is used, and its tail.
fn read_device<D: Disk>(
    alloc: Global,
    disk: &mut D,
    edition: Edition,
) -> Result<(Vec<Batch>, u64), OpenFault>
    ensures records { D.honest disk.old → (generation : ℕ) (rest : List ℕ) → IsDevice edition generation rest (D.seen disk.old)
        → FindsRecords edition rest (as_lists result) }
    ensures recorded { IfOk result (λ read. All IsRecorded read.0.items) }
    ensures tail { IfOk result (λ read. 17 < read.1) }
    ensures within { IfOk result (λ read. D.honest disk.old → read.1 ≤ length (D.seen disk.old)) }
    ensures reads { OnlyReads D.honest D.seen D.moment D.images D.faults disk.old disk.new }
    ensures cause { result ≡ Err OpenFault.Disk → Rose (D.faults disk.old) (D.faults disk.new) }
{
    let size = disk.size()?;
    if size < LEAST_SIZE as u64 {
        // Only a device that someone else shortens is too short for the head that was just read.
        return Err(OpenFault::Damaged { at: FIRST_GATE });
    }
    let mut ahead = Ahead::new(alloc, size)?;
    read_records(alloc, disk, &mut ahead, edition, size)
}

/// Reads the batches of the device that counts, and its tail.
fn read_counting<D: Disk>(
    alloc: Global,
    store: &mut Store<D>,
    counting: Counting,
) -> Result<(Vec<Batch>, u64), OpenFault>
    ensures records { D.honest store.old.a → D.honest store.old.b → (rest : List ℕ)
        → CountsOn counting.side counting.edition counting.generation rest (D.seen store.old.a) (D.seen store.old.b) → FindsRecords counting.edition rest (as_lists result) }
    ensures recorded { IfOk result (λ read. All IsRecorded read.0.items) }
    ensures tail { IfOk result (λ read. 17 < read.1) }
    ensures within { IfOk result (λ read. EndsWithin D.honest D.seen counting.side store.old read.1) }
    ensures reads_a { OnlyReads D.honest D.seen D.moment D.images D.faults store.old.a store.new.a }
    ensures reads_b { OnlyReads D.honest D.seen D.moment D.images D.faults store.old.b store.new.b }
    ensures cause { result ≡ Err OpenFault.Disk → RoseEither D.faults store.old store.new }
{
    match counting.side {
        Side::A => read_device(alloc, &mut store.a, counting.edition),
        Side::B => read_device(alloc, &mut store.b, counting.edition),
    }
}

/// Makes a store in which no device is used new.
fn recover_new<D: Disk>(
    alloc: Global,
    store: &mut Store<D>,
    limit: u64,
) -> Result<(Journal, Vec<Batch>), OpenFault>
    requires { limit ≤ 2 ^ 30 }
    ensures new { IfOk (opened result) (λ one. IsNew one.0 one.1) }
    ensures recorded { IfOk result (λ one. All IsRecorded one.1.items) }
    ensures limit { IfOk result (λ one. one.0.limit ≡ limit) }
    ensures stands { D.honest store.old.a → IsUnused (D.seen store.old.a) → IsUnused (D.seen store.old.b) → Confirmed D.seen D.moment D.images store.old.a → Confirmed D.seen D.moment D.images store.old.b
        → StandsGiven D.moment D.images store.new (opened result) }
    ensures place { IfOk result (λ one. HasTail D.honest D.moment D.images one.0 store.new) }
    ensures any_moment { D.honest store.old.a → IsUnused (D.seen store.old.a) → Confirmed D.seen D.moment D.images store.old.a
        → LeavesOnly D.moment D.images store.old.a store.new.a IsMaking }
    ensures untouched { store.new.b ≡ store.old.b }
    ensures honesty { D.honest store.new.a ↔ D.honest store.old.a }
    ensures only_disk { IsErr result → result ≡ Err OpenFault.Disk }
    ensures cause { HasCause (D.faults store.old.a) (D.faults store.new.a) result }
{
    make_fresh(&mut store.a)?;
    let journal = Journal {
        side: Side::A,
        edition: Edition::Second,
        generation: FIRST_GENERATION,
        tail: FIRST_GATE + 1,
        limit,
        doubt: Doubt::Nothing,
    };
    Ok((journal, Vec::new(alloc)))
}

/// Reads a store of which a device is used.
fn recover_used<D: Disk>(
    alloc: Global,
    store: &mut Store<D>,
    counting: Counting,
    limit: u64,
) -> Result<(Journal, Vec<Batch>), OpenFault>
    requires { limit ≤ 2 ^ 30 }
    ensures given { D.honest store.old.a → D.honest store.old.b → (rest : List ℕ)
        → CountsOn counting.side counting.edition counting.generation rest (D.seen store.old.a) (D.seen store.old.b) → StillReads (D.seen store.old.a) (D.seen store.old.b) (opened result) }
    ensures stands { D.honest store.old.a → D.honest store.old.b → (rest : List ℕ)
        → CountsOn counting.side counting.edition counting.generation rest (D.seen store.old.a) (D.seen store.old.b) → Confirmed D.seen D.moment D.images store.new.a
        → Confirmed D.seen D.moment D.images store.new.b → StandsGiven D.moment D.images store.new (opened result) }
    ensures place { (D.honest store.old.a → Confirmed D.seen D.moment D.images store.old.a) → (D.honest store.old.b → Confirmed D.seen D.moment D.images store.old.b)
        → IfOk result (λ one. HasTail D.honest D.moment D.images one.0 store.new) }
    ensures recorded { IfOk result (λ one. All IsRecorded one.1.items) }
    ensures limit { IfOk result (λ one. one.0.limit ≡ limit) }
    ensures reads_a { OnlyReads D.honest D.seen D.moment D.images D.faults store.old.a store.new.a }
    ensures reads_b { OnlyReads D.honest D.seen D.moment D.images D.faults store.old.b store.new.b }
    ensures cause { result ≡ Err OpenFault.Disk → RoseEither D.faults store.old store.new }
{
    let (batches, tail) = read_counting(alloc, store, counting)?;
    let journal = Journal {
        side: counting.side,
        edition: counting.edition,
        generation: counting.generation,
        tail,
        limit,
        doubt: Doubt::Nothing,
    };
    Ok((journal, batches))
}

impl Journal {
    /// Opens a store: the journal that stands on it, and its batches in their order. A store in which no
    /// device is used is made new, of edition 2.
    ///
    /// The tail may come to `limit` bytes, of 18 to 2^30. A device that already passes it is read all the
    /// same.
    ///
    /// # Errors
    ///
    /// `Foreign`, `Damaged` and `Altered` by what the devices read as, in this order; nothing was written
    /// then. `Disk` where a device failed: what the store reads as may be as before, or a new journal where
    /// no device was used.
    pub fn recover<D: Disk>(
        alloc: Global,
        store: &mut Store<D>,
        limit: u64,
    ) -> Result<(Journal, Vec<Batch>), OpenFault>
        requires least { 18 ≤ limit }
        requires most { limit ≤ 2 ^ 30 }
        // What is given is what the devices read as.
        ensures reads { D.honest store.old.a → D.honest store.old.b → Recovers (D.seen store.old.a) (D.seen store.old.b) (opened result) }
        // From then on each image reads as what was given.
        ensures every_image { D.honest store.old.a → D.honest store.old.b → (file second : List ℕ) → D.images store.new.a (D.moment store.new.a) file
            → D.images store.new.b (D.moment store.new.b) second → StillReads file second (opened result) }
        ensures stands { D.honest store.old.a → D.honest store.old.b → StandsGiven D.moment D.images store.new (opened result) }
        // Each batch that was given is one that a record can hold.
        ensures recorded { IfOk result (λ one. All IsRecorded one.1.items) }
        ensures place { IfOk result (λ one. HasTail D.honest D.moment D.images one.0 store.new) }
        ensures limit { IfOk result (λ one. one.0.limit ≡ limit) }
        ensures any_moment { D.honest store.old.a → D.honest store.old.b → RecoverCrash D.seen D.moment D.images store.old store.new }
        ensures honesty_a { D.honest store.new.a ↔ D.honest store.old.a }
        ensures honesty_b { D.honest store.new.b ↔ D.honest store.old.b }
        ensures later_a { D.faults store.old.a ≤ D.faults store.new.a }
        ensures later_b { D.faults store.old.b ≤ D.faults store.new.b }
        ensures cause { result ≡ Err OpenFault.Disk → RoseEither D.faults store.old store.new }
    {
        sync_both(store)?;
        match read_heads(store)? {
            Some(counting) => recover_used(alloc, store, counting, limit),
            None => recover_new(alloc, store, limit),
        }
    }
}
