// Replacing a journal's batches: the other device is made the next generation.
ghost use Rattle.std.specs.Prelude.{◌≡◌, ◌≢◌, ◌≤◌, ◌+◌, ◌-◌, ◌^◌, ◌<◌, ◌↔◌, ◌⊎◌, List, ℕ, length, All, Option, None, Ok, Err, OnOk, OnErr, IsErr, is_ok};
ghost use Rattle.ws_model.specs.Cause.{HasCause, Rose};
ghost use Rattle.ws_disk.specs.Crash.{LeavesOnly};
ghost use Rattle.ws_record.specs.Text.{capped};
ghost use Rattle.ws_journal.specs.declared.store.Edition.TheVariants.{Second};
ghost use Rattle.ws_journal.specs.Text.{records, IsPayload};
ghost use Rattle.ws_journal.specs.Kept.{Each};
ghost use Rattle.ws_journal.specs.Made.{IsSpare, IsMade, IsHalfMade, IsBelowOrMade};
ghost use Rattle.ws_journal.specs.Replaced.{records_len};

use crate::append::{RECORD_BYTES, Stop};
use crate::journal::{Doubt, Journal};
use crate::make::make_device;
use crate::store::{AppendFault, Edition, Side, Store};
use ws_disk::{Disk, DiskFailed};
use ws_model::Bytes;

/// The tail of a device without records.
pub(crate) const EMPTY_TAIL: u64 = 18;

/// No device of edition 2 is of a greater generation.
const LAST_GENERATION: u64 = (1 << 63) - 1;

/// What the records of these batches come to, in bytes; 2^64 - 1 where it is more.
pub(crate) fn records_len(batches: &[Bytes]) -> u64
    ensures { result ≡ capped (records_len batches.now) }
{
    let mut sum: u64 = 0;
    for batch in batches {
        sum = sum.saturating_add(batch.as_slice().len() as u64 + RECORD_BYTES);
    }
    sum
}

impl Journal {
    ghost use Rattle.ws_journal.specs.declared.journal.Doubt.TheVariants.{Nothing, Device};
    ghost use Rattle.ws_journal.specs.Stands.{counting, other, Stands, HasTail};
    ghost use Rattle.ws_journal.specs.Replaced.{StandsBeside, IsNext, KnowsDevice, BesideCrash, CountingCrash, ReadsOlderOrNewer, ReadsLeft, Replaced, Replaces, ReplacesBeside, IsLast, PassesWith, ReplaceFull};

    /// The generation behind this one. Only a disk that isn't honest can have given one that has none.
    fn next_generation(&self) -> u64
        ensures { self.now.generation < 2 ^ 63 - 1 → result ≡ self.now.generation + 1 }
    {
        self.generation.saturating_add(1)
    }

    /// Makes a device one of this generation with these batches, and has it count from then on.
    fn make_other<D: Disk>(
        &mut self,
        disk: &mut D,
        side: Side,
        generation: u64,
        batches: &[Bytes],
        tail: u64,
    ) -> Result<(), DiskFailed>
        requires short { All (λ payload. length payload < 2 ^ 32) batches.now }
        requires room { length (records Second batches.now) < 2 ^ 61 }
        requires tail { 17 < tail }
        ensures any_moment { (older : ℕ) → D.honest disk.old → IsSpare older (D.images disk.old (D.moment disk.old))
            → LeavesOnly D.moment D.images disk.old disk.new (IsBelowOrMade older generation batches.now) }
        ensures made { D.honest disk.old → OnOk result (Each (D.images disk.new (D.moment disk.new)) (IsMade generation batches.now)) }
        ensures switched { OnOk result (IsNext side generation tail self.old self.new) }
        ensures failed { (older : ℕ) → D.honest disk.old → IsSpare older (D.images disk.old (D.moment disk.old)) → IsErr result
            → ((self.new ≡ self.old) × IsSpare older (D.images disk.new (D.moment disk.new)))
            ⊎ (KnowsDevice self.old self.new × Each (D.images disk.new (D.moment disk.new)) (IsHalfMade generation batches.now)) }
        ensures done { OnOk result (self.new.edition ≡ Second) }
        ensures not_done { OnErr result ((self.new.side ≡ self.old.side) × (self.new.edition ≡ self.old.edition) × (self.new.tail ≡ self.old.tail)) }
        ensures limit { self.new.limit ≡ self.old.limit }
        ensures honesty { D.honest disk.new ↔ D.honest disk.old }
        ensures cause { HasCause (D.faults disk.old) (D.faults disk.new) result }
    {
        match make_device(disk, generation, batches) {
            Ok(()) => {
                self.side = side;
                self.edition = Edition::Second;
                self.generation = generation;
                self.tail = tail;
                Ok(())
            }
            Err(Stop::Before) => Err(DiskFailed),
            Err(Stop::InDoubt) => {
                self.doubt = Doubt::Device;
                Err(DiskFailed)
            }
        }
    }

    /// Makes the device that doesn't count the next generation with these batches, while nothing is in doubt.
    fn make_next<D: Disk>(
        &mut self,
        store: &mut Store<D>,
        batches: &[Bytes],
        tail: u64,
    ) -> Result<(), DiskFailed>
        requires batches { All IsPayload batches.now }
        requires room { length (records Second batches.now) < 2 ^ 61 }
        requires tail { tail ≡ 18 + length (records Second batches.now) }
        ensures any_moment { (payloads : List (List ℕ)) → self.old.generation < 2 ^ 63 - 1 → D.honest (other self.old.side store.old) → Stands D.moment D.images self.old store.old payloads None
            → BesideCrash D.moment D.images self.old.side store.old store.new (ReadsOlderOrNewer self.old payloads batches.now) }
        ensures replaced { (payloads : List (List ℕ)) → self.old.generation < 2 ^ 63 - 1 → D.honest (other self.old.side store.old) → Stands D.moment D.images self.old store.old payloads None
            → Replaced D.moment D.images self.old self.new store.new payloads batches.now (is_ok result) }
        ensures reaches { HasTail D.honest D.moment D.images self.old store.old → HasTail D.honest D.moment D.images self.new store.new }
        ensures done { OnOk result (self.new.edition ≡ Second) }
        ensures not_done { OnErr result (self.new.edition ≡ self.old.edition) }
        ensures limit { self.new.limit ≡ self.old.limit }
        ensures untouched { counting self.old.side store.new ≡ counting self.old.side store.old }
        ensures honesty { D.honest (other self.old.side store.new) ↔ D.honest (other self.old.side store.old) }
        ensures cause { HasCause (D.faults (other self.old.side store.old)) (D.faults (other self.old.side store.new)) result }
    {
        let generation = self.next_generation();
        match self.side {
            Side::A => self.make_other(&mut store.b, Side::B, generation, batches, tail),
            Side::B => self.make_other(&mut store.a, Side::A, generation, batches, tail),
        }
    }

    /// Closes what is in doubt, and then makes the device that doesn't count the next generation.
    pub(crate) fn switch<D: Disk>(
        &mut self,
        store: &mut Store<D>,
        batches: &[Bytes],
        tail: u64,
    ) -> Result<(), DiskFailed>
        requires place { HasTail D.honest D.moment D.images self.old store.old }
        requires batches { All IsPayload batches.now }
        requires room { length (records Second batches.now) < 2 ^ 61 }
        requires tail { tail ≡ 18 + length (records Second batches.now) }
        ensures replaces { (payloads : List (List ℕ)) (doubt : Option (List ℕ)) → self.old.generation < 2 ^ 63 - 1 → (self.old.edition ≡ Second) ⊎ (doubt ≡ None) → D.honest (counting self.old.side store.old) → D.honest (other self.old.side store.old)
            → Stands D.moment D.images self.old store.old payloads doubt → Replaces D.moment D.images self.old self.new store.old store.new payloads doubt batches.now (is_ok result) }
        ensures replaces_beside { (payloads doubted : List (List ℕ)) → D.honest (counting self.old.side store.old) → D.honest (other self.old.side store.old)
            → StandsBeside D.moment D.images self.old store.old payloads doubted → ReplacesBeside D.moment D.images self.old self.new store.old store.new payloads doubted batches.now (is_ok result) }
        ensures place { HasTail D.honest D.moment D.images self.new store.new }
        ensures done { OnOk result (self.new.edition ≡ Second) }
        ensures not_done { OnErr result (self.new.edition ≡ self.old.edition) }
        ensures limit { self.new.limit ≡ self.old.limit }
        ensures honesty { D.honest (counting self.old.side store.new) ↔ D.honest (counting self.old.side store.old) }
        ensures other_honesty { D.honest (other self.old.side store.new) ↔ D.honest (other self.old.side store.old) }
        ensures later { D.faults (counting self.old.side store.old) ≤ D.faults (counting self.old.side store.new) }
        ensures other_later { D.faults (other self.old.side store.old) ≤ D.faults (other self.old.side store.new) }
        ensures cause { IsErr result → Rose (D.faults (counting self.old.side store.old)) (D.faults (counting self.old.side store.new))
            ⊎ Rose (D.faults (other self.old.side store.old)) (D.faults (other self.old.side store.new)) }
    {
        self.close_batch(store)?;
        self.close_beside(store)?;
        self.make_next(store, batches, tail)
    }

    /// Replaces the journal's batches by those of these texts: it writes the other device as the next
    /// generation, of edition 2. It takes no memory.
    ///
    /// The journal is of edition 2, and the store is the one that it was recovered from, changed since by
    /// its own calls alone.
    ///
    /// # Errors
    ///
    /// `Full` with the tail 2^63 - 1 where no generation is left, and with the tail 18 where the device
    /// would pass the limit, each before any call of a device. `Disk` where a device failed: the batches
    /// are then in doubt where the new device's gate was begun to be written, and the next call closes
    /// that gate before it writes anything else.
    pub fn replace<D: Disk>(
        &mut self,
        store: &mut Store<D>,
        batches: &[Bytes],
    ) -> Result<(), AppendFault>
        requires edition { self.old.edition ≡ Second }
        requires batches { All IsPayload batches.now }
        requires place { HasTail D.honest D.moment D.images self.old store.old }
        ensures full { ReplaceFull self.old batches.now result }
        ensures untouched { IsLast self.old ⊎ PassesWith self.old batches.now → (store.new ≡ store.old) × (self.new ≡ self.old) }
        // A crash at any moment leaves the batches before it or the new ones, beside what was in doubt until that is closed.
        ensures replaces { (payloads : List (List ℕ)) (doubt : Option (List ℕ)) → D.honest (counting self.old.side store.old) → D.honest (other self.old.side store.old)
            → Stands D.moment D.images self.old store.old payloads doubt → (IsLast self.old ⊎ PassesWith self.old batches.now → ⊥)
            → Replaces D.moment D.images self.old self.new store.old store.new payloads doubt batches.now (is_ok result) }
        ensures replaces_beside { (payloads doubted : List (List ℕ)) → D.honest (counting self.old.side store.old) → D.honest (other self.old.side store.old)
            → StandsBeside D.moment D.images self.old store.old payloads doubted → (IsLast self.old ⊎ PassesWith self.old batches.now → ⊥)
            → ReplacesBeside D.moment D.images self.old self.new store.old store.new payloads doubted batches.now (is_ok result) }
        ensures place { HasTail D.honest D.moment D.images self.new store.new }
        ensures memory { result ≢ Err AppendFault.NoMemory }
        ensures same_edition { self.new.edition ≡ Second }
        ensures limit { self.new.limit ≡ self.old.limit }
        ensures honesty { D.honest (counting self.old.side store.new) ↔ D.honest (counting self.old.side store.old) }
        ensures other_honesty { D.honest (other self.old.side store.new) ↔ D.honest (other self.old.side store.old) }
        ensures later { D.faults (counting self.old.side store.old) ≤ D.faults (counting self.old.side store.new) }
        ensures other_later { D.faults (other self.old.side store.old) ≤ D.faults (other self.old.side store.new) }
        ensures cause { result ≡ Err AppendFault.Disk → Rose (D.faults (counting self.old.side store.old)) (D.faults (counting self.old.side store.new))
            ⊎ Rose (D.faults (other self.old.side store.old)) (D.faults (other self.old.side store.new)) }
    {
        if self.generation >= LAST_GENERATION {
            return Err(AppendFault::Full {
                tail: LAST_GENERATION,
                asked: 1,
            });
        }
        let asked = records_len(batches);
        if asked > self.limit || EMPTY_TAIL > self.limit - asked {
            return Err(AppendFault::Full {
                tail: EMPTY_TAIL,
                asked,
            });
        }
        Ok(self.switch(store, batches, EMPTY_TAIL + asked)?)
    }
}
