// Appending a batch to the device that counts.
ghost use Rattle.std.specs.Prelude.{◌≡◌, ◌≢◌, ◌≤◌, ◌+◌, ◌^◌, ◌<◌, ◌∷◌, ◌++◌, [], ◌↔◌, ◌⊎◌, List, ℕ, length, take, Option, Some, None, Ok, Err, OnOk, OnErr, IsErr, IsErrOf};
ghost use Rattle.ws_model.specs.Cause.{HasCause, Rose};
ghost use Rattle.ws_disk.specs.Crash.{LeavesOnly};
ghost use Rattle.ws_journal.specs.declared.append.Stop.TheVariants.{Before, InDoubt};
ghost use Rattle.ws_journal.specs.declared.store.Edition.TheVariants.{Second};
ghost use Rattle.ws_journal.specs.Text.{record_text, IsPayload};
ghost use Rattle.ws_journal.specs.Kept.{IsShut, IsInDoubt, IsWithOrWithout, Each, Reaches};

use crate::gate::set_gate;
use crate::journal::{Doubt, Journal};
use crate::record::put_record;
use crate::store::{AppendFault, Side, Store};
use ws_disk::{Disk, DiskFailed};

/// What a record of edition 2 has beside its payload: its gate, its length and its digest.
pub(crate) const RECORD_BYTES: u64 = 37;

/// How far a call that failed had come.
#[derive(Clone, Copy)]
pub(crate) enum Stop {
    /// The gate's write wasn't begun.
    Before,
    /// The gate's write was begun.
    InDoubt,
}

impl From<DiskFailed> for Stop {
    ghost from_gives = { λ _ stop. stop ≡ Before };

    fn from(_: DiskFailed) -> Self {
        Stop::Before
    }
}

/// Writes a record behind the last gate of a device, confirms it, opens the gate, and confirms that.
fn append_record<D: Disk>(disk: &mut D, tail: u64, payload: &[u8]) -> Result<(), Stop>
    requires place { D.honest disk.old → tail ≤ length (D.seen disk.old) }
    requires short { length payload.now < 2 ^ 32 }
    requires some { 0 < tail }
    requires room { tail < 2 ^ 62 }
    ensures any_moment { (front : List ℕ) → D.honest disk.old → length front + 1 ≡ tail → Each (D.images disk.old (D.moment disk.old)) (IsShut front)
        → LeavesOnly D.moment D.images disk.old disk.new (IsWithOrWithout front (record_text Second payload.now)) }
    ensures acknowledged { (front : List ℕ) → D.honest disk.old → length front + 1 ≡ tail → Each (D.images disk.old (D.moment disk.old)) (IsShut front)
        → OnOk result (Each (D.images disk.new (D.moment disk.new)) (IsShut (front ++ 1 ∷ record_text Second payload.now))) }
    ensures before { (front : List ℕ) → D.honest disk.old → length front + 1 ≡ tail → Each (D.images disk.old (D.moment disk.old)) (IsShut front)
        → IsErrOf result Before → Each (D.images disk.new (D.moment disk.new)) (IsShut front) }
    ensures in_doubt { (front : List ℕ) → D.honest disk.old → length front + 1 ≡ tail → Each (D.images disk.old (D.moment disk.old)) (IsShut front)
        → IsErrOf result InDoubt → Each (D.images disk.new (D.moment disk.new)) (IsInDoubt front (record_text Second payload.now)) }
    ensures keeps { D.honest disk.old → Each (D.images disk.old (D.moment disk.old)) (Reaches tail) → Each (D.images disk.new (D.moment disk.new)) (Reaches tail) }
    ensures reaches { OnOk result (D.honest disk.old → Each (D.images disk.new (D.moment disk.new)) (Reaches (tail + (length payload.now + 37)))) }
    ensures honesty { D.honest disk.new ↔ D.honest disk.old }
    ensures cause { HasCause (D.faults disk.old) (D.faults disk.new) result }
{
    put_record(disk, tail, payload)?;
    match set_gate(disk, tail - 1, 1) {
        Ok(()) => Ok(()),
        Err(_) => Err(Stop::InDoubt),
    }
}

impl Journal {
    ghost use Rattle.ws_journal.specs.declared.journal.Doubt.TheVariants.{Batch, Device};
    ghost use Rattle.ws_journal.specs.Stands.{IsLeft, Counts, HasTail, SameJournal, Closes, ClosesFirst, Appends, Stands, counting, other, AppendCrash, DoubtClosed, Appended, PassesLimit, FullExactly};
    ghost use Rattle.ws_journal.specs.Replaced.{StandsBeside, AppendsBeside};

    /// Closes the gate of the device that counts where it is in doubt.
    pub(crate) fn close_doubt<D: Disk>(&mut self, disk: &mut D) -> Result<(), DiskFailed>
        requires place { D.honest disk.old → self.old.tail ≤ length (D.seen disk.old) }
        ensures nothing { (self.old.doubt ≡ Batch → ⊥) → (self.new ≡ self.old) × (disk.new ≡ disk.old) × (result ≡ Ok tt) }
        ensures any_moment { (front : List ℕ) (doubt : Option (List ℕ)) → D.honest disk.old → Counts self.old front doubt (D.images disk.old (D.moment disk.old))
            → LeavesOnly D.moment D.images disk.old disk.new (IsLeft front doubt) }
        ensures closes { (front : List ℕ) (doubt : Option (List ℕ)) → D.honest disk.old → Counts self.old front doubt (D.images disk.old (D.moment disk.old))
            → Closes self.new front doubt (D.images disk.new (D.moment disk.new)) result }
        ensures place { OnOk result (D.honest disk.new → self.new.tail ≤ length (D.seen disk.new)) }
        ensures keeps { D.honest disk.old → Each (D.images disk.old (D.moment disk.old)) (Reaches self.old.tail) → Each (D.images disk.new (D.moment disk.new)) (Reaches self.old.tail) }
        ensures same { SameJournal self.old self.new }
        ensures tail { self.new.tail ≡ self.old.tail }
        ensures honesty { D.honest disk.new ↔ D.honest disk.old }
        ensures cause { HasCause (D.faults disk.old) (D.faults disk.new) result }
    {
        if self.doubt == Doubt::Batch {
            set_gate(disk, self.tail - 1, 0)?;
            self.doubt = Doubt::Nothing;
        }
        Ok(())
    }

    /// Appends a batch to the device that counts. It takes no memory.
    fn append_to<D: Disk>(&mut self, disk: &mut D, payload: &[u8]) -> Result<(), AppendFault>
        requires place { D.honest disk.old → self.old.tail ≤ length (D.seen disk.old) }
        requires short { length payload.now < 2 ^ 32 }
        requires room { self.old.tail < 2 ^ 62 }
        ensures any_moment { (front : List ℕ) (doubt : Option (List ℕ)) → D.honest disk.old → Counts self.old front doubt (D.images disk.old (D.moment disk.old))
            → LeavesOnly D.moment D.images disk.old disk.new (λ image. IsWithOrWithout front (record_text Second payload.now) image ⊎ IsLeft front doubt image) }
        ensures closes_first { (front : List ℕ) (doubt : Option (List ℕ)) → D.honest disk.old → Counts self.old front doubt (D.images disk.old (D.moment disk.old))
            → ClosesFirst D.moment D.images disk.old disk.new self.new front doubt payload.now result }
        ensures appends { (front : List ℕ) (doubt : Option (List ℕ)) → D.honest disk.old → Counts self.old front doubt (D.images disk.old (D.moment disk.old))
            → Appends self.old self.new front doubt payload.now (D.images disk.new (D.moment disk.new)) result }
        ensures reaches { D.honest disk.old → Each (D.images disk.old (D.moment disk.old)) (Reaches self.old.tail) → Each (D.images disk.new (D.moment disk.new)) (Reaches self.new.tail) }
        ensures same { SameJournal self.old self.new }
        ensures only_disk { IsErr result → result ≡ Err AppendFault.Disk }
        ensures honesty { D.honest disk.new ↔ D.honest disk.old }
        ensures cause { HasCause (D.faults disk.old) (D.faults disk.new) result }
    {
        self.close_doubt(disk)?;
        match append_record(disk, self.tail, payload) {
            Ok(()) => {
                self.tail += payload.len() as u64 + RECORD_BYTES;
                Ok(())
            }
            Err(Stop::Before) => Err(AppendFault::Disk),
            Err(Stop::InDoubt) => {
                self.doubt = Doubt::Batch;
                Err(AppendFault::Disk)
            }
        }
    }

    /// Appends a batch to the device of a store that counts. It takes no memory.
    fn append_counting<D: Disk>(
        &mut self,
        store: &mut Store<D>,
        payload: &[u8],
    ) -> Result<(), AppendFault>
        requires edition { self.old.edition ≡ Second }
        requires batch { IsPayload payload.now }
        requires place { D.honest (counting self.old.side store.old) → self.old.tail ≤ length (D.seen (counting self.old.side store.old)) }
        requires room { self.old.tail < 2 ^ 62 }
        ensures any_moment { (payloads : List (List ℕ)) (doubt : Option (List ℕ)) → D.honest (counting self.old.side store.old) → Stands D.moment D.images self.old store.old payloads doubt
            → AppendCrash D.moment D.images self.old store.old store.new payloads doubt payload.now }
        ensures doubt_closed { (payloads : List (List ℕ)) (doubt : Option (List ℕ)) → D.honest (counting self.old.side store.old) → Stands D.moment D.images self.old store.old payloads doubt
            → DoubtClosed D.moment D.images self.old self.new store.old store.new payloads doubt payload.now result }
        ensures appended { (payloads : List (List ℕ)) (doubt : Option (List ℕ)) → D.honest (counting self.old.side store.old) → Stands D.moment D.images self.old store.old payloads doubt
            → Appended D.moment D.images self.new store.new payloads doubt payload.now result }
        ensures reaches { HasTail D.honest D.moment D.images self.old store.old → HasTail D.honest D.moment D.images self.new store.new }
        ensures same { SameJournal self.old self.new }
        ensures only_disk { IsErr result → result ≡ Err AppendFault.Disk }
        ensures untouched { other self.old.side store.new ≡ other self.old.side store.old }
        ensures honesty { D.honest (counting self.old.side store.new) ↔ D.honest (counting self.old.side store.old) }
        ensures cause { HasCause (D.faults (counting self.old.side store.old)) (D.faults (counting self.old.side store.new)) result }
    {
        match self.side {
            Side::A => self.append_to(&mut store.a, payload),
            Side::B => self.append_to(&mut store.b, payload),
        }
    }

    /// Appends a batch, whose text this is, and confirms it. It takes no memory.
    ///
    /// The journal is of edition 2, and the store is the one that it was recovered from, changed since by
    /// its own calls alone.
    ///
    /// # Errors
    ///
    /// `Full` where the record would pass the limit, before any call of a device. `Disk` where a device
    /// failed: the batch is then in doubt where its gate's write was begun, and the next call closes that
    /// gate before it writes anything else. So it closes first what an earlier call left in doubt, a batch
    /// or the other device.
    pub fn append<D: Disk>(
        &mut self,
        store: &mut Store<D>,
        payload: &[u8],
    ) -> Result<(), AppendFault>
        requires edition { self.old.edition ≡ Second }
        requires batch { IsPayload payload.now }
        requires place { HasTail D.honest D.moment D.images self.old store.old }
        ensures full { FullExactly self.old payload.now result }
        ensures untouched { PassesLimit self.old payload.now → (store.new ≡ store.old) × (self.new ≡ self.old) }
        // A crash at any moment of the call leaves the batches before it, with the new one or without.
        ensures any_moment { (payloads : List (List ℕ)) (doubt : Option (List ℕ)) → D.honest (counting self.old.side store.old) → Stands D.moment D.images self.old store.old payloads doubt
            → AppendCrash D.moment D.images self.old store.old store.new payloads doubt payload.now }
        ensures doubt_closed { (payloads : List (List ℕ)) (doubt : Option (List ℕ)) → D.honest (counting self.old.side store.old) → Stands D.moment D.images self.old store.old payloads doubt
            → (PassesLimit self.old payload.now → ⊥) → DoubtClosed D.moment D.images self.old self.new store.old store.new payloads doubt payload.now result }
        ensures appended { (payloads : List (List ℕ)) (doubt : Option (List ℕ)) → D.honest (counting self.old.side store.old) → Stands D.moment D.images self.old store.old payloads doubt
            → Appended D.moment D.images self.new store.new payloads doubt payload.now result }
        // A device in doubt is closed first, and then the batch is appended as beside no doubt.
        ensures device_closed { (payloads newer : List (List ℕ)) → D.honest (counting self.old.side store.old) → D.honest (other self.old.side store.old)
            → StandsBeside D.moment D.images self.old store.old payloads newer → (PassesLimit self.old payload.now → ⊥)
            → AppendsBeside D.moment D.images self.old self.new store.old store.new payloads newer payload.now result }
        ensures place { HasTail D.honest D.moment D.images self.new store.new }
        ensures memory { result ≢ Err AppendFault.NoMemory }
        ensures same { SameJournal self.old self.new }
        ensures honesty { D.honest (counting self.old.side store.new) ↔ D.honest (counting self.old.side store.old) }
        ensures other_honesty { D.honest (other self.old.side store.new) ↔ D.honest (other self.old.side store.old) }
        ensures later { D.faults (counting self.old.side store.old) ≤ D.faults (counting self.old.side store.new) }
        ensures other_later { D.faults (other self.old.side store.old) ≤ D.faults (other self.old.side store.new) }
        ensures cause { result ≡ Err AppendFault.Disk → Rose (D.faults (counting self.old.side store.old)) (D.faults (counting self.old.side store.new))
            ⊎ ((self.old.doubt ≡ Device) × Rose (D.faults (other self.old.side store.old)) (D.faults (other self.old.side store.new))) }
    {
        let asked = payload.len() as u64 + RECORD_BYTES;
        if asked > self.limit || self.tail > self.limit - asked {
            return Err(AppendFault::Full {
                tail: self.tail,
                asked,
            });
        }
        self.close_beside(store)?;
        self.append_counting(store, payload)
    }
}
