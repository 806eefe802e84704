// What a failed call left in doubt, closed before anything else is written.
ghost use Rattle.std.specs.Prelude.{◌≡◌, ◌≤◌, ◌+◌, ◌<◌, ◌↔◌, ◌⊎◌, List, ℕ, length, Option, None, Ok, OnOk, OnErr};
ghost use Rattle.ws_model.specs.Cause.{HasCause};
ghost use Rattle.ws_disk.specs.Crash.{LeavesOnly};
ghost use Rattle.ws_journal.specs.declared.store.Edition.TheVariants.{Second};
ghost use Rattle.ws_journal.specs.Kept.{Each};
ghost use Rattle.ws_journal.specs.Made.{IsSpare, IsHalfMade};

use crate::gate::set_gate;
use crate::journal::{Doubt, Journal};
use crate::store::{Side, Store};
use ws_disk::{Disk, DiskFailed};

impl Journal {
    ghost use Rattle.ws_journal.specs.declared.journal.Doubt.TheVariants.{Nothing, Batch, Device};
    ghost use Rattle.ws_journal.specs.Stands.{counting, other, Stands, HasTail, SameJournal};
    ghost use Rattle.ws_journal.specs.Replaced.{StandsBeside, BesideCrash, CountingCrash, ReadsOlderOrNewer, ReadsLeft, ClosedBatch, ClosedDevice};

    /// Closes the gate of a device that is in doubt.
    fn close_device<D: Disk>(&mut self, disk: &mut D) -> Result<(), DiskFailed>
        ensures nothing { (self.old.doubt ≡ Device → ⊥) → (self.new ≡ self.old) × (disk.new ≡ disk.old) × (result ≡ Ok tt) }
        ensures any_moment { (generation : ℕ) (newer : List (List ℕ)) → self.old.doubt ≡ Device → D.honest disk.old → Each (D.images disk.old (D.moment disk.old)) (IsHalfMade generation newer)
            → LeavesOnly D.moment D.images disk.old disk.new (IsHalfMade generation newer) }
        ensures closed { (generation : ℕ) → self.old.doubt ≡ Device → D.honest disk.old → OnOk result (IsSpare generation (D.images disk.new (D.moment disk.new))) }
        ensures settled { self.old.doubt ≡ Device → OnOk result (self.new ≡ record self.old { doubt = Nothing }) }
        ensures failed { OnErr result (self.new ≡ self.old) }
        ensures honesty { D.honest disk.new ↔ D.honest disk.old }
        ensures cause { HasCause (D.faults disk.old) (D.faults disk.new) result }
    {
        if self.doubt == Doubt::Device {
            set_gate(disk, 0, 0)?;
            self.doubt = Doubt::Nothing;
        }
        Ok(())
    }

    /// Closes the gate of the other device where it is in doubt.
    pub(crate) fn close_beside<D: Disk>(&mut self, store: &mut Store<D>) -> Result<(), DiskFailed>
        ensures nothing { (self.old.doubt ≡ Device → ⊥) → (self.new ≡ self.old) × (store.new ≡ store.old) × (result ≡ Ok tt) }
        ensures any_moment { (payloads newer : List (List ℕ)) → D.honest (other self.old.side store.old) → StandsBeside D.moment D.images self.old store.old payloads newer
            → BesideCrash D.moment D.images self.old.side store.old store.new (ReadsOlderOrNewer self.old payloads newer) }
        ensures closes { (payloads newer : List (List ℕ)) → D.honest (other self.old.side store.old) → StandsBeside D.moment D.images self.old store.old payloads newer
            → ClosedDevice D.moment D.images self.new store.new payloads newer result }
        ensures same { SameJournal self.old self.new }
        ensures tail { self.new.tail ≡ self.old.tail }
        ensures untouched { counting self.old.side store.new ≡ counting self.old.side store.old }
        ensures honesty { D.honest (other self.old.side store.new) ↔ D.honest (other self.old.side store.old) }
        ensures cause { HasCause (D.faults (other self.old.side store.old)) (D.faults (other self.old.side store.new)) result }
    {
        match self.side {
            Side::A => self.close_device(&mut store.b),
            Side::B => self.close_device(&mut store.a),
        }
    }

    /// Closes the gate of a batch that is in doubt.
    pub(crate) fn close_batch<D: Disk>(&mut self, store: &mut Store<D>) -> Result<(), DiskFailed>
        requires place { D.honest (counting self.old.side store.old) → self.old.tail ≤ length (D.seen (counting self.old.side store.old)) }
        ensures nothing { (self.old.doubt ≡ Batch → ⊥) → (self.new ≡ self.old) × (store.new ≡ store.old) × (result ≡ Ok tt) }
        ensures any_moment { (payloads : List (List ℕ)) (doubt : Option (List ℕ)) → (self.old.edition ≡ Second) ⊎ (doubt ≡ None) → D.honest (counting self.old.side store.old) → Stands D.moment D.images self.old store.old payloads doubt
            → CountingCrash D.moment D.images self.old.side store.old store.new (ReadsLeft self.old payloads doubt) }
        ensures closes { (payloads : List (List ℕ)) (doubt : Option (List ℕ)) → D.honest (counting self.old.side store.old) → Stands D.moment D.images self.old store.old payloads doubt
            → ClosedBatch D.moment D.images self.new store.new payloads doubt result }
        ensures reaches { HasTail D.honest D.moment D.images self.old store.old → HasTail D.honest D.moment D.images self.new store.new }
        ensures same { SameJournal self.old self.new }
        ensures untouched { other self.old.side store.new ≡ other self.old.side store.old }
        ensures honesty { D.honest (counting self.old.side store.new) ↔ D.honest (counting self.old.side store.old) }
        ensures cause { HasCause (D.faults (counting self.old.side store.old)) (D.faults (counting self.old.side store.new)) result }
    {
        match self.side {
            Side::A => self.close_doubt(&mut store.a),
            Side::B => self.close_doubt(&mut store.b),
        }
    }
}
