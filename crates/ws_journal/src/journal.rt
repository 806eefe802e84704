// A journal: which device counts, and how far it goes.
ghost use Rattle.std.specs.Prelude.{◌≤◌, ◌<◌, ◌^◌};

use crate::store::{Edition, Side};

/// What a failed call left open.
#[derive(Clone, Copy, Debug, PartialEq, Eq)]
pub(crate) enum Doubt {
    Nothing,
    /// The gate of the last batch: its write was begun, and not confirmed.
    Batch,
    /// The gate of the other device, which is of the next generation.
    Device,
}

/// A journal of batches on two devices.
#[derive(Debug, Drop)]
pub struct Journal {
    pub(crate) side: Side,
    pub(crate) edition: Edition,
    pub(crate) generation: u64,
    /// The place behind the last gate.
    pub(crate) tail: u64,
    /// What the tail may come to, in bytes.
    pub(crate) limit: u64,
    pub(crate) doubt: Doubt,
    ghost limited: { limit ≤ 2 ^ 30 },
    ghost begun: { 17 < tail },
}

impl Journal {
    ghost use Rattle.std.specs.Prelude.{◌≡◌};
    ghost use Rattle.ws_journal.specs.declared.store.Edition.TheVariants.{First, Second};
    ghost use Rattle.ws_journal.specs.Stands.{edition_number};

    /// The place behind the last gate of the device that counts, in bytes.
    pub fn tail(&self) -> u64
        ensures { result ≡ self.now.tail }
    {
        self.tail
    }

    /// The edition of the device that counts: 1 or 2.
    pub fn edition(&self) -> u8
        ensures number { result ≡ edition_number self.now.edition }
        ensures first { result ≡ 1 → self.now.edition ≡ First }
        ensures second { (result ≡ 1 → ⊥) → self.now.edition ≡ Second }
    {
        match self.edition {
            Edition::First => 1,
            Edition::Second => 2,
        }
    }

    /// The generation of the device that counts.
    pub fn generation(&self) -> u64
        ensures { result ≡ self.now.generation }
    {
        self.generation
    }
}
