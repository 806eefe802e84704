//! The laws of what two devices read as, each the contract of a function that does nothing.
ghost use Rattle.ws_journal.specs.OneReading.{OneReading};
ghost use Rattle.ws_journal.specs.Opens.{OwnImagesOpen};

use ws_disk::Disk;

/// Two devices read as at most one thing.
pub fn one_reading()
    ensures { OneReading }
{}

/// Over what a crash at any moment of the journal's own calls leaves, or one between two of them, opening
/// answers neither `Foreign`, `Damaged` nor `Altered`.
pub fn own_images_open<D: Disk>()
    ensures { OwnImagesOpen D.moment D.images }
{}
