// The two devices of a journal, and what its calls answer.
use std::alloc::{AllocError, AllocFailed};
use ws_disk::DiskFailed;
use ws_model::{Events, NoMemory};

/// The two devices of a journal.
#[derive(Drop)]
pub struct Store<D> {
    pub a: D,
    pub b: D,
}

/// The form of a device's records. Edition 2 keeps the SHA-256 of each payload.
#[derive(Clone, Copy, Debug, PartialEq, Eq)]
pub enum Edition {
    First,
    Second,
}

/// Which device counts.
#[derive(Clone, Copy, Debug, PartialEq, Eq)]
pub(crate) enum Side {
    A,
    B,
}

/// Why a batch isn't acknowledged.
#[derive(Clone, Copy, Debug, PartialEq, Eq, thiserror::Error)]
pub enum AppendFault {
    /// A device failed.
    #[error("disk failed")]
    Disk,
    /// The journal would pass its limit: it has `tail` bytes, and `asked` more were asked for.
    #[error("full: {tail} {asked}")]
    Full { tail: u64, asked: u64 },
    /// There was no memory.
    #[error("no memory")]
    NoMemory,
}

impl From<DiskFailed> for AppendFault {
    ghost use Rattle.std.specs.Prelude.{◌≡◌};
    ghost use Rattle.ws_journal.specs.declared.store.AppendFault.TheVariants.{Disk};

    ghost from_gives = { λ _ fault. fault ≡ Disk };

    fn from(_: DiskFailed) -> Self {
        AppendFault::Disk
    }
}

/// A batch of a journal.
#[derive(Debug, Drop)]
pub struct Batch {
    /// The place of its record's gate, in bytes.
    pub at: u64,
    pub events: Events,
}

/// Why a store isn't opened.
#[derive(Clone, Copy, Debug, PartialEq, Eq, thiserror::Error)]
pub enum OpenFault {
    /// A device is no journal's: the byte there shows it.
    #[error("foreign: {at}")]
    Foreign {
        at: u64,
    },
    /// The record whose gate stands there is cut short, or isn't one batch.
    #[error("damaged: {at}")]
    Damaged {
        at: u64,
    },
    /// The payload of the record whose gate stands there isn't the one that was written: the SHA-256 that
    /// the record keeps, and that of the payload as it was found.
    #[error("altered: {at}")]
    Altered {
        at: u64,
        kept: [u8; 32],
        found: [u8; 32],
    },
    /// A device failed.
    #[error("disk failed")]
    Disk,
    /// There was no memory.
    #[error("no memory")]
    NoMemory,
}

impl From<DiskFailed> for OpenFault {
    ghost use Rattle.std.specs.Prelude.{◌≡◌};
    ghost use Rattle.ws_journal.specs.declared.store.OpenFault.TheVariants.{Disk};

    ghost from_gives = { λ _ fault. fault ≡ Disk };

    fn from(_: DiskFailed) -> Self {
        OpenFault::Disk
    }
}

impl From<NoMemory> for OpenFault {
    ghost use Rattle.std.specs.Prelude.{◌≡◌};
    ghost use Rattle.ws_journal.specs.declared.store.OpenFault.TheVariants.{NoMemory};

    ghost from_gives = { λ _ fault. fault ≡ NoMemory };

    fn from(_: NoMemory) -> Self {
        OpenFault::NoMemory
    }
}

impl From<AllocError> for OpenFault {
    ghost use Rattle.std.specs.Prelude.{◌≡◌};
    ghost use Rattle.ws_journal.specs.declared.store.OpenFault.TheVariants.{NoMemory};

    ghost from_gives = { λ _ fault. fault ≡ NoMemory };

    fn from(_: AllocError) -> Self {
        OpenFault::NoMemory
    }
}

impl<T: Drop> From<AllocFailed<T>> for OpenFault {
    ghost use Rattle.std.specs.Prelude.{◌≡◌};
    ghost use Rattle.ws_journal.specs.declared.store.OpenFault.TheVariants.{NoMemory};

    ghost from_gives = { λ _ fault. fault ≡ NoMemory };

    fn from(_: AllocFailed<T>) -> Self {
        OpenFault::NoMemory
    }
}

/// Why texts aren't read back.
#[derive(Clone, Copy, Debug, PartialEq, Eq, thiserror::Error)]
pub enum ReadBack {
    /// A device failed.
    #[error("disk failed")]
    Disk,
    /// There was no memory.
    #[error("no memory")]
    NoMemory,
}

impl From<DiskFailed> for ReadBack {
    ghost use Rattle.std.specs.Prelude.{◌≡◌};
    ghost use Rattle.ws_journal.specs.declared.store.ReadBack.TheVariants.{Disk};

    ghost from_gives = { λ _ fault. fault ≡ Disk };

    fn from(_: DiskFailed) -> Self {
        ReadBack::Disk
    }
}

impl From<AllocError> for ReadBack {
    ghost use Rattle.std.specs.Prelude.{◌≡◌};
    ghost use Rattle.ws_journal.specs.declared.store.ReadBack.TheVariants.{NoMemory};

    ghost from_gives = { λ _ fault. fault ≡ NoMemory };

    fn from(_: AllocError) -> Self {
        ReadBack::NoMemory
    }
}

impl<T: Drop> From<AllocFailed<T>> for ReadBack {
    ghost use Rattle.std.specs.Prelude.{◌≡◌};
    ghost use Rattle.ws_journal.specs.declared.store.ReadBack.TheVariants.{NoMemory};

    ghost from_gives = { λ _ fault. fault ≡ NoMemory };

    fn from(_: AllocFailed<T>) -> Self {
        ReadBack::NoMemory
    }
}

impl From<ReadBack> for OpenFault {
    ghost use Rattle.std.specs.Prelude.{◌≡◌};
    ghost use Rattle.ws_journal.specs.Device.{as_open};

    ghost from_gives = { λ fault opened. opened ≡ as_open fault };

    fn from(fault: ReadBack) -> Self {
        match fault {
            ReadBack::Disk => OpenFault::Disk,
            ReadBack::NoMemory => OpenFault::NoMemory,
        }
    }
}
