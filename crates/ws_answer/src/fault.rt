// Why a request makes no events.
ghost use Rattle.std.specs.Prelude.{◌≡◌};
ghost use Rattle.ws_answer.specs.declared.fault.CoreFault.TheVariants.{NoMemory as Wanting};

use std::alloc::{AllocError, AllocFailed};
use ws_model::{Kind, NoMemory};

/// Why a request makes no events.
#[derive(Clone, Copy, Debug, PartialEq, Eq, thiserror::Error)]
pub enum CoreFault {
    /// What is full: so many are held, so many were asked for besides, and the limit is passed by both
    /// together.
    #[error("full: {held} of {limit}")]
    Full {
        kind: Kind,
        held: u64,
        asked: u64,
        limit: u64,
    },
    /// There was no memory.
    #[error("no memory")]
    NoMemory,
}

impl From<NoMemory> for CoreFault {
    ghost from_gives = { λ _ fault. fault ≡ Wanting };

    fn from(_: NoMemory) -> Self {
        CoreFault::NoMemory
    }
}

impl From<AllocError> for CoreFault {
    ghost from_gives = { λ _ fault. fault ≡ Wanting };

    fn from(_: AllocError) -> Self {
        CoreFault::NoMemory
    }
}

impl<T: Drop> From<AllocFailed<T>> for CoreFault {
    ghost from_gives = { λ _ fault. fault ≡ Wanting };

    fn from(_: AllocFailed<T>) -> Self {
        CoreFault::NoMemory
    }
}
