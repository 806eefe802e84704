// Why a hub didn't do what it was asked for.
ghost use Rattle.std.specs.Prelude.{◌≡◌};
ghost use Rattle.ws_port.specs.declared.fault.DeskFault.TheVariants.{NoMemory as Wanting};

use ws_model::{Kind, NoMemory};

/// Why a hub didn't do what it was asked for. Nothing has changed then.
#[derive(Clone, Copy, Debug, PartialEq, Eq, thiserror::Error)]
pub enum DeskFault {
    /// The journal's disk failed.
    #[error("storage fault")]
    Disk,
    /// What is full: so many are held, so many were asked for besides, and both together pass the limit.
    #[error("full: {held} of {limit}")]
    Full {
        kind: Kind,
        held: u64,
        asked: u64,
        limit: u64,
    },
    /// There was no memory.
    #[error("no memory")]
    NoMemory,
}

impl From<NoMemory> for DeskFault {
    ghost from_gives = { λ _ fault. fault ≡ Wanting };

    fn from(_: NoMemory) -> Self {
        DeskFault::NoMemory
    }
}
