// What a Link field says, and why it says nothing.
ghost use Rattle.std.specs.Prelude.{◌≡◌};
ghost use Rattle.ws_linkhdr.specs.declared.item.LinkFault.TheVariants.{NoMemory as Wanting};

use ws_model::{Bytes, NoMemory};

/// One link of a Link field (RFC 8288, section 3).
///
/// `rel` is the value of the link's first parameter `rel`, and empty where there is none. A link
/// with a parameter `anchor` is `anchored`: it is about another page than the one that came with it.
#[derive(Debug, Drop, PartialEq)]
pub struct LinkItem {
    pub target: Bytes,
    pub rel: Bytes,
    pub anchored: bool,
}

/// Why a Link field wasn't read.
#[derive(Clone, Copy, Debug, PartialEq, Eq, thiserror::Error)]
pub enum LinkFault {
    /// The field isn't in the grammar. `at` is the length in bytes of its longest front that some
    /// field of the grammar begins with.
    #[error("no Link field from byte {at} on")]
    Grammar { at: u64 },
    /// There was no memory.
    #[error("no memory")]
    NoMemory,
}

impl From<NoMemory> for LinkFault {
    ghost from_gives = { λ _ e. e ≡ Wanting };

    fn from(_: NoMemory) -> Self {
        LinkFault::NoMemory
    }
}
