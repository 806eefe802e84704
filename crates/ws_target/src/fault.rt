ghost use Rattle.std.specs.Prelude.{◌≡◌};
ghost use Rattle.ws_target.specs.declared.fault.TargetFault.TheVariants.{NoMemory as Wanting};

use ws_model::NoMemory;

/// Why a text has no key, or a reference leads to no URL.
#[derive(Clone, Copy, Debug, PartialEq, Eq, thiserror::Error)]
pub enum TargetFault {
    /// The text has `len` bytes, more than 2,048.
    #[error("too long")]
    TooLong { len: u64 },
    /// The text isn't UTF-8, or the URL Standard's parser refuses it.
    #[error("not a URL")]
    NotUrl,
    /// The scheme is neither http nor, with a gateway, https.
    #[error("scheme not served")]
    SchemeNotServed,
    /// The URL has a user name that isn't empty, or a password.
    #[error("user info")]
    UserInfo,
    /// There was no memory.
    #[error("no memory")]
    NoMemory,
}

impl From<NoMemory> for TargetFault {
    ghost from_gives = { λ _ fault. fault ≡ Wanting };

    fn from(_: NoMemory) -> Self {
        TargetFault::NoMemory
    }
}
