// A hash that HMAC can stand on, and the four of the signatures (FIPS 180-4).
ghost use Rattle.std.specs.Prelude.{◌≡◌, ◌<◌, ◌^◌, ◌++◌, List, ℕ, length};

use sha1::Sha1;
use sha2::{Digest, Sha256, Sha384, Sha512};

/// A hash with blocks of `B` bytes and digests of `N` bytes.
pub trait Hash<const B: usize, const N: usize> {
    // The digest of a message.
    ghost hash: { List ℕ → List ℕ };

    /// The digest of `first` followed by `second`. It takes no memory.
    fn digest(first: &[u8], second: &[u8]) -> [u8; N]
        ensures { result ≡ hash (first.now ++ second.now) };

    // A block is small enough to be a local array.
    ghost small: { B < 2 ^ 16 };
}

/// SHA-1.
pub struct UseSha1;

impl Hash<64, 20> for UseSha1 {
    ghost use Rattle.std.proofs.Common.{lit<};
    ghost use Rattle.sha1.specs.Sha1.{sha1};

    ghost hash = { sha1 };

    ghost small = { lit< tt };

    fn digest(first: &[u8], second: &[u8]) -> [u8; 20] {
        let mut hasher = Sha1::new();
        hasher.update(first);
        hasher.update(second);
        hasher.finalize()
    }
}

/// SHA-256.
pub struct UseSha256;

impl Hash<64, 32> for UseSha256 {
    ghost use Rattle.std.proofs.Common.{lit<};
    ghost use Rattle.sha2.specs.Sha256.{sha256};

    ghost hash = { sha256 };

    ghost small = { lit< tt };

    fn digest(first: &[u8], second: &[u8]) -> [u8; 32] {
        digest_by::<Sha256>(first, second)
    }
}

/// SHA-384.
pub struct UseSha384;

impl Hash<128, 48> for UseSha384 {
    ghost use Rattle.std.proofs.Common.{lit<};
    ghost use Rattle.sha2.specs.Sha512.{sha384};

    ghost hash = { sha384 };

    ghost small = { lit< tt };

    fn digest(first: &[u8], second: &[u8]) -> [u8; 48] {
        digest_by::<Sha384>(first, second)
    }
}

/// SHA-512.
pub struct UseSha512;

impl Hash<128, 64> for UseSha512 {
    ghost use Rattle.std.proofs.Common.{lit<};
    ghost use Rattle.sha2.specs.Sha512.{sha512};

    ghost hash = { sha512 };

    ghost small = { lit< tt };

    fn digest(first: &[u8], second: &[u8]) -> [u8; 64] {
        digest_by::<Sha512>(first, second)
    }
}

// The SHA-2 digest of `first` followed by `second`.
fn digest_by<D: Digest>(first: &[u8], second: &[u8]) -> D::Output
    ensures { D.digest_of (first.now ++ second.now) result }
{
    let mut hasher = D::new();
    hasher.update(first);
    hasher.update(second);
    hasher.finalize()
}
