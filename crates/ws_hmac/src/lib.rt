//! Signatures of pushed bodies (WebSub section 7.1): HMAC (RFC 2104) by SHA-1, SHA-256, SHA-384 and SHA-512.
#![tactic(auto)]

mod hashes;
mod keyed;
mod laws;
mod signatures;

pub use hashes::{Hash, UseSha1, UseSha256, UseSha384, UseSha512};
pub use keyed::hmac;
pub use laws::own_signature_checks;
pub use signatures::{check, signature};
