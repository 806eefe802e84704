use crate::Bytes;

/// The reply of a peer, as far as it was asked for.
///
/// `media` and `coding` are the first Content-Type and the first Content-Encoding, and `links` all
/// Link fields joined by `, `. What the reply doesn't have, or what wasn't asked for, is empty.
#[derive(Debug, Drop, PartialEq)]
pub struct Reply {
    pub code: u16,
    pub media: Bytes,
    pub coding: Bytes,
    pub links: Bytes,
    pub body: Bytes,
}
