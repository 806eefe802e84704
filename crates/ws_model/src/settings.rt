// How a hub is set up.
use crate::{Alg, Bytes, Key, Keys};

/// What a hub allows, and what it signs with.
#[derive(Debug, Drop)]
pub struct Policy {
    /// The URL of the hub itself.
    pub hub: Key,
    /// Whether requests go through a gateway, which serves https as well as http.
    pub gateway: bool,
    /// What the keys of topics begin with; empty where every topic is allowed.
    pub allow: Keys,
    /// The hash by which pushes are signed.
    pub alg: Alg,
}

/// A hub's policy, and the host and port of its gateway, where it has one.
///
/// `policy.gateway` is true exactly where `gateway` is there, and `policy.hub` is a key.
#[derive(Debug, Drop)]
pub struct Settings {
    pub policy: Policy,
    pub gateway: Option<(Bytes, u16)>,
}
