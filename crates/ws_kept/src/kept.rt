// The numbers of what a compaction keeps.
ghost use Rattle.std.specs.Prelude.{◌≡◌, ◌&&◌, []};
ghost use Rattle.ws_model.specs.Keep.{member};

use std::alloc::Global;
use std::collections::BTreeSet;
use std::marker::Model;

/// The numbers of the versions and of the leases that a compaction keeps. Contracts see both as lists.
#[derive(Drop)]
pub struct Kept {
    pub(crate) versions: BTreeSet<u64>,
    pub(crate) leases: BTreeSet<u64>,
}

impl Model for Kept {
    ghost use Rattle.ws_kept.specs.Rows.{Rows};

    ghost Value = { Rows };

    ghost view = { λ k. record { versions = k.versions.keys; leases = k.leases.keys } };
}

impl Kept {
    /// Nothing is kept. It takes no memory.
    pub fn nothing(alloc: Global) -> Kept
        ensures { result ≡ record { versions = []; leases = [] } }
    {
        Kept {
            versions: BTreeSet::new(alloc),
            leases: BTreeSet::new(alloc),
        }
    }

    /// Whether a version is kept.
    pub fn has_version(&self, ver: u64) -> bool
        ensures { result ≡ member ver self.now.versions }
    {
        self.versions.contains(&ver)
    }

    /// Whether a lease is kept.
    pub fn has_lease(&self, lease: u64) -> bool
        ensures { result ≡ member lease self.now.leases }
    {
        self.leases.contains(&lease)
    }

    /// Whether a version and a lease are both kept.
    pub fn has_pair(&self, ver: u64, lease: u64) -> bool
        ensures { result ≡ (member ver self.now.versions && member lease self.now.leases) }
    {
        self.has_version(ver) && self.has_lease(lease)
    }
}
