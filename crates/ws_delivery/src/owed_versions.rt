// The versions that are owed to some lease.
ghost use Rattle.std.specs.Prelude.{◌≡◌, ℕ, IfOk};
ghost use Rattle.std.specs.BTreeSet.{contains};
ghost use Rattle.std.specs.Ordering.{nat_cmp};
ghost use Rattle.ws_delivery.specs.OwedVersions.{is_owed_version};

use crate::heads::Pairs;
use std::alloc::Global;
use std::collections::BTreeSet;
use ws_model::NoMemory;

/// The versions that are owed at `t` to some lease.
pub(crate) fn owed_versions(alloc: Global, pairs: &Pairs, t: u64) -> Result<BTreeSet<u64>, NoMemory>
    ensures { IfOk result (λ s. (v : ℕ) → contains nat_cmp s v ≡ is_owed_version t v pairs.now.entries) }
{
    let mut versions = BTreeSet::new(alloc);
    for (key, pair) in pairs {
        if t < pair.exp {
            versions.insert(key.1)?;
        }
    }
    Ok(versions)
}
