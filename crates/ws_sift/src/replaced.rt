// What was asked for the leases that were replaced and that a compaction keeps.
ghost use Rattle.std.specs.Prelude.{◌≡◌, ◌==◌, ◌&&◌, ℕ, IfOk, OnOk, Some, cond};
ghost use Rattle.std.specs.BTreeMap.{get};
ghost use Rattle.std.specs.Ordering.{nat_cmp};
ghost use Rattle.ws_model.specs.Keep.{member};
ghost use Rattle.ws_model.specs.Leases.{or_else};
ghost use Rattle.ws_sweep.specs.Rows.{members};
ghost use Rattle.ws_sift.specs.Sifted.{replaced_in};

use std::alloc::Global;
use std::collections::BTreeMap;
use ws_kept::{Kept, Renewal};
use ws_model::{Intent, NoMemory};
use ws_sweep::Sweep;

/// Adds what was asked for a lease that was replaced, by its number, where it is kept.
fn add_one(
    alloc: Global,
    intents: &mut BTreeMap<u64, Intent>,
    kept: &Kept,
    intent: &Intent,
) -> Result<(), NoMemory>
    ensures { OnOk result ((n : ℕ) → get nat_cmp intents.new n ≡ cond ((intent.now.n == n) && member n kept.now.leases) (Some intent.now) (get nat_cmp intents.old n)) }
{
    if kept.has_lease(intent.n) {
        intents.insert(intent.n, intent.copy(alloc)?)?;
    }
    Ok(())
}

/// Adds what was asked for the kept leases that these renewals replaced.
fn add_each(
    alloc: Global,
    intents: &mut BTreeMap<u64, Intent>,
    kept: &Kept,
    part: &[Renewal],
) -> Result<(), NoMemory>
    ensures { OnOk result ((n : ℕ) → get nat_cmp intents.new n ≡ or_else (replaced_in kept.now.leases part.now n) (get nat_cmp intents.old n)) }
{
    for at in (0..part.len()).rev() {
        add_one(alloc, intents, kept, &part[at].replaced)?;
    }
    Ok(())
}

/// What was asked for the kept leases that were replaced, by their numbers. It fails only for want of memory.
pub(crate) fn replaced_intents(
    alloc: Global,
    kept: &Kept,
    renewals: &Sweep<Renewal>,
) -> Result<BTreeMap<u64, Intent>, NoMemory>
    ensures { IfOk result (λ m. (n : ℕ) → get nat_cmp m n ≡ replaced_in kept.now.leases (members renewals.now) n) }
{
    let mut intents = BTreeMap::new(alloc);
    add_each(alloc, &mut intents, kept, renewals.left())?;
    add_each(alloc, &mut intents, kept, renewals.looked())?;
    Ok(intents)
}
