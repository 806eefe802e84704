// The pairs that aren't kept.
ghost use Rattle.std.specs.Prelude.{◌≡◌};
ghost use Rattle.std.specs.List.Sorted.{IsStrictlySortedBy};
ghost use Rattle.std.specs.Map.{keys_of};
ghost use Rattle.ws_fate.specs.Rows.{pair_order};
ghost use Rattle.ws_fate.specs.Totals.{none};
ghost use Rattle.ws_forgotten.specs.Forgotten.{end_of, forgotten_ends, sums, with_ends};

use ws_fate::{Fates, Standing, Totals};
use ws_kept::Kept;
use ws_model::Cause;

/// How many pairs aren't kept, by what became of them. It takes no memory.
pub(crate) fn newly_forgotten(fates: &Fates, kept: &Kept) -> Totals
    ensures counted { result ≡ with_ends none (forgotten_ends kept.now fates.now.pairs) }
    ensures ordered { IsStrictlySortedBy pair_order (keys_of fates.now.pairs) }
{
    let mut totals = Totals::none();
    for (key, standing) in fates.pairs() {
        if !kept.has_pair(key.1, key.0) {
            totals.add(end_of(*standing));
        }
    }
    totals
}

/// What became of a pair that isn't kept. An open one isn't owed, or it would be kept: it has expired.
fn end_of(standing: Standing) -> Standing
    ensures { result ≡ end_of standing }
{
    match standing {
        Standing::Open => Standing::Ended(Cause::Expired),
        _ => standing,
    }
}

/// Of each number the sum. It stops at 2^64 - 1.
pub(crate) fn sums(before: Totals, newly: Totals) -> Totals
    ensures { result ≡ sums before newly }
{
    Totals {
        answered: before.answered.saturating_add(newly.answered),
        expired: before.expired.saturating_add(newly.expired),
        unsubscribed: before.unsubscribed.saturating_add(newly.unsubscribed),
        replaced: before.replaced.saturating_add(newly.replaced),
        gone: before.gone.saturating_add(newly.gone),
        spent: before.spent.saturating_add(newly.spent),
        revoked: before.revoked.saturating_add(newly.revoked),
    }
}
