// Pairs that end: what became of them is said, and counted. It takes no memory.
ghost use Rattle.std.specs.Prelude.{◌≡◌, ◌≤◌, ◌+◌, ◌==◌, ℕ, Some, cond, true, length};
ghost use Rattle.std.specs.List.{IsDistinct, list_any};
ghost use Rattle.ws_fate.specs.declared.totals.Standing.TheVariants.{Open};
ghost use Rattle.ws_fate.specs.Rows.{standing_at};
ghost use Rattle.ws_ledger.specs.Pairs.{AreApart, is_listed, with_lease, with_many};

use ws_delivery::OpenOf;
use ws_fate::{Fates, Standing};

/// Ends these pairs, each a version and a lease, which are open.
pub(crate) fn end_all(fates: &mut Fates, pairs: &[(u64, u64)], how: Standing)
    requires apart { AreApart pairs.now }
    requires are_open { (v n : ℕ) → is_listed v n pairs.now ≡ true → standing_at v n fates.old ≡ Some Open }
    ensures look { (v n : ℕ) → standing_at v n fates.new ≡ cond (is_listed v n pairs.now) (Some how) (standing_at v n fates.old) }
    ensures totals { fates.new.totals ≡ with_many (length pairs.now) how fates.old.totals }
{
    for pair in pairs {
        fates.end(pair.0, pair.1, how);
    }
}

/// Ends the pairs of these versions and a lease, which are open, and counts them off.
pub(crate) fn end_open(
    fates: &mut Fates,
    open_pairs: &mut u64,
    versions: OpenOf<'_>,
    lease: u64,
    how: Standing,
)
    requires distinct { IsDistinct (λ x y. x == y) versions }
    requires are_open { (v : ℕ) → list_any (λ w. w == v) versions ≡ true → standing_at v lease fates.old ≡ Some Open }
    requires enough { length versions ≤ open_pairs.old }
    ensures look { (v n : ℕ) → standing_at v n fates.new ≡ cond (is_listed v n (with_lease lease versions.entry)) (Some how) (standing_at v n fates.old) }
    ensures totals { fates.new.totals ≡ with_many (length versions.entry) how fates.old.totals }
    ensures number { open_pairs.new + length versions.entry ≡ open_pairs.old }
{
    for ver in versions {
        fates.end(ver, lease, how);
        *open_pairs -= 1;
    }
}
