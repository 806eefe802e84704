// The kept pairs. Each of them has a room.
ghost use Rattle.std.specs.Prelude.{◌≡◌, ◌≤◌, ℕ, List};
ghost use Rattle.std.specs.List.Sorted.{IsStrictlySortedBy};
ghost use Rattle.std.specs.Map.{keys_of};
ghost use Rattle.ws_model.specs.declared.event.Event.{Event};
ghost use Rattle.ws_model.specs.Legal.{Legal};
ghost use Rattle.ws_core_tables.specs.Stands.{StandsFor as TablesStand};
ghost use Rattle.ws_fate.specs.Stands.{AreShown, is_owed_at, later};
ghost use Rattle.ws_fate.specs.Totals.{none};
ghost use Rattle.ws_tries.specs.Rows.{pair_order};
ghost use Rattle.ws_forgotten.specs.Forgotten.{kept_ends, standing_of, with_ends};

use ws_core_tables::Tables;
use ws_fate::{Fates, Standing, Totals};
use ws_kept::Kept;
use ws_model::Cause;
use ws_tries::Tries;

/// What became of a pair by `t` of which the table says `standing`: one that is open has expired, if it isn't owed.
fn later(tables: &Tables, standing: Standing, ver: u64, lease: u64, t: u64) -> Standing
    ensures stands { (h : List Event) (since : ℕ) → TablesStand h since tables.now → since ≤ t → result ≡ later (is_owed_at h t ver lease) standing }
{
    match standing {
        Standing::Open => {
            if tables.is_owed(ver, lease, t) {
                Standing::Open
            } else {
                Standing::Ended(Cause::Expired)
            }
        }
        Standing::Answered | Standing::Ended(_) => standing,
    }
}

/// What became of a pair by `t`. One that the history doesn't have counts as open.
fn standing_of(tables: &Tables, fates: &Fates, ver: u64, lease: u64, t: u64) -> Standing
    ensures stands { (h : List Event) (since : ℕ) → TablesStand h since tables.now → AreShown h since fates.now → Legal h → since ≤ t → result ≡ standing_of h t ver lease }
{
    match fates.get(ver, lease) {
        Some(standing) => later(tables, standing, ver, lease, t),
        None => Standing::Open,
    }
}

/// How many kept pairs that have a room ended in each way by `t`. It takes no memory.
pub(crate) fn kept_totals(
    tables: &Tables,
    fates: &Fates,
    tries: &Tries,
    kept: &Kept,
    t: u64,
) -> Totals
    ensures stands { (h : List Event) (since : ℕ) → TablesStand h since tables.now → AreShown h since fates.now → Legal h → since ≤ t → result ≡ with_ends none (kept_ends h t kept.now (keys_of tries.now)) }
    ensures ordered { IsStrictlySortedBy pair_order (keys_of tries.now) }
{
    let mut totals = Totals::none();
    for (pair, _) in tries.rooms() {
        if kept.has_pair(pair.0, pair.1) {
            totals.add(standing_of(tables, fates, pair.0, pair.1, t));
        }
    }
    totals
}
