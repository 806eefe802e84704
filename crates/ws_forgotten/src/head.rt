// The Tally that a compaction puts first.
ghost use Rattle.std.specs.Prelude.{◌≡◌, ◌≤◌, ℕ, List, None};
ghost use Rattle.ws_model.specs.declared.event.Event.{Event};
ghost use Rattle.ws_model.specs.Account.{account as account_of};
ghost use Rattle.ws_model.specs.Keep.{tally};
ghost use Rattle.ws_model.specs.Legal.{Legal};
ghost use Rattle.ws_model.specs.Verdict.{pair_of};
ghost use Rattle.ws_core_tables.specs.Stands.{StandsFor as TablesStand};
ghost use Rattle.ws_fate.specs.Stands.{AreShown};
ghost use Rattle.ws_tries.specs.Rows.{tries_at};
ghost use Rattle.ws_tries.specs.Stands.{HaveRooms};
ghost use Rattle.ws_kept.specs.Stands.{AreKept, IsLogged};
ghost use Rattle.ws_sweep.specs.Rows.{members};
ghost use Rattle.ws_forgotten.specs.Forgotten.{all_forgotten};

use crate::account::{has_stopped, less, totals_of};
use crate::before::forgotten_before;
use crate::counting::{newly_forgotten, sums};
use crate::kept_pairs::kept_totals;
use ws_core_tables::Tables;
use ws_fate::{Fates, Totals};
use ws_kept::Kept;
use ws_model::{Account, Event, Tally, What};
use ws_sweep::Sweep;
use ws_tries::Tries;

/// The Tally that a compaction at `t`, in seconds, puts first: its moment, the greatest serial and numbers used, and
/// how many pairs of each fate it and earlier ones forgot. `account` is the account at `t`. It takes no memory, and
/// goes only over the pairs that have rooms, unless a number of the account has stopped: then it goes over all pairs.
pub fn tally(
    tables: &Tables,
    fates: &Fates,
    tries: &Tries,
    kept: &Kept,
    account: &Account,
    log: &Sweep<Event>,
    t: u64,
) -> Event
    ensures stands { (h : List Event) (since : ℕ) → TablesStand h since tables.now → AreShown h since fates.now → HaveRooms h t tries.now →
        ((v n : ℕ) → pair_of h v n ≡ None → tries_at v n tries.now ≡ None) →
        AreKept h t kept.now → account.now ≡ account_of h t → IsLogged h since (members log.now) → Legal h → since ≤ t → result ≡ tally h t }
{
    let totals = forgotten(tables, fates, tries, kept, account, log, t);
    Event {
        serial: 0,
        t: 0,
        what: What::Tally(Tally {
            now: t,
            serial: tables.serial(),
            intent: tables.intent_number(),
            version: tables.version_number(),
            answered: totals.answered,
            expired: totals.expired,
            unsubscribed: totals.unsubscribed,
            replaced: totals.replaced,
            gone: totals.gone,
            spent: totals.spent,
            revoked: totals.revoked,
        }),
    }
}

/// How many pairs of each fate are forgotten: those of the account without the kept ones. An account of which a number
/// has stopped doesn't say how many there are: then the pairs that aren't kept are counted.
fn forgotten(
    tables: &Tables,
    fates: &Fates,
    tries: &Tries,
    kept: &Kept,
    account: &Account,
    log: &Sweep<Event>,
    t: u64,
) -> Totals
    ensures stands { (h : List Event) (since : ℕ) → TablesStand h since tables.now → AreShown h since fates.now → HaveRooms h t tries.now →
        ((v n : ℕ) → pair_of h v n ≡ None → tries_at v n tries.now ≡ None) →
        AreKept h t kept.now → account.now ≡ account_of h t → IsLogged h since (members log.now) → Legal h → since ≤ t → result ≡ all_forgotten h t }
{
    let all = totals_of(account);
    if has_stopped(all) {
        sums(forgotten_before(log), newly_forgotten(fates, kept))
    } else {
        less(all, kept_totals(tables, fates, tries, kept, t))
    }
}
