// Pairs that are born, each with a room for its pushes.
ghost use Rattle.std.specs.Prelude.{◌≡◌, ℕ, [], None, Some, OnOk, OnErr, cond, true};
ghost use Rattle.ws_tries.specs.Rows.{is_listed, tries_at};
ghost use Rattle.ws_ledger.specs.Stands.{CanFollow, GoesOn};

use ws_ledger::Ledger;
use ws_model::{Event, NoMemory};
use ws_tries::Tries;

/// Applies the event to the ledger, and gives each of these pairs, a version and a lease, which have
/// none, a room. At an error both are as before.
pub(crate) fn apply_with_rooms(
    ledger: &mut Ledger,
    tries: &mut Tries,
    event: &Event,
    births: &[(u64, u64)],
) -> Result<(), NoMemory>
    requires follows { CanFollow ledger.old event.now }
    requires new { (v n : ℕ) → is_listed v n births.now ≡ true → tries_at v n tries.old ≡ None }
    ensures ledger { OnOk result (GoesOn event.now ledger.old ledger.new) }
    ensures rooms { OnOk result ((v n : ℕ) → tries_at v n tries.new ≡ cond (is_listed v n births.now) (Some []) (tries_at v n tries.old)) }
    ensures same_ledger { OnErr result (ledger.new ≡ ledger.old) }
    ensures same_rooms { OnErr result (tries.new ≡ tries.old) }
{
    // How the rooms are held is known from a walk over them.
    let _ = tries.rooms();
    tries.make_rooms(births)?;
    match ledger.apply(event) {
        Ok(()) => Ok(()),
        Err(fault) => {
            tries.give_back_all(births);
            let _ = tries.rooms();
            Err(fault)
        }
    }
}
