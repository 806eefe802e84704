// Sets of numbers.
ghost use Rattle.std.specs.Prelude.{◌≡◌, ◌||◌, ℕ, OnOk};
ghost use Rattle.std.specs.BTreeSet.{contains};
ghost use Rattle.std.specs.Ordering.{nat_cmp};
ghost use Rattle.ws_core_tables.specs.Stands.{is_number};

use std::collections::BTreeSet;
use ws_model::NoMemory;

/// Adds a number, where there is one.
pub(crate) fn add(numbers: &mut BTreeSet<u64>, number: Option<u64>) -> Result<(), NoMemory>
    ensures { OnOk result ((n : ℕ) → contains nat_cmp numbers.new n ≡ (contains nat_cmp numbers.old n || is_number number n)) }
{
    if let Some(number) = number {
        numbers.insert(number)?;
    }
    Ok(())
}
