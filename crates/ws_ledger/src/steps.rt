// Over an event that makes some pairs and ends others: all of it, or nothing.
ghost use Rattle.std.specs.Prelude.{◌≡◌, ◌≤◌, ◌+◌, ℕ, None, Some, OnOk, OnErr, IfOk, cond, true, length, option_map};
ghost use Rattle.ws_core_tables.specs.Stands.{CanFollow as TablesCanFollow, GoesOn as TablesGoOn};
ghost use Rattle.ws_fate.specs.declared.totals.Standing.TheVariants.{Open};
ghost use Rattle.ws_fate.specs.Rows.{standing_at};
ghost use Rattle.ws_ledger.specs.Pairs.{AreApart, is_listed, moved_to, open_pairs_of, with_lease, with_many};

use crate::Ledger;
use crate::births::{bear_all, unbear_all};
use crate::ends::end_all;
use std::alloc::Global;
use ws_delivery::OpenOf;
use ws_fate::Standing;
use ws_model::{Event, NoMemory};

impl Ledger {
    /// Applies the event to the tables and makes these pairs, each a version and a lease. At an error the
    /// ledger is as it was.
    fn apply_births(&mut self, event: &Event, births: &[(u64, u64)]) -> Result<(), NoMemory>
        requires follows { TablesCanFollow self.old.tables event.now }
        requires apart { AreApart births.now }
        requires new { (v n : ℕ) → is_listed v n births.now ≡ true → standing_at v n self.old.fates ≡ None }
        ensures tables { OnOk result (TablesGoOn event.now self.old.tables self.new.tables) }
        ensures look { OnOk result ((v n : ℕ) → standing_at v n self.new.fates ≡ cond (is_listed v n births.now) (Some Open) (standing_at v n self.old.fates)) }
        ensures totals { OnOk result (self.new.fates.totals ≡ self.old.fates.totals) }
        ensures number { OnOk result (self.new.open_pairs ≡ self.old.open_pairs + length births.now) }
        ensures err { OnErr result (self.new ≡ self.old) }
    {
        let Some(open_pairs) = self.open_pairs.checked_add(births.len() as u64) else {
            return Err(NoMemory);
        };
        // How the pairs are held is known from their number.
        let _ = self.fates.count();
        bear_all(&mut self.fates, births)?;
        match self.tables.apply(event) {
            Ok(()) => {
                self.open_pairs = open_pairs;
                Ok(())
            }
            Err(fault) => {
                unbear_all(&mut self.fates, births);
                let _ = self.fates.count();
                Err(fault)
            }
        }
    }

    /// Applies the event to the tables, makes some pairs and ends others, which are open. At an error the
    /// ledger is as it was.
    pub(crate) fn apply_step(
        &mut self,
        event: &Event,
        births: &[(u64, u64)],
        ends: &[(u64, u64)],
        how: Standing,
    ) -> Result<(), NoMemory>
        requires follows { TablesCanFollow self.old.tables event.now }
        requires births_apart { AreApart births.now }
        requires new { (v n : ℕ) → is_listed v n births.now ≡ true → standing_at v n self.old.fates ≡ None }
        requires ends_apart { AreApart ends.now }
        requires are_open { (v n : ℕ) → is_listed v n ends.now ≡ true → standing_at v n self.old.fates ≡ Some Open }
        requires enough { length ends.now ≤ self.old.open_pairs }
        ensures tables { OnOk result (TablesGoOn event.now self.old.tables self.new.tables) }
        ensures look { OnOk result ((v n : ℕ) → standing_at v n self.new.fates ≡ cond (is_listed v n births.now) (Some Open) (cond (is_listed v n ends.now) (Some how) (standing_at v n self.old.fates))) }
        ensures totals { OnOk result (self.new.fates.totals ≡ with_many (length ends.now) how self.old.fates.totals) }
        ensures number { OnOk result (self.new.open_pairs + length ends.now ≡ self.old.open_pairs + length births.now) }
        ensures err { OnErr result (self.new ≡ self.old) }
    {
        self.apply_births(event, births)?;
        self.end_all(ends, how);
        Ok(())
    }

    /// Ends these pairs, which are open, and counts them off. It takes no memory.
    pub(crate) fn end_all(&mut self, ends: &[(u64, u64)], how: Standing)
        requires apart { AreApart ends.now }
        requires are_open { (v n : ℕ) → is_listed v n ends.now ≡ true → standing_at v n self.old.fates ≡ Some Open }
        requires enough { length ends.now ≤ self.old.open_pairs }
        ensures look { (v n : ℕ) → standing_at v n self.new.fates ≡ cond (is_listed v n ends.now) (Some how) (standing_at v n self.old.fates) }
        ensures totals { self.new.fates.totals ≡ with_many (length ends.now) how self.old.fates.totals }
        ensures number { self.new.open_pairs + length ends.now ≡ self.old.open_pairs }
        ensures tables { self.new.tables ≡ self.old.tables }
    {
        end_all(&mut self.fates, ends, how);
        self.open_pairs -= ends.len() as u64;
    }

    /// The open pairs of a lease, where there is one.
    pub(crate) fn open_pairs_of(&self, lease: Option<u64>) -> Result<Vec<(u64, u64)>, NoMemory>
        ensures value { IfOk result (λ pairs. pairs.items ≡ open_pairs_of lease self.now.tables.deliveries) }
        ensures apart { IfOk result (λ pairs. AreApart pairs.items) }
    {
        match lease {
            Some(lease) => with_lease(self.alloc, self.tables.open_of(lease), lease),
            None => Ok(Vec::new(self.alloc)),
        }
    }
}

/// The pairs of these versions and a lease.
fn with_lease(alloc: Global, versions: OpenOf<'_>, lease: u64) -> Result<Vec<(u64, u64)>, NoMemory>
    ensures { IfOk result (λ pairs. pairs.items ≡ with_lease lease versions.entry) }
{
    let mut pairs = Vec::new(alloc);
    for ver in versions {
        pairs.push((ver, lease))?;
    }
    Ok(pairs)
}

/// The same versions with another lease.
pub(crate) fn moved_to(
    alloc: Global,
    pairs: &[(u64, u64)],
    lease: u64,
) -> Result<Vec<(u64, u64)>, NoMemory>
    ensures { IfOk result (λ moved. moved.items ≡ moved_to lease pairs.now) }
{
    let mut moved = Vec::new(alloc);
    for pair in pairs {
        moved.push((pair.0, lease))?;
    }
    Ok(moved)
}
