// The table of pairs with what became of them.
ghost use Rattle.std.specs.Prelude.{◌≡◌, ◌∷◌, ◌≤◌, ◌<◌, ◌^◌, ◌==◌, ◌&&◌, [], ℕ, None, Some, cond, filter, length, OnOk, OnErr};
ghost use Rattle.std.specs.List.Sorted.{IsStrictlySortedBy};
ghost use Rattle.std.specs.Map.{keys_of};
ghost use Rattle.ws_model.specs.declared.event.Event.{Event};
ghost use Rattle.ws_model.specs.declared.event.What.TheVariants.{Tally as TallyOf};
ghost use Rattle.ws_fate.specs.declared.totals.Standing.TheVariants.{Open};
ghost use Rattle.ws_fate.specs.Rows.{is_here, is_open, pair_order, standing_at};
ghost use Rattle.ws_fate.specs.Stands.{StandsFor};
ghost use Rattle.ws_fate.specs.Totals.{none, of_tally, with_one};

use crate::counts::Counts;
use crate::{Standing, Totals};
use std::alloc::Global;
use std::collections::BTreeMap;
use std::collections::btree_map::{Iter, Range};
use std::marker::Model;
use ws_model::{NoMemory, Tally};

/// The pairs of a version and a lease with what became of them, and how many ended in each way, those
/// included that a compaction forgot. Contracts see the pairs as a list by lease and version. How many
/// of each version stand open is counted beside them.
#[derive(Drop)]
pub struct Fates {
    by_pair: BTreeMap<(u64, u64), Standing>,
    open_counts: Counts,
    totals: Totals,
}

impl Model for Fates {
    ghost use Rattle.ws_fate.specs.Rows.{Rows};
    ghost use Rattle.ws_fate.specs.Counts.{AreCounted};

    ghost Value = { Rows };

    ghost view = { λ s. record { pairs = s.by_pair.entries; totals = s.totals } };

    ghost invariant = { λ s. AreCounted s.by_pair.entries s.open_counts };
}

impl Fates {
    /// No pair. It takes no memory.
    pub fn empty(alloc: Global) -> Fates
        ensures empty { result ≡ record { pairs = []; totals = none } }
        ensures stands { StandsFor [] 0 result }
    {
        Fates {
            by_pair: BTreeMap::new(alloc),
            open_counts: Counts::empty(alloc),
            totals: Totals::none(),
        }
    }

    /// No pair, beside those that a compaction forgot. It takes no memory.
    pub fn of_tally(alloc: Global, tally: &Tally) -> Fates
        ensures empty { result ≡ record { pairs = []; totals = of_tally tally.entry.now } }
        ensures stands { (e : Event) (t : ℕ) → e.what ≡ TallyOf tally.entry.now → e.t ≤ t → StandsFor (e ∷ []) t result }
    {
        Fates {
            by_pair: BTreeMap::new(alloc),
            open_counts: Counts::empty(alloc),
            totals: Totals::of_tally(tally),
        }
    }

    /// What became of a pair, where the table has it. It takes no memory.
    pub fn get(&self, ver: u64, lease: u64) -> Option<Standing>
        ensures { result ≡ standing_at ver lease self.now }
    {
        self.by_pair.get(&(lease, ver)).copied()
    }

    /// How many pairs the table has. They are held by lease and version. It takes no memory.
    pub fn count(&self) -> u64
        ensures count { result ≡ length self.now.pairs }
        ensures ordered { IsStrictlySortedBy pair_order (keys_of self.now.pairs) }
    {
        self.by_pair.len() as u64
    }

    /// The pairs by lease and version, each as these two numbers in this order, with what became of them.
    /// It takes no memory.
    pub fn pairs(&self) -> Iter<'_, (u64, u64), Standing>
        ensures rest { result ≡ self.now.pairs }
        ensures ordered { IsStrictlySortedBy pair_order (keys_of self.now.pairs) }
    {
        self.by_pair.iter()
    }

    /// The pairs of one lease by version, each as the numbers of its lease and its version, with what
    /// became of them. It takes no memory.
    pub fn pairs_of(&self, lease: u64) -> Range<'_, (u64, u64), Standing>
        requires { lease < 2 ^ 63 }
        ensures { result ≡ filter (λ e. e.0.0 == lease) self.now.pairs }
    {
        self.by_pair.range((lease, 0)..(lease + 1, 0))
    }

    /// How many pairs of a version stand open. It takes no memory.
    pub fn open_of(&self, ver: u64) -> u64
        ensures { result ≡ length (filter (λ e. (e.0.1 == ver) && is_open e.1) self.now.pairs) }
    {
        self.open_counts.of(ver)
    }

    /// How many pairs ended in each way. It takes no memory.
    pub fn totals(&self) -> Totals
        ensures { result ≡ self.now.totals }
    {
        self.totals
    }

    /// Adds a pair, which is open. At an error the table is as before.
    pub fn born(&mut self, ver: u64, lease: u64) -> Result<(), NoMemory>
        requires new { standing_at ver lease self.old ≡ None }
        ensures look { OnOk result ((v n : ℕ) → standing_at v n self.new ≡ cond (is_here ver lease v n) (Some Open) (standing_at v n self.old)) }
        ensures totals { self.new.totals ≡ self.old.totals }
        ensures err { OnErr result (self.new ≡ self.old) }
    {
        // That a version has few open pairs is known from how many pairs there are.
        let _ = self.by_pair.len();
        self.open_counts.add(ver)?;
        match self.by_pair.insert((lease, ver), Standing::Open) {
            Ok(_) => Ok(()),
            Err(fault) => {
                self.open_counts.take(ver);
                Err(fault.into())
            }
        }
    }

    /// Takes an open pair out, as if it hadn't been born. It takes no memory.
    pub fn unborn(&mut self, ver: u64, lease: u64)
        requires is_open { standing_at ver lease self.old ≡ Some Open }
        ensures look { (v n : ℕ) → standing_at v n self.new ≡ cond (is_here ver lease v n) None (standing_at v n self.old) }
        ensures totals { self.new.totals ≡ self.old.totals }
    {
        match self.by_pair.remove(&(lease, ver)) {
            Some(_) => self.open_counts.take(ver),
            None => unreachable!(),
        }
    }

    /// Says what became of an open pair, and counts it. It takes no memory.
    pub fn end(&mut self, ver: u64, lease: u64, how: Standing)
        requires is_open { standing_at ver lease self.old ≡ Some Open }
        ensures look { (v n : ℕ) → standing_at v n self.new ≡ cond (is_here ver lease v n) (Some how) (standing_at v n self.old) }
        ensures totals { self.new.totals ≡ with_one how self.old.totals }
    {
        match self.by_pair.insert((lease, ver), how) {
            Ok(_) => {
                self.open_counts.end(ver, how);
                self.totals.add(how)
            }
            Err(_) => unreachable!(),
        }
    }
}
