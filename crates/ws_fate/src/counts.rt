// How many pairs of each version stand open.
ghost use Rattle.std.specs.Prelude.{◌≡◌, ◌+◌, ◌<◌, ◌^◌, ◌==◌, ◌&&◌, [], ℕ, cond, not, OnOk, OnErr};
ghost use Rattle.ws_fate.specs.Counts.{number_of};
ghost use Rattle.ws_fate.specs.Rows.{is_open};

use crate::Standing;
use std::alloc::Global;
use std::collections::BTreeMap;
use std::marker::Model;
use ws_model::NoMemory;

/// The numbers of open pairs by version. A version that has none has no entry. Contracts see them as a
/// list by version.
#[derive(Drop)]
pub(crate) struct Counts {
    by_version: BTreeMap<u64, u64>,
}

impl Model for Counts {
    ghost use Rattle.std.specs.Prelude.{ℕ, List, ◌<◌, IfSome};
    ghost use Rattle.std.specs.Ordering.{nat_cmp};
    ghost use Rattle.std.specs.Map.{lookup};
    ghost use Rattle.std.specs.BTreeMap.{is_at};

    ghost Value = { List (ℕ × ℕ) };

    ghost view = { λ s. s.by_version.entries };

    ghost invariant = { λ s. (v : ℕ) → IfSome (lookup (is_at (nat_cmp v)) s.by_version.entries) (λ number. 0 < number) };
}

impl Counts {
    /// No version has an open pair. It takes no memory.
    pub(crate) fn empty(alloc: Global) -> Counts
        ensures { result ≡ [] }
    {
        Counts {
            by_version: BTreeMap::new(alloc),
        }
    }

    /// How many pairs of a version stand open.
    pub(crate) fn of(&self, ver: u64) -> u64
        ensures { result ≡ number_of ver self.now }
    {
        match self.by_version.get(&ver) {
            Some(number) => *number,
            None => 0,
        }
    }

    /// Counts one more open pair of a version. At an error nothing has changed.
    pub(crate) fn add(&mut self, ver: u64) -> Result<(), NoMemory>
        requires few { number_of ver self.old < 2 ^ 63 }
        ensures more { OnOk result ((v : ℕ) → number_of v self.new ≡ number_of v self.old + cond (ver == v) 1 0) }
        ensures err { OnErr result (self.new ≡ self.old) }
    {
        let number = self.of(ver) + 1;
        self.by_version.insert(ver, number)?;
        Ok(())
    }

    /// Counts one open pair of a version less. It takes no memory.
    pub(crate) fn take(&mut self, ver: u64)
        requires there { 0 < number_of ver self.old }
        ensures less { (v : ℕ) → number_of v self.new + cond (ver == v) 1 0 ≡ number_of v self.old }
    {
        let number = self.of(ver);
        if number > 1 {
            match self.by_version.insert(ver, number - 1) {
                Ok(_) => {}
                Err(_) => unreachable!(),
            }
        } else {
            let _ = self.by_version.remove(&ver);
        }
    }

    /// Counts an open pair of a version off, where it doesn't stay open. It takes no memory.
    pub(crate) fn end(&mut self, ver: u64, how: Standing)
        requires there { 0 < number_of ver self.old }
        ensures less { (v : ℕ) → number_of v self.new + cond ((ver == v) && not (is_open how)) 1 0 ≡ number_of v self.old }
    {
        match how {
            Standing::Open => {}
            Standing::Answered | Standing::Ended(_) => self.take(ver),
        }
    }
}
