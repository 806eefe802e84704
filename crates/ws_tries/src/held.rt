// The rooms by version and lease, found by lease and version too.
ghost use Rattle.std.specs.Prelude.{◌≡◌, ◌<◌, ◌≤◌, ◌^◌, ◌∷◌, ◌++◌, ◌==◌, [], ℕ, None, Some, cond, filter, length, option_map, IfNone, IfSome, IsSome, OnOk, OnErr};
ghost use Rattle.std.specs.Option.{IsSomeAnd};
ghost use Rattle.std.specs.List.Sorted.{IsStrictlySortedBy};
ghost use Rattle.std.specs.Map.{keys_of};
ghost use Rattle.ws_tries.specs.Rows.{is_here, next_pair, pair_order, tries_at};

use crate::{Room, Try};
use std::alloc::Global;
use std::collections::btree_map::{Iter, Range};
use std::collections::{BTreeMap, BTreeSet};
use std::marker::Model;
use ws_model::NoMemory;

/// The rooms of pairs of a version and a lease. Contracts see them as a list by version and lease.
#[derive(Drop)]
pub(crate) struct Held {
    by_pair: BTreeMap<(u64, u64), Room>,
    /// The lease and the version of each pair that has a room.
    by_lease: BTreeSet<(u64, u64)>,
}

impl Model for Held {
    ghost use Rattle.ws_tries.specs.Rows.{Rows};
    ghost use Rattle.ws_tries.specs.ByLease.{AreRoomed};

    ghost Value = { Rows };

    ghost view = { λ s. s.by_pair.entries };

    ghost invariant = { λ s. AreRoomed s.by_lease s.by_pair.entries };
}

impl Held {
    /// No pair has a room. It takes no memory.
    pub(crate) fn empty(alloc: Global) -> Held
        ensures { result ≡ [] }
    {
        Held {
            by_pair: BTreeMap::new(alloc),
            by_lease: BTreeSet::new(alloc),
        }
    }

    /// How many pairs have a room.
    pub(crate) fn len(&self) -> usize
        ensures len { result ≡ length self.now }
        ensures ordered { IsStrictlySortedBy pair_order (keys_of self.now) }
    {
        self.by_pair.len()
    }

    /// The tries of a pair, the oldest first, where it has a room.
    pub(crate) fn of(&self, ver: u64, lease: u64) -> Option<&[Try]>
        ensures { option_map (λ s. s.now) result ≡ tries_at ver lease self.now }
    {
        Some(self.by_pair.get(&(ver, lease))?.as_slice())
    }

    /// The pairs by version and lease, with their rooms.
    pub(crate) fn iter(&self) -> Iter<'_, (u64, u64), Room>
        ensures rest { result ≡ self.now }
        ensures ordered { IsStrictlySortedBy pair_order (keys_of self.now) }
    {
        self.by_pair.iter()
    }

    /// The pairs of one version by lease, with their rooms.
    pub(crate) fn of_version(&self, ver: u64) -> Range<'_, (u64, u64), Room>
        requires { ver < 2 ^ 63 }
        ensures { result ≡ filter (λ e. e.0.0 == ver) self.now }
    {
        self.by_pair.range((ver, 0)..(ver + 1, 0))
    }

    /// The lowest lease whose pair with this version has a room.
    pub(crate) fn first_lease(&self, ver: u64) -> Option<u64>
        requires { ver < 2 ^ 63 }
        ensures found { IfSome result (λ n. IsSome (tries_at ver n self.now)) }
        ensures none { IfNone result ((n : ℕ) → tries_at ver n self.now ≡ None) }
    {
        let (pair, _) = self.by_pair.range((ver, 0)..(ver + 1, 0)).next()?;
        Some(pair.1)
    }

    /// The lowest version, from one on, whose pair with this lease has a room.
    pub(crate) fn next_version(&self, lease: u64, from: u64) -> Option<u64>
        ensures found { IfSome result (λ v. (from ≤ v) × IsSome (tries_at v lease self.now)) }
        ensures passed { IfSome result (λ v. (w : ℕ) → from ≤ w → w < v → tries_at w lease self.now ≡ None) }
        ensures none { IfNone result ((w : ℕ) → from ≤ w → tries_at w lease self.now ≡ None) }
    {
        let pair = self.by_lease.range((lease, from)..).next()?;
        if pair.0 == lease { Some(pair.1) } else { None }
    }

    /// The first pair that has a room, by version and lease, from one on.
    pub(crate) fn next_pair(&self, ver: u64, lease: u64) -> Option<(u64, u64)>
        ensures { result ≡ next_pair ver lease self.now }
    {
        match self.by_pair.range((ver, lease)..).next() {
            Some((pair, _)) => Some(*pair),
            None => None,
        }
    }

    /// Gives a pair a room without tries. At an error all is as before.
    pub(crate) fn make(&mut self, alloc: Global, ver: u64, lease: u64) -> Result<(), NoMemory>
        ensures look { OnOk result ((v n : ℕ) → tries_at v n self.new ≡ cond (is_here ver lease v n) (Some []) (tries_at v n self.old)) }
        ensures err { OnErr result (self.new ≡ self.old) }
    {
        let room = Room::new(alloc)?;
        self.by_lease.insert((lease, ver))?;
        match self.by_pair.insert((ver, lease), room) {
            Ok(_) => Ok(()),
            Err(_) => {
                let _ = self.by_lease.remove(&(lease, ver));
                Err(NoMemory)
            }
        }
    }

    /// Adds a try behind the others of its pair. It takes no memory.
    pub(crate) fn add(&mut self, ver: u64, lease: u64, made: Try)
        requires room { IsSomeAnd (tries_at ver lease self.old) (λ tries. length tries < 8) }
        ensures look { (v n : ℕ) → tries_at v n self.new ≡ cond (is_here ver lease v n) (option_map (λ tries. tries ++ made ∷ []) (tries_at ver lease self.old)) (tries_at v n self.old) }
    {
        match self.by_pair.get_mut(&(ver, lease)) {
            Some(room) => room.add(made),
            None => unreachable!(),
        }
    }

    /// Takes the room of a pair away, where it has one.
    pub(crate) fn give_back(&mut self, ver: u64, lease: u64)
        ensures look { (v n : ℕ) → tries_at v n self.new ≡ cond (is_here ver lease v n) None (tries_at v n self.old) }
        ensures fewer { IsSome (tries_at ver lease self.old) → length self.new < length self.old }
    {
        let (pair, turned) = ((ver, lease), (lease, ver));
        let _ = self.by_pair.remove(&pair);
        let _ = self.by_lease.remove(&turned);
    }
}
