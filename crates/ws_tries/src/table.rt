// The table of pairs with their tries.
ghost use Rattle.std.specs.Prelude.{◌≡◌, ◌∷◌, ◌++◌, ◌<◌, ◌≤◌, ◌^◌, ◌==◌, [], ℕ, None, Some, List, true, cond, filter, length, option_map, IfNone, IfSome, IsSome, OnOk, OnErr};
ghost use Rattle.std.specs.Option.{IsSomeAnd};
ghost use Rattle.std.specs.List.Sorted.{IsStrictlySortedBy};
ghost use Rattle.std.specs.Map.{keys_of};
ghost use Rattle.ws_model.specs.declared.event.Event.{Event};
ghost use Rattle.ws_tries.specs.Rows.{is_here, is_listed, next_pair, pair_order, tries_at};
ghost use Rattle.ws_tries.specs.Stands.{StandsFor};

use crate::held::Held;
use crate::{Room, Try, rooms};
use std::alloc::Global;
use std::collections::btree_map::{Iter, Range};
use std::marker::Model;
use ws_model::NoMemory;

/// The pairs of a version and a lease that have a room, each with its tries. Contracts see them as a
/// list by version and lease.
#[derive(Drop)]
pub struct Tries {
    alloc: Global,
    held: Held,
}

impl Model for Tries {
    ghost use Rattle.ws_tries.specs.Rows.{Rows};

    ghost Value = { Rows };

    ghost view = { λ s. s.held };
}

impl Tries {
    /// No pair has a room. It takes no memory.
    pub fn empty(alloc: Global) -> Tries
        ensures empty { result ≡ [] }
        ensures stands { (h : List Event) → StandsFor h result }
    {
        Tries {
            alloc,
            held: Held::empty(alloc),
        }
    }

    /// The tries of a pair, the oldest first, where it has a room. It takes no memory.
    pub fn of(&self, ver: u64, lease: u64) -> Option<&[Try]>
        ensures { option_map (λ s. s.now) result ≡ tries_at ver lease self.now }
    {
        self.held.of(ver, lease)
    }

    /// The pairs by version and lease, each as these two numbers in this order, with their rooms. It
    /// takes no memory.
    pub fn rooms(&self) -> Iter<'_, (u64, u64), Room>
        ensures rest { result ≡ self.now }
        ensures ordered { IsStrictlySortedBy pair_order (keys_of self.now) }
    {
        self.held.iter()
    }

    /// The pairs of one version by lease, each as the numbers of its version and its lease, with their
    /// rooms. It takes no memory.
    pub fn rooms_of(&self, ver: u64) -> Range<'_, (u64, u64), Room>
        requires { ver < 2 ^ 63 }
        ensures { result ≡ filter (λ e. e.0.0 == ver) self.now }
    {
        self.held.of_version(ver)
    }

    /// Gives a pair a room without tries, in which eight have their place. At an error the table is as
    /// before.
    pub fn make_room(&mut self, ver: u64, lease: u64) -> Result<(), NoMemory>
        requires new { tries_at ver lease self.old ≡ None }
        ensures look { OnOk result ((v n : ℕ) → tries_at v n self.new ≡ cond (is_here ver lease v n) (Some []) (tries_at v n self.old)) }
        ensures err { OnErr result (self.new ≡ self.old) }
    {
        self.held.make(self.alloc, ver, lease)
    }

    /// Gives each of these pairs, each a version and a lease, a room without tries, in which eight have
    /// their place: all of them or none. At an error the table is as before.
    pub fn make_rooms(&mut self, pairs: &[(u64, u64)]) -> Result<(), NoMemory>
        requires new { (v n : ℕ) → is_listed v n pairs.now ≡ true → tries_at v n self.old ≡ None }
        ensures look { OnOk result ((v n : ℕ) → tries_at v n self.new ≡ cond (is_listed v n pairs.now) (Some []) (tries_at v n self.old)) }
        ensures err { OnErr result (self.new ≡ self.old) }
    {
        rooms::make_all(self.alloc, &mut self.held, pairs)
    }

    /// Adds a try behind the others of its pair. It takes no memory.
    pub fn add(&mut self, ver: u64, lease: u64, made: Try)
        requires room { IsSomeAnd (tries_at ver lease self.old) (λ tries. length tries < 8) }
        ensures look { (v n : ℕ) → tries_at v n self.new ≡ cond (is_here ver lease v n) (option_map (λ tries. tries ++ made ∷ []) (tries_at ver lease self.old)) (tries_at v n self.old) }
    {
        self.held.add(ver, lease, made);
    }

    /// Takes the room of a pair away, with its tries. It takes no memory. A pair without a room changes
    /// nothing.
    pub fn give_back(&mut self, ver: u64, lease: u64)
        ensures look { (v n : ℕ) → tries_at v n self.new ≡ cond (is_here ver lease v n) None (tries_at v n self.old) }
    {
        self.held.give_back(ver, lease);
    }

    /// Takes the rooms of all pairs of a version away, with their tries. It takes no memory. A version
    /// without a room changes nothing.
    pub fn give_back_version(&mut self, ver: u64)
        requires { ver < 2 ^ 63 }
        ensures look { (v n : ℕ) → tries_at v n self.new ≡ cond (ver == v) None (tries_at v n self.old) }
    {
        rooms::give_back_version(&mut self.held, ver);
    }

    /// The lowest version, from one on, whose pair with this lease has a room. It takes no memory.
    pub fn next_version(&self, lease: u64, from: u64) -> Option<u64>
        ensures found { IfSome result (λ v. (from ≤ v) × IsSome (tries_at v lease self.now)) }
        ensures passed { IfSome result (λ v. (w : ℕ) → from ≤ w → w < v → tries_at w lease self.now ≡ None) }
        ensures none { IfNone result ((w : ℕ) → from ≤ w → tries_at w lease self.now ≡ None) }
    {
        self.held.next_version(lease, from)
    }

    /// The first pair that has a room, by version and lease, from this one on. It takes no memory.
    pub fn next_pair(&self, ver: u64, lease: u64) -> Option<(u64, u64)>
        ensures { result ≡ next_pair ver lease self.now }
    {
        self.held.next_pair(ver, lease)
    }

    /// Takes the rooms of all pairs of a lease away, with their tries. It takes no memory. A lease
    /// without a room changes nothing.
    pub fn give_back_lease(&mut self, lease: u64)
        ensures look { (v n : ℕ) → tries_at v n self.new ≡ cond (lease == n) None (tries_at v n self.old) }
    {
        rooms::give_back_lease(&mut self.held, lease);
    }

    /// Takes the rooms of these pairs, each a version and a lease, away, with their tries. It takes no
    /// memory. A pair without a room changes nothing.
    pub fn give_back_all(&mut self, pairs: &[(u64, u64)])
        ensures look { (v n : ℕ) → tries_at v n self.new ≡ cond (is_listed v n pairs.now) None (tries_at v n self.old) }
    {
        rooms::give_back_each(&mut self.held, pairs);
    }
}
