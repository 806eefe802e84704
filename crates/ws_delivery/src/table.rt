// The table of open pairs.
ghost use Rattle.std.specs.Prelude.{◌≡◌, ◌+◌, ◌<◌, ◌≤◌, ◌^◌, ℕ, [], None, Some, cond, ◌==◌, ◌&&◌, IsSome, IfSome, IfOk, OnOk, OnErr, IsSomeAnd, List, MatchOption, length, if◌then◌else◌};
ghost use Rattle.std.specs.Option.{option_map};
ghost use Rattle.std.specs.Map.{keys_of};
ghost use Rattle.std.specs.List.{IsDistinct};
ghost use Rattle.std.specs.List.Sorted.{IsStrictlySortedBy};
ghost use Rattle.ws_delivery.specs.Table.{carried, pair_order, pair_at, is_here, owed_at, fresh, after_miss, fate_after_miss, fate_at, number_of, number_owed};
ghost use Rattle.ws_model.specs.declared.event.Event.{Event};
ghost use Rattle.ws_model.specs.Legal.{Legal};
ghost use Rattle.ws_model.specs.Pairs.{owed};
ghost use Rattle.ws_delivery.specs.NextDue.{IsNextDue};
ghost use Rattle.ws_delivery.specs.OpenOf.{open_versions};
ghost use Rattle.ws_delivery.specs.OwedVersions.{is_owed_version};
ghost use Rattle.std.specs.BTreeSet.{contains};
ghost use Rattle.std.specs.List.{list_any};
ghost use Rattle.std.specs.Ordering.{nat_cmp};
ghost use Rattle.ws_delivery.specs.Stands.{StandsFor};

use crate::OpenOf;
use crate::ends::{self, Ends};
use crate::open_pairs::OpenPairs;
use std::alloc::Global;
use std::collections::{BTreeMap, BTreeSet};
use std::marker::Model;
use ws_model::{Cause, Fate, Held, NoMemory};

/// The open pairs: versions that are still owed to leases. A contract sees them as a list by lease and
/// version. They are found by lease and version; an index has the first pair of each lease in the order
/// of next tries, and another one the number of pairs by the leases' ends.
#[derive(Drop)]
pub struct Deliveries {
    pairs: OpenPairs,
    ends: Ends,
}

impl Model for Deliveries {
    ghost use Rattle.ws_delivery.specs.Table.{Rows};
    ghost use Rattle.std.specs.Prelude.{List, ℕ};
    ghost use Rattle.ws_delivery.specs.declared.open_pair.OpenPair.{OpenPair};

    ghost Value = { List ((ℕ × ℕ) × OpenPair) };

    ghost use Rattle.ws_delivery.specs.Indexed.{IsCounted};

    ghost view = { λ s. s.pairs };

    ghost invariant = { λ s. IsCounted s.pairs s.ends.entries };
}

impl Deliveries {
    /// No pair. It takes no memory.
    pub fn empty(alloc: Global) -> Deliveries
        ensures { result ≡ [] }
    {
        Deliveries {
            pairs: OpenPairs::empty(alloc),
            ends: BTreeMap::new(alloc),
        }
    }

    /// How an open pair stands at `t`: owed with its misses and its next try, or ended with its lease.
    pub fn fate(&self, ver: u64, lease: u64, t: u64) -> Option<Fate>
        ensures { result ≡ option_map (fate_at t) (pair_at ver lease self.now) }
    {
        match self.pairs.get(ver, lease) {
            Some(pair) => Some(pair.fate(t)),
            None => None,
        }
    }

    /// The end of a lease, as its open pairs have it, where it has one.
    pub fn end_of(&self, lease: u64) -> Option<u64>
        ensures end { MatchOption result ((v : ℕ) → pair_at v lease self.now ≡ None) (λ exp. (v : ℕ) → IfSome (pair_at v lease self.now) (λ p. p.exp ≡ exp)) }
        ensures held { IfSome result (λ exp. (v : ℕ) × IsSomeAnd (pair_at v lease self.now) (λ p. p.exp ≡ exp)) }
    {
        match self.pairs.first_of(lease) {
            Some(first) => Some(first.exp),
            None => None,
        }
    }

    /// Opens a pair that is born at `t`, with the end of its lease. At an error the table is as before.
    pub fn born(&mut self, ver: u64, lease: u64, exp: u64, t: u64) -> Result<(), NoMemory>
        requires in_time { t < 2 ^ 48 }
        requires new { pair_at ver lease self.old ≡ None }
        requires one_end { (v : ℕ) → IfSome (pair_at v lease self.old) (λ p. p.exp ≡ exp) }
        ensures look { OnOk result ((v n : ℕ) → pair_at v n self.new ≡ cond (is_here ver lease v n) (Some (fresh exp t)) (pair_at v n self.old)) }
        ensures number { OnOk result ((n : ℕ) → number_of n self.new ≡ number_of n self.old + (if lease == n then 1 else 0)) }
        ensures err { OnErr result (self.new ≡ self.old) }
    {
        // That a table has few pairs is known from its length.
        let _ = self.pairs.len();
        ends::add(&mut self.ends, exp, lease)?;
        match self.pairs.open(ver, lease, exp, t) {
            Ok(()) => Ok(()),
            Err(fault) => {
                ends::take(&mut self.ends, exp, lease);
                Err(fault)
            }
        }
    }

    /// Counts a missed push at `t`: the pair waits for its next try, or is closed as spent at its
    /// eighth miss. It takes no memory.
    pub fn miss(&mut self, ver: u64, lease: u64, t: u64) -> Fate
        requires in_time { t < 2 ^ 48 }
        requires is_open { IsSome (pair_at ver lease self.old) }
        ensures fate { IsSomeAnd (pair_at ver lease self.old) (λ p. result ≡ fate_after_miss t p) }
        ensures look { IsSomeAnd (pair_at ver lease self.old) (λ p. (v n : ℕ) → pair_at v n self.new ≡ cond (is_here ver lease v n) (after_miss t p) (pair_at v n self.old)) }
    {
        let Some(pair) = self.pairs.get(ver, lease) else {
            unreachable!()
        };
        if pair.tries >= 7 {
            self.close(ver, lease);
            return Fate::Ended(Cause::Spent);
        }
        let pair = pair.missed(t);
        self.pairs.change(ver, lease, pair);
        Fate::Owed {
            tries: pair.tries,
            next: pair.next,
        }
    }

    /// Closes a pair. It takes no memory.
    pub fn close(&mut self, ver: u64, lease: u64)
        requires is_open { IsSome (pair_at ver lease self.old) }
        ensures look { (v n : ℕ) → pair_at v n self.new ≡ cond (is_here ver lease v n) None (pair_at v n self.old) }
        ensures number { number_of lease self.new + 1 ≡ number_of lease self.old }
        ensures all { length self.new + 1 ≡ length self.old }
    {
        let Some(pair) = self.pairs.get(ver, lease) else {
            unreachable!()
        };
        self.pairs.close(ver, lease);
        ends::take(&mut self.ends, pair.exp, lease);
    }

    /// Closes all open pairs of a lease, and gives their number. It takes no memory.
    pub fn close_lease(&mut self, lease: u64) -> u64
        ensures number { result ≡ number_of lease self.old }
        ensures look { (v n : ℕ) → pair_at v n self.new ≡ cond (lease == n) None (pair_at v n self.old) }
        ensures ordered { IsStrictlySortedBy pair_order (keys_of self.new) }
    {
        let before = self.pairs.len();
        while let Some(first) = self.pairs.first_of(lease) {
            self.close(first.ver, lease);
        }
        before - self.pairs.len()
    }

    /// Opens afresh at `t`, for a new lease, what is open of an old one, which stays open, and gives the
    /// number of these pairs. At an error the table is as before.
    pub fn renew(&mut self, old: u64, new: u64, exp: u64, t: u64) -> Result<u64, NoMemory>
        requires in_time { t < 2 ^ 48 }
        requires none { (v : ℕ) → pair_at v new self.old ≡ None }
        ensures number { IfOk result (λ k. k ≡ number_of old self.old) }
        ensures look { OnOk result ((v n : ℕ) → pair_at v n self.new ≡ cond (new == n) (carried exp t (pair_at v old self.old)) (pair_at v n self.old)) }
        ensures err { OnErr result (self.new ≡ self.old) }
    {
        let Some(first) = self.pairs.first_of(old) else {
            return Ok(0);
        };
        let number = ends::number_of(&self.ends, first.exp, old);
        let mut next = Some(first.ver);
        while let Some(ver) = next {
            match self.born(ver, new, exp, t) {
                Ok(()) => next = self.pairs.open_after(old, ver),
                Err(fault) => {
                    self.close_lease(new);
                    return Err(fault);
                }
            }
        }
        Ok(number)
    }

    /// Opens afresh at `t`, for a new lease, what is open of an old one, and closes that; it gives the
    /// number of the pairs. At an error the table is as before.
    pub fn carry(&mut self, old: u64, new: u64, exp: u64, t: u64) -> Result<u64, NoMemory>
        requires in_time { t < 2 ^ 48 }
        requires none { (v : ℕ) → pair_at v new self.old ≡ None }
        ensures number { IfOk result (λ k. k ≡ number_of old self.old) }
        ensures look { OnOk result ((v n : ℕ) → pair_at v n self.new ≡ cond (new == n) (carried exp t (pair_at v old self.old)) (cond (old == n) None (pair_at v n self.old))) }
        ensures err { OnErr result (self.new ≡ self.old) }
    {
        let number = self.renew(old, new, exp, t)?;
        self.close_lease(old);
        Ok(number)
    }

    /// How many pairs are open, those of expired leases included. They are held by lease and version.
    pub fn count(&self) -> u64
        ensures count { result ≡ length self.now }
        ensures ordered { IsStrictlySortedBy pair_order (keys_of self.now) }
    {
        self.pairs.len()
    }

    /// The versions of the open pairs of a lease, rising.
    pub fn open_of(&self, lease: u64) -> OpenOf<'_>
        ensures value { result ≡ open_versions lease self.now }
        ensures distinct { IsDistinct (λ x y. x == y) result }
    {
        self.pairs.open_of(lease)
    }

    /// How many pairs are owed at `t`. It goes over the leases that have ended by then and whose pairs
    /// aren't closed.
    pub fn owed(&self, t: u64) -> u64
        ensures number { result ≡ number_owed t self.now }
        ensures stands { (h : List Event) (since : ℕ) → Legal h → StandsFor h since self.now → since ≤ t → result ≡ length (owed h t) }
    {
        ends::number_after(&self.ends, self.pairs.len(), t)
    }

    /// The versions that are owed at `t` to some lease. It goes over all open pairs.
    pub fn owed_versions(&self, alloc: Global, t: u64) -> Result<BTreeSet<u64>, NoMemory>
        ensures versions { IfOk result (λ s. (v : ℕ) → contains nat_cmp s v ≡ is_owed_version t v self.now) }
        ensures stands { IfOk result (λ s. (h : List Event) (since : ℕ) → Legal h → StandsFor h since self.now → since ≤ t →
            (v : ℕ) → contains nat_cmp s v ≡ list_any (λ p. p.version.ver == v) (owed h t)) }
    {
        // How the pairs are held is known from their number.
        let _ = self.pairs.len();
        self.pairs.owed_versions(alloc, t)
    }

    /// The version and the lease of the push that is due first at `t`, but those whose tickets are out:
    /// by next try, version, lease; of one lease the lowest version alone.
    pub fn next_due(&self, t: u64, held: &Held) -> Option<(u64, u64)>
        ensures { IsNextDue t held.now self.now result }
    {
        self.pairs.next_due(t, held)
    }
}
