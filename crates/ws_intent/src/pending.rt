// The pending intents by number, with an index of their topics and callbacks and the first ones in order.
ghost use Rattle.std.specs.Prelude.{◌≡◌, ◌≤◌, ◌<◌, ◌+◌, ◌&&◌, not, [], ℕ, List, OnOk, OnErr, IfOk, IsSome, IfSome, MatchOption, Some, None, true, false, length, find, option_map, cond, ◌==◌, bytes_eq};
ghost use Rattle.std.specs.Option.{option_copied};
ghost use Rattle.std.specs.List.{sum_by};
ghost use Rattle.std.specs.Map.{values_of};
ghost use Rattle.std.specs.BTreeMap.{get, is_at, insert_entry, IsOrdered, IsUnchanged};
ghost use Rattle.std.specs.Ordering.{nat_cmp};
ghost use Rattle.ws_model.specs.Due.{is_out};
ghost use Rattle.ws_model.specs.declared.work.Work.TheVariants.{Verify};
ghost use Rattle.ws_intent.specs.Index.{has_in};
ghost use Rattle.ws_intent.specs.Indexed.{IsKeyed};
ghost use Rattle.ws_intent.specs.Rows.{number_at, without, with_row, weight, mode_weight, is_first_number, first_numbers, is_last, missed, after_miss, intent_of};

use crate::first::{self, Firsts};
use crate::index::{self, PairIndex};
use crate::rows::Waiting;
use std::alloc::Global;
use std::collections::BTreeMap;
use std::collections::btree_map::Entry;
use std::marker::Model;
use ws_model::{Held, Intent, Mode, NoMemory};

/// The pending intents. Contracts see them as the list of the numbers with their intents, rising.
#[derive(Drop)]
pub struct Pending {
    alloc: Global,
    by_number: BTreeMap<u64, Waiting>,
    by_pair: PairIndex,
    firsts: Firsts,
    subscriptions: u64,
}

impl Model for Pending {
    ghost use Rattle.std.specs.Prelude.{List, ℕ};
    ghost use Rattle.ws_intent.specs.declared.rows.Waiting.{Waiting};

    ghost Value = { List (ℕ × Waiting) };

    ghost use Rattle.ws_intent.specs.Indexed.{IsIndexed};
    ghost use Rattle.ws_intent.specs.Index.{has_in};

    ghost view = { λ s. s.by_number.entries };

    ghost invariant = { λ s. IsIndexed s.by_number.entries (has_in s.by_pair) s.firsts s.subscriptions };
}

impl Pending {
    /// None. It takes no memory.
    pub fn empty(alloc: Global) -> Pending
        ensures { result ≡ [] }
    {
        Pending {
            alloc,
            by_number: BTreeMap::new(alloc),
            by_pair: BTreeMap::new(alloc),
            firsts: Firsts::empty(),
            subscriptions: 0,
        }
    }

    /// How many there are.
    pub fn count(&self) -> u64
        ensures count { result ≡ length self.now }
        ensures keyed { IsKeyed (λ w. w.intent) self.now }
    {
        self.by_number.len() as u64
    }

    /// The greatest number.
    pub fn last(&self) -> Option<u64>
        ensures greatest { MatchOption result ((q : ℕ) → number_at q self.now ≡ None) (λ n. (q : ℕ) → IsSome (number_at q self.now) → q ≤ n) }
        ensures held { IfSome result (λ n. IsSome (number_at n self.now)) }
    {
        match self.by_number.last_key_value() {
            Some((n, _)) => Some(*n),
            None => None,
        }
    }

    /// How many of them ask to subscribe.
    pub fn subscriptions(&self) -> u64
        ensures count { result ≡ sum_by weight (values_of self.now) }
        ensures keyed { IsKeyed (λ w. w.intent) self.now }
    {
        self.subscriptions
    }

    /// The pending intent of a number.
    pub fn get(&self, n: u64) -> Option<&Waiting>
        ensures row { option_copied result ≡ number_at n self.now }
        ensures keyed { IsKeyed (λ w. w.intent) self.now }
    {
        self.by_number.get(&n)
    }

    /// Whether it is the first of its topic and callback.
    pub fn is_first(&self, n: u64) -> bool
        ensures first { result ≡ is_first_number n self.now }
        ensures keyed { IsKeyed (λ w. w.intent) self.now }
    {
        self.firsts.contains(&n)
    }

    /// The first one whose verification isn't held.
    pub fn first_due(&self, held: &Held) -> Option<u64>
        ensures first { result ≡ find (λ n. not (is_out held.now (Verify n))) (first_numbers self.now) }
        ensures keyed { IsKeyed (λ w. w.intent) self.now }
    {
        first::first_free(&self.firsts, held)
    }

    /// Adds an intent whose number is above all others.
    pub fn add(&mut self, intent: Intent) -> Result<(), NoMemory>
        requires above { (q : ℕ) → IsSome (number_at q self.old) → q < intent.n }
        ensures ok { OnOk result (self.new ≡ with_row intent.n (record { intent = intent; unheard = 0 }) self.old) }
        ensures look { OnOk result ((q : ℕ) → number_at q self.new ≡ cond (q == intent.n) (Some (record { intent = intent; unheard = 0 })) (number_at q self.old)) }
        ensures err { OnErr result (self.new ≡ self.old) }
    {
        let n = intent.n;
        let subscriptions = one_more(self.subscriptions, intent.mode)?;
        let topic = copied(self.alloc, intent.topic.as_slice())?;
        let callback = copied(self.alloc, intent.callback.as_slice())?;
        let earlier = index::first_of(&self.by_pair, &topic, &callback);
        let room = first::room_for(self.alloc, earlier)?;
        put_both(
            self.alloc,
            &mut self.by_number,
            &mut self.by_pair,
            topic,
            callback,
            intent,
        )?;
        first::enter(&mut self.firsts, n, room);
        self.subscriptions = subscriptions;
        Ok(())
    }

    /// Takes an intent out. It takes no memory.
    pub fn take(&mut self, n: u64) -> Option<Waiting>
        ensures taken { result ≡ number_at n self.old }
        ensures rest { self.new ≡ without n self.old }
        ensures look { (q : ℕ) → number_at q self.new ≡ cond (q == n) None (number_at q self.old) }
    {
        let waiting = self.by_number.remove(&n)?;
        let topic = waiting.intent.topic.as_slice();
        let callback = waiting.intent.callback.as_slice();
        index::remove(&mut self.by_pair, topic, callback, n);
        let next = index::first_of(&self.by_pair, topic, callback);
        first::give_way(&mut self.firsts, n, next);
        self.subscriptions = one_less(self.subscriptions, waiting.intent.mode);
        Some(waiting)
    }

    /// Counts a verification without a reply, and gives the intent where it was the third and so left.
    pub fn miss(&mut self, n: u64) -> Option<Intent>
        ensures left { result ≡ cond (is_last (number_at n self.old)) (intent_of (number_at n self.old)) None }
        ensures rows { self.new ≡ after_miss n self.old }
        ensures look { (q : ℕ) → number_at q self.new ≡ cond (q == n) (missed (number_at n self.old)) (number_at q self.old) }
    {
        if !self.is_last(n) {
            self.count_miss(n);
            return None;
        }
        match self.take(n) {
            Some(waiting) => Some(waiting.intent),
            None => None,
        }
    }

    // Whether the next verification without a reply is the third.
    fn is_last(&self, n: u64) -> bool
        ensures { result ≡ is_last (number_at n self.now) }
    {
        match self.by_number.get(&n) {
            Some(waiting) => waiting.unheard >= 2,
            None => false,
        }
    }

    fn count_miss(&mut self, n: u64)
        requires more { is_last (number_at n self.old) ≡ false }
        ensures rows { self.new ≡ after_miss n self.old }
        ensures look { (q : ℕ) → number_at q self.new ≡ cond (q == n) (missed (number_at n self.old)) (number_at q self.old) }
    {
        unheard_more(&mut self.by_number, n);
    }
}

fn unheard_more(by_number: &mut BTreeMap<u64, Waiting>, n: u64)
    requires more { is_last (number_at n by_number.old.entries) ≡ false }
    ensures entries { by_number.new.entries ≡ after_miss n by_number.old.entries }
    ensures rows { (q : ℕ) → number_at q by_number.new.entries ≡ cond (q == n) (missed (number_at n by_number.old.entries)) (number_at q by_number.old.entries) }
    ensures ordered { IsOrdered nat_cmp by_number.new }
{
    if let Some(waiting) = by_number.get_mut(&n) {
        waiting.unheard += 1;
    }
}

fn copied(alloc: Global, from: &[u8]) -> Result<Vec<u8>, NoMemory>
    ensures { IfOk result (λ v. v.items ≡ from.now) }
{
    Ok(from.to_vec(alloc)?)
}

// A count with one intent more. More than a count can say find no memory.
fn one_more(count: u64, mode: Mode) -> Result<u64, NoMemory>
    ensures { IfOk result (λ c. c ≡ count + mode_weight mode) }
{
    match mode {
        Mode::On => count.checked_add(1).ok_or(NoMemory),
        Mode::Off => Ok(count),
    }
}

fn one_less(count: u64, mode: Mode) -> u64
    requires { mode_weight mode ≤ count }
    ensures { result + mode_weight mode ≡ count }
{
    match mode {
        Mode::On => count - 1,
        Mode::Off => count,
    }
}

// Adds the intent to both maps, or leaves both as they were.
fn put_both(
    alloc: Global,
    by_number: &mut BTreeMap<u64, Waiting>,
    by_pair: &mut PairIndex,
    topic: Vec<u8>,
    callback: Vec<u8>,
    intent: Intent,
) -> Result<(), NoMemory>
    requires new { get nat_cmp by_number.old intent.n ≡ None }
    ensures entries { OnOk result (by_number.new.entries ≡ insert_entry nat_cmp by_number.old.entries intent.n (record { intent = intent; unheard = 0 })) }
    ensures rows { OnOk result ((q : ℕ) → get nat_cmp by_number.new q ≡ cond (is_at (nat_cmp intent.n) q) (Some (record { intent = intent; unheard = 0 })) (get nat_cmp by_number.old q)) }
    ensures ordered { OnOk result (IsOrdered nat_cmp by_number.new) }
    ensures pairs { OnOk result ((a b : List ℕ) (q : ℕ) → has_in by_pair.new a b q ≡ cond (bytes_eq a topic.items && bytes_eq b callback.items && (q == intent.n)) true (has_in by_pair.old a b q)) }
    ensures err { OnErr result (IsUnchanged by_number.old by_number.new) }
    ensures err_pairs { OnErr result ((a b : List ℕ) (q : ℕ) → has_in by_pair.new a b q ≡ has_in by_pair.old a b q) }
{
    let n = intent.n;
    match by_number.entry(n)? {
        Entry::Vacant(room) => {
            index::put(alloc, by_pair, topic, callback, n)?;
            let _ = room.insert(Waiting { intent, unheard: 0 });
            Ok(())
        }
        Entry::Occupied(_) => Ok(()),
    }
}
