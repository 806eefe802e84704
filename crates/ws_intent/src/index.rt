// From a topic and a callback to the numbers of their pending intents, by a map in a map.
ghost use Rattle.std.specs.Prelude.{◌≡◌, ◌≤◌, ◌&&◌, List, ℕ, OnOk, OnErr, true, false, cond, ◌==◌, bytes_eq};
ghost use Rattle.std.specs.Option.{MatchOption};
ghost use Rattle.ws_intent.specs.Index.{has_at, has_in, IsLeast};

use std::alloc::Global;
use std::collections::{BTreeMap, BTreeSet};
use ws_model::NoMemory;

pub type ByCallback = BTreeMap<Vec<u8>, BTreeSet<u64>>;

pub type PairIndex = BTreeMap<Vec<u8>, ByCallback>;

/// The least number at a topic and a callback.
pub fn first_of(index: &PairIndex, topic: &[u8], callback: &[u8]) -> Option<u64>
    ensures { IsLeast (has_in index.now topic.now callback.now) result }
{
    match index.get(topic) {
        Some(of_topic) => first_at(of_topic, callback),
        None => None,
    }
}

fn first_at(of_topic: &ByCallback, callback: &[u8]) -> Option<u64>
    ensures { IsLeast (has_at of_topic.now callback.now) result }
{
    match of_topic.get(callback) {
        Some(numbers) => numbers.first().copied(),
        None => None,
    }
}

/// Puts a number at a topic and a callback, or leaves the index as it was.
pub fn put(
    alloc: Global,
    index: &mut PairIndex,
    topic: Vec<u8>,
    callback: Vec<u8>,
    n: u64,
) -> Result<(), NoMemory>
    ensures ok { OnOk result ((a b : List ℕ) (q : ℕ) → has_in index.new a b q ≡ cond (bytes_eq a topic.items && bytes_eq b callback.items && (q == n)) true (has_in index.old a b q)) }
    ensures err { OnErr result ((a b : List ℕ) (q : ℕ) → has_in index.new a b q ≡ has_in index.old a b q) }
{
    match index.get_mut(&topic) {
        Some(of_topic) => put_at(alloc, of_topic, callback, n),
        None => {
            let mut of_topic = BTreeMap::new(alloc);
            put_at(alloc, &mut of_topic, callback, n)?;
            index.insert(topic, of_topic)?;
            Ok(())
        }
    }
}

fn put_at(
    alloc: Global,
    of_topic: &mut ByCallback,
    callback: Vec<u8>,
    n: u64,
) -> Result<(), NoMemory>
    ensures ok { OnOk result ((b : List ℕ) (q : ℕ) → has_at of_topic.new b q ≡ cond (bytes_eq b callback.items && (q == n)) true (has_at of_topic.old b q)) }
    ensures err { OnErr result ((b : List ℕ) (q : ℕ) → has_at of_topic.new b q ≡ has_at of_topic.old b q) }
{
    match of_topic.get_mut(&callback) {
        Some(numbers) => {
            numbers.insert(n)?;
            Ok(())
        }
        None => {
            let mut numbers = BTreeSet::new(alloc);
            numbers.insert(n)?;
            of_topic.insert(callback, numbers)?;
            Ok(())
        }
    }
}

/// Takes a number out at a topic and a callback. What is empty then is given up.
pub fn remove(index: &mut PairIndex, topic: &[u8], callback: &[u8], n: u64)
    ensures { (a b : List ℕ) (q : ℕ) → has_in index.new a b q ≡ cond (bytes_eq a topic.now && bytes_eq b callback.now && (q == n)) false (has_in index.old a b q) }
{
    if take_within(index, topic, callback, n) {
        let _ = index.remove(topic);
    }
}

// Whether the topic's map is empty then.
fn take_within(index: &mut PairIndex, topic: &[u8], callback: &[u8], n: u64) -> bool
    ensures taken { (a b : List ℕ) (q : ℕ) → has_in index.new a b q ≡ cond (bytes_eq a topic.now && bytes_eq b callback.now && (q == n)) false (has_in index.old a b q) }
    ensures none { result ≡ true → (b : List ℕ) (q : ℕ) → has_in index.new topic.now b q ≡ false }
{
    match index.get_mut(topic) {
        Some(of_topic) => {
            remove_at(of_topic, callback, n);
            of_topic.is_empty()
        }
        None => false,
    }
}

fn remove_at(of_topic: &mut ByCallback, callback: &[u8], n: u64)
    ensures { (b : List ℕ) (q : ℕ) → has_at of_topic.new b q ≡ cond (bytes_eq b callback.now && (q == n)) false (has_at of_topic.old b q) }
{
    if take_at(of_topic, callback, n) {
        let _ = of_topic.remove(callback);
    }
}

// Whether the callback's set is empty then.
fn take_at(of_topic: &mut ByCallback, callback: &[u8], n: u64) -> bool
    ensures taken { (b : List ℕ) (q : ℕ) → has_at of_topic.new b q ≡ cond (bytes_eq b callback.now && (q == n)) false (has_at of_topic.old b q) }
    ensures none { result ≡ true → (q : ℕ) → has_at of_topic.new callback.now q ≡ false }
{
    match of_topic.get_mut(callback) {
        Some(numbers) => {
            let _ = numbers.remove(&n);
            numbers.is_empty()
        }
        None => false,
    }
}
