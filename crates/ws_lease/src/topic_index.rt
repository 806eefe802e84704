// The leases by their topics: of each topic the numbers by callback, and the ends by number.
ghost use Rattle.std.specs.Prelude.{◌≡◌, ◌&&◌, List, ℕ, IfOk, OnOk, OnErr, Some, None, cond, bytes_eq, ◌==◌};
ghost use Rattle.std.specs.Bool.{OnTrue};
ghost use Rattle.std.specs.List.Sorted.{IsStrictlySortedBy};
ghost use Rattle.std.specs.Map.{keys_of};
ghost use Rattle.std.specs.Ordering.{nat_cmp};
ghost use Rattle.ws_lease.specs.Index.{callback_at, end_at, pair_at, topic_end_at, is_it, IsWithoutLeases};

use std::alloc::Global;
use std::collections::BTreeMap;
use std::collections::btree_map::Iter;
use ws_model::NoMemory;

/// The leases of one topic: the number at each callback, and the end of each number.
#[derive(Drop)]
pub(crate) struct OfTopic {
    by_callback: BTreeMap<Vec<u8>, u64>,
    ends: BTreeMap<u64, u64>,
}

pub(crate) type TopicIndex = BTreeMap<Vec<u8>, OfTopic>;

impl OfTopic {
    fn empty(alloc: Global) -> OfTopic
        ensures callbacks { (a : List ℕ) → callback_at a result ≡ None }
        ensures ends { (q : ℕ) → end_at q result ≡ None }
    {
        OfTopic {
            by_callback: BTreeMap::new(alloc),
            ends: BTreeMap::new(alloc),
        }
    }

    /// Puts the number at the callback, in the place of the one that stood there, which it gives. At an
    /// error all is as it was.
    fn put(&mut self, callback: Vec<u8>, n: u64, end: u64) -> Result<Option<u64>, NoMemory>
        requires { end_at n self.old ≡ None }
        ensures replaced { IfOk result (λ o. o ≡ callback_at callback.items self.old) }
        ensures callbacks { OnOk result ((a : List ℕ) → callback_at a self.new ≡ cond (bytes_eq a callback.items) (Some n) (callback_at a self.old)) }
        ensures ends { IfOk result (λ o. (q : ℕ) → end_at q self.new ≡ cond (is_it o q) None (cond (n == q) (Some end) (end_at q self.old))) }
        ensures same_callbacks { OnErr result ((a : List ℕ) → callback_at a self.new ≡ callback_at a self.old) }
        ensures same_ends { OnErr result ((q : ℕ) → end_at q self.new ≡ end_at q self.old) }
    {
        self.ends.insert(n, end)?;
        match self.by_callback.insert(callback, n) {
            Err(_) => {
                let _ = self.ends.remove(&n);
                Err(NoMemory)
            }
            Ok(Some(before)) => {
                let _ = self.ends.remove(&before);
                Ok(Some(before))
            }
            Ok(None) => Ok(None),
        }
    }

    /// Takes the number at the callback out.
    fn remove(&mut self, callback: &[u8], n: u64)
        ensures callbacks { (a : List ℕ) → callback_at a self.new ≡ cond (bytes_eq a callback.now) None (callback_at a self.old) }
        ensures ends { (q : ℕ) → end_at q self.new ≡ cond (n == q) None (end_at q self.old) }
    {
        let _ = self.by_callback.remove(callback);
        let _ = self.ends.remove(&n);
    }

    /// The ends by number, the numbers rising.
    pub(crate) fn ends(&self) -> Iter<'_, u64, u64>
        ensures rest { result ≡ self.now.ends.entries }
        ensures ordered { IsStrictlySortedBy nat_cmp (keys_of self.now.ends.entries) }
    {
        self.ends.iter()
    }

    fn is_empty(&self) -> bool
        ensures { OnTrue result (IsWithoutLeases self.now) }
    {
        self.by_callback.is_empty() && self.ends.is_empty()
    }
}

/// The number of the lease of a topic and a callback.
pub(crate) fn number_of(index: &TopicIndex, topic: &[u8], callback: &[u8]) -> Option<u64>
    ensures { result ≡ pair_at index.now topic.now callback.now }
{
    match index.get(topic) {
        Some(of_topic) => of_topic.by_callback.get(callback).copied(),
        None => None,
    }
}

/// Puts the number at the topic and the callback, in the place of the one that stood there, which it
/// gives. At an error all is as it was.
pub(crate) fn put(
    alloc: Global,
    index: &mut TopicIndex,
    topic: Vec<u8>,
    callback: Vec<u8>,
    n: u64,
    end: u64,
) -> Result<Option<u64>, NoMemory>
    requires { topic_end_at index.old topic.items n ≡ None }
    ensures replaced { IfOk result (λ o. o ≡ pair_at index.old topic.items callback.items) }
    ensures pairs { OnOk result ((a b : List ℕ) → pair_at index.new a b ≡
        cond (bytes_eq a topic.items && bytes_eq b callback.items) (Some n) (pair_at index.old a b)) }
    ensures topics { IfOk result (λ o. (a : List ℕ) (q : ℕ) → topic_end_at index.new a q ≡
        cond (bytes_eq a topic.items) (cond (is_it o q) None (cond (n == q) (Some end) (topic_end_at index.old a q))) (topic_end_at index.old a q)) }
    ensures same_pairs { OnErr result ((a b : List ℕ) → pair_at index.new a b ≡ pair_at index.old a b) }
    ensures same_topics { OnErr result ((a : List ℕ) (q : ℕ) → topic_end_at index.new a q ≡ topic_end_at index.old a q) }
{
    match index.get_mut(&topic) {
        Some(of_topic) => of_topic.put(callback, n, end),
        None => {
            let mut of_topic = OfTopic::empty(alloc);
            let _ = of_topic.put(callback, n, end)?;
            index.insert(topic, of_topic)?;
            Ok(None)
        }
    }
}

/// Takes the number at the topic and the callback out.
pub(crate) fn remove(index: &mut TopicIndex, topic: &[u8], callback: &[u8], n: u64)
    ensures pairs { (a b : List ℕ) → pair_at index.new a b ≡
        cond (bytes_eq a topic.now && bytes_eq b callback.now) None (pair_at index.old a b) }
    ensures topics { (a : List ℕ) (q : ℕ) → topic_end_at index.new a q ≡
        cond (bytes_eq a topic.now && (n == q)) None (topic_end_at index.old a q) }
{
    if let Some(of_topic) = index.get_mut(topic) {
        of_topic.remove(callback, n);
        if of_topic.is_empty() {
            let _ = index.remove(topic);
        }
    }
}
