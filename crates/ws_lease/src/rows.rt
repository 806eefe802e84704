// The rows of leases with their ends: what is done to the maps by number and by end together.
ghost use Rattle.std.specs.Prelude.{◌≡◌, ◌<◌, ◌^◌, ◌&&◌, List, ℕ, IfOk, OnOk, OnErr, Some, None, true, false, cond, bytes_eq, nat_lt, ◌==◌, length, filter};
ghost use Rattle.std.specs.Map.{keys_of};
ghost use Rattle.std.specs.List.Sorted.{IsStrictlySortedBy};
ghost use Rattle.std.specs.Ordering.{nat_cmp};
ghost use Rattle.ws_model.specs.Leases.{expiry};
ghost use Rattle.ws_lease.specs.Index.{pair_at, topic_end_at, is_it};
ghost use Rattle.ws_lease.specs.Table.{lease_at, without_one};
ghost use Rattle.ws_lease.specs.Indexed.{end_of, end_order, has_end, ends_at, still_live, FirstEnd};

use crate::topic_index::{self, TopicIndex};
use std::alloc::Global;
use std::collections::{BTreeMap, BTreeSet};
use ws_model::{Lease, NoMemory};

/// The ends of leases with their numbers.
pub(crate) type Ends = BTreeSet<(u64, u64)>;

/// The time from which the lease has expired.
pub(crate) fn end_of(lease: &Lease) -> u64
    ensures { result ≡ end_of lease.now }
{
    lease.sent.saturating_add(u64::from(lease.intent.granted))
}

/// Whether the lease hasn't expired at `t`.
pub(crate) fn is_unexpired(lease: &Lease, t: u64) -> bool
    requires { t < 2 ^ 48 }
    ensures { result ≡ nat_lt t (expiry lease.now) }
{
    t < lease.sent.saturating_add(u64::from(lease.intent.granted))
}

/// Puts a new number into the indexes, in the place of the one of the same topic and callback, which
/// it gives. At an error all is as it was.
pub(crate) fn add(
    alloc: Global,
    by_topic: &mut TopicIndex,
    by_end: &mut Ends,
    topic: Vec<u8>,
    callback: Vec<u8>,
    n: u64,
    end: u64,
) -> Result<Option<u64>, NoMemory>
    requires new { topic_end_at by_topic.old topic.items n ≡ None }
    requires new_end { has_end by_end.old end n ≡ false }
    ensures replaced { IfOk result (λ o. o ≡ pair_at by_topic.old topic.items callback.items) }
    ensures pairs { OnOk result ((a b : List ℕ) → pair_at by_topic.new a b ≡
        cond (bytes_eq a topic.items && bytes_eq b callback.items) (Some n) (pair_at by_topic.old a b)) }
    ensures topics { IfOk result (λ o. (a : List ℕ) (q : ℕ) → topic_end_at by_topic.new a q ≡
        cond (bytes_eq a topic.items) (cond (is_it o q) None (cond (n == q) (Some end) (topic_end_at by_topic.old a q))) (topic_end_at by_topic.old a q)) }
    ensures ends { OnOk result ((x q : ℕ) → has_end by_end.new x q ≡ cond ((end == x) && (n == q)) true (has_end by_end.old x q)) }
    ensures same_pairs { OnErr result ((a b : List ℕ) → pair_at by_topic.new a b ≡ pair_at by_topic.old a b) }
    ensures same_topics { OnErr result ((a : List ℕ) (q : ℕ) → topic_end_at by_topic.new a q ≡ topic_end_at by_topic.old a q) }
    ensures same_ends { OnErr result ((x q : ℕ) → has_end by_end.new x q ≡ has_end by_end.old x q) }
{
    by_end.insert((end, n))?;
    match topic_index::put(alloc, by_topic, topic, callback, n, end) {
        Err(fault) => {
            let _ = by_end.remove(&(end, n));
            Err(fault)
        }
        Ok(before) => Ok(before),
    }
}

/// Takes the row of a number out, with its end, and gives the number where its lease hadn't expired.
pub(crate) fn take_out(
    by_number: &mut BTreeMap<u64, Lease>,
    by_end: &mut Ends,
    number: Option<u64>,
    t: u64,
) -> Option<u64>
    requires { t < 2 ^ 48 }
    ensures rows { by_number.new.entries ≡ without_one number by_number.old.entries }
    ensures looks { (q : ℕ) → lease_at q by_number.new.entries ≡ cond (is_it number q) None (lease_at q by_number.old.entries) }
    ensures ordered { IsStrictlySortedBy nat_cmp (keys_of by_number.old.entries) → IsStrictlySortedBy nat_cmp (keys_of by_number.new.entries) }
    ensures ends { (x q : ℕ) → has_end by_end.new x q ≡
        cond (is_it number q && ends_at x (lease_at q by_number.old.entries)) false (has_end by_end.old x q) }
    ensures live { result ≡ still_live t by_number.old.entries number }
{
    let n = number?;
    let lease = by_number.remove(&n)?;
    let _ = by_end.remove(&(end_of(&lease), n));
    if is_unexpired(&lease, t) {
        Some(n)
    } else {
        None
    }
}

/// The number, where its lease is there and hasn't expired at `t`.
pub(crate) fn still_live(
    by_number: &BTreeMap<u64, Lease>,
    number: Option<u64>,
    t: u64,
) -> Option<u64>
    requires { t < 2 ^ 48 }
    ensures { result ≡ still_live t by_number.now.entries number }
{
    let n = number?;
    let lease = by_number.get(&n)?;
    if is_unexpired(lease, t) {
        Some(n)
    } else {
        None
    }
}

/// The number that ends first, where it ends by `t`.
pub(crate) fn first_expired(by_end: &Ends, t: u64) -> Option<u64>
    ensures { FirstEnd t (has_end by_end.now) result }
{
    let (end, n) = *by_end.first()?;
    if end <= t { Some(n) } else { None }
}

/// How many ends are after `t`.
pub(crate) fn count_after(by_end: &Ends, t: u64) -> u64
    ensures count { result ≡ length (filter (λ k. nat_lt t k.0) by_end.now.keys) }
    ensures ordered { IsStrictlySortedBy end_order by_end.now.keys }
    ensures small { result < 2 ^ 63 }
{
    let mut left = by_end.len() as u64;
    for key in by_end {
        if t < key.0 {
            return left;
        }
        left -= 1;
    }
    left
}

/// A copy of some bytes.
pub(crate) fn copied(alloc: Global, from: &[u8]) -> Result<Vec<u8>, NoMemory>
    ensures { IfOk result (λ v. v.items ≡ from.now) }
{
    Ok(from.to_vec(alloc)?)
}
