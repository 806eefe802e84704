// The first open pair of each lease, and the order of their next tries.
ghost use Rattle.std.specs.Prelude.{◌≡◌, true, false, not, ◌&&◌, ◌||◌, IfSome};
ghost use Rattle.std.specs.Map.{keys_of};
ghost use Rattle.std.specs.List.Sorted.{IsStrictlySortedBy};
ghost use Rattle.ws_order.specs.declared.next_try.NextTry.{NextTry};
ghost use Rattle.ws_order.specs.NextTries.{has, same};
ghost use Rattle.ws_delivery.specs.Indexed.{head_try, is_it, try_of};
ghost use Rattle.ws_delivery.specs.Table.{pair_order, IsNextOpen};

use crate::OpenPair;
use std::collections::BTreeMap;
use std::ops::Bound;
use ws_order::{NextTry, Order};

/// The open pairs by lease and version.
pub type Pairs = BTreeMap<(u64, u64), OpenPair>;

/// The next try of the first open pair of a lease, which has its lowest version.
pub fn head_of(pairs: &Pairs, lease: u64) -> Option<NextTry>
    ensures { result ≡ head_try lease pairs.now.entries }
{
    match pairs.range((lease, 0)..).next() {
        Some((key, pair)) => {
            if key.0 == lease {
                Some(try_of(key.1, lease, pair))
            } else {
                None
            }
        }
        None => None,
    }
}

/// The lowest open version of a lease above a given one.
pub fn open_after(pairs: &Pairs, lease: u64, ver: u64) -> Option<u64>
    ensures { IsNextOpen ver lease pairs.now.entries result }
{
    let behind = (Bound::Excluded((lease, ver)), Bound::Unbounded);
    match pairs.range(behind).next() {
        Some((key, _)) => { if key.0 == lease { Some(key.1) } else { None } }
        None => None,
    }
}

/// The next try of a pair.
pub fn try_of(ver: u64, lease: u64, pair: &OpenPair) -> NextTry
    ensures { result ≡ try_of ((lease, ver), pair.now) }
{
    NextTry {
        at: pair.next,
        ver,
        lease,
        exp: pair.exp,
    }
}

/// Puts the new first try of a lease in the place of the old one.
pub fn follow(heads: &mut Order<NextTry>, before: NextTry, after: Option<NextTry>)
    requires there { has before heads.old ≡ true }
    requires new { IfSome after (λ x. (has x heads.old && not (same before x)) ≡ false) }
    ensures { (x : NextTry) → has x heads.new ≡ (is_it x after || (has x heads.old && not (same before x))) }
{
    if let Some(room) = heads.take(&before) {
        if let Some(first) = after {
            heads.put(first, room);
        }
    }
}
