// The fates of all pairs at a moment (WebSub section 7).
ghost use Rattle.std.specs.Prelude.{◌≡◌, IfOk, map};
ghost use Rattle.ws_model.specs.Pairs.{pairs};
ghost use Rattle.ws_plain.specs.PairFates.{pair_fate};
ghost use Rattle.ws_plain.specs.Past.{past};

use crate::pair::Pair;
use crate::pairs::pairs;
use std::alloc::Global;
use ws_model::{Event, Fate, NoMemory};

/// The fate of a pair, by the numbers of its version and its lease.
#[derive(Clone, Copy, Debug)]
pub struct PairFate {
    pub ver: u64,
    pub lease: u64,
    pub fate: Fate,
}

fn fates_of(
    alloc: Global,
    events: &[Event],
    t: u64,
    pairs: &[Pair],
) -> Result<Vec<PairFate>, NoMemory>
    ensures { IfOk result (λ v. v.items ≡ map (pair_fate (past events.now) t) pairs.now) }
{
    let mut fates = Vec::new(alloc);
    for pair in pairs {
        fates.push(PairFate {
            ver: pair.version().ver,
            lease: pair.lease().intent.n,
            fate: pair.fate(events, t),
        })?;
    }
    Ok(fates)
}

/// The fates at a time in seconds of all pairs, of events that are given oldest first, the newest pair
/// first (WebSub section 7). A next try past 2^64 - 1 is given as that number. It fails only for want of
/// memory.
pub fn all_fates(alloc: Global, events: &[Event], t: u64) -> Result<Vec<PairFate>, NoMemory>
    ensures { IfOk result (λ v. v.items ≡ map (pair_fate (past events.now) t) (pairs (past events.now))) }
{
    let pairs = pairs(alloc, events)?;
    fates_of(alloc, events, t, &pairs)
}
