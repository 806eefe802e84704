// What a compaction of the core keeps, beside the plain program, and the core that goes on from it.

use crate::applied::{TIME_LIMIT, after};
use crate::due::due_agrees;
use check_histories::History;
use std::alloc::Global;
use ws_core::Core;
use ws_model::{Event, NoMemory};
use ws_plain::PairFate;

/// How much later, in seconds, cores are asked: also when some leases have ended, and when all have.
pub const LATER: [u64; 4] = [0, 1, 240, 10_800];

/// Whether a compaction of the core at `t`, in seconds, keeps what the definitions keep of the history, and
/// a core that goes on from what is kept says at `t` and later what this one says.
pub fn keeping_agrees(
    alloc: Global,
    core: &Core,
    history: &History,
    t: u64,
) -> Result<bool, NoMemory> {
    if t >= TIME_LIMIT {
        return Ok(false);
    }
    let kept = core.keep(t)?;
    Ok(is_kept(alloc, history, &kept, t)? && goes_on(alloc, core, history, &kept, t)?)
}

// Whether a compaction of the history at `t` keeps these events.
fn is_kept(alloc: Global, history: &History, kept: &[Event], t: u64) -> Result<bool, NoMemory> {
    Ok(ws_plain::keep(alloc, &history.events, t)?.as_slice() == kept)
}

// Whether a core that goes on from what is kept says at `t` and later what this one says.
fn goes_on(
    alloc: Global,
    core: &Core,
    history: &History,
    kept: &[Event],
    t: u64,
) -> Result<bool, NoMemory> {
    match after(alloc, kept)? {
        Some(compacted) => Ok(
            stands_for(alloc, core, &compacted, history, kept, t)?
                && keeps_again(alloc, &compacted, kept, t)?,
        ),
        None => Ok(false),
    }
}

// Whether the compacted core has the pairs of what is kept, and says what the whole one says.
fn stands_for(
    alloc: Global,
    core: &Core,
    compacted: &Core,
    history: &History,
    kept: &[Event],
    t: u64,
) -> Result<bool, NoMemory> {
    let fates = ws_plain::all_fates(alloc, kept, t)?;
    Ok(has_pairs(compacted, &fates, t) && stands_later(alloc, core, compacted, history, &fates, t)?)
}

// Whether the core has these pairs with these fates.
fn has_pairs(core: &Core, fates: &[PairFate], t: u64) -> bool {
    fates.iter().all(|pair| core.fate(pair.ver, pair.lease, t) == Some(pair.fate))
}

// Whether at `t` and later the compacted core says what the whole one says, but that it has of the pairs
// only the kept ones.
fn stands_later(
    alloc: Global,
    core: &Core,
    compacted: &Core,
    history: &History,
    kept: &[PairFate],
    t: u64,
) -> Result<bool, NoMemory> {
    for later in LATER {
        let moment = t.saturating_add(later);
        if !same_counts(core, compacted, moment)
            || !same_fates(core, compacted, history, kept, moment)
            || !due_agrees(alloc, compacted, &history.events, moment)?
        {
            return Ok(false);
        }
    }
    Ok(true)
}

fn same_counts(core: &Core, compacted: &Core, t: u64) -> bool {
    t < TIME_LIMIT && compacted.counts(t) == core.counts(t)
}

// Of all versions that were given, and of those about them.
fn same_fates(core: &Core, compacted: &Core, history: &History, kept: &[PairFate], t: u64) -> bool {
    for ver in 0..=history.versions.saturating_add(1) {
        if !same_fates_of(core, compacted, ver, history.intents, kept, t) {
            return false;
        }
    }
    true
}

fn same_fates_of(
    core: &Core,
    compacted: &Core,
    ver: u64,
    intents: u64,
    kept: &[PairFate],
    t: u64,
) -> bool {
    for lease in 0..=intents.saturating_add(1) {
        let is_kept = kept
            .iter()
            .any(|pair| pair.ver == ver && pair.lease == lease);
        let wanted = if is_kept {
            core.fate(ver, lease, t)
        } else {
            None
        };
        if compacted.fate(ver, lease, t) != wanted {
            return false;
        }
    }
    true
}

// Whether a second compaction at the same time keeps all, and one that is later what it is to keep.
fn keeps_again(alloc: Global, compacted: &Core, kept: &[Event], t: u64) -> Result<bool, NoMemory> {
    Ok(keeps(compacted, kept, t)? && keeps_of(alloc, compacted, kept, t.saturating_add(240))?)
}

// Whether the core keeps at `t` of its history what the definitions keep.
fn keeps_of(alloc: Global, core: &Core, events: &[Event], t: u64) -> Result<bool, NoMemory> {
    keeps(core, &ws_plain::keep(alloc, events, t)?, t)
}

fn keeps(core: &Core, wanted: &[Event], t: u64) -> Result<bool, NoMemory> {
    if t >= TIME_LIMIT {
        return Ok(false);
    }
    Ok(core.keep(t)?.as_slice() == wanted)
}
