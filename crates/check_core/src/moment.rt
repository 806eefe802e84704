// What the core says at a moment, beside the plain program.

use crate::applied::TIME_LIMIT;
use crate::due::due_agrees;
use check_histories::History;
use std::alloc::Global;
use ws_core::Core;
use ws_model::NoMemory;

/// Whether the core says at `t` of the account, of each pair and of due work what the history says.
pub fn agrees_at(alloc: Global, core: &Core, history: &History, t: u64) -> Result<bool, NoMemory> {
    if t >= TIME_LIMIT {
        return Ok(false);
    }
    Ok(
        core.counts(t) == ws_plain::account(alloc, &history.events, t)?
            && fates_agree(alloc, core, history, t)?
            && due_agrees(alloc, core, &history.events, t)?,
    )
}

// The core has the pairs of the history, and no others.
fn fates_agree(alloc: Global, core: &Core, history: &History, t: u64) -> Result<bool, NoMemory> {
    let fates = ws_plain::all_fates(alloc, &history.events, t)?;
    let alike = fates.iter().all(|pair| core.fate(pair.ver, pair.lease, t) == Some(pair.fate));
    Ok(alike && pairs(core, history, t) == fates.len() as u64)
}

// How many pairs the core has, of the numbers that are given and of those about them.
fn pairs(core: &Core, history: &History, t: u64) -> u64 {
    let mut pairs = 0u64;
    for ver in 0..=history.versions.saturating_add(1) {
        pairs = pairs.saturating_add(pairs_of(core, ver, history.intents, t));
    }
    pairs
}

fn pairs_of(core: &Core, ver: u64, intents: u64, t: u64) -> u64 {
    let mut pairs = 0u64;
    for lease in 0..=intents.saturating_add(1) {
        let is_there = core.fate(ver, lease, t).is_some();
        pairs = pairs.saturating_add(u64::from(is_there));
    }
    pairs
}
