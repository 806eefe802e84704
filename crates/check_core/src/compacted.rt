// Compactions of histories by chance, which are long, so that there is much that isn't kept.

use crate::applied::after;
use crate::keeping::{LATER, keeping_agrees};
use check_histories::History;
use std::alloc::Global;
use std::test::Fail;
use ws_model::NoMemory;

/// How many steps a history takes from one compaction to the next.
const STEPS: usize = 35;

/// How often a history is compacted.
const COMPACTIONS: usize = 3;

fn grow(history: &mut History) -> Result<(), NoMemory> {
    for _ in 0..STEPS {
        let _ = history.grow()?;
    }
    Ok(())
}

// Each time the whole history so far is compacted.
fn keeps_beside(alloc: Global, seed: u64) -> Result<bool, NoMemory> {
    let mut history = History::new(alloc, seed);
    for _ in 0..COMPACTIONS {
        grow(&mut history)?;
        if !agrees(alloc, &history)? {
            return Ok(false);
        }
    }
    Ok(true)
}

fn agrees(alloc: Global, history: &History) -> Result<bool, NoMemory> {
    let Some(core) = after(alloc, &history.events)? else {
        return Ok(false);
    };
    for later in LATER {
        if !keeping_agrees(alloc, &core, history, history.t.saturating_add(later))? {
            return Ok(false);
        }
    }
    Ok(true)
}

// The first of these seeds whose compactions aren't those of the plain program.
fn first_apart(alloc: Global, from: u64, to: u64) -> Result<Option<u64>, NoMemory> {
    for seed in from..to {
        if !keeps_beside(alloc, seed)? {
            return Ok(Some(seed));
        }
    }
    Ok(None)
}

#[test]
fn compactions_from_0(rt: HostRuntime) -> Result<(), Fail> {
    assert_eq!(rt; first_apart(rt.alloc(), 0, 20)?, None);
    Ok(())
}

#[test]
fn compactions_from_20(rt: HostRuntime) -> Result<(), Fail> {
    assert_eq!(rt; first_apart(rt.alloc(), 20, 40)?, None);
    Ok(())
}

#[test]
fn compactions_from_40(rt: HostRuntime) -> Result<(), Fail> {
    assert_eq!(rt; first_apart(rt.alloc(), 40, 60)?, None);
    Ok(())
}
