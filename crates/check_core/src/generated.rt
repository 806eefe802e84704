// The core beside the plain program on histories by chance.
ghost use Rattle.std.specs.Prelude.{OnOk};
ghost use Rattle.ws_core.specs.Follows.{HasHistory};

use crate::applied::go_on;
use crate::moment::agrees_at;
use crate::next::next_agrees;
use crate::requests::requests_agree;
use check_histories::{Chance, History};
use std::alloc::Global;
use std::test::Fail;
use ws_core::Core;
use ws_model::NoMemory;

const EVENTS: usize = 40;

// The core accepts each event as it comes, and is asked at each third step.
fn stands_beside(alloc: Global, seed: u64) -> Result<bool, NoMemory> {
    let mut history = History::new(alloc, seed);
    let mut core = Core::empty(alloc);
    let mut chance = Chance::new(seed);
    for at in 0..EVENTS {
        if history.grow()? && !apply_last(&mut core, &history)? {
            return Ok(false);
        }
        if at % 3 == 2 && !agrees(alloc, &core, &history, &mut chance)? {
            return Ok(false);
        }
    }
    requests_agree(alloc, &core, &history)
}

fn apply_last(core: &mut Core, history: &History) -> Result<bool, NoMemory>
    requires { HasHistory core.old }
    ensures { OnOk result (HasHistory core.new) }
{
    match history.events.last() {
        Some(event) => go_on(core, event),
        None => Ok(false),
    }
}

fn agrees(
    alloc: Global,
    core: &Core,
    history: &History,
    chance: &mut Chance,
) -> Result<bool, NoMemory> {
    Ok(
        next_agrees(alloc, core, history, chance)?
            && agrees_later(alloc, core, history)?
            && agrees_at_ends(alloc, core, history)?,
    )
}

// At its time, a second and some minutes later, and when no lease is live any more.
fn agrees_later(alloc: Global, core: &Core, history: &History) -> Result<bool, NoMemory> {
    for later in [0, 1, 240, 10_800] {
        if !agrees_at(alloc, core, history, history.t.saturating_add(later))? {
            return Ok(false);
        }
    }
    Ok(true)
}

// At the moment at which each live lease ends.
fn agrees_at_ends(alloc: Global, core: &Core, history: &History) -> Result<bool, NoMemory> {
    let live = ws_plain::live(alloc, &history.events, history.t)?;
    for lease in &live {
        let end = lease.sent.saturating_add(u64::from(lease.intent.granted));
        if !agrees_at(alloc, core, history, end)? {
            return Ok(false);
        }
    }
    Ok(true)
}

// The first of these seeds whose history the core doesn't stand beside.
fn first_apart(alloc: Global, from: u64, to: u64) -> Result<Option<u64>, NoMemory> {
    for seed in from..to {
        if !stands_beside(alloc, seed)? {
            return Ok(Some(seed));
        }
    }
    Ok(None)
}

// So many in each test that it ends in time where it is built unproved and checked, too.
#[test]
fn histories_from_0(rt: HostRuntime) -> Result<(), Fail> {
    assert_eq!(rt; first_apart(rt.alloc(), 0, 50)?, None);
    Ok(())
}

#[test]
fn histories_from_50(rt: HostRuntime) -> Result<(), Fail> {
    assert_eq!(rt; first_apart(rt.alloc(), 50, 100)?, None);
    Ok(())
}

#[test]
fn histories_from_100(rt: HostRuntime) -> Result<(), Fail> {
    assert_eq!(rt; first_apart(rt.alloc(), 100, 150)?, None);
    Ok(())
}

#[test]
fn histories_from_150(rt: HostRuntime) -> Result<(), Fail> {
    assert_eq!(rt; first_apart(rt.alloc(), 150, 200)?, None);
    Ok(())
}
