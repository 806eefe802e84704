// The tables beside the plain program on histories by chance.

use crate::compared::agree_later;
use crate::moment::agrees_at;
use crate::tables::Tables;
use check_histories::History;
use std::alloc::Global;
use std::test::Fail;
use ws_model::NoMemory;

const EVENTS: usize = 40;

// Each event is applied as it comes. The expired leases are taken out at one event in four, so that the
// others find them held, and at one in four what isn't owed is forgotten.
fn stands_beside(alloc: Global, seed: u64) -> Result<bool, NoMemory> {
    let mut history = History::new(alloc, seed);
    let mut tables = Tables::empty(alloc);
    for at in 0..EVENTS {
        if history.grow()? && !apply_last(&mut tables, &mut history)? {
            return Ok(false);
        }
        if at % 3 == 2 && !agree(alloc, &tables, &history)? {
            return Ok(false);
        }
    }
    Ok(true)
}

fn apply_last(tables: &mut Tables, history: &mut History) -> Result<bool, NoMemory> {
    let Some(event) = history.events.last() else {
        return Ok(false);
    };
    if !tables.apply(event)? {
        return Ok(false);
    }
    match history.chance.below(4) {
        0 => Ok(tables.expire(history.t)),
        1 => {
            forget(tables, history)?;
            Ok(true)
        }
        _ => Ok(true),
    }
}

// What is the latest of its topic stays, also where it isn't owed.
fn forget(tables: &mut Tables, history: &History) -> Result<(), NoMemory> {
    let owed = history.owed()?;
    for ver in 1..=history.versions {
        if !owed.iter().any(|pair| pair.ver == ver) {
            tables.topics.forget(ver);
        }
    }
    Ok(())
}

fn agree(alloc: Global, tables: &Tables, history: &History) -> Result<bool, NoMemory> {
    let events = &history.events;
    if !agree_later(alloc, tables, events, history.t, &[0, 7, 45, 240])? {
        return Ok(false);
    }
    agree_at_ends(alloc, tables, history)
}

// At the moment at which each live lease ends.
fn agree_at_ends(alloc: Global, tables: &Tables, history: &History) -> Result<bool, NoMemory> {
    let live = ws_plain::live(alloc, &history.events, history.t)?;
    for lease in &live {
        let end = lease.sent.saturating_add(u64::from(lease.intent.granted));
        if !agrees_at(alloc, tables, &history.events, end)? {
            return Ok(false);
        }
    }
    Ok(true)
}

// The first of these seeds whose history the tables don't stand beside.
fn first_apart(alloc: Global, from: u64, to: u64) -> Result<Option<u64>, NoMemory> {
    for seed in from..to {
        if !stands_beside(alloc, seed)? {
            return Ok(Some(seed));
        }
    }
    Ok(None)
}

// So many in each test that it ends in time where it is built unproved and checked, too.
#[test]
fn histories_from_0(rt: HostRuntime) -> Result<(), Fail> {
    assert_eq!(rt; first_apart(rt.alloc(), 0, 50)?, None);
    Ok(())
}

#[test]
fn histories_from_50(rt: HostRuntime) -> Result<(), Fail> {
    assert_eq!(rt; first_apart(rt.alloc(), 50, 100)?, None);
    Ok(())
}

#[test]
fn histories_from_100(rt: HostRuntime) -> Result<(), Fail> {
    assert_eq!(rt; first_apart(rt.alloc(), 100, 150)?, None);
    Ok(())
}

#[test]
fn histories_from_150(rt: HostRuntime) -> Result<(), Fail> {
    assert_eq!(rt; first_apart(rt.alloc(), 150, 200)?, None);
    Ok(())
}

#[test]
fn histories_from_200(rt: HostRuntime) -> Result<(), Fail> {
    assert_eq!(rt; first_apart(rt.alloc(), 200, 250)?, None);
    Ok(())
}

#[test]
fn histories_from_250(rt: HostRuntime) -> Result<(), Fail> {
    assert_eq!(rt; first_apart(rt.alloc(), 250, 300)?, None);
    Ok(())
}

#[test]
fn histories_from_300(rt: HostRuntime) -> Result<(), Fail> {
    assert_eq!(rt; first_apart(rt.alloc(), 300, 350)?, None);
    Ok(())
}

#[test]
fn histories_from_350(rt: HostRuntime) -> Result<(), Fail> {
    assert_eq!(rt; first_apart(rt.alloc(), 350, 400)?, None);
    Ok(())
}
