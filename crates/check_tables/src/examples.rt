// Histories worked out by hand.

use crate::compared::agree_later;
use crate::tables::Tables;
use check_histories::{CB, CC, X, Y, asked, fetched, happen, leased, pinged, unfetched};
use std::alloc::Global;
use std::test::Fail;
use ws_model::{Event, How, NoMemory, What};

/// Whether the tables agree with the plain program after each event, at its time and at later ones.
pub fn stand_beside(alloc: Global, events: &[Event], later: &[u64]) -> Result<bool, NoMemory> {
    let mut tables = Tables::empty(alloc);
    for at in 0..events.len() {
        let event = &events[at];
        if !tables.apply(event)?
            || !agree_later(alloc, &tables, &events[..at + 1], event.t, later)?
        {
            return Ok(false);
        }
    }
    Ok(true)
}

fn pushed(events: &mut Vec<Event>, t: u64, ver: u64, how: How) -> Result<(), NoMemory> {
    happen(events, t, What::Pushed { ver, lease: 1, how })
}

#[test]
fn lease_measured_from_ticket(rt: HostRuntime) -> Result<(), Fail> {
    let alloc = rt.alloc();
    let events = leased(alloc, 60)?;
    assert!(rt; stand_beside(alloc, &events, &[0, 30, 31, 32])?);
    Ok(())
}

#[test]
fn renewal_carries_owed_push(rt: HostRuntime) -> Result<(), Fail> {
    let alloc = rt.alloc();
    let mut events = leased(alloc, 864_000)?;
    happen(&mut events, 1_999, pinged(alloc, X)?)?;
    happen(&mut events, 2_000, fetched(alloc, 1, X, 3)?)?;
    pushed(&mut events, 2_000, 1, How::Missed(503))?;
    pushed(&mut events, 2_010, 1, How::Missed(503))?;
    happen(&mut events, 2_041, asked(alloc, 2, X, CB, 864_000)?)?;
    happen(&mut events, 2_042, What::Confirmed { n: 2, sent: 2_041 })?;
    assert!(rt; stand_beside(alloc, &events, &[0, 9, 10, 29, 30, 865_000])?);
    Ok(())
}

#[test]
fn eight_misses_spend(rt: HostRuntime) -> Result<(), Fail> {
    let alloc = rt.alloc();
    let mut events = leased(alloc, 864_000)?;
    happen(&mut events, 1_040, fetched(alloc, 1, X, 2)?)?;
    happen(&mut events, 1_050, fetched(alloc, 2, X, 2)?)?;
    for t in [1_050, 1_060, 1_090, 1_150, 1_450, 2_350, 5_950, 16_750] {
        pushed(&mut events, t, 1, How::Missed(503))?;
    }
    assert!(rt; stand_beside(alloc, &events, &[0, 1, 10, 60, 3_600, 10_800])?);
    Ok(())
}

#[test]
fn gone_ends_lease_and_owed(rt: HostRuntime) -> Result<(), Fail> {
    let alloc = rt.alloc();
    let mut events = leased(alloc, 864_000)?;
    for ver in 1..4 {
        happen(&mut events, 1_040, fetched(alloc, ver, X, 2)?)?;
    }
    pushed(&mut events, 1_041, 1, How::Done)?;
    pushed(&mut events, 1_042, 2, How::Gone)?;
    assert!(rt; stand_beside(alloc, &events, &[0, 10, 863_959, 863_960])?);
    Ok(())
}

#[test]
fn three_unheard_then_next_intent(rt: HostRuntime) -> Result<(), Fail> {
    let alloc = rt.alloc();
    let mut events = Vec::new(alloc);
    happen(&mut events, 1_000, asked(alloc, 1, X, CB, 60)?)?;
    happen(&mut events, 1_001, asked(alloc, 2, X, CB, 0)?)?;
    for t in 1_002..1_005 {
        happen(&mut events, t, What::Unheard { n: 1 })?;
    }
    happen(&mut events, 1_006, What::Declined { n: 2, code: 404 })?;
    assert!(rt; stand_beside(alloc, &events, &[0, 1])?);
    Ok(())
}

#[test]
fn three_missed_fetches_then_new_ping(rt: HostRuntime) -> Result<(), Fail> {
    let alloc = rt.alloc();
    let mut events = Vec::new(alloc);
    happen(&mut events, 1_000, pinged(alloc, X)?)?;
    for t in 1_001..1_004 {
        happen(&mut events, t, unfetched(alloc, X, 1)?)?;
    }
    happen(&mut events, 1_005, pinged(alloc, X)?)?;
    assert!(rt; stand_beside(alloc, &events, &[0, 1])?);
    Ok(())
}

// That a released ticket is drawn again with the same work is in each comparison: the first due work is
// asked for with and without its ticket out.
#[test]
fn released_ticket_drawn_again(rt: HostRuntime) -> Result<(), Fail> {
    let alloc = rt.alloc();
    let mut events = leased(alloc, 864_000)?;
    happen(&mut events, 1_030, asked(alloc, 2, X, CC, 60)?)?;
    happen(&mut events, 1_031, asked(alloc, 3, Y, CB, 60)?)?;
    happen(&mut events, 1_040, fetched(alloc, 1, X, 2)?)?;
    happen(&mut events, 1_041, pinged(alloc, X)?)?;
    happen(&mut events, 1_041, pinged(alloc, Y)?)?;
    assert!(rt; stand_beside(alloc, &events, &[0, 10])?);
    Ok(())
}
