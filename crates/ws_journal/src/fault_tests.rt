// A script of calls over disks of which calls fail, with the images of a crash after each failure.
ghost use Rattle.std.specs.Prelude.{IfOk};
ghost use Rattle.ws_journal.specs.Text.{IsPayload};

use super::*;
use std::test::Fail;
use ws_disk::{MemDisk, Pick, TornDisk};
use ws_model::{Bytes, Event, What};
use ws_record::{batch_len, write_batch};

/// The bytes of a disk.
const ROOM: u64 = 300;

/// More calls than the script makes of a disk.
const CALLS: u64 = 90;

const PICKS: [Pick; 5] = [
    Pick::Old,
    Pick::New,
    Pick::Fill(0),
    Pick::Fill(1),
    Pick::Fill(255),
];

// The batches after each step of the script, by the serials of their events: an opening, two appends, a
// replacement, which makes device `b`, an append, and a replacement, which makes device `a` anew.
const STEPS: [&[u64]; 6] = [&[], &[1], &[1, 2], &[3], &[3, 4], &[5]];

// The text of a batch of one event with this serial.
fn text(rt: &HostRuntime, serial: u64) -> Result<Bytes, Fail>
    ensures { IfOk result IsPayload }
{
    let events = [Event {
        serial,
        t: 1000,
        what: What::Unheard { n: 7 },
    }];
    if batch_len(&events) > 16_777_216 {
        return Err("too long".into());
    }
    Ok(write_batch(rt.alloc(), &events)?)
}

// One step of the script after its opening.
fn step(
    rt: &HostRuntime,
    journal: &mut Journal,
    store: &mut Store<TornDisk>,
    number: usize,
) -> Result<Result<(), AppendFault>, Fail> {
    if journal.edition != Edition::Second {
        return Err("not of edition 2".into());
    }
    let batches = [text(rt, number as u64)?];
    if number == 3 || number == 5 {
        return Ok(journal.replace(store, &batches));
    }
    Ok(journal.append(store, batches[0].as_slice()))
}

// The serials of what is opened on these files, after which a further append works.
fn reopened(rt: &HostRuntime, a: &[u8], b: &[u8]) -> Result<Vec<u64>, Fail> {
    if a.len() as u64 > ROOM || b.len() as u64 > ROOM {
        return Err("too long".into());
    }
    let mut store = Store {
        a: MemDisk::holding(rt.alloc(), a, ROOM, CALLS, &[])?,
        b: MemDisk::holding(rt.alloc(), b, ROOM, CALLS, &[])?,
    };
    let (mut journal, batches) = Journal::recover(rt.alloc(), &mut store, ROOM)?;
    if journal.edition != Edition::Second {
        return Err("not of edition 2".into());
    }
    let further = text(rt, 9)?;
    journal.append(&mut store, further.as_slice())?;
    let mut serials = Vec::new(rt.alloc());
    for batch in &batches {
        if let [event] = batch.events.as_slice() {
            serials.push(event.serial)?;
        }
    }
    Ok(serials)
}

// Whether each image of a crash now reads as one of these two lists.
fn reads_either(
    rt: &HostRuntime,
    store: &Store<TornDisk>,
    before: &[u64],
    after: &[u64],
) -> Result<bool, Fail> {
    for pick in PICKS {
        let a = store.a.crashed(rt.alloc(), pick)?;
        let b = store.b.crashed(rt.alloc(), pick)?;
        let found = reopened(rt, a.content(), b.content())?;
        if found.as_slice() != before && found.as_slice() != after {
            return Ok(false);
        }
    }
    Ok(true)
}

// Plays the script up to the first call of the journal that fails, and that call again, where the disks go on
// working: how many calls of the journal succeeded in a row, or None where an image read as anything else.
fn play(
    rt: &HostRuntime,
    store: &mut Store<TornDisk>,
    goes_on: bool,
) -> Result<Option<usize>, Fail> {
    let mut journal = match Journal::recover(rt.alloc(), store, ROOM) {
        Ok((journal, _)) => journal,
        Err(_) => return Ok(reads_either(rt, store, STEPS[0], STEPS[0])?.then_some(0)),
    };
    for number in 1..6 {
        let (before, after) = (STEPS[number - 1], STEPS[number]);
        if step(rt, &mut journal, store, number)?.is_ok() {
            if !reads_either(rt, store, after, after)? {
                return Ok(None);
            }
            continue;
        }
        let is_kept = reads_either(rt, store, before, after)?;
        let is_done = !goes_on || step(rt, &mut journal, store, number)?.is_ok();
        let reads = is_kept && is_done && (!goes_on || reads_either(rt, store, after, after)?);
        return Ok(reads.then_some(number));
    }
    Ok(Some(6))
}

// A store of which these calls of one device fail, and all calls from that number on.
fn store_of(
    rt: &HostRuntime,
    on_a: bool,
    calls: u64,
    failing: &[u64],
) -> Result<Store<TornDisk>, Fail> {
    let torn = TornDisk::made(rt.alloc(), ROOM, calls, failing)?;
    let whole = TornDisk::made(rt.alloc(), ROOM, CALLS, &[])?;
    if on_a {
        return Ok(Store { a: torn, b: whole });
    }
    Ok(Store { a: whole, b: torn })
}

// Whether each call of a device may fail, alone and with all after it. From the last one on none fails.
fn each_call_may_fail(rt: &HostRuntime, on_a: bool) -> Result<bool, Fail> {
    let mut played = 0;
    for call in 0..CALLS {
        let mut alone = store_of(rt, on_a, CALLS, &[call])?;
        let mut on = store_of(rt, on_a, call, &[])?;
        let (Some(once), Some(ever)) = (play(rt, &mut alone, true)?, play(rt, &mut on, false)?)
        else {
            return Ok(false);
        };
        if once != ever || once < played {
            return Ok(false);
        }
        played = once;
    }
    Ok(played == 6)
}

#[test]
fn every_device_call_fails(rt: HostRuntime) -> Result<(), Fail> {
    assert!(rt; each_call_may_fail(&rt, true)?);
    assert!(rt; each_call_may_fail(&rt, false)?);
    Ok(())
}
