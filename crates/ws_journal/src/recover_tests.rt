// The devices are written out by hand from the format; the digests are those of Python's hashlib.
ghost use Rattle.std.specs.Prelude.{◌≡◌, ◌≤◌, ◌^◌, length};

use super::*;
use std::process::Abort;
use std::test::Fail;
use ws_disk::{Disk, MemDisk, Pick, TornDisk};
use ws_model::{Event, What};

// A device of edition 2 and generation 1 with one record: an event with the serial 9 at 1,000 seconds, which declines
// the intent 7 by the code 404. Its payload is from place 54 to 84, and its last gate at 85.
const WITH_ONE: &[u8; 86] = b"\x01WEBSUBJ2\x00\x00\x00\x00\x00\x00\x00\x01\
    \x01\x00\x00\x00\x1f\
    \x7f\x2b\xba\x19\xa9\xaf\xaf\x9c\x10\xd2\x76\x1e\x9a\x0a\xf4\x5a\
    \xde\x43\xac\xa4\xe2\xbc\xe2\xf4\x8b\x45\x68\x1b\x26\x94\xa1\xd7\
    \x00\x00\x00\x01\x00\x00\x00\x00\x00\x00\x00\x09\x00\x00\x00\x00\x00\x00\x03\xe8\
    \x03\x00\x00\x00\x00\x00\x00\x00\x07\x01\x94\x00";

// The same in edition 1. Its payload is from place 22 to 52, and its last gate at 53.
const FIRST_WITH_ONE: &[u8; 54] = b"\x01WEBSUBJ1\x00\x00\x00\x00\x00\x00\x00\x01\
    \x01\x00\x00\x00\x1f\
    \x00\x00\x00\x01\x00\x00\x00\x00\x00\x00\x00\x09\x00\x00\x00\x00\x00\x00\x03\xe8\
    \x03\x00\x00\x00\x00\x00\x00\x00\x07\x01\x94\x00";

// A device of edition 2 and generation 1 with one record: an event with the serial 1 at 1,000 seconds, which accepts the
// intent 1 of a subscription with a lease of 864,000 seconds. Its payload is from place 54 to 165, and its last gate at 166.
const ASKED: &[u8; 167] = b"\x01WEBSUBJ2\x00\x00\x00\x00\x00\x00\x00\x01\
    \x01\x00\x00\x00\x70\
    \xa2\x0a\xaf\x56\x30\x73\x94\xe0\xb4\x69\x73\x15\x92\x8c\x00\x6e\
    \x9c\x39\xdb\x50\x52\x24\x88\x4c\x81\xc9\x85\x58\x8a\x95\xe6\x7d\
    \x00\x00\x00\x01\x00\x00\x00\x00\x00\x00\x00\x01\x00\x00\x00\x00\x00\x00\x03\xe8\
    \x01\x00\x00\x00\x00\x00\x00\x00\x01\x01\
    \x00\x00\x00\x14http://pub.example/x\
    \x00\x00\x00\x14http://pub.example/x\
    \x00\x00\x00\x15http://sub.example/cb\
    \x00\x00\x00\x00\x00\x0d\x2f\x00\x01\x00";

// The same in edition 1.
const FIRST_ASKED: &[u8; 135] = b"\x01WEBSUBJ1\x00\x00\x00\x00\x00\x00\x00\x01\
    \x01\x00\x00\x00\x70\
    \x00\x00\x00\x01\x00\x00\x00\x00\x00\x00\x00\x01\x00\x00\x00\x00\x00\x00\x03\xe8\
    \x01\x00\x00\x00\x00\x00\x00\x00\x01\x01\
    \x00\x00\x00\x14http://pub.example/x\
    \x00\x00\x00\x14http://pub.example/x\
    \x00\x00\x00\x15http://sub.example/cb\
    \x00\x00\x00\x00\x00\x0d\x2f\x00\x01\x00";

// A device of edition 2 and generation 2 without records.
const EMPTY_SECOND: &[u8; 18] = b"\x01WEBSUBJ2\x00\x00\x00\x00\x00\x00\x00\x02\x00";

// What a new store's device holds.
const EMPTY: &[u8; 18] = b"\x01WEBSUBJ2\x00\x00\x00\x00\x00\x00\x00\x01\x00";

// The SHA-256 of the payload of `WITH_ONE`, and of it with 405 in place of 404.
const DIGEST: &[u8; 32] = b"\x7f\x2b\xba\x19\xa9\xaf\xaf\x9c\x10\xd2\x76\x1e\x9a\x0a\xf4\x5a\
    \xde\x43\xac\xa4\xe2\xbc\xe2\xf4\x8b\x45\x68\x1b\x26\x94\xa1\xd7";

const DIGEST_405: &[u8; 32] = b"\xe2\xa0\x19\xae\x1a\xb5\xb8\xcc\x88\x5e\x1b\x4d\x16\xd5\x48\x66\
    \x28\x92\xa4\xc2\x57\xbb\x93\x26\xeb\xa0\x7f\x43\x36\xa4\x8b\xf1";

fn store_of(rt: &HostRuntime, a: &[u8], b: &[u8]) -> Result<Store<MemDisk>, Fail>
    requires a { length a.now ≤ 200 }
    requires b { length b.now ≤ 200 }
{
    Ok(Store {
        a: MemDisk::holding(rt.alloc(), a, 200, 60, &[])?,
        b: MemDisk::holding(rt.alloc(), b, 200, 60, &[])?,
    })
}

// What opening answers: the generation, the edition, the tail, and the places of the batches; or the fault.
fn opened(
    rt: &HostRuntime,
    a: &[u8],
    b: &[u8],
) -> Result<Result<(u64, u8, u64, Vec<u64>), OpenFault>, Fail>
    requires a { length a.now ≤ 200 }
    requires b { length b.now ≤ 200 }
{
    let mut store = store_of(rt, a, b)?;
    match Journal::recover(rt.alloc(), &mut store, 200) {
        Ok((journal, batches)) => {
            let mut places = Vec::new(rt.alloc());
            for batch in &batches {
                places.push(batch.at)?;
            }
            Ok(Ok((
                journal.generation(),
                journal.edition(),
                journal.tail(),
                places,
            )))
        }
        Err(fault) => Ok(Err(fault)),
    }
}

fn refuses(rt: &HostRuntime, a: &[u8], b: &[u8], fault: OpenFault) -> Result<bool, Fail>
    requires a { length a.now ≤ 200 }
    requires b { length b.now ≤ 200 }
{
    match opened(rt, a, b)? {
        Ok(_) => Ok(false),
        Err(found) => Ok(found == fault),
    }
}

fn gives(
    rt: &HostRuntime,
    a: &[u8],
    b: &[u8],
    expected: (u64, u8, u64),
    places: &[u64],
) -> Result<bool, Fail>
    requires a { length a.now ≤ 200 }
    requires b { length b.now ≤ 200 }
{
    match opened(rt, a, b)? {
        Ok((generation, edition, tail, found)) => {
            Ok((generation, edition, tail) == expected && found.as_slice() == places)
        }
        Err(_) => Ok(false),
    }
}

#[test]
fn device_gates_and_cuts(rt: HostRuntime) -> Result<(), Fail> {
    assert!(rt; gives(&rt, ASKED, b"", (1, 2, 167), &[17])?);
    assert!(rt; gives(&rt, FIRST_ASKED, b"", (1, 1, 135), &[17])?);
    for gate in 2..=255 {
        // The first record's gate isn't open, or the device's isn't.
        for place in [0, 17] {
            let mut shut = *ASKED;
            shut[place] = gate;
            assert!(rt; gives(&rt, &shut, b"", (1, 2, 18), &[])?);
            shut[place] = 0;
            assert!(rt; gives(&rt, &shut, b"", (1, 2, 18), &[])?);
        }
    }
    // Too short for a device: a new store is made.
    for size in 0..18 {
        assert!(rt; gives(&rt, &ASKED[..size], b"", (1, 2, 18), &[])?);
    }
    // Cut within the record, or before its next gate.
    for size in 18..167 {
        let cut = OpenFault::Damaged { at: 17 };
        assert!(rt; refuses(&rt, &ASKED[..size], b"", cut)?);
    }
    Ok(())
}

// Device `a` already passes the limit.
#[test]
fn upgrade_from_edition_one(rt: HostRuntime) -> Result<(), Fail> {
    let mut store = store_of(&rt, FIRST_ASKED, b"")?;
    let (mut journal, batches) = Journal::recover(rt.alloc(), &mut store, 100)?;
    assert_eq!(rt; batches.len(), 1);
    if journal.edition() != 1 {
        return Err("not of edition 1".into());
    }
    assert_eq!(rt; journal.upgrade(rt.alloc(), &mut store, &batches), Ok(()));
    assert_eq!(rt; journal.edition(), 2);
    assert_eq!(rt; journal.generation(), 2);
    assert_eq!(rt; journal.tail(), 167);
    let mut upgraded = *ASKED;
    upgraded[16] = 2;
    assert!(rt; store.b.content() == upgraded.as_slice());
    assert!(rt; store.a.content() == FIRST_ASKED.as_slice());
    Ok(())
}

#[test]
fn greater_generation_counts(rt: HostRuntime) -> Result<(), Fail> {
    assert!(rt; gives(&rt, WITH_ONE, EMPTY_SECOND, (2, 2, 18), &[])?);
    assert!(rt; gives(&rt, EMPTY_SECOND, FIRST_WITH_ONE, (2, 2, 18), &[])?);
    assert!(rt; gives(&rt, b"", FIRST_WITH_ONE, (1, 1, 54), &[17])?);
    // Two of one generation.
    let foreign = OpenFault::Foreign { at: 9 };
    assert!(rt; refuses(&rt, WITH_ONE, FIRST_WITH_ONE, foreign)?);
    // The greatest generation of edition 1 has no next one.
    let mut last = *FIRST_WITH_ONE;
    for place in 9..17 {
        last[place] = 255;
    }
    last[9] = 127;
    assert!(rt; refuses(&rt, &last, b"", foreign)?);
    Ok(())
}

#[test]
fn foreign_text_refused(rt: HostRuntime) -> Result<(), Fail> {
    let mut strange = *EMPTY;
    strange[8] = b'9';
    assert!(rt; refuses(&rt, &strange, b"", OpenFault::Foreign { at: 1 })?);
    assert!(rt; refuses(&rt, WITH_ONE, &strange, OpenFault::Foreign { at: 1 })?);
    strange[0] = 7;
    assert!(rt; refuses(&rt, b"", &strange, OpenFault::Foreign { at: 0 })?);
    // A gate that was being written stands before a name.
    let mut torn = *EMPTY;
    torn[0] = 7;
    assert!(rt; gives(&rt, FIRST_WITH_ONE, &torn, (1, 1, 54), &[17])?);
    Ok(())
}

#[test]
fn altered_payload_named(rt: HostRuntime) -> Result<(), Fail> {
    let mut altered = *WITH_ONE;
    altered[84] = 0x95;
    let fault = OpenFault::Altered {
        at: 17,
        kept: *DIGEST,
        found: *DIGEST_405,
    };
    assert!(rt; refuses(&rt, &altered, b"", fault)?);
    // In edition 1 the same change isn't seen, but a payload that is no batch is.
    let mut first = *FIRST_WITH_ONE;
    first[52] = 0x95;
    assert!(rt; gives(&rt, &first, b"", (1, 1, 54), &[17])?);
    first[25] = 2;
    assert!(rt; refuses(&rt, &first, b"", OpenFault::Damaged { at: 17 })?);
    Ok(())
}

#[test]
fn unsynced_record_is_confirmed_first(rt: HostRuntime) -> Result<(), Fail> {
    let mut store = Store {
        a: TornDisk::made(rt.alloc(), 200, 40, &[])?,
        b: TornDisk::made(rt.alloc(), 200, 40, &[])?,
    };
    store.a.write_at(0, WITH_ONE)?;
    let (journal, batches) = Journal::recover(rt.alloc(), &mut store, 200)?;
    assert_eq!(rt; journal.tail(), 86);
    assert_eq!(rt; batches.len(), 1);
    assert_eq!(rt; batches[0].at, 17);
    let events = batches[0].events.as_slice();
    assert_eq!(rt; events.len(), 1);
    let declined = Event {
        serial: 9,
        t: 1000,
        what: What::Declined { n: 7, code: 404 },
    };
    assert!(rt; events[0] == declined);
    for pick in [Pick::Old, Pick::New, Pick::Fill(255)] {
        let image = store.a.crashed(rt.alloc(), pick)?;
        assert!(rt; image.content() == WITH_ONE.as_slice());
    }
    Ok(())
}

#[test]
fn new_store_is_made(rt: HostRuntime) -> Result<(), Fail> {
    let mut store = Store {
        a: TornDisk::made(rt.alloc(), 200, 40, &[])?,
        b: TornDisk::made(rt.alloc(), 200, 40, &[])?,
    };
    let (journal, batches) = Journal::recover(rt.alloc(), &mut store, 200)?;
    assert_eq!(rt; journal.generation(), 1);
    assert_eq!(rt; batches.len(), 0);
    for pick in [Pick::Old, Pick::New, Pick::Fill(255)] {
        let image = store.a.crashed(rt.alloc(), pick)?;
        assert!(rt; image.content() == EMPTY.as_slice());
    }
    Ok(())
}

#[test]
fn failing_sync_is_a_disk_fault(rt: HostRuntime) -> Result<(), Fail> {
    let mut store = Store {
        a: MemDisk::holding(rt.alloc(), WITH_ONE, 200, 60, &[])?,
        b: MemDisk::holding(rt.alloc(), b"", 200, 60, &[0])?,
    };
    match Journal::recover(rt.alloc(), &mut store, 200) {
        Ok(_) => assert!(rt; false),
        Err(fault) => assert_eq!(rt; fault, OpenFault::Disk),
    }
    assert_eq!(rt; store.b.faults(), 1);
    Ok(())
}

#[test]
fn texts_are_read_back(rt: HostRuntime) -> Result<(), Fail> {
    let mut store = store_of(&rt, b"", WITH_ONE)?;
    let (journal, batches) = Journal::recover(rt.alloc(), &mut store, 200)?;
    assert_eq!(rt; batches.len(), 1);
    let texts = journal.read_back(rt.alloc(), &mut store, 0)?;
    assert_eq!(rt; texts.len(), 1);
    let device = WITH_ONE.as_slice();
    let payload = &device[54..85];
    assert!(rt; texts[0].as_slice() == payload);
    assert_eq!(rt; journal.read_back(rt.alloc(), &mut store, 1)?.len(), 0);
    Ok(())
}
