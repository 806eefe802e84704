// The devices are written out by hand from the format; the digest is that of Python's hashlib.
ghost use Rattle.std.specs.Prelude.{◌≡◌, ◌≤◌, ◌^◌, IfOk};
ghost use Rattle.ws_journal.specs.declared.store.Edition.TheVariants.{Second};
ghost use Rattle.ws_journal.specs.Text.{IsPayload};

use super::*;
use crate::journal::Doubt;
use crate::store::Side;
use std::test::Fail;
use ws_disk::{Disk, Pick, TornDisk};
use ws_model::{Bytes, Event, What};
use ws_record::{batch_len, write_batch};

// A device of edition 2 and generation 3 without records.
const EMPTY: &[u8; 18] = b"\x01WEBSUBJ2\x00\x00\x00\x00\x00\x00\x00\x03\x00";

// A device of edition 2 and generation 4 with one record: an event with the serial 9 at 1,000 seconds,
// which declines the intent 7 by the code 404.
const REPLACED: &[u8; 86] = b"\x01WEBSUBJ2\x00\x00\x00\x00\x00\x00\x00\x04\
    \x01\x00\x00\x00\x1f\
    \x7f\x2b\xba\x19\xa9\xaf\xaf\x9c\x10\xd2\x76\x1e\x9a\x0a\xf4\x5a\
    \xde\x43\xac\xa4\xe2\xbc\xe2\xf4\x8b\x45\x68\x1b\x26\x94\xa1\xd7\
    \x00\x00\x00\x01\x00\x00\x00\x00\x00\x00\x00\x09\x00\x00\x00\x00\x00\x00\x03\xe8\
    \x03\x00\x00\x00\x00\x00\x00\x00\x07\x01\x94\x00";

// An older device, of generation 2, with 22 bytes behind its last gate.
const OLDER: &[u8; 40] = b"\x01WEBSUBJ2\x00\x00\x00\x00\x00\x00\x00\x02\x00a batch that was cut..";

const PICKS: [Pick; 5] = [
    Pick::Old,
    Pick::New,
    Pick::Fill(0),
    Pick::Fill(1),
    Pick::Fill(255),
];

fn device(rt: &HostRuntime, content: &[u8], failing: &[u64]) -> Result<TornDisk, Fail> {
    let mut disk = TornDisk::made(rt.alloc(), 200, 60, failing)?;
    disk.write_at(0, content)?;
    disk.sync()?;
    Ok(disk)
}

// A store whose device `a` counts, with those calls of device `b` failing.
fn store(rt: &HostRuntime, a: &[u8], failing: &[u64]) -> Result<Store<TornDisk>, Fail> {
    Ok(Store {
        a: device(rt, a, &[])?,
        b: device(rt, OLDER, failing)?,
    })
}

fn journal_of(limit: u64) -> Journal
    requires { limit ≤ 2 ^ 30 }
    ensures { result.edition ≡ Second }
{
    Journal {
        side: Side::A,
        edition: Edition::Second,
        generation: 3,
        tail: 18,
        limit,
        doubt: Doubt::Nothing,
    }
}

fn text(rt: &HostRuntime) -> Result<Bytes, Fail>
    ensures { IfOk result IsPayload }
{
    let events = [Event {
        serial: 9,
        t: 1000,
        what: What::Declined { n: 7, code: 404 },
    }];
    if batch_len(&events) > 16_777_216 {
        return Err("too long".into());
    }
    Ok(write_batch(rt.alloc(), &events)?)
}

fn images_of(rt: &HostRuntime, disk: &TornDisk, pick: Pick, wanted: &[u8]) -> Result<bool, Fail> {
    let image = disk.crashed(rt.alloc(), pick)?;
    Ok(image.content() == wanted)
}

#[test]
fn replace_limit_exact(rt: HostRuntime) -> Result<(), Fail> {
    let batches = [text(&rt)?];
    let mut within = store(&rt, EMPTY, &[])?;
    let mut journal = journal_of(86);
    assert_eq!(rt; journal.replace(&mut within, &batches), Ok(()));
    assert_eq!(rt; journal.tail(), 86);
    assert_eq!(rt; journal.generation(), 4);
    assert!(rt; images_of(&rt, &within.b, Pick::Old, REPLACED)?);
    assert!(rt; images_of(&rt, &within.a, Pick::New, EMPTY)?);
    let mut past = store(&rt, EMPTY, &[])?;
    let full = AppendFault::Full {
        tail: 18,
        asked: 68,
    };
    assert_eq!(rt; journal_of(85).replace(&mut past, &batches), Err(full));
    assert!(rt; images_of(&rt, &past.b, Pick::New, OLDER)?);
    Ok(())
}

#[test]
fn device_in_doubt_is_closed_by_append(rt: HostRuntime) -> Result<(), Fail> {
    let batch = text(&rt)?;
    let batches = [text(&rt)?];
    let mut torn = store(&rt, EMPTY, &[18])?;
    let mut journal = journal_of(200);
    assert_eq!(rt;
        journal.replace(&mut torn, &batches),
        Err(AppendFault::Disk)
    );
    assert!(rt; images_of(&rt, &torn.b, Pick::New, REPLACED)?);
    assert_eq!(rt; journal.append(&mut torn, batch.as_slice()), Ok(()));
    for pick in PICKS {
        let image = torn.b.crashed(rt.alloc(), pick)?;
        assert_eq!(rt; image.content().first(), Some(&0));
    }
    assert_eq!(rt; journal.generation(), 3);
    assert_eq!(rt; journal.tail(), 86);
    Ok(())
}
