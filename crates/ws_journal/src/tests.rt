// The devices are written out by hand from the format; the digest is that of Python's hashlib.
ghost use Rattle.std.specs.Prelude.{◌≡◌, ◌≤◌, ◌^◌};
ghost use Rattle.ws_journal.specs.declared.store.Edition.TheVariants.{Second};

use super::*;
use crate::journal::Doubt;
use crate::store::Side;
use std::test::Fail;
use ws_disk::{Disk, Pick, TornDisk};
use ws_model::{Event, What};
use ws_record::{batch_len, write_batch};

// A device of edition 2 and generation 1 without records.
const EMPTY: &[u8; 18] = b"\x01WEBSUBJ2\x00\x00\x00\x00\x00\x00\x00\x01\x00";

// The same with one record: an event with the serial 9 at 1,000 seconds, which declines the intent 7 by the code 404.
const WITH_ONE: &[u8; 86] = b"\x01WEBSUBJ2\x00\x00\x00\x00\x00\x00\x00\x01\
    \x01\x00\x00\x00\x1f\
    \x7f\x2b\xba\x19\xa9\xaf\xaf\x9c\x10\xd2\x76\x1e\x9a\x0a\xf4\x5a\
    \xde\x43\xac\xa4\xe2\xbc\xe2\xf4\x8b\x45\x68\x1b\x26\x94\xa1\xd7\
    \x00\x00\x00\x01\x00\x00\x00\x00\x00\x00\x00\x09\x00\x00\x00\x00\x00\x00\x03\xe8\
    \x03\x00\x00\x00\x00\x00\x00\x00\x07\x01\x94\x00";

fn device(rt: &HostRuntime, failing: &[u64]) -> Result<TornDisk, Fail> {
    let mut disk = TornDisk::made(rt.alloc(), 200, 40, failing)?;
    disk.write_at(0, EMPTY)?;
    disk.sync()?;
    Ok(disk)
}

// A store whose device `a` counts, with those of its calls failing.
fn store(rt: &HostRuntime, failing: &[u64]) -> Result<Store<TornDisk>, Fail> {
    Ok(Store {
        a: device(rt, failing)?,
        b: TornDisk::made(rt.alloc(), 200, 40, &[])?,
    })
}

fn journal_of(limit: u64) -> Journal
    requires { limit ≤ 2 ^ 30 }
    ensures { result.edition ≡ Second }
{
    Journal {
        side: Side::A,
        edition: Edition::Second,
        generation: 1,
        tail: 18,
        limit,
        doubt: Doubt::Nothing,
    }
}

fn append_one(
    rt: &HostRuntime,
    journal: &mut Journal,
    store: &mut Store<TornDisk>,
) -> Result<Result<(), AppendFault>, Fail>
    requires { journal.old.edition ≡ Second }
    ensures { journal.new.edition ≡ Second }
{
    let events = [Event {
        serial: 9,
        t: 1000,
        what: What::Declined { n: 7, code: 404 },
    }];
    if batch_len(&events) > 16_777_216 {
        return Err("too long".into());
    }
    let text = write_batch(rt.alloc(), &events)?;
    Ok(journal.append(store, text.as_slice()))
}

// The image of the device that counts.
fn image_is(
    rt: &HostRuntime,
    store: &Store<TornDisk>,
    pick: Pick,
    expected: &[u8],
) -> Result<bool, Fail> {
    let image = store.a.crashed(rt.alloc(), pick)?;
    Ok(image.content() == expected)
}

#[test]
fn append_limit_exact(rt: HostRuntime) -> Result<(), Fail> {
    let mut within = store(&rt, &[])?;
    let mut journal_of_86 = journal_of(86);
    assert_eq!(rt; append_one(&rt, &mut journal_of_86, &mut within)?, Ok(()));
    assert_eq!(rt; journal_of_86.tail(), 86);
    assert!(rt; image_is(&rt, &within, Pick::Old, WITH_ONE)?);
    let mut past = store(&rt, &[])?;
    let full = AppendFault::Full {
        tail: 18,
        asked: 68,
    };
    assert_eq!(rt; append_one(&rt, &mut journal_of(85), &mut past)?, Err(full));
    assert!(rt; image_is(&rt, &past, Pick::New, EMPTY)?);
    Ok(())
}

#[test]
fn second_sync_fails_then_accepted(rt: HostRuntime) -> Result<(), Fail> {
    // The calls 2 to 4 write the record, 5 confirms it, 6 writes its gate, and 7 confirms that.
    let mut failing = store(&rt, &[7])?;
    let mut journal = journal_of(200);
    assert_eq!(rt;
        append_one(&rt, &mut journal, &mut failing)?,
        Err(AppendFault::Disk)
    );
    assert_eq!(rt; journal.tail(), 18);
    assert!(rt; image_is(&rt, &failing, Pick::New, WITH_ONE)?);
    assert_eq!(rt; append_one(&rt, &mut journal, &mut failing)?, Ok(()));
    for pick in [Pick::Old, Pick::New, Pick::Fill(255)] {
        assert!(rt; image_is(&rt, &failing, pick, WITH_ONE)?);
    }
    assert_eq!(rt; journal.generation(), 1);
    assert_eq!(rt; journal.edition(), 2);
    Ok(())
}

#[test]
fn torn_images_at_second_gate_write(rt: HostRuntime) -> Result<(), Fail> {
    // The call 8 closes the gate in doubt, 14 writes it again, and 15 confirms that.
    let mut failing = store(&rt, &[7, 15])?;
    let mut journal = journal_of(200);
    let first = append_one(&rt, &mut journal, &mut failing)?;
    let second = append_one(&rt, &mut journal, &mut failing)?;
    assert_eq!(rt;
        (first, second),
        (Err(AppendFault::Disk), Err(AppendFault::Disk))
    );
    let mut closed = *WITH_ONE;
    closed[17] = 0;
    assert!(rt; image_is(&rt, &failing, Pick::Old, &closed)?);
    assert!(rt; image_is(&rt, &failing, Pick::New, WITH_ONE)?);
    Ok(())
}
