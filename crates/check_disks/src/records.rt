// The expected bytes are worked out by hand from the sizes of the fields, unless a comment says more.
ghost use Rattle.std.specs.Prelude.{◌<◌};

use std::alloc::Global;
use std::process::Abort;
use std::test::*;
use ws_model::{Alg, Bytes, Event, How, Intent, Mode, Tally, Version, What};
use ws_record::*;

// A batch of one event with the serial 9 at 1,000 seconds, up to the event's kind.
const HEAD: &[u8; 20] =
    b"\x00\x00\x00\x01\x00\x00\x00\x00\x00\x00\x00\x09\x00\x00\x00\x00\x00\x00\x03\xe8";

fn with_head(alloc: Global, what: &[u8]) -> Result<Vec<u8>, Fail> {
    let mut text = HEAD.to_vec(alloc)?;
    text.extend_from_slice(what)?;
    Ok(text)
}

// The event has this text, which is read again; no part of it is read.
fn has_text(rt: &impl Abort, alloc: Global, what: What, expected: &[u8]) -> Result<(), Fail> {
    let expected = with_head(alloc, expected)?;
    let events = [Event {
        serial: 9,
        t: 1000,
        what,
    }];
    let len = batch_len(&events);
    assert_eq!(rt; len, expected.len() as u64);
    assert!(rt; len <= 16_777_216);
    let text = write_batch(alloc, &events)?;
    assert_eq!(rt; text.as_slice(), expected.as_slice());
    let (back, used) = read_batch(alloc, text.as_slice())?.ok_or("no batch")?;
    assert_eq!(rt; used, len);
    assert!(rt; back.as_slice() == events.as_slice());
    for cut in 0..expected.len() {
        assert!(rt; read_batch(alloc, &expected[..cut])?.is_none());
    }
    Ok(())
}

fn is_refused(rt: &impl Abort, alloc: Global, what: &[u8]) -> Result<(), Fail> {
    let text = with_head(alloc, what)?;
    assert!(rt; read_batch(alloc, &text)?.is_none());
    Ok(())
}

#[test]
fn each_kind_of_an_intent(rt: HostRuntime) -> Result<(), Fail> {
    let alloc = rt.alloc();
    let asked = What::Asked(Intent {
        n: 7,
        mode: Mode::On,
        topic: Bytes::copy(alloc, b"t")?,
        echo: Bytes::copy(alloc, b"e")?,
        callback: Bytes::copy(alloc, b"cb")?,
        secret: Bytes::copy(alloc, b"")?,
        granted: 60,
        alg: Alg::Sha512,
    });
    has_text(
        &rt,
        alloc,
        asked,
        b"\x01\x00\x00\x00\x00\x00\x00\x00\x07\x01\x00\x00\x00\x01t\x00\x00\x00\x01e\x00\x00\x00\x02cb\x00\x00\x00\x00\x00\x00\x00\x3c\x03",
    )?;
    has_text(
        &rt,
        alloc,
        What::Confirmed { n: 7, sent: 999 },
        b"\x02\x00\x00\x00\x00\x00\x00\x00\x07\x00\x00\x00\x00\x00\x00\x03\xe7",
    )?;
    has_text(
        &rt,
        alloc,
        What::Declined { n: 7, code: 404 },
        b"\x03\x00\x00\x00\x00\x00\x00\x00\x07\x01\x94",
    )?;
    has_text(
        &rt,
        alloc,
        What::Unheard { n: 7 },
        b"\x04\x00\x00\x00\x00\x00\x00\x00\x07",
    )?;
    let reason = Bytes::copy(alloc, b"no")?;
    has_text(
        &rt,
        alloc,
        What::Barred { n: 7, reason },
        b"\x05\x00\x00\x00\x00\x00\x00\x00\x07\x00\x00\x00\x02no",
    )?;
    has_text(
        &rt,
        alloc,
        What::Noticed { n: 7, heard: true },
        b"\x06\x00\x00\x00\x00\x00\x00\x00\x07\x01",
    )?;
    let reason = Bytes::copy(alloc, b"no")?;
    has_text(
        &rt,
        alloc,
        What::Revoked { n: 7, reason },
        b"\x0d\x00\x00\x00\x00\x00\x00\x00\x07\x00\x00\x00\x02no",
    )
}

#[test]
fn each_kind_of_a_delivery(rt: HostRuntime) -> Result<(), Fail> {
    let alloc = rt.alloc();
    let topic = Bytes::copy(alloc, b"t")?;
    has_text(&rt, alloc, What::Pinged { topic }, b"\x07\x00\x00\x00\x01t")?;
    let fetched = What::Fetched(Version {
        ver: 3,
        topic: Bytes::copy(alloc, b"t")?,
        upto: 8,
        media: Bytes::copy(alloc, b"m")?,
        own_link: Bytes::copy(alloc, b"l")?,
        body: Bytes::copy(alloc, b"body")?,
    });
    has_text(
        &rt,
        alloc,
        fetched,
        b"\x08\x00\x00\x00\x00\x00\x00\x00\x03\x00\x00\x00\x01t\x00\x00\x00\x00\x00\x00\x00\x08\x00\x00\x00\x01m\x00\x00\x00\x01l\x00\x00\x00\x04body",
    )?;
    let topic = Bytes::copy(alloc, b"t")?;
    has_text(
        &rt,
        alloc,
        What::Same { topic, upto: 8 },
        b"\x09\x00\x00\x00\x01t\x00\x00\x00\x00\x00\x00\x00\x08",
    )?;
    let topic = Bytes::copy(alloc, b"t")?;
    has_text(
        &rt,
        alloc,
        What::Unfetched {
            topic,
            upto: 8,
            why: 5,
        },
        b"\x0a\x00\x00\x00\x01t\x00\x00\x00\x00\x00\x00\x00\x08\x00\x05",
    )?;
    let tally = Tally {
        now: 256,
        serial: 1,
        intent: 2,
        version: 3,
        answered: 4,
        expired: 5,
        unsubscribed: 6,
        replaced: 7,
        gone: 8,
        spent: 9,
        revoked: 10,
    };
    has_text(
        &rt,
        alloc,
        What::Tally(tally),
        b"\x0c\x00\x00\x00\x00\x00\x00\x01\x00\x00\x00\x00\x00\x00\x00\x00\x01\x00\x00\x00\x00\x00\x00\x00\x02\x00\x00\x00\x00\x00\x00\x00\x03\x00\x00\x00\x00\x00\x00\x00\x04\x00\x00\x00\x00\x00\x00\x00\x05\x00\x00\x00\x00\x00\x00\x00\x06\x00\x00\x00\x00\x00\x00\x00\x07\x00\x00\x00\x00\x00\x00\x00\x08\x00\x00\x00\x00\x00\x00\x00\x09\x00\x00\x00\x00\x00\x00\x00\x0a",
    )
}

// The push of version 3 to lease 7 has this text, by itself and as a batch of one event.
fn pushed_has_text(rt: &impl Abort, alloc: Global, how: How, what: &[u8]) -> Result<(), Fail> {
    let (text, len) = pushed_batch(9, 1000, 3, 7, how);
    let expected = with_head(alloc, what)?;
    assert!(rt; len <= text.len());
    assert_eq!(rt; &text[..len], expected.as_slice());
    let (ver, lease) = (3, 7);
    has_text(rt, alloc, What::Pushed { ver, lease, how }, what)
}

#[test]
fn each_end_of_a_push(rt: HostRuntime) -> Result<(), Fail> {
    let alloc = rt.alloc();
    pushed_has_text(
        &rt,
        alloc,
        How::Done,
        b"\x0b\x00\x00\x00\x00\x00\x00\x00\x03\x00\x00\x00\x00\x00\x00\x00\x07\x00",
    )?;
    pushed_has_text(
        &rt,
        alloc,
        How::Gone,
        b"\x0b\x00\x00\x00\x00\x00\x00\x00\x03\x00\x00\x00\x00\x00\x00\x00\x07\x01",
    )?;
    pushed_has_text(
        &rt,
        alloc,
        How::Missed(503),
        b"\x0b\x00\x00\x00\x00\x00\x00\x00\x03\x00\x00\x00\x00\x00\x00\x00\x07\x02\x01\xf7",
    )
}

#[test]
fn numbers_out_of_range(rt: HostRuntime) -> Result<(), Fail> {
    let alloc = rt.alloc();
    // No kind has these numbers.
    is_refused(&rt, alloc, b"\x00\x00\x00\x00\x00\x00\x00\x00\x07")?;
    is_refused(
        &rt,
        alloc,
        b"\x0e\x00\x00\x00\x00\x00\x00\x00\x07\x00\x00\x00\x02no",
    )?;
    // A mode of 2, a hash of 4, a `heard` of 2, and a push's end of 3.
    is_refused(
        &rt,
        alloc,
        b"\x01\x00\x00\x00\x00\x00\x00\x00\x07\x02\x00\x00\x00\x01t\x00\x00\x00\x01e\x00\x00\x00\x02cb\x00\x00\x00\x00\x00\x00\x00\x3c\x03",
    )?;
    is_refused(
        &rt,
        alloc,
        b"\x01\x00\x00\x00\x00\x00\x00\x00\x07\x01\x00\x00\x00\x01t\x00\x00\x00\x01e\x00\x00\x00\x02cb\x00\x00\x00\x00\x00\x00\x00\x3c\x04",
    )?;
    is_refused(&rt, alloc, b"\x06\x00\x00\x00\x00\x00\x00\x00\x07\x02")?;
    is_refused(
        &rt,
        alloc,
        b"\x0b\x00\x00\x00\x00\x00\x00\x00\x03\x00\x00\x00\x00\x00\x00\x00\x07\x03\x01\xf7",
    )?;
    // A time of 2^48, and a batch of no events.
    assert!(rt;
        read_batch(
            alloc,
            b"\x00\x00\x00\x01\x00\x00\x00\x00\x00\x00\x00\x09\x00\x01\x00\x00\x00\x00\x00\x00\x04\x00\x00\x00\x00\x00\x00\x00\x07"
        )?
        .is_none()
    );
    assert!(rt; read_batch(alloc, b"\x00\x00\x00\x00")?.is_none());
    Ok(())
}

#[test]
fn batch_text_one_byte_more_or_less(rt: HostRuntime) -> Result<(), Fail> {
    let alloc = rt.alloc();
    let mut text = with_head(alloc, b"\x03\x00\x00\x00\x00\x00\x00\x00\x07\x01\x94")?;
    text.push(0)?;
    let (events, used) = read_batch(alloc, &text)?.ok_or("no batch")?;
    assert_eq!(rt; used, 31);
    assert_eq!(rt; events.len(), 1);
    text.truncate(30);
    assert!(rt; read_batch(alloc, &text)?.is_none());
    Ok(())
}

// Two events in one batch, and the payload of the device that an accepted subscription leaves.
#[test]
fn payload_of_a_subscription(rt: HostRuntime) -> Result<(), Fail> {
    let alloc = rt.alloc();
    let payload =
        b"\x00\x00\x00\x01\x00\x00\x00\x00\x00\x00\x00\x01\x00\x00\x00\x00\x00\x00\x03\xe8\x01\x00\x00\x00\x00\x00\x00\x00\x01\x01\x00\x00\x00\x14http://pub.example/x\x00\x00\x00\x14http://pub.example/x\x00\x00\x00\x15http://sub.example/cb\x00\x00\x00\x00\x00\x0d\x2f\x00\x01";
    let (events, used) = read_batch(alloc, payload)?.ok_or("no batch")?;
    assert_eq!(rt; used, 112);
    let Some(event) = events.first() else {
        return Err(Fail::from("no event"));
    };
    let What::Asked(intent) = &event.what else {
        return Err(Fail::from("another kind"));
    };
    assert_eq!(rt; intent.granted, 864_000);
    assert_eq!(rt;
        intent.callback.as_slice(),
        b"http://sub.example/cb".as_slice()
    );
    Ok(())
}

#[test]
fn two_events(rt: HostRuntime) -> Result<(), Fail> {
    let alloc = rt.alloc();
    let events = [
        Event {
            serial: 1,
            t: 2,
            what: What::Unheard { n: 3 },
        },
        Event {
            serial: 2,
            t: 2,
            what: What::Noticed { n: 4, heard: false },
        },
    ];
    assert_eq!(rt; batch_len(&events), 55);
    let text = write_batch(alloc, &events)?;
    let expected =
        b"\x00\x00\x00\x02\x00\x00\x00\x00\x00\x00\x00\x01\x00\x00\x00\x00\x00\x00\x00\x02\x04\x00\x00\x00\x00\x00\x00\x00\x03\x00\x00\x00\x00\x00\x00\x00\x02\x00\x00\x00\x00\x00\x00\x00\x02\x06\x00\x00\x00\x00\x00\x00\x00\x04\x00";
    assert_eq!(rt; text.as_slice(), expected.as_slice());
    let (back, _) = read_batch(alloc, text.as_slice())?.ok_or("no batch")?;
    assert!(rt; back.as_slice() == events.as_slice());
    Ok(())
}
