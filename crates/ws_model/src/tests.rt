use crate::{
    Alg, Bytes, Event, Events, Held, Intent, Keys, Mode, Outcome, Reply, Version, What, Work,
    are_digits, delay, number_within,
};
use std::test::Fail;

// The waits of the retry table, from the first miss to the seventh.
#[test]
fn waits_after_misses(rt: HostRuntime) {
    for (k, want) in [
        (1, 10),
        (2, 30),
        (3, 60),
        (4, 300),
        (5, 900),
        (6, 3_600),
        (7, 10_800),
    ] {
        assert_eq!(rt; delay(k), want, "after miss {k}");
    }
}

#[test]
fn digits_and_their_numbers(rt: HostRuntime) {
    let cases: [(&[u8], u64, u64); 6] = [
        (b"", 9, 0),
        (b"7", 9, 7),
        (b"007", 9, 7),
        (b"65536", 65_535, 65_535),
        (b"18446744073709551615", u64::MAX, u64::MAX),
        (b"18446744073709551616", u64::MAX, u64::MAX),
    ];
    for (digits, most, want) in cases {
        assert!(rt; are_digits(digits));
        assert_eq!(rt; number_within(digits, most), want, "up to {most}");
    }
    assert!(rt; !are_digits(b"1:") && !are_digits(b"/1"));
}

// At the limits of a status, and media types with blanks or a line's end.
#[test]
fn outcomes_that_an_exchange_can_have(rt: HostRuntime) -> Result<(), Fail> {
    let alloc = rt.alloc();
    for (code, media, want) in [
        (200, "text/plain", true),
        (999, "", true),
        (199, "", false),
        (1_000, "", false),
        (200, "text/plain\t", false),
        (200, "a\nb", false),
    ] {
        let outcome = Outcome::Reply(Reply {
            code,
            media: Bytes::copy(alloc, media.as_bytes())?,
            coding: Bytes::from_vec(Vec::new(alloc)),
            links: Bytes::from_vec(Vec::new(alloc)),
            body: Bytes::from_vec(Vec::new(alloc)),
        });
        assert_eq!(rt; outcome.fit(), want, "{code} {media}");
    }
    assert!(rt; Outcome::Late.fit());
    Ok(())
}

#[test]
fn lists_and_copies(rt: HostRuntime) -> Result<(), Fail> {
    let alloc = rt.alloc();
    let intent = Intent {
        n: 1,
        mode: Mode::On,
        topic: Bytes::copy(alloc, b"t")?,
        echo: Bytes::copy(alloc, b"e")?,
        callback: Bytes::copy(alloc, b"c")?,
        secret: Bytes::copy(alloc, b"s")?,
        granted: 60,
        alg: Alg::Sha1,
    };
    let copied = intent.copy(alloc)?;
    assert!(rt; copied == intent && copied.echo.as_slice() == b"e".as_slice());
    let version = Version {
        ver: 1,
        topic: Bytes::copy(alloc, b"t")?,
        upto: 0,
        media: Bytes::copy(alloc, b"m")?,
        own_link: Bytes::copy(alloc, b"l")?,
        body: Bytes::copy(alloc, b"b")?,
    };
    let copied = version.copy(alloc)?;
    assert!(rt; copied == version && copied.own_link.as_slice() == b"l".as_slice());

    let mut keys = Keys::empty(alloc);
    keys.push(Bytes::copy(alloc, b"t")?)?;
    assert_eq!(rt; keys.as_slice().len(), 1);
    let mut held = Held::empty(alloc);
    held.push(Work::Verify { n: 1 })?;
    assert!(rt; held.as_slice()[0] == Work::Verify { n: 1 });
    let mut events = Events::empty(alloc);
    events.push(Event {
        serial: 1,
        t: 1_000,
        what: What::Asked(intent),
    })?;
    assert!(rt; events.len() == 1 && !events.is_empty());
    assert_eq!(rt; events.as_slice()[0].serial, 1);
    Ok(())
}
