// Whole copies and light ones of a fetched version and of a request.
use std::alloc::Global;
use std::test::Fail;
use ws_copies::{copy_event, light_copy, lightened};
use ws_model::{Alg, Bytes, Event, Intent, Mode, NoMemory, Version, What};

// A fetched version with these four texts: topic, type, link and body.
fn fetched(alloc: Global, texts: [&[u8]; 4]) -> Result<Event, NoMemory> {
    let [topic, media, own_link, body] = texts;
    let version = Version {
        ver: 3,
        topic: Bytes::copy(alloc, topic)?,
        upto: 5,
        media: Bytes::copy(alloc, media)?,
        own_link: Bytes::copy(alloc, own_link)?,
        body: Bytes::copy(alloc, body)?,
    };
    Ok(Event {
        serial: 7,
        t: 60,
        what: What::Fetched(version),
    })
}

fn news(alloc: Global) -> Result<Event, NoMemory> {
    fetched(
        alloc,
        [
            b"http://p.example/",
            b"text/plain",
            b"http://p.example/own",
            b"news",
        ],
    )
}

fn whole_is_same(alloc: Global) -> Result<bool, NoMemory> {
    let event = news(alloc)?;
    Ok(copy_event(alloc, &event)? == event)
}

fn light_has_no_text(alloc: Global) -> Result<bool, NoMemory> {
    let light = light_copy(alloc, &news(alloc)?)?;
    Ok(light == fetched(alloc, [b"", b"", b"", b""])?)
}

// A request with these two keys.
fn asked(alloc: Global, topic: &[u8], callback: &[u8]) -> Result<Event, NoMemory> {
    let intent = Intent {
        n: 3,
        mode: Mode::On,
        topic: Bytes::copy(alloc, topic)?,
        echo: Bytes::from_vec(Vec::new(alloc)),
        callback: Bytes::copy(alloc, callback)?,
        secret: Bytes::from_vec(Vec::new(alloc)),
        granted: 3_600,
        alg: Alg::Sha256,
    };
    Ok(Event {
        serial: 7,
        t: 60,
        what: What::Asked(intent),
    })
}

fn light_has_no_key(alloc: Global) -> Result<bool, NoMemory> {
    let event = asked(alloc, b"http://p.example/", b"http://c.example/")?;
    let light = asked(alloc, b"", b"")?;
    Ok(light_copy(alloc, &event)? == light && lightened(alloc, event) == light)
}

#[test]
fn copies_of_a_request(rt: HostRuntime) -> Result<(), Fail> {
    assert!(rt; light_has_no_key(rt.alloc())?);
    Ok(())
}

#[test]
fn copies_of_a_version(rt: HostRuntime) -> Result<(), Fail> {
    assert!(rt; whole_is_same(rt.alloc())?);
    assert!(rt; light_has_no_text(rt.alloc())?);
    Ok(())
}
