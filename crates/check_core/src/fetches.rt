// What fetches make of a topic that has a version, worked out by hand.

use crate::examples::{CHALLENGE, Step, played, reply};
use check_histories::{X, bytes};
use std::alloc::Global;
use std::test::Fail;
use ws_model::{NoMemory, Outcome, Reply, Settled, What, Work};

/// What a publisher answers: a status, a type, a coding, Link fields and a body.
#[derive(Clone, Copy)]
struct Content {
    code: u16,
    media: &'static str,
    coding: &'static str,
    links: &'static str,
    body: &'static str,
}

/// The content that the topic has.
const BEFORE: Content = Content {
    code: 200,
    media: "text/plain",
    coding: "",
    links: "",
    body: "hello",
};

/// What a fetch makes: a version, whose own link has this path of the publisher's, none since the content is
/// the same, or none for this reason.
#[derive(Clone, Copy, Debug, PartialEq)]
enum Makes {
    Version(&'static str),
    Same,
    Missed(u16),
    Other,
}

fn outcome(alloc: Global, content: Content) -> Result<Outcome, NoMemory> {
    Ok(Outcome::Reply(Reply {
        media: bytes(alloc, content.media)?,
        coding: bytes(alloc, content.coding)?,
        links: bytes(alloc, content.links)?,
        body: bytes(alloc, content.body)?,
        ..reply(alloc, content.code)?
    }))
}

// Of a topic that is pinged again, at serial 3.
fn settled(alloc: Global, content: Content) -> Result<Settled, Fail> {
    let steps = [
        (1_000, Step::Ping),
        (1_001, Step::Fetch(1)),
        (1_002, Step::Ping),
    ];
    let core = played(alloc, &steps)?;
    let topic = bytes(alloc, X)?;
    let fetch = Work::Fetch { topic, upto: 3 };
    Ok(core.settle(1_003, &fetch, 1_002, CHALLENGE, &outcome(alloc, content)?)?)
}

fn made(alloc: Global, content: Content) -> Result<Makes, Fail> {
    Ok(match &settled(alloc, content)? {
        Settled::Event(What::Fetched(version)) => linked_to(version.own_link.as_slice()),
        Settled::Event(What::Same { .. }) => Makes::Same,
        Settled::Event(What::Unfetched { why, .. }) => Makes::Missed(*why),
        _ => Makes::Other,
    })
}

// A version with this own link.
fn linked_to(link: &[u8]) -> Makes {
    if link == X.as_bytes() {
        Makes::Version("/x")
    } else if link == b"http://pub.example/feed".as_slice() {
        Makes::Version("/feed")
    } else {
        Makes::Other
    }
}

// The same body under the same type is no new version, whatever its Link fields are.
#[test]
fn equal_fetch_is_same(rt: HostRuntime) -> Result<(), Fail> {
    let alloc = rt.alloc();
    let links = "</feed>; rel=self";
    let media = "text/html";
    let same = made(alloc, BEFORE)?;
    let linked = made(alloc, Content { links, ..BEFORE })?;
    let hypertext = made(alloc, Content { media, ..BEFORE })?;
    let wanted = [Makes::Same, Makes::Same, Makes::Version("/x")];
    assert_eq!(rt; [same, linked, hypertext], wanted);
    Ok(())
}

#[test]
fn link_field_targets(rt: HostRuntime) -> Result<(), Fail> {
    let alloc = rt.alloc();
    let body = "new";
    let links = "<https://hub.example/>; rel=\"hub foo\", </feed>; rel=self; rel=hub";
    let one = made(
        alloc,
        Content {
            links,
            body,
            ..BEFORE
        },
    )?;
    let links = "</feed>; rel=self, </b>; rel=self";
    let two = made(
        alloc,
        Content {
            links,
            body,
            ..BEFORE
        },
    )?;
    assert_eq!(rt; [one, two], [Makes::Version("/feed"), Makes::Version("/x")]);
    Ok(())
}

#[test]
fn coded_and_missing_fetch(rt: HostRuntime) -> Result<(), Fail> {
    let alloc = rt.alloc();
    let coding = "gzip";
    let coded = made(alloc, Content { coding, ..BEFORE })?;
    let missing = made(
        alloc,
        Content {
            code: 404,
            ..BEFORE
        },
    )?;
    assert_eq!(rt; [coded, missing], [Makes::Missed(4), Makes::Missed(404)]);
    Ok(())
}
