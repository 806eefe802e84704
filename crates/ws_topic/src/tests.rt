ghost use Rattle.std.specs.Prelude.{◌≡◌, IfOk};

use crate::Topics;
use std::alloc::Global;
use std::test::Fail;
use ws_model::{Bytes, Held, NoMemory, Version, Work};

const X: &[u8] = b"http://pub.example/x";

const Y: &[u8] = b"http://pub.example/y";

fn version(alloc: Global, ver: u64, topic: &[u8], upto: u64) -> Result<Version, NoMemory>
    ensures { IfOk result (λ v. v.ver ≡ ver) }
{
    Ok(Version {
        ver,
        topic: Bytes::copy(alloc, topic)?,
        upto,
        media: Bytes::copy(alloc, b"text/plain")?,
        own_link: Bytes::copy(alloc, topic)?,
        body: Bytes::copy(alloc, b"hello")?,
    })
}

fn is_due(topics: &Topics, held: &Held, topic: &[u8]) -> bool {
    match topics.next_due(held) {
        Some(key) => key.as_slice() == topic,
        None => false,
    }
}

// Three missed fetches give the fetch up, and a new ping makes it owed again.
#[test]
fn three_missed_fetches_then_new_ping(rt: HostRuntime) -> Result<(), Fail> {
    let alloc = rt.alloc();
    let none = Held::empty(alloc);
    let mut topics = Topics::empty(alloc);
    topics.unfetched(X, 0);
    topics.pinged(X, 1)?;
    for left in [1, 1, 0] {
        assert!(rt; is_due(&topics, &none, X));
        topics.unfetched(X, 1);
        assert!(rt; topics.fetches() == left);
    }
    assert!(rt; topics.next_due(&none).is_none());
    topics.pinged(X, 5)?;
    assert!(rt; is_due(&topics, &none, X) && topics.fetches() == 1);
    Ok(())
}

// A fetch that began before the latest ping doesn't answer it; the topics are due in order, without
// the one whose ticket is out.
#[test]
fn fetches_answer_earlier_pings(rt: HostRuntime) -> Result<(), Fail> {
    let alloc = rt.alloc();
    let none = Held::empty(alloc);
    let mut out = Held::empty(alloc);
    let mut topics = Topics::empty(alloc);
    topics.pinged(Y, 3)?;
    topics.pinged(X, 4)?;
    out.push(Work::Fetch {
        topic: Bytes::copy(alloc, X)?,
        upto: 4,
    })?;
    assert!(rt; is_due(&topics, &none, X) && is_due(&topics, &out, Y));
    topics.same(X, 3);
    assert!(rt; is_due(&topics, &none, X));
    topics.same(X, 4);
    assert!(rt; is_due(&topics, &none, Y));
    topics.same(Y, 4);
    assert!(rt; topics.next_due(&none).is_none() && topics.fetch(Y).is_none());
    Ok(())
}

// A version settles the fetch of a ping that isn't later. The latest one of a topic stays when an earlier
// one is forgotten, and isn't forgotten itself.
#[test]
fn latest_version_stays(rt: HostRuntime) -> Result<(), Fail> {
    let alloc = rt.alloc();
    let mut topics = Topics::empty(alloc);
    topics.fetched(version(alloc, 1, X, 0)?)?;
    topics.pinged(X, 3)?;
    topics.fetched(version(alloc, 2, X, 3)?)?;
    assert!(rt; topics.fetch(X).is_none() && topics.fetches() == 0);
    assert!(rt; topics.latest(X) == Some(2) && topics.topics() == 1 && topics.bodies() == 10);
    topics.forget(1);
    topics.forget(2);
    assert!(rt; topics.version(1).is_none() && topics.version(2).is_some());
    assert!(rt; topics.latest(X) == Some(2) && topics.bodies() == 5);
    assert!(rt; topics.latest(Y).is_none());
    Ok(())
}
