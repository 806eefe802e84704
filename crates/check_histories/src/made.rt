// Events as the tests make them.

use std::alloc::Global;
use ws_model::{Alg, Bytes, Event, Intent, Mode, NoMemory, Version, What, Work};

pub const X: &str = "http://pub.example/x";

pub const Y: &str = "http://pub.example/y";

pub const TOPICS: [&str; 2] = [X, Y];

pub const CB: &str = "http://sub.example/cb";

pub const CC: &str = "http://sub.example/cc";

pub const CALLBACKS: [&str; 3] = [CB, CC, "http://sub.example/cd"];

pub fn bytes(alloc: Global, text: &str) -> Result<Bytes, NoMemory> {
    Bytes::copy(alloc, text.as_bytes())
}

/// Adds what happens at `t`, in seconds, under the next serial.
pub fn happen(events: &mut Vec<Event>, t: u64, what: What) -> Result<(), NoMemory> {
    let serial = events.len() as u64 + 1;
    events.push(Event { serial, t, what })?;
    Ok(())
}

/// The events of a lease of so many seconds from 1000 on, confirmed at 1029.
pub fn leased(alloc: Global, granted: u32) -> Result<Vec<Event>, NoMemory> {
    let mut events = Vec::new(alloc);
    happen(&mut events, 1_000, asked(alloc, 1, X, CB, granted)?)?;
    happen(&mut events, 1_029, What::Confirmed { n: 1, sent: 1_000 })?;
    Ok(events)
}

/// A subscription of so many seconds, or with 0 an unsubscription.
pub fn asked(
    alloc: Global,
    n: u64,
    topic: &str,
    callback: &str,
    granted: u32,
) -> Result<What, NoMemory> {
    Ok(What::Asked(Intent {
        n,
        mode: if granted == 0 { Mode::Off } else { Mode::On },
        topic: bytes(alloc, topic)?,
        echo: bytes(alloc, topic)?,
        callback: bytes(alloc, callback)?,
        secret: bytes(alloc, "")?,
        granted,
        alg: Alg::Sha256,
    }))
}

pub fn pinged(alloc: Global, topic: &str) -> Result<What, NoMemory> {
    Ok(What::Pinged {
        topic: bytes(alloc, topic)?,
    })
}

pub fn fetched(alloc: Global, ver: u64, topic: &str, upto: u64) -> Result<What, NoMemory> {
    Ok(What::Fetched(Version {
        ver,
        topic: bytes(alloc, topic)?,
        upto,
        media: bytes(alloc, "text/plain")?,
        own_link: bytes(alloc, topic)?,
        body: bytes(alloc, "hello")?,
    }))
}

pub fn same(alloc: Global, topic: &str, upto: u64) -> Result<What, NoMemory> {
    Ok(What::Same {
        topic: bytes(alloc, topic)?,
        upto,
    })
}

pub fn unfetched(alloc: Global, topic: &str, upto: u64) -> Result<What, NoMemory> {
    Ok(What::Unfetched {
        topic: bytes(alloc, topic)?,
        upto,
        why: 5,
    })
}

/// Work again.
pub fn copy(alloc: Global, work: &Work) -> Result<Work, NoMemory> {
    match work {
        Work::Verify { n } => Ok(Work::Verify { n: *n }),
        Work::Notice { n } => Ok(Work::Notice { n: *n }),
        Work::Fetch { topic, upto } => Ok(Work::Fetch {
            topic: Bytes::copy(alloc, topic.as_slice())?,
            upto: *upto,
        }),
        Work::Push { ver, lease } => Ok(Work::Push {
            ver: *ver,
            lease: *lease,
        }),
    }
}
