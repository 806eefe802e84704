use std::alloc::Global;
use std::test::Fail;
use ws_model::{
    Account, Alg, Bytes, Cause, Event, Fate, How, Intent, Mode, NoMemory, Tally, Version, What,
    Work,
};
use ws_plain::{account, all_fates, due, fate, keep, live, notices, pending};

const TOPIC: &str = "http://pub.example/x";

const CALLBACK: &str = "http://sub.example/cb";

const OTHER_CALLBACK: &str = "http://sub.example/cc";

fn bytes(alloc: Global, text: &str) -> Result<Bytes, NoMemory> {
    Bytes::copy(alloc, text.as_bytes())
}

fn asked(alloc: Global, n: u64, callback: &str, granted: u32) -> Result<What, NoMemory> {
    Ok(What::Asked(Intent {
        n,
        mode: Mode::On,
        topic: bytes(alloc, TOPIC)?,
        echo: bytes(alloc, TOPIC)?,
        callback: bytes(alloc, callback)?,
        secret: bytes(alloc, "")?,
        granted,
        alg: Alg::Sha256,
    }))
}

fn pinged(alloc: Global) -> Result<What, NoMemory> {
    Ok(What::Pinged {
        topic: bytes(alloc, TOPIC)?,
    })
}

fn fetched(alloc: Global, ver: u64, upto: u64) -> Result<What, NoMemory> {
    Ok(What::Fetched(Version {
        ver,
        topic: bytes(alloc, TOPIC)?,
        upto,
        media: bytes(alloc, "text/plain")?,
        own_link: bytes(alloc, TOPIC)?,
        body: bytes(alloc, "hello")?,
    }))
}

fn missed(ver: u64, lease: u64) -> What {
    What::Pushed {
        ver,
        lease,
        how: How::Missed(503),
    }
}

fn happen(events: &mut Vec<Event>, serial: u64, t: u64, what: What) -> Result<(), NoMemory> {
    events.push(Event { serial, t, what })?;
    Ok(())
}

// A lease of ten days from 1000 on.
fn leased(alloc: Global) -> Result<Vec<Event>, NoMemory> {
    let mut events = Vec::new(alloc);
    happen(&mut events, 1, 1000, asked(alloc, 1, CALLBACK, 864_000)?)?;
    happen(&mut events, 2, 1000, What::Confirmed { n: 1, sent: 1000 })?;
    Ok(events)
}

#[test]
fn renewal_carries_owed_push(rt: HostRuntime) -> Result<(), Fail> {
    let alloc = rt.alloc();
    let mut events = leased(alloc)?;
    happen(&mut events, 3, 1999, pinged(alloc)?)?;
    happen(&mut events, 4, 2000, fetched(alloc, 1, 3)?)?;
    happen(&mut events, 5, 2000, missed(1, 1))?;
    happen(&mut events, 6, 2010, missed(1, 1))?;
    let tried = Some(Fate::Owed {
        tries: 2,
        next: 2040,
    });
    assert_eq!(rt; fate(alloc, &events, 1, 1, 2040)?, tried);
    assert_eq!(rt; due(alloc, &events, 2039, &[])?.len(), 0);
    happen(&mut events, 7, 2041, asked(alloc, 2, CALLBACK, 864_000)?)?;
    assert_eq!(rt; pending(alloc, &events)?.len(), 1);
    happen(&mut events, 8, 2042, What::Confirmed { n: 2, sent: 2041 })?;
    let anew = Some(Fate::Owed {
        tries: 0,
        next: 2042,
    });
    assert_eq!(rt; fate(alloc, &events, 1, 2, 2042)?, anew);
    let replaced = Some(Fate::Ended(Cause::Replaced));
    assert_eq!(rt; fate(alloc, &events, 1, 1, 2042)?, replaced);
    assert_eq!(rt; fate(alloc, &events, 2, 1, 2042)?, None);
    let all = all_fates(alloc, &events, 2042)?;
    assert_eq!(rt; all.len(), 2);
    assert_eq!(rt; (all[0].ver, all[0].lease, Some(all[0].fate)), (1, 2, anew));
    assert_eq!(rt;
        (all[1].ver, all[1].lease, Some(all[1].fate)),
        (1, 1, replaced)
    );
    let push = [Work::Push { ver: 1, lease: 2 }];
    assert_eq!(rt; due(alloc, &events, 2042, &[])?.as_slice(), push.as_slice());
    assert_eq!(rt; due(alloc, &events, 2042, &push)?.len(), 0);
    let live = live(alloc, &events, 2042)?;
    assert_eq!(rt; live.len(), 1);
    assert_eq!(rt; live[0].intent.n, 2);
    Ok(())
}

// Version 1 is born at 1000, version 2 at 1050; each miss comes when its try is due.
#[test]
fn eight_misses_spend(rt: HostRuntime) -> Result<(), Fail> {
    let alloc = rt.alloc();
    let mut events = leased(alloc)?;
    happen(&mut events, 3, 1000, fetched(alloc, 1, 2)?)?;
    for (serial, t) in [(4, 1000), (5, 1010), (6, 1040)] {
        happen(&mut events, serial, t, missed(1, 1))?;
    }
    happen(&mut events, 7, 1050, fetched(alloc, 2, 6)?)?;
    for (serial, t) in [(8, 1100), (9, 1400), (10, 2300), (11, 5900)] {
        happen(&mut events, serial, t, missed(1, 1))?;
    }
    assert_eq!(rt; due(alloc, &events, 16_699, &[])?.len(), 0);
    let lower = [Work::Push { ver: 1, lease: 1 }];
    assert_eq!(rt;
        due(alloc, &events, 16_700, &[])?.as_slice(),
        lower.as_slice()
    );
    happen(&mut events, 12, 16_700, missed(1, 1))?;
    let spent = Some(Fate::Ended(Cause::Spent));
    assert_eq!(rt; fate(alloc, &events, 1, 1, 16_700)?, spent);
    let higher = [Work::Push { ver: 2, lease: 1 }];
    assert_eq!(rt;
        due(alloc, &events, 16_700, &[])?.as_slice(),
        higher.as_slice()
    );
    Ok(())
}

// Verifications by number, notices, fetches; the fetch is drawn at the greatest serial.
#[test]
fn work_in_its_order(rt: HostRuntime) -> Result<(), Fail> {
    let alloc = rt.alloc();
    let mut events = leased(alloc)?;
    happen(&mut events, 3, 1001, asked(alloc, 2, OTHER_CALLBACK, 60)?)?;
    happen(&mut events, 4, 1001, pinged(alloc)?)?;
    let reason = bytes(alloc, "revoked")?;
    happen(&mut events, 5, 1001, What::Revoked { n: 1, reason })?;
    happen(&mut events, 6, 1001, asked(alloc, 3, CALLBACK, 60)?)?;
    let notices = notices(alloc, &events)?;
    assert_eq!(rt; notices.len(), 1);
    assert_eq!(rt; notices[0].n, 1);
    let topic = bytes(alloc, TOPIC)?;
    let works = [
        Work::Verify { n: 2 },
        Work::Verify { n: 3 },
        Work::Notice { n: 1 },
        Work::Fetch { topic, upto: 6 },
    ];
    assert_eq!(rt;
        due(alloc, &events, 1001, &[])?.as_slice(),
        works.as_slice()
    );
    Ok(())
}

// The account of one live lease, one topic and two answered pairs.
fn two_answered() -> Account {
    Account {
        pending: 0,
        notices: 0,
        leases: 1,
        topics: 1,
        fetches: 0,
        owed: 0,
        answered: 2,
        expired: 0,
        unsubscribed: 0,
        replaced: 0,
        gone: 0,
        spent: 0,
        revoked: 0,
    }
}

// The second lease has expired; its pair is in the Tally.
fn one_forgotten() -> What {
    What::Tally(Tally {
        now: 2000,
        serial: 8,
        intent: 2,
        version: 1,
        answered: 1,
        expired: 0,
        unsubscribed: 0,
        replaced: 0,
        gone: 0,
        spent: 0,
        revoked: 0,
    })
}

#[test]
fn compaction_keeps_counts(rt: HostRuntime) -> Result<(), Fail> {
    let alloc = rt.alloc();
    let mut events = Vec::new(alloc);
    happen(&mut events, 1, 1000, asked(alloc, 1, CALLBACK, 864_000)?)?;
    happen(&mut events, 2, 1000, asked(alloc, 2, OTHER_CALLBACK, 60)?)?;
    happen(&mut events, 3, 1000, What::Confirmed { n: 1, sent: 1000 })?;
    happen(&mut events, 4, 1000, What::Confirmed { n: 2, sent: 1000 })?;
    happen(&mut events, 5, 1001, pinged(alloc)?)?;
    happen(&mut events, 6, 1001, fetched(alloc, 1, 5)?)?;
    for lease in 1..=2u64 {
        let how = How::Done;
        happen(
            &mut events,
            6 + lease,
            1001 + lease,
            What::Pushed { ver: 1, lease, how },
        )?;
    }
    assert_eq!(rt; account(alloc, &events, 2000)?, two_answered());
    let kept = keep(alloc, &events, 2000)?;
    assert_eq!(rt; account(alloc, &kept, 2000)?, two_answered());
    let serials = [0u64, 1, 3, 6, 7];
    assert_eq!(rt; kept.len(), serials.len());
    for (event, serial) in kept.iter().zip(&serials) {
        assert_eq!(rt; event.serial, *serial);
    }
    assert!(rt; kept[0].what == one_forgotten());
    Ok(())
}
