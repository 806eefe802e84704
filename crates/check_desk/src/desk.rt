// What a desk tells, worked out by hand from what requests make.
use std::alloc::Global;
use std::test::Fail;
use ws_desk::Desk;
use ws_form::read_ask;
use ws_model::{Alg, Bytes, Keys, NoMemory, Policy, Settings};
use ws_port::{Port, Told};

const SUBSCRIPTION: &str =
    "hub.mode=subscribe&hub.topic=http://pub.example/x&hub.callback=http://sub.example/cb&hub.lease_seconds=300";

const PUBLICATION: &str = "hub.mode=publish&hub.url=http://pub.example/x";

fn bytes(alloc: Global, text: &str) -> Result<Bytes, NoMemory> {
    Bytes::copy(alloc, text.as_bytes())
}

// A desk that allows topics with one prefix, or all topics where it is empty.
fn desk(alloc: Global, prefix: &str) -> Result<Desk, NoMemory> {
    let mut allow = Keys::empty(alloc);
    if !prefix.is_empty() {
        allow.push(bytes(alloc, prefix)?)?;
    }
    let policy = Policy {
        hub: bytes(alloc, "http://127.0.0.1:8080/")?,
        gateway: false,
        allow,
        alg: Alg::Sha256,
    };
    Ok(Desk::start(
        alloc,
        Settings {
            policy,
            gateway: None,
        },
    ))
}

// What a port tells of a form.
fn asked<P: Port>(alloc: Global, port: &mut P, now: u64, form: &str) -> Result<Told, Fail> {
    let ask = read_ask(alloc, form.as_bytes(), false)?;
    Ok(port.ask(now, &ask)?)
}

// What a port tells of the end of a lease.
fn revoked<P: Port>(alloc: Global, port: &mut P, now: u64) -> Result<Told, Fail> {
    let topic = bytes(alloc, "http://pub.example/x")?;
    let callback = bytes(alloc, "http://sub.example/cb")?;
    Ok(port.revoke(now, &topic, &callback)?)
}

// How many intents are pending, and how many notices are owed.
fn waiting<P: Port>(port: &mut P, now: u64) -> (u64, u64) {
    let account = port.account(now);
    (account.pending, account.notices)
}

// What a desk that allows a prefix tells of a form at 1000, what waits then, and what it tells of the end of
// a lease.
fn played(alloc: Global, prefix: &str, form: &str) -> Result<(Told, (u64, u64), Told), Fail> {
    let mut desk = desk(alloc, prefix)?;
    let told = asked(alloc, &mut desk, 1000, form)?;
    let waits = waiting(&mut desk, 1000);
    let ended = revoked(alloc, &mut desk, 1000)?;
    Ok((told, waits, ended))
}

// How many events a desk tells, the hub times after two subscriptions, the second at an earlier clock, and
// after an account at the latest one.
fn hub_times(alloc: Global) -> Result<(u64, u64, u64, u64), Fail> {
    let mut desk = desk(alloc, "")?;
    asked(alloc, &mut desk, 1000, SUBSCRIPTION)?;
    let first = desk.time();
    let told = asked(alloc, &mut desk, 500, SUBSCRIPTION)?;
    let second = desk.time();
    waiting(&mut desk, u64::MAX);
    Ok((told.at, first, second, desk.time()))
}

#[test]
fn requests(rt: HostRuntime) -> Result<(), Fail> {
    let alloc = rt.alloc();
    let none = Told { at: 0, events: 0 };
    let one = Told { at: 1, events: 1 };
    let one_before = Told { at: 1, events: 0 };
    let two = Told { at: 2, events: 2 };
    let two_before = Told { at: 2, events: 0 };
    let allowed = "http://pub.example/";
    let other = "http://other.example/";
    assert_eq!(rt; played(alloc, "", SUBSCRIPTION)?, (one, (1, 0), one_before));
    assert_eq!(rt;
        played(alloc, allowed, SUBSCRIPTION)?,
        (one, (1, 0), one_before)
    );
    assert_eq!(rt;
        played(alloc, other, SUBSCRIPTION)?,
        (two, (0, 1), two_before)
    );
    assert_eq!(rt; played(alloc, "", PUBLICATION)?, (none, (0, 0), none));
    Ok(())
}

#[test]
fn hub_time_does_not_go_back(rt: HostRuntime) -> Result<(), Fail> {
    assert_eq!(rt;
        hub_times(rt.alloc())?,
        (2, 1000, 1000, 281_474_976_710_655)
    );
    Ok(())
}
