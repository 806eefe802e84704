// When the rooms of versions and of leases are given back, worked out by hand.
ghost use Rattle.std.specs.Prelude.{OnOk};
ghost use Rattle.ws_core.specs.Follows.{HasHistory};

use crate::Core;
use std::alloc::Global;
use std::test::Fail;
use ws_model::{Alg, Bytes, Event, How, Intent, Mode, NoMemory, Version, What};

const TOPIC: &[u8] = b"http://pub.example/";

/// What happens next, by numbers: of an intent and the place of its callback, of an intent, of a version, of
/// a version and a lease, of a lease, and of one again.
#[derive(Clone, Copy)]
enum Step {
    Asked(u64, Mode, u8),
    Confirmed(u64),
    Fetched(u64),
    Pushed(u64, u64, How),
    Revoked(u64),
    Noticed(u64),
}

/// Each step with how many pairs have a room after it.
const STEPS: [(Step, u64); 30] = [
    (Step::Asked(1, Mode::On, b'a'), 0),
    (Step::Confirmed(1), 0),
    (Step::Asked(2, Mode::On, b'b'), 0),
    (Step::Confirmed(2), 0),
    (Step::Asked(3, Mode::On, b'c'), 0),
    (Step::Confirmed(3), 0),
    (Step::Fetched(1), 3),
    (Step::Pushed(1, 1, How::Done), 3),
    (Step::Pushed(1, 2, How::Done), 3),
    // Version 1 is owed to lease 3.
    (Step::Fetched(2), 6),
    (Step::Pushed(1, 3, How::Done), 3),
    (Step::Pushed(2, 1, How::Done), 3),
    (Step::Pushed(2, 2, How::Done), 3),
    (Step::Pushed(2, 3, How::Done), 3),
    // Nothing is owed of version 2.
    (Step::Fetched(3), 3),
    // Lease 1 is over. Version 3 is owed to the others.
    (Step::Pushed(3, 1, How::Gone), 2),
    (Step::Fetched(4), 4),
    // A notice of lease 2 is owed.
    (Step::Revoked(2), 4),
    (Step::Asked(4, Mode::Off, b'c'), 4),
    // Lease 3 is over too. Version 4 is the latest.
    (Step::Confirmed(4), 1),
    (Step::Noticed(2), 0),
    (Step::Asked(5, Mode::On, b'd'), 0),
    (Step::Confirmed(5), 0),
    (Step::Fetched(5), 1),
    (Step::Asked(6, Mode::On, b'd'), 1),
    // Version 5 goes over from lease 5 to lease 6.
    (Step::Confirmed(6), 2),
    (Step::Pushed(5, 6, How::Done), 2),
    (Step::Asked(7, Mode::On, b'd'), 2),
    // Nothing goes over from lease 6 to lease 7, so that lease 5 isn't kept any more either.
    (Step::Confirmed(7), 0),
    // Version 6 is owed to lease 7.
    (Step::Fetched(6), 1),
];

/// When all of this happens, and when the leases have expired, in seconds.
const NOW: u64 = 1_000;

const EXPIRY: u64 = 865_000;

/// When each step happens, and how many pairs have a room after it.
const EXPIRING: [(u64, Step, u64); 11] = [
    (1_000, Step::Asked(1, Mode::On, b'a'), 0),
    (1_000, Step::Confirmed(1), 0),
    (500_000, Step::Asked(2, Mode::On, b'b'), 0),
    (500_000, Step::Confirmed(2), 0),
    (600_000, Step::Fetched(1), 2),
    (600_000, Step::Pushed(1, 2, How::Done), 2),
    // Version 1 is owed to lease 1.
    (600_000, Step::Fetched(2), 4),
    (600_000, Step::Pushed(2, 2, How::Done), 4),
    // Lease 1 has expired, and so version 1 is owed to nobody.
    (865_000, Step::Asked(3, Mode::On, b'c'), 2),
    (865_000, Step::Asked(4, Mode::On, b'd'), 2),
    // The round has come by. Version 2 is the latest.
    (865_000, Step::Asked(5, Mode::On, b'e'), 1),
];

fn asked(alloc: Global, n: u64, mode: Mode, place: u8) -> Result<What, NoMemory> {
    let mut callback = b"http://sub.example/".to_vec(alloc)?;
    callback.push(place)?;
    Ok(What::Asked(Intent {
        n,
        mode,
        topic: Bytes::copy(alloc, TOPIC)?,
        echo: Bytes::copy(alloc, TOPIC)?,
        callback: Bytes::from_vec(callback),
        secret: Bytes::copy(alloc, b"")?,
        granted: if mode == Mode::On { 864_000 } else { 0 },
        alg: Alg::Sha256,
    }))
}

fn fetched(alloc: Global, ver: u64) -> Result<What, NoMemory> {
    Ok(What::Fetched(Version {
        ver,
        topic: Bytes::copy(alloc, TOPIC)?,
        upto: 0,
        media: Bytes::copy(alloc, b"text/plain")?,
        own_link: Bytes::copy(alloc, TOPIC)?,
        body: Bytes::copy(alloc, b"news")?,
    }))
}

fn what(alloc: Global, step: Step, t: u64) -> Result<What, NoMemory> {
    match step {
        Step::Asked(n, mode, place) => asked(alloc, n, mode, place),
        Step::Confirmed(n) => Ok(What::Confirmed { n, sent: t }),
        Step::Fetched(ver) => fetched(alloc, ver),
        Step::Pushed(ver, lease, how) => Ok(What::Pushed { ver, lease, how }),
        Step::Revoked(n) => Ok(What::Revoked {
            n,
            reason: Bytes::copy(alloc, b"moved")?,
        }),
        Step::Noticed(n) => Ok(What::Noticed { n, heard: true }),
    }
}

/// Applies a step at `t`, where the core accepts it, and says how many pairs have a room.
fn rooms_after(alloc: Global, core: &mut Core, step: Step, t: u64) -> Result<Option<u64>, NoMemory>
    requires { HasHistory core.old }
    ensures { OnOk result (HasHistory core.new) }
{
    let serial = core.serial().saturating_add(1);
    let event = Event {
        serial,
        t,
        what: what(alloc, step, t)?,
    };
    if !core.accepts(&event)? {
        return Ok(None);
    }
    core.apply(&event)?;
    let mut rooms = 0u64;
    for _ in core.tries.rooms() {
        rooms = rooms.saturating_add(1);
    }
    Ok(Some(rooms))
}

#[test]
fn rooms_are_given_back(rt: HostRuntime) -> Result<(), Fail> {
    let alloc = rt.alloc();
    let mut core = Core::empty(alloc);
    for (step, rooms) in &STEPS {
        assert_eq!(rt; rooms_after(alloc, &mut core, *step, NOW)?, Some(*rooms));
    }
    let next = Step::Asked(8, Mode::On, b'e');
    assert_eq!(rt; rooms_after(alloc, &mut core, next, EXPIRY)?, Some(0));
    Ok(())
}

#[test]
fn rooms_are_gone_over(rt: HostRuntime) -> Result<(), Fail> {
    let alloc = rt.alloc();
    let mut core = Core::empty(alloc);
    for (t, step, rooms) in &EXPIRING {
        assert_eq!(rt; rooms_after(alloc, &mut core, *step, *t)?, Some(*rooms));
    }
    Ok(())
}
