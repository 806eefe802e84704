// Histories worked out by hand, on the core. Each is of one topic.

use crate::applied::{TIME_LIMIT, after};
use check_histories::{CB, X, asked, bytes, fetched, happen, pinged, unfetched};
use std::alloc::Global;
use std::test::Fail;
use ws_core::Core;
use ws_core_tables::DueWork;
use ws_model::{Cause, Event, Fate, Held, How, NoMemory, Outcome, Reply, Settled, What, Work};

/// What a callback answers to confirm.
pub const CHALLENGE: &[u8; 40] = b"0000000000000000000000000000000000000001";

/// What happens, in short. Where the step doesn't say so, leases are long, a fetch gives what was there at
/// serial 1, and a push is to lease 1.
#[derive(Clone, Copy)]
pub enum Step {
    Ask(u64, &'static str),
    /// So many seconds are granted.
    AskFor(u64, &'static str, u32),
    Confirm(u64),
    Revoke(u64),
    Ping,
    Fetch(u64),
    /// A version, of what was there at a serial.
    FetchUpto(u64, u64),
    Unfetched,
    Push(u64, How),
    /// A version to a lease.
    PushTo(u64, u64, How),
}

use Step::{Ask, AskFor, Confirm, Fetch, FetchUpto, Ping, Push, PushTo, Revoke, Unfetched};

pub const MISSED: How = How::Missed(503);

/// What a step at `t`, in seconds, is.
pub fn what(alloc: Global, step: Step, t: u64) -> Result<What, NoMemory> {
    match step {
        Ask(n, callback) => asked(alloc, n, X, callback, 864_000),
        AskFor(n, callback, granted) => asked(alloc, n, X, callback, granted),
        Confirm(n) => Ok(What::Confirmed { n, sent: t }),
        Revoke(n) => {
            let reason = bytes(alloc, "subscription revoked")?;
            Ok(What::Revoked { n, reason })
        }
        Ping => pinged(alloc, X),
        Fetch(ver) => fetched(alloc, ver, X, 1),
        FetchUpto(ver, upto) => fetched(alloc, ver, X, upto),
        Unfetched => unfetched(alloc, X, 1),
        Push(ver, how) => Ok(What::Pushed { ver, lease: 1, how }),
        PushTo(ver, lease, how) => Ok(What::Pushed { ver, lease, how }),
    }
}

fn history(alloc: Global, steps: &[(u64, Step)]) -> Result<Vec<Event>, NoMemory> {
    let mut events = Vec::new(alloc);
    for (t, step) in steps {
        happen(&mut events, *t, what(alloc, *step, *t)?)?;
    }
    Ok(events)
}

/// The core after these steps, each with its time, which may all come.
pub fn played(alloc: Global, steps: &[(u64, Step)]) -> Result<Core, Fail> {
    let events = history(alloc, steps)?;
    Ok(after(alloc, &events)?.ok_or("an event is refused")?)
}

/// A reply with a status alone.
pub fn reply(alloc: Global, code: u16) -> Result<Reply, NoMemory> {
    Ok(Reply {
        code,
        media: bytes(alloc, "")?,
        coding: bytes(alloc, "")?,
        links: bytes(alloc, "")?,
        body: bytes(alloc, "")?,
    })
}

// What a push of a version to lease 1 makes that is answered with this status.
fn settled(alloc: Global, core: &Core, t: u64, ver: u64, code: u16) -> Result<Settled, NoMemory> {
    if t >= TIME_LIMIT {
        return Err(NoMemory);
    }
    let push = Work::Push { ver, lease: 1 };
    let outcome = Outcome::Reply(reply(alloc, code)?);
    core.settle(t, &push, t, CHALLENGE, &outcome)
}

/// Why a push of version 1 to lease 1 is stale that is answered 200, where it is.
pub fn stale(alloc: Global, core: &Core, t: u64) -> Result<Option<Fate>, NoMemory> {
    match settled(alloc, core, t, 1, 200)? {
        Settled::Stale(fate) => Ok(Some(fate)),
        Settled::Event(_) => Ok(None),
    }
}

// How a push of a version to lease 1 ended that is answered with this status.
fn ended_push(
    alloc: Global,
    core: &Core,
    t: u64,
    ver: u64,
    code: u16,
) -> Result<Option<How>, NoMemory> {
    match settled(alloc, core, t, ver, code)? {
        Settled::Event(What::Pushed { how, .. }) => Ok(Some(how)),
        _ => Ok(None),
    }
}

/// The push that is due first, as its version and its lease.
pub fn push_due(alloc: Global, core: &Core, t: u64) -> Option<(u64, u64)> {
    match core.due(t, &Held::empty(alloc)) {
        Some(DueWork::Push { ver, lease }) => Some((ver, lease)),
        _ => None,
    }
}

fn fresh(next: u64) -> Option<Fate> {
    Some(Fate::Owed { tries: 0, next })
}

fn ended(cause: Cause) -> Option<Fate> {
    Some(Fate::Ended(cause))
}

const OWED: [(u64, Step); 3] = [(1_000, Ask(1, CB)), (1_000, Confirm(1)), (1_000, Fetch(1))];

fn pair_fates(core: &Core, t: u64) -> [Option<Fate>; 4] {
    [
        core.fate(1, 1, t),
        core.fate(1, 2, t),
        core.fate(2, 1, t),
        core.fate(0, 1, t),
    ]
}

#[test]
fn fate_of_unborn_pair(rt: HostRuntime) -> Result<(), Fail> {
    let before = played(rt.alloc(), &OWED[..2])?;
    assert_eq!(rt; pair_fates(&before, 1_000), [None, None, None, None]);
    let core = played(rt.alloc(), &OWED)?;
    assert_eq!(rt; pair_fates(&core, 1_000), [fresh(1_000), None, None, None]);
    Ok(())
}

/// A push is drawn at 2040 and is in flight when the lease is renewed.
pub const RENEWED: [(u64, Step); 7] = [
    (1_000, Ask(1, CB)),
    (1_000, Confirm(1)),
    (2_000, Fetch(1)),
    (2_000, Push(1, MISSED)),
    (2_010, Push(1, MISSED)),
    (2_041, Ask(2, CB)),
    (2_042, Confirm(2)),
];

// What became of the pairs, which push is due, and why the one in flight is stale.
fn renewed(alloc: Global) -> Result<([Option<Fate>; 4], Option<(u64, u64)>, Option<Fate>), Fail> {
    let core = played(alloc, &RENEWED)?;
    Ok((
        pair_fates(&core, 2_042),
        push_due(alloc, &core, 2_042),
        stale(alloc, &core, 2_042)?,
    ))
}

#[test]
fn renewal_carries_owed_push(rt: HostRuntime) -> Result<(), Fail> {
    let replaced = ended(Cause::Replaced);
    let fates = [replaced, fresh(2_042), None, None];
    assert_eq!(rt; renewed(rt.alloc())?, (fates, Some((1, 2)), replaced));
    Ok(())
}

/// Version 1 is tried eight times, each time as soon as it may be.
const SPENT: [(u64, Step); 12] = [
    (1_000, Ask(1, CB)),
    (1_000, Confirm(1)),
    (1_000, Fetch(1)),
    (1_000, Fetch(2)),
    (1_000, Push(1, MISSED)),
    (1_010, Push(1, MISSED)),
    (1_040, Push(1, MISSED)),
    (1_100, Push(1, MISSED)),
    (1_400, Push(1, MISSED)),
    (2_300, Push(1, MISSED)),
    (5_900, Push(1, MISSED)),
    (16_700, Push(1, MISSED)),
];

// Whether before this step version 1 is due at its time and no sooner, and version 2 isn't due.
fn is_due_at(alloc: Global, step: usize) -> Result<bool, Fail> {
    let Some((next, _)) = SPENT.get(step) else {
        return Ok(false);
    };
    let core = played(alloc, &SPENT[..step])?;
    let before = push_due(alloc, &core, next.saturating_sub(1));
    Ok(before.is_none() && push_due(alloc, &core, *next) == Some((1, 1)))
}

fn all_due(alloc: Global) -> Result<bool, Fail> {
    for step in 4..12 {
        if !is_due_at(alloc, step)? {
            return Ok(false);
        }
    }
    Ok(true)
}

// What became of version 1, which push is due then, and how many are spent.
fn spent(alloc: Global) -> Result<(Option<Fate>, Option<(u64, u64)>, u64), Fail> {
    let core = played(alloc, &SPENT)?;
    let fate = core.fate(1, 1, 16_700);
    Ok((
        fate,
        push_due(alloc, &core, 16_700),
        core.counts(16_700).spent,
    ))
}

#[test]
fn eight_misses_spend(rt: HostRuntime) -> Result<(), Fail> {
    assert_eq!(rt; all_due(rt.alloc())?, true);
    assert_eq!(rt; spent(rt.alloc())?, (ended(Cause::Spent), Some((2, 1)), 1));
    Ok(())
}

const GONE: [(u64, Step); 7] = [
    (1_000, Ask(1, CB)),
    (1_000, Confirm(1)),
    (1_040, Fetch(1)),
    (1_040, Fetch(2)),
    (1_040, Fetch(3)),
    (1_041, Push(1, How::Done)),
    (1_042, Push(2, How::Gone)),
];

// What the answer 410 to version 2 makes.
fn answered_gone(alloc: Global) -> Result<Option<How>, Fail> {
    let core = played(alloc, &GONE[..6])?;
    Ok(ended_push(alloc, &core, 1_042, 2, 410)?)
}

// How many pairs were answered, how many are gone, the leases, and the push that is due.
fn gone(alloc: Global) -> Result<([u64; 3], Option<(u64, u64)>), Fail> {
    let core = played(alloc, &GONE)?;
    let counts = core.counts(1_042);
    let numbers = [counts.answered, counts.gone, counts.leases];
    Ok((numbers, push_due(alloc, &core, 1_042)))
}

#[test]
fn gone_ends_lease_and_owed(rt: HostRuntime) -> Result<(), Fail> {
    assert_eq!(rt; answered_gone(rt.alloc())?, Some(How::Gone));
    assert_eq!(rt; gone(rt.alloc())?, ([1, 2, 0], None));
    Ok(())
}

const UNFETCHED: [(u64, Step); 5] = [
    (1_000, Ping),
    (1_001, Unfetched),
    (1_002, Unfetched),
    (1_003, Unfetched),
    (1_005, Ping),
];

fn fetches(alloc: Global, steps: &[(u64, Step)]) -> Result<u64, Fail> {
    Ok(played(alloc, steps)?.counts(1_005).fetches)
}

#[test]
fn three_missed_fetches_then_new_ping(rt: HostRuntime) -> Result<(), Fail> {
    let alloc = rt.alloc();
    let two = fetches(alloc, &UNFETCHED[..3])?;
    let three = fetches(alloc, &UNFETCHED[..4])?;
    let again = fetches(alloc, &UNFETCHED)?;
    assert_eq!(rt; [two, three, again], [1, 0, 1]);
    Ok(())
}

// A version is owed to two leases, and the first is revoked while its push is in flight.
const REVOKED: [(u64, Step); 6] = [
    (1_000, Ask(1, CB)),
    (1_000, Confirm(1)),
    (1_000, Ask(2, "http://sub.example/cc")),
    (1_000, Confirm(2)),
    (2_000, Fetch(1)),
    (2_000, Revoke(1)),
];

#[test]
fn answer_after_revoke_stale(rt: HostRuntime) -> Result<(), Fail> {
    let alloc = rt.alloc();
    let core = played(alloc, &REVOKED)?;
    assert_eq!(rt; stale(alloc, &core, 2_001)?, ended(Cause::Revoked));
    let counts = core.counts(2_001);
    assert_eq!(rt; [counts.owed, counts.revoked], [1, 1]);
    Ok(())
}
