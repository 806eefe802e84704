// What compactions keep of histories that were worked out by hand.

use crate::applied::{TIME_LIMIT, after};
use crate::examples::{MISSED, RENEWED, Step, played, push_due, stale, what};
use Step::{Ask, AskFor, Confirm, Fetch, FetchUpto, Ping, Push, PushTo, Revoke};
use check_histories::{CB, CC};
use std::alloc::Global;
use std::test::Fail;
use ws_core::Core;
use ws_model::{Cause, Event, Fate, How, NoMemory, Tally, What};

/// A Tally where no pair is forgotten.
const NONE_FORGOTTEN: Tally = Tally {
    now: 0,
    serial: 0,
    intent: 0,
    version: 0,
    answered: 0,
    expired: 0,
    unsubscribed: 0,
    replaced: 0,
    gone: 0,
    spent: 0,
    revoked: 0,
};

// A Tally, and then these events, each with its serial and its time.
fn listed(alloc: Global, tally: Tally, steps: &[(u64, u64, Step)]) -> Result<Vec<Event>, NoMemory> {
    let mut events = Vec::new(alloc);
    events.push(Event {
        serial: 0,
        t: 0,
        what: What::Tally(tally),
    })?;
    for (serial, t, step) in steps {
        events.push(Event {
            serial: *serial,
            t: *t,
            what: what(alloc, *step, *t)?,
        })?;
    }
    Ok(events)
}

/// A history that is compacted at the moment of the Tally that is kept, with the other events that are kept.
struct Case {
    steps: &'static [(u64, Step)],
    tally: Tally,
    kept: &'static [(u64, u64, Step)],
}

fn kept(core: &Core, t: u64) -> Result<Vec<Event>, Fail> {
    if t >= TIME_LIMIT {
        return Err("the time is over the limit")?;
    }
    Ok(core.keep(t)?)
}

fn keeps(alloc: Global, case: &Case) -> Result<bool, Fail> {
    let core = played(alloc, case.steps)?;
    let wanted = listed(alloc, case.tally, case.kept)?;
    Ok(kept(&core, case.tally.now)?.as_slice() == wanted.as_slice())
}

fn kept_events(alloc: Global, case: &Case) -> Result<Vec<Event>, Fail> {
    let core = played(alloc, case.steps)?;
    kept(&core, case.tally.now)
}

// The core that goes on from what is kept.
fn compacted(alloc: Global, case: &Case) -> Result<Core, Fail> {
    let events = kept_events(alloc, case)?;
    Ok(after(alloc, &events)?.ok_or("an event that was kept is refused")?)
}

// How many pairs are answered, owed, and ended by a revocation, the notices, the leases and the topics.
fn sums(core: &Core, t: u64) -> Result<[u64; 6], Fail> {
    if t >= TIME_LIMIT {
        return Err("the time is over the limit")?;
    }
    let counts = core.counts(t);
    Ok([
        counts.answered,
        counts.owed,
        counts.revoked,
        counts.notices,
        counts.leases,
        counts.topics,
    ])
}

fn sums_before(alloc: Global, case: &Case) -> Result<[u64; 6], Fail> {
    let core = played(alloc, case.steps)?;
    sums(&core, case.tally.now)
}

fn sums_after(alloc: Global, case: &Case) -> Result<[u64; 6], Fail> {
    let core = compacted(alloc, case)?;
    sums(&core, case.tally.now)
}

// Why a push of version 1 to lease 1 is stale after the compaction, what became of the pair of version 1 and
// another lease, and the push that is due.
type After = (Option<Fate>, Option<Fate>, Option<(u64, u64)>);

fn pairs_after(alloc: Global, case: &Case, lease: u64) -> Result<After, Fail> {
    let core = compacted(alloc, case)?;
    let t = case.tally.now;
    Ok((
        stale(alloc, &core, t)?,
        core.fate(1, lease, t),
        push_due(alloc, &core, t),
    ))
}

fn owed(next: u64) -> Option<Fate> {
    Some(Fate::Owed { tries: 0, next })
}

// `compaction-keeps-counts`: lease 2 expires at 1060, and its pair is kept as a number alone.
const COUNTS: Case = Case {
    steps: &[
        (1_000, Ask(1, CB)),
        (1_000, Confirm(1)),
        (1_000, AskFor(2, CC, 60)),
        (1_000, Confirm(2)),
        (1_010, Fetch(1)),
        (1_011, Push(1, How::Done)),
        (1_012, PushTo(1, 2, How::Done)),
    ],
    tally: Tally {
        now: 1_060,
        serial: 7,
        intent: 2,
        version: 1,
        answered: 1,
        ..NONE_FORGOTTEN
    },
    kept: &[
        (1, 1_000, Ask(1, CB)),
        (2, 1_000, Confirm(1)),
        (5, 1_010, Fetch(1)),
        (6, 1_011, Push(1, How::Done)),
    ],
};

// `compact-keeps-revocation`: a version is owed to two leases, and the first is revoked while its push is in
// flight. That lease is kept as long as its notice is owed.
const REVOCATION: Case = Case {
    steps: &[
        (1_000, Ask(1, CB)),
        (1_000, Ask(2, CC)),
        (1_000, Confirm(1)),
        (1_000, Confirm(2)),
        (2_000, Ping),
        (2_000, FetchUpto(1, 5)),
        (2_000, Revoke(1)),
    ],
    tally: Tally {
        now: 2_001,
        serial: 7,
        intent: 2,
        version: 1,
        ..NONE_FORGOTTEN
    },
    kept: &[
        (1, 1_000, Ask(1, CB)),
        (2, 1_000, Ask(2, CC)),
        (3, 1_000, Confirm(1)),
        (4, 1_000, Confirm(2)),
        (6, 2_000, FetchUpto(1, 5)),
        (7, 2_000, Revoke(1)),
    ],
};

// `renewal-carries-owed-push`, compacted: a replaced lease is kept with its tries, since what it was owed
// went over.
const RENEWAL: Case = Case {
    steps: &RENEWED,
    tally: Tally {
        now: 2_042,
        serial: 7,
        intent: 2,
        version: 1,
        ..NONE_FORGOTTEN
    },
    kept: &[
        (1, 1_000, Ask(1, CB)),
        (2, 1_000, Confirm(1)),
        (3, 2_000, Fetch(1)),
        (4, 2_000, Push(1, MISSED)),
        (5, 2_010, Push(1, MISSED)),
        (6, 2_041, Ask(2, CB)),
        (7, 2_042, Confirm(2)),
    ],
};

// `stale-after-compaction`: the lease expires at 1060 while its push is in flight. Of the pair only a number
// is kept.
const EXPIRY: Case = Case {
    steps: &[
        (1_000, AskFor(1, CB, 60)),
        (1_000, Confirm(1)),
        (1_010, Fetch(1)),
    ],
    tally: Tally {
        now: 1_060,
        serial: 3,
        intent: 1,
        version: 1,
        expired: 1,
        ..NONE_FORGOTTEN
    },
    kept: &[(3, 1_010, Fetch(1))],
};

const CASES: [Case; 4] = [COUNTS, REVOCATION, RENEWAL, EXPIRY];

// The first of the cases of which something else is kept.
fn first_wrong(alloc: Global) -> Result<Option<usize>, Fail> {
    for (at, case) in CASES.iter().enumerate() {
        if !keeps(alloc, case)? {
            return Ok(Some(at));
        }
    }
    Ok(None)
}

#[test]
fn compactions_keep_what_is_listed(rt: HostRuntime) -> Result<(), Fail> {
    assert_eq!(rt; first_wrong(rt.alloc())?, None);
    Ok(())
}

#[test]
fn compaction_keeps_counts(rt: HostRuntime) -> Result<(), Fail> {
    let before = sums_before(rt.alloc(), &COUNTS)?;
    let after = sums_after(rt.alloc(), &COUNTS)?;
    assert_eq!(rt; [before, after], [[2, 0, 0, 0, 1, 1]; 2]);
    Ok(())
}

#[test]
fn compact_keeps_revocation(rt: HostRuntime) -> Result<(), Fail> {
    assert_eq!(rt; sums_after(rt.alloc(), &REVOCATION)?, [0, 1, 1, 1, 1, 1]);
    let pairs = pairs_after(rt.alloc(), &REVOCATION, 2)?;
    // The notice is due before the push.
    assert_eq!(rt;
        pairs,
        (Some(Fate::Ended(Cause::Revoked)), owed(2_000), None)
    );
    Ok(())
}

#[test]
fn compaction_keeps_replaced_lease(rt: HostRuntime) -> Result<(), Fail> {
    let pairs = pairs_after(rt.alloc(), &RENEWAL, 2)?;
    let wanted = (
        Some(Fate::Ended(Cause::Replaced)),
        owed(2_042),
        Some((1, 2)),
    );
    assert_eq!(rt; pairs, wanted);
    Ok(())
}

#[test]
fn stale_after_compaction(rt: HostRuntime) -> Result<(), Fail> {
    let pairs = pairs_after(rt.alloc(), &EXPIRY, 1)?;
    assert_eq!(rt; pairs, (Some(Fate::Ended(Cause::Expired)), None, None));
    Ok(())
}
