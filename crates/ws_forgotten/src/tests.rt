// What compactions of a few pairs put first, worked out by hand.
use crate::account::{has_stopped, less};
use crate::tally;
use std::alloc::Global;
use std::test::Fail;
use ws_core_tables::Tables;
use ws_fate::{Fates, Standing, Totals};
use ws_kept::Kept;
use ws_model::{Account, Cause, Event, NoMemory, Tally, What};
use ws_sweep::Sweep;
use ws_tries::Tries;

const EARLIER: Tally = Tally {
    now: 1000,
    serial: 9,
    intent: 4,
    version: 3,
    answered: u64::MAX,
    expired: 1,
    unsubscribed: 2,
    replaced: 3,
    gone: 4,
    spent: 5,
    revoked: 6,
};

/// An account of which no number has stopped.
const ACCOUNT: Account = Account {
    pending: 0,
    notices: 0,
    leases: 0,
    topics: 0,
    fetches: 0,
    owed: 0,
    answered: 12,
    expired: 13,
    unsubscribed: 14,
    replaced: 15,
    gone: 16,
    spent: 17,
    revoked: 18,
};

/// What is left of it where no pair is kept.
const TOLD: Tally = Tally {
    now: 2000,
    serial: 9,
    intent: 4,
    version: 3,
    answered: 12,
    expired: 13,
    unsubscribed: 14,
    replaced: 15,
    gone: 16,
    spent: 17,
    revoked: 18,
};

/// What is counted where an account has stopped and the log doesn't begin with a Tally.
const NEW: Tally = Tally {
    now: 2000,
    serial: 9,
    intent: 4,
    version: 3,
    answered: 1,
    expired: 1,
    unsubscribed: 0,
    replaced: 0,
    gone: 1,
    spent: 1,
    revoked: 0,
};

/// Where it begins with the earlier one.
const BOTH: Tally = Tally {
    now: 2000,
    serial: 9,
    intent: 4,
    version: 3,
    answered: u64::MAX,
    expired: 2,
    unsubscribed: 2,
    replaced: 3,
    gone: 5,
    spent: 6,
    revoked: 6,
};

fn begun(alloc: Global) -> Result<Tables, NoMemory> {
    let first = Event {
        serial: 0,
        t: 0,
        what: What::Tally(EARLIER),
    };
    let mut tables = Tables::empty(alloc);
    tables.apply(&first)?;
    Ok(tables)
}

fn four_pairs(alloc: Global) -> Result<Fates, NoMemory> {
    let mut fates = Fates::empty(alloc);
    fates.born(4, 5)?;
    fates.end(4, 5, Standing::Answered);
    fates.born(4, 6)?;
    fates.born(5, 5)?;
    fates.end(5, 5, Standing::Ended(Cause::Gone));
    fates.born(5, 6)?;
    fates.end(5, 6, Standing::Ended(Cause::Spent));
    Ok(fates)
}

/// The last of two events of a log, from this one on: a Tally that was looked at, and a late one.
fn log(alloc: Global, from: u64) -> Result<Sweep<Event>, NoMemory> {
    let mut log = Sweep::empty(alloc);
    if from == 0 {
        log.push(Event {
            serial: 0,
            t: 0,
            what: What::Tally(EARLIER),
        })?;
        log.keep_next();
    }
    if from <= 1 {
        log.push(Event {
            serial: 10,
            t: 1000,
            what: What::Unheard { n: 4 },
        })?;
    }
    Ok(log)
}

#[test]
fn a_few_pairs(rt: HostRuntime) -> Result<(), Fail> {
    let tables = begun(rt.alloc())?;
    let fates = four_pairs(rt.alloc())?;
    let mut tries = Tries::empty(rt.alloc());
    tries.make_room(4, 6)?;
    let kept = Kept::nothing(rt.alloc());
    let stopped = Account {
        answered: u64::MAX,
        ..ACCOUNT
    };
    for (account, from, wanted) in [
        (ACCOUNT, 0, TOLD),
        (ACCOUNT, 2, TOLD),
        (stopped, 0, BOTH),
        (stopped, 1, NEW),
        (stopped, 2, NEW),
    ] {
        let log = log(rt.alloc(), from)?;
        let told = tally(&tables, &fates, &tries, &kept, &account, &log, 2000);
        assert!(rt; told.serial == 0 && told.t == 0 && told.what == What::Tally(wanted));
    }
    Ok(())
}

#[test]
fn what_is_left(rt: HostRuntime) -> Result<(), Fail> {
    let all = Totals {
        answered: 9,
        expired: u64::MAX - 1,
        ..Totals::none()
    };
    let kept = Totals {
        answered: 4,
        expired: 1,
        ..Totals::none()
    };
    let left = less(all, kept);
    assert!(rt; left.answered == 5 && left.expired == u64::MAX - 2 && left.gone == 0);
    assert!(rt; !has_stopped(Totals::none()) && !has_stopped(all));
    let stopped = Totals {
        revoked: u64::MAX,
        ..all
    };
    assert!(rt; has_stopped(stopped));
    Ok(())
}
