// What is kept of a few leases, worked out by hand, and of nothing.
use crate::leases::with_replaced;
use crate::{Kept, Renewal};
use std::alloc::Global;
use std::collections::BTreeSet;
use std::test::Fail;
use ws_core_tables::Tables;
use ws_fate::{Fates, Standing};
use ws_model::{Alg, Bytes, Cause, Intent, Mode, NoMemory};
use ws_sweep::Sweep;
use ws_tries::Tries;

/// Lease 2 replaced lease 1, lease 5 then lease 4, and lease 3 then lease 2.
const RENEWALS: [(u64, u64); 3] = [(2, 1), (5, 4), (3, 2)];

/// The first leases, the kept versions, and the leases that are kept by them, all rising.
struct Case {
    first: &'static [u64],
    versions: &'static [u64],
    kept: &'static [u64],
}

const CASES: [Case; 7] = [
    // Version 7 went over from lease 1 to lease 2, and from there to lease 3.
    Case {
        first: &[3],
        versions: &[7],
        kept: &[1, 2, 3],
    },
    Case {
        first: &[2],
        versions: &[7],
        kept: &[1, 2],
    },
    Case {
        first: &[1],
        versions: &[7],
        kept: &[1],
    },
    // It isn't kept.
    Case {
        first: &[3],
        versions: &[8],
        kept: &[3],
    },
    // Version 8 went over from lease 4 to lease 5, and version 9 had ended before.
    Case {
        first: &[5],
        versions: &[8],
        kept: &[4, 5],
    },
    Case {
        first: &[5],
        versions: &[9],
        kept: &[5],
    },
    Case {
        first: &[3, 5],
        versions: &[7, 8],
        kept: &[1, 2, 3, 4, 5],
    },
];

/// Version and lease of a pair, and why it ended.
const PAIRS: [(u64, u64, Cause); 4] = [
    (7, 1, Cause::Replaced),
    (7, 2, Cause::Replaced),
    (8, 4, Cause::Replaced),
    (9, 4, Cause::Spent),
];

/// Adds a pair that ended, where there is none yet.
fn add(fates: &mut Fates, ver: u64, lease: u64, cause: Cause) -> Result<(), NoMemory> {
    if fates.get(ver, lease).is_none() {
        fates.born(ver, lease)?;
        fates.end(ver, lease, Standing::Ended(cause));
    }
    Ok(())
}

fn pairs(alloc: Global) -> Result<Fates, NoMemory> {
    let mut fates = Fates::empty(alloc);
    for (ver, lease, cause) in PAIRS {
        add(&mut fates, ver, lease, cause)?;
    }
    Ok(fates)
}

/// A room for each of the pairs.
fn rooms(alloc: Global) -> Result<Tries, NoMemory> {
    let mut tries = Tries::empty(alloc);
    for (ver, lease, _) in PAIRS {
        if tries.of(ver, lease).is_none() {
            tries.make_room(ver, lease)?;
        }
    }
    Ok(tries)
}

/// A lease that replaced another one, of whose texts nothing is asked here.
fn renewal(alloc: Global, lease: u64, old: u64) -> Renewal {
    Renewal {
        lease,
        replaced: Intent {
            n: old,
            mode: Mode::On,
            topic: Bytes::from_vec(Vec::new(alloc)),
            echo: Bytes::from_vec(Vec::new(alloc)),
            callback: Bytes::from_vec(Vec::new(alloc)),
            secret: Bytes::from_vec(Vec::new(alloc)),
            granted: 3_600,
            alg: Alg::Sha256,
        },
    }
}

/// The renewals, of which the first is looked at already.
fn renewals(alloc: Global) -> Result<Sweep<Renewal>, NoMemory> {
    let mut renewals = Sweep::empty(alloc);
    for (lease, old) in RENEWALS {
        renewals.push(renewal(alloc, lease, old))?;
    }
    if renewals.next().is_some() {
        renewals.keep_next();
    }
    Ok(renewals)
}

fn set(alloc: Global, numbers: &[u64]) -> Result<BTreeSet<u64>, NoMemory> {
    let mut set = BTreeSet::new(alloc);
    for number in numbers {
        set.insert(*number)?;
    }
    Ok(set)
}

fn holds(alloc: Global, fates: &Fates, tries: &Tries, case: &Case) -> Result<bool, NoMemory> {
    let versions = set(alloc, case.versions)?;
    let first = set(alloc, case.first)?;
    let leases = with_replaced(fates, tries, &renewals(alloc)?, &versions, first)?;
    Ok(leases == set(alloc, case.kept)?)
}

#[test]
fn replaced_leases(rt: HostRuntime) -> Result<(), Fail> {
    let alloc = rt.alloc();
    let (fates, tries) = (pairs(alloc)?, rooms(alloc)?);
    for case in &CASES {
        assert_eq!(rt;
            (
                case.first,
                case.versions,
                holds(alloc, &fates, &tries, case)?
            ),
            (case.first, case.versions, true)
        );
    }
    Ok(())
}

#[test]
fn nothing_is_kept(rt: HostRuntime) -> Result<(), Fail> {
    let alloc = rt.alloc();
    let tables = Tables::empty(alloc);
    for kept in [
        Kept::nothing(alloc),
        Kept::of(
            alloc,
            &tables,
            &pairs(alloc)?,
            &rooms(alloc)?,
            &Sweep::empty(alloc),
            &renewals(alloc)?,
            1000,
        )?,
    ] {
        assert_eq!(rt;
            (kept.has_version(7), kept.has_lease(3), kept.has_pair(7, 3)),
            (false, false, false)
        );
    }
    Ok(())
}
