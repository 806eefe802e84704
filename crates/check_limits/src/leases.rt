// A core that is full of leases.
ghost use Rattle.std.specs.Prelude.{OnOk};
ghost use Rattle.ws_core.specs.Follows.{HasHistory};

use crate::happening::{NOW, happen, url};
use check_histories::{CB, X, bytes};
use std::alloc::Global;
use std::test::Fail;
use ws_answer::CoreFault;
use ws_core::Core;
use ws_form::Ask;
use ws_model::{Alg, Intent, Keys, Kind, Mode, NoMemory, Policy, What};

/// The greatest number of live leases and pending subscriptions together.
const LEASES: u64 = 262_144;

/// How many events a request makes, or why none.
type Judged = Result<usize, CoreFault>;

fn asked(alloc: Global, n: u64) -> Result<What, NoMemory> {
    Ok(What::Asked(Intent {
        n,
        mode: Mode::On,
        topic: bytes(alloc, X)?,
        echo: bytes(alloc, X)?,
        callback: url(alloc, n)?,
        secret: bytes(alloc, "")?,
        granted: 864_000,
        alg: Alg::Sha256,
    }))
}

// Makes so many leases, whose numbers count from 1.
fn fill(alloc: Global, core: &mut Core, number: u64) -> Result<(), NoMemory>
    requires { HasHistory core.old }
    ensures { OnOk result (HasHistory core.new) }
{
    for n in 1..=number {
        let _ = happen(core, asked(alloc, n)?)?;
        let _ = happen(core, What::Confirmed { n, sent: NOW })?;
    }
    Ok(())
}

fn policy(alloc: Global) -> Result<Policy, NoMemory> {
    Ok(Policy {
        hub: bytes(alloc, "http://127.0.0.1:8080/")?,
        gateway: false,
        allow: Keys::empty(alloc),
        alg: Alg::Sha256,
    })
}

fn subscription(alloc: Global) -> Result<Ask, NoMemory> {
    Ok(Ask::Subscribe {
        topic: bytes(alloc, X)?,
        echo: bytes(alloc, X)?,
        callback: bytes(alloc, CB)?,
        secret: bytes(alloc, "")?,
        granted: 300,
    })
}

fn unsubscription(alloc: Global) -> Result<Ask, NoMemory> {
    Ok(Ask::Unsubscribe {
        topic: bytes(alloc, X)?,
        echo: bytes(alloc, X)?,
        callback: bytes(alloc, CB)?,
    })
}

fn judged(alloc: Global, core: &Core, ask: &Ask) -> Result<Judged, NoMemory> {
    let policy = policy(alloc)?;
    Ok(match core.judge(NOW, ask, &policy) {
        Ok(made) => Ok(made.len()),
        Err(fault) => Err(fault),
    })
}

// What the core makes of a request to subscribe by another callback, and of one to unsubscribe.
fn both_judged(alloc: Global, core: &Core) -> Result<(Judged, Judged), NoMemory> {
    let on = judged(alloc, core, &subscription(alloc)?)?;
    let off = judged(alloc, core, &unsubscription(alloc)?)?;
    Ok((on, off))
}

// The same of a core with so many leases.
fn with_leases(alloc: Global, number: u64) -> Result<(Judged, Judged), NoMemory> {
    let mut core = Core::empty(alloc);
    fill(alloc, &mut core, number)?;
    both_judged(alloc, &core)
}

// The same of a core with so many leases and a pending subscription.
fn with_pending(alloc: Global, number: u64) -> Result<(Judged, Judged), NoMemory> {
    let mut core = Core::empty(alloc);
    fill(alloc, &mut core, number)?;
    let _ = happen(&mut core, asked(alloc, number.saturating_add(1))?)?;
    both_judged(alloc, &core)
}

const FULL: CoreFault = CoreFault::Full {
    kind: Kind::Leases,
    held: LEASES,
    asked: 1,
    limit: LEASES,
};

#[test]
fn lease_limit_full(rt: HostRuntime) -> Result<(), Fail> {
    let made = with_leases(rt.alloc(), LEASES)?;
    assert_eq!(rt; made, (Err(FULL), Ok(1)));
    Ok(())
}

#[test]
fn lease_limit_with_pending(rt: HostRuntime) -> Result<(), Fail> {
    let made = with_pending(rt.alloc(), LEASES - 1)?;
    assert_eq!(rt; made, (Err(FULL), Ok(1)));
    Ok(())
}

#[test]
fn lease_limit_not_yet_full(rt: HostRuntime) -> Result<(), Fail> {
    let made = with_leases(rt.alloc(), LEASES - 1)?;
    assert_eq!(rt; made, (Ok(1), Ok(1)));
    Ok(())
}
