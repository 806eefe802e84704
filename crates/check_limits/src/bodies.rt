// A core that is full of bodies that are kept.
ghost use Rattle.std.specs.Prelude.{OnOk};
ghost use Rattle.ws_core.specs.Follows.{HasHistory};

use crate::happening::{NOW, happen, url};
use check_histories::bytes;
use std::alloc::Global;
use std::test::Fail;
use ws_core::Core;
use ws_model::{Bytes, NoMemory, Outcome, Reply, Settled, Version, What, Work};

/// How many of the longest bodies may be kept: 268,435,456 bytes.
const BODIES: u64 = 64;

/// The greatest length of a body, in bytes.
const LONGEST: usize = 4_194_304;

fn ping(alloc: Global, n: u64) -> Result<What, NoMemory> {
    let topic = url(alloc, n)?;
    Ok(What::Pinged { topic })
}

// A body of so many bytes.
fn body(alloc: Global, len: usize) -> Result<Bytes, NoMemory> {
    Ok(Bytes::from_vec(vec![in alloc; b'x'; len]?))
}

// The version of the topic of a number, with the longest body.
fn version(alloc: Global, n: u64, upto: u64) -> Result<What, NoMemory> {
    Ok(What::Fetched(Version {
        ver: n,
        topic: url(alloc, n)?,
        upto,
        media: bytes(alloc, "text/plain")?,
        own_link: url(alloc, n)?,
        body: body(alloc, LONGEST)?,
    }))
}

// So many topics, whose numbers count from 1, each with one version.
fn fill(alloc: Global, core: &mut Core, number: u64) -> Result<(), NoMemory>
    requires { HasHistory core.old }
    ensures { OnOk result (HasHistory core.new) }
{
    for n in 1..=number {
        let _ = happen(core, ping(alloc, n)?)?;
        let upto = core.serial();
        let _ = happen(core, version(alloc, n, upto)?)?;
    }
    Ok(())
}

fn outcome(alloc: Global, len: usize) -> Result<Outcome, NoMemory> {
    Ok(Outcome::Reply(Reply {
        code: 200,
        media: bytes(alloc, "text/plain")?,
        coding: bytes(alloc, "")?,
        links: bytes(alloc, "")?,
        body: body(alloc, len)?,
    }))
}

// Why a fetch of the topic of a number with a body of so many bytes gives no version, or 0 where it gives one.
fn fetched(alloc: Global, core: &Core, n: u64, len: usize) -> Result<u16, NoMemory> {
    let topic = url(alloc, n)?;
    let upto = core.serial();
    let fetch = Work::Fetch { topic, upto };
    let outcome = outcome(alloc, len)?;
    let made = core.settle(NOW, &fetch, NOW, &[b'0'; 40], &outcome)?;
    Ok(reason(&made))
}

fn reason(made: &Settled) -> u16 {
    match made {
        Settled::Event(What::Unfetched { why, .. }) => *why,
        Settled::Event(What::Fetched(_)) => 0,
        _ => u16::MAX,
    }
}

// The same of a core that keeps so many bodies, and whose topic of this number is pinged once more.
fn filled(alloc: Global, number: u64, n: u64, len: usize) -> Result<u16, NoMemory> {
    let mut core = Core::empty(alloc);
    fill(alloc, &mut core, number)?;
    let _ = happen(&mut core, ping(alloc, n)?)?;
    fetched(alloc, &core, n, len)
}

// The body that a topic had before isn't kept besides its new one.
#[test]
fn kept_bodies_limit(rt: HostRuntime) -> Result<(), Fail> {
    let alloc = rt.alloc();
    let more = filled(alloc, BODIES, 65, 1)?;
    let empty = filled(alloc, BODIES, 65, 0)?;
    let again = filled(alloc, BODIES, 1, 1)?;
    let last = filled(alloc, BODIES - 1, 64, LONGEST)?;
    assert_eq!(rt; (more, empty, again, last), (5, 0, 0, 0));
    Ok(())
}
