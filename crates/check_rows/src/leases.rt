// Histories of leases, worked out by hand.
ghost use Rattle.std.specs.Prelude.{◌≡◌, ◌<◌, ◌≤◌, ◌+◌, ◌^◌, ℕ, None, OnOk};
ghost use Rattle.ws_lease.specs.Table.{lease_at};

use std::alloc::Global;
use std::test::Fail;
use ws_lease::{Cause, Lease, Leases};
use ws_model::{Alg, Bytes, Intent, Mode};

// Confirms a lease with a number above all held ones.
fn put(
    alloc: Global,
    leases: &mut Leases,
    n: u64,
    pair: (&str, &str),
    sent: u64,
    granted: u32,
    t: u64,
) -> Result<Option<u64>, Fail>
    requires in_time { t < 2 ^ 48 }
    requires sent { sent ≤ t }
    requires new { (q : ℕ) → n ≤ q → lease_at q leases.old ≡ None }
    ensures rest { OnOk result ((q : ℕ) → n + 1 ≤ q → lease_at q leases.new ≡ None) }
{
    let (topic, callback) = pair;
    let lease = Lease {
        intent: Intent {
            n,
            mode: Mode::On,
            topic: Bytes::copy(alloc, topic.as_bytes())?,
            echo: Bytes::copy(alloc, topic.as_bytes())?,
            callback: Bytes::copy(alloc, callback.as_bytes())?,
            secret: Bytes::copy(alloc, b"")?,
            granted,
            alg: Alg::Sha256,
        },
        sent,
    };
    Ok(leases.confirm(lease, t)?)
}

fn end_live(leases: &mut Leases, n: u64, cause: Cause, t: u64) -> bool
    requires { t < 2 ^ 48 }
{
    match cause {
        Cause::Unsubscribed | Cause::Gone | Cause::Revoked if leases.live(n, t) => {
            leases.end(n, cause, t);
            true
        }
        _ => false,
    }
}

// Lease 1 was verified by a ticket drawn at 1000 and lasts 60 seconds; lease 2 renews it at 1042;
// lease 3 comes to the pair after lease 2 has expired.
#[test]
fn lease_measured_from_ticket_and_renewed(rt: HostRuntime) -> Result<(), Fail> {
    let alloc = rt.alloc();
    let mut leases = Leases::empty(alloc);
    assert_eq!(rt;
        put(alloc, &mut leases, 1, ("t", "c"), 1_000, 60, 1_029)?,
        None
    );
    for (t, live, found, count) in [(1_059, true, Some(1), 1), (1_060, false, None, 0)] {
        assert_eq!(rt; leases.live(1, t), live, "at {t}");
        assert_eq!(rt; leases.find(b"t", b"c", t), found, "at {t}");
        assert_eq!(rt; leases.count(t), count, "at {t}");
    }
    let renewed = put(alloc, &mut leases, 2, ("t", "c"), 1_040, 100, 1_042)?;
    assert_eq!(rt; renewed, Some(1), "the renewed lease");
    assert!(rt; !leases.live(1, 1_042));
    assert_eq!(rt; leases.find(b"t", b"c", 1_139), Some(2));
    let after = put(alloc, &mut leases, 3, ("t", "c"), 1_140, 60, 1_141)?;
    assert_eq!(rt; after, None, "lease 2 has expired");
    assert_eq!(rt; leases.get(3, 1_199).map(|lease| lease.sent), Some(1_140));
    assert_eq!(rt; leases.take_expired(1_199).map(|lease| lease.sent), None);
    assert_eq!(rt;
        leases.take_expired(1_200).map(|lease| lease.sent),
        Some(1_140)
    );
    assert_eq!(rt;
        leases
            .take_expired(u64::from(u32::MAX))
            .map(|lease| lease.sent),
        None
    );
    Ok(())
}

// Leases 1, 2 and 4 are of one topic, 3 and 4 of one callback.
#[test]
fn unsubscribed_gone_and_revoked(rt: HostRuntime) -> Result<(), Fail> {
    let alloc = rt.alloc();
    let mut leases = Leases::empty(alloc);
    put(alloc, &mut leases, 1, ("t", "c"), 10, 60, 11)?;
    put(alloc, &mut leases, 2, ("t", "d"), 10, 80, 11)?;
    put(alloc, &mut leases, 3, ("u", "e"), 10, 90, 11)?;
    put(alloc, &mut leases, 4, ("t", "e"), 10, 100, 11)?;
    let numbers: Vec<u64> = leases.live_of_topic(b"t", 12).collect(alloc)?;
    assert_eq!(rt; numbers.as_slice(), [1, 2, 4].as_slice());
    let numbers: Vec<u64> = leases.live_of_topic(b"t", 75).collect(alloc)?;
    assert_eq!(rt;
        numbers.as_slice(),
        [2, 4].as_slice(),
        "lease 1 ended at 70"
    );
    assert_eq!(rt; leases.count(75), 3);
    for (n, cause, t, ends) in [
        (2, Cause::Unsubscribed, 76, true),
        (2, Cause::Gone, 76, false),
        (3, Cause::Revoked, 77, true),
        (4, Cause::Gone, 78, true),
    ] {
        assert_eq!(rt; end_live(&mut leases, n, cause, t), ends, "{n} at {t}");
        assert!(rt; !leases.live(n, t), "{n} at {t}");
    }
    assert_eq!(rt; leases.find(b"u", b"e", 78), None);
    assert_eq!(rt; leases.live_of_topic(b"t", 78).next(), None);
    assert_eq!(rt;
        leases.live_of_topic(b"v", 78).next(),
        None,
        "no such topic"
    );
    assert_eq!(rt;
        leases.take_expired(78).map(|lease| lease.intent.n),
        Some(1)
    );
    assert_eq!(rt; leases.take_expired(78).map(|lease| lease.intent.n), None);
    Ok(())
}
