ghost use Rattle.std.specs.Prelude.{◌≡◌, IfOk};

use crate::{Due, Intents, Settle};
use std::alloc::Global;
use std::test::Fail;
use ws_model::{Alg, Bytes, Held, Intent, Mode, NoMemory, Work};

// A subscription to one topic, with the callback's last letter.
fn intent(alloc: Global, n: u64, callback: &[u8]) -> Result<Intent, NoMemory>
    ensures { IfOk result (λ i. i.n ≡ n) }
{
    Ok(Intent {
        n,
        mode: Mode::On,
        topic: Bytes::copy(alloc, b"http://pub.example/x")?,
        echo: Bytes::copy(alloc, b"http://pub.example/x")?,
        callback: Bytes::copy(alloc, callback)?,
        secret: Bytes::from_vec(Vec::new(alloc)),
        granted: 864_000,
        alg: Alg::Sha256,
    })
}

fn held(alloc: Global, work: Work) -> Result<Held, NoMemory> {
    let mut held = Held::empty(alloc);
    held.push(work)?;
    Ok(held)
}

// Two asks of one topic and callback: three verifications of the first have no reply, and only then
// may the second be verified.
#[test]
fn three_unheard_then_next_intent(rt: HostRuntime) -> Result<(), Fail> {
    let alloc = rt.alloc();
    let none = Held::empty(alloc);
    let mut intents = Intents::empty(alloc);
    intents.asked(intent(alloc, 1, b"http://sub.example/cb")?)?;
    intents.asked(intent(alloc, 2, b"http://sub.example/cb")?)?;
    for (due, left) in [
        (Due::Verify(1), false),
        (Due::Verify(1), false),
        (Due::Verify(1), true),
    ] {
        assert!(rt; intents.next_due(&none) == Some(due));
        assert!(rt; intents.settle(1, Settle::Unheard).is_some() == left);
    }
    assert!(rt; intents.next_due(&none) == Some(Due::Verify(2)));
    assert!(rt; intents.is_first(2) && !intents.is_first(1));
    assert!(rt; intents.pending() == 1 && intents.subscriptions() == 1 && intents.notices() == 0);
    Ok(())
}

// The first intent of another callback is due while the first one's ticket is out; when that is
// confirmed, the later one of its callback comes before.
#[test]
fn held_verification_is_passed_over(rt: HostRuntime) -> Result<(), Fail> {
    let alloc = rt.alloc();
    let mut intents = Intents::empty(alloc);
    intents.asked(intent(alloc, 1, b"http://sub.example/cb")?)?;
    intents.asked(intent(alloc, 2, b"http://sub.example/cb")?)?;
    intents.asked(intent(alloc, 3, b"http://sub.example/cc")?)?;
    let out = held(alloc, Work::Verify { n: 1 })?;
    assert!(rt; intents.next_due(&out) == Some(Due::Verify(3)));
    assert!(rt; intents.settle(1, Settle::Confirmed).is_some());
    assert!(rt; intents.next_due(&out) == Some(Due::Verify(2)));
    assert!(rt; intents.settle(3, Settle::Declined).is_some());
    assert!(rt; intents.settle(3, Settle::Declined).is_none());
    Ok(())
}

// A barred intent and a revoked lease owe a notice each; one that is heard settles it, and three
// without a reply give it up.
#[test]
fn barred_and_revoked_notices(rt: HostRuntime) -> Result<(), Fail> {
    let alloc = rt.alloc();
    let none = Held::empty(alloc);
    let mut intents = Intents::empty(alloc);
    intents.asked(intent(alloc, 1, b"http://sub.example/cb")?)?;
    intents.asked(intent(alloc, 2, b"http://sub.example/cb")?)?;
    assert!(rt; intents.settle(1, Settle::Confirmed).is_some());
    intents.barred(2, Bytes::copy(alloc, b"topic not allowed")?)?;
    intents.revoked(
        intent(alloc, 1, b"http://sub.example/cb")?,
        Bytes::copy(alloc, b"subscription revoked")?,
    )?;
    assert!(rt; intents.pending() == 0 && intents.notices() == 2);
    assert!(rt; intents.waiting(2).is_none());
    let reason = match intents.notice(2) {
        Some(denial) => denial.reason.as_slice() == b"topic not allowed".as_slice(),
        None => false,
    };
    assert!(rt; reason);
    let out = held(alloc, Work::Notice { n: 1 })?;
    assert!(rt; intents.next_due(&none) == Some(Due::Notice(1)));
    assert!(rt; intents.next_due(&out) == Some(Due::Notice(2)));
    assert!(rt; intents.settle(1, Settle::Noticed(true)).is_some());
    for left in [false, false, true] {
        assert!(rt; intents.next_due(&none) == Some(Due::Notice(2)));
        assert!(rt; intents.settle(2, Settle::Noticed(false)).is_some() == left);
    }
    assert!(rt; intents.next_due(&none).is_none() && intents.notices() == 0);
    Ok(())
}
